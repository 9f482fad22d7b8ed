//! The bits of a module's wires by their places: signals, connects, drivers, clocks, and the numbers of nets.
#![tactic(auto)]

mod breach;
mod clock;
mod clocking;
mod connecting;
mod constant;
mod driving;
mod following;
pub mod laws;
mod link;
mod names;
mod number;
mod piece;
mod reading;
mod settling;
mod source;

pub use breach::{Breach, BuildCode, Stop, broken};
pub use clock::{ClockRoot, Inverter};
pub use clocking::{clock_of, clocks, tied_digits};
pub use connecting::{connect, has_width, sized};
pub use driving::Drivers;
pub use following::{Followed, follow};
pub use link::{Link, links_of};
pub use names::{Names, Span, names_of};
pub use number::{Nets, bit_of, bits_of, resolve};
pub use reading::signal;
pub use settling::{loose_count, settled};
pub use source::{Pair, Source};
