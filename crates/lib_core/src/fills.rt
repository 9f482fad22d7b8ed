//! Which values a fill can give.
ghost use Rattle.std.specs.Prelude.{◌↔◌, IsTrue};
ghost use Rattle.lib_core.specs.Fills.{Admits};

use crate::library::{Fill, Tri};
use crate::list::List;

/// Whether a RAM with the fill can start with the value or reset to it. It takes no memory.
pub fn admits(fill: Fill, value: &List<Tri>) -> bool
    ensures { IsTrue result ↔ Admits fill value.now }
{
    match fill {
        Fill::Nothing => value.as_slice().iter().all(|bit| *bit == Tri::Any),
        Fill::Zero => value.as_slice().iter().all(|bit| *bit != Tri::One),
        Fill::Any | Fill::NoUndef => true,
    }
}
