//! What the logic cells compute, and the names of the cell types.
#![tactic(auto)]

mod arithmetic;
mod names;
mod operand;
mod row;
mod selector;

pub use names::{comb_kind, comb_type, ff_kind, ff_type, is_carried};
pub use row::eval;
