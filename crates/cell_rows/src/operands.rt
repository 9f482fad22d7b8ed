//! Which operands a logic cell has.
ghost use Rattle.std.specs.Prelude.{◌≡◌};
ghost use Rattle.cell_rows.specs.Operands as table;

use net_core::CombKind;

/// The operands of a logic cell.
#[derive(Clone, Copy, Debug, PartialEq, Eq)]
pub enum Operands {
    /// A alone.
    One,
    /// A and B, both signed or both unsigned.
    Alike,
    /// A and B, whatever their signs.
    Free,
    /// A, and B by which it is shifted, both unsigned.
    Shift,
    /// A and B, one of which S selects.
    Mux,
    /// A and slices of B, one of which S selects.
    Pmux,
}

/// The operands of the cells of a kind. It takes no memory.
pub fn operands_of(kind: CombKind) -> Operands
    ensures { result ≡ table.operands kind }
{
    match kind {
        CombKind::Not
        | CombKind::ReduceAnd
        | CombKind::ReduceOr
        | CombKind::ReduceBool
        | CombKind::ReduceXor
        | CombKind::ReduceXnor
        | CombKind::LogicNot => Operands::One,
        CombKind::And
        | CombKind::Or
        | CombKind::Xor
        | CombKind::Xnor
        | CombKind::Eq
        | CombKind::Ne
        | CombKind::Lt
        | CombKind::Le
        | CombKind::Gt
        | CombKind::Ge
        | CombKind::Add
        | CombKind::Sub => Operands::Alike,
        CombKind::LogicAnd | CombKind::LogicOr => Operands::Free,
        CombKind::Shl | CombKind::Shr => Operands::Shift,
        CombKind::Mux => Operands::Mux,
        CombKind::Pmux => Operands::Pmux,
    }
}
