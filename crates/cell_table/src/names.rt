//! The names of the cell types.
ghost use Rattle.std.specs.Prelude.{◌≡◌, ◌↔◌, IsTrue, Contains, Some};
ghost use Rattle.cell_table.specs.Names.{comb_type, ff_type, carried_types};

use lib_core::Name;
use net_core::{CombKind, FfKind};

/// The cell type of a logic cell.
pub fn comb_type(kind: CombKind) -> &'static [u8]
    ensures { result.now ≡ comb_type kind }
{
    match kind {
        CombKind::Not => b"$not",
        CombKind::And => b"$and",
        CombKind::Or => b"$or",
        CombKind::Xor => b"$xor",
        CombKind::Xnor => b"$xnor",
        CombKind::ReduceAnd => b"$reduce_and",
        CombKind::ReduceOr => b"$reduce_or",
        CombKind::ReduceBool => b"$reduce_bool",
        CombKind::ReduceXor => b"$reduce_xor",
        CombKind::ReduceXnor => b"$reduce_xnor",
        CombKind::LogicNot => b"$logic_not",
        CombKind::LogicAnd => b"$logic_and",
        CombKind::LogicOr => b"$logic_or",
        CombKind::Eq => b"$eq",
        CombKind::Ne => b"$ne",
        CombKind::Lt => b"$lt",
        CombKind::Le => b"$le",
        CombKind::Gt => b"$gt",
        CombKind::Ge => b"$ge",
        CombKind::Add => b"$add",
        CombKind::Sub => b"$sub",
        CombKind::Shl => b"$shl",
        CombKind::Shr => b"$shr",
        CombKind::Mux => b"$mux",
        CombKind::Pmux => b"$pmux",
    }
}

/// The cell type of a register.
pub fn ff_type(kind: FfKind) -> &'static [u8]
    ensures { result.now ≡ ff_type kind }
{
    match kind {
        FfKind::Dff => b"$dff",
        FfKind::Dffe => b"$dffe",
        FfKind::Adff => b"$adff",
        FfKind::Adffe => b"$adffe",
        FfKind::Sdff => b"$sdff",
        FfKind::Sdffe => b"$sdffe",
        FfKind::Sdffce => b"$sdffce",
    }
}

const COMB_KINDS: [CombKind; 25] = [
    CombKind::Not,
    CombKind::And,
    CombKind::Or,
    CombKind::Xor,
    CombKind::Xnor,
    CombKind::ReduceAnd,
    CombKind::ReduceOr,
    CombKind::ReduceBool,
    CombKind::ReduceXor,
    CombKind::ReduceXnor,
    CombKind::LogicNot,
    CombKind::LogicAnd,
    CombKind::LogicOr,
    CombKind::Eq,
    CombKind::Ne,
    CombKind::Lt,
    CombKind::Le,
    CombKind::Gt,
    CombKind::Ge,
    CombKind::Add,
    CombKind::Sub,
    CombKind::Shl,
    CombKind::Shr,
    CombKind::Mux,
    CombKind::Pmux,
];

/// The kind of logic cell of a cell type.
pub fn comb_kind(name: &Name) -> Option<CombKind>
    ensures { (kind : CombKind) → (result ≡ Some kind) ↔ (name.now ≡ comb_type kind) }
{
    for kind in COMB_KINDS {
        if comb_type(kind) == name.as_slice() {
            return Some(kind);
        }
    }
    None
}

const FF_KINDS: [FfKind; 7] = [
    FfKind::Dff,
    FfKind::Dffe,
    FfKind::Adff,
    FfKind::Adffe,
    FfKind::Sdff,
    FfKind::Sdffe,
    FfKind::Sdffce,
];

/// The kind of register of a cell type.
pub fn ff_kind(name: &Name) -> Option<FfKind>
    ensures { (kind : FfKind) → (result ≡ Some kind) ↔ (name.now ≡ ff_type kind) }
{
    for kind in FF_KINDS {
        if ff_type(kind) == name.as_slice() {
            return Some(kind);
        }
    }
    None
}

const CARRIED: [&[u8]; 44] = [
    b"$mul",
    b"$div",
    b"$mod",
    b"$divfloor",
    b"$modfloor",
    b"$pow",
    b"$shift",
    b"$shiftx",
    b"$sshl",
    b"$sshr",
    b"$pos",
    b"$neg",
    b"$slice",
    b"$concat",
    b"$bmux",
    b"$demux",
    b"$bwmux",
    b"$lut",
    b"$macc",
    b"$anyconst",
    b"$anyseq",
    b"$allconst",
    b"$allseq",
    b"$initstate",
    b"$alu",
    b"$fa",
    b"$lcu",
    b"$dlatch",
    b"$adlatch",
    b"$dlatchsr",
    b"$sr",
    b"$ff",
    b"$dffsr",
    b"$dffsre",
    b"$aldff",
    b"$aldffe",
    b"$assert",
    b"$assume",
    b"$cover",
    b"$live",
    b"$fair",
    b"$print",
    b"$check",
    b"$scopeinfo",
];

/// Whether cells of this type are kept as they are, whatever their parameters.
pub fn is_carried(name: &Name) -> bool
    ensures { IsTrue result ↔ Contains carried_types name.now }
{
    for carried in CARRIED {
        if carried == name.as_slice() {
            return true;
        }
    }
    false
}
