//! The kind of a cell by its type.
ghost use Rattle.std.specs.Prelude.{◌≡◌};
ghost use Rattle.cell_rows.specs.Kinds as table;

use crate::places::Places;
use cell_table::{comb_kind, ff_kind, is_carried};
use lib_core::Name;
use net_core::{CombKind, FfKind};

/// A cell that is a memory, or a port or an initial value of one.
#[derive(Clone, Copy, Debug, PartialEq, Eq)]
pub enum MemKind {
    /// A memory with all its ports: `$mem_v2`.
    Packed,
    /// A read port: `$memrd_v2`.
    Read,
    /// A read port without a clock: `$memrd`.
    OldRead,
    /// A write port: `$memwr_v2`.
    Write,
    /// Initial values: `$meminit_v2`.
    Init,
}

/// What a cell is by its type.
#[derive(Clone, Copy, Debug, PartialEq, Eq)]
pub enum CellKind {
    Comb(CombKind),
    Reg(FfKind),
    /// Kept as it is, whatever its parameters.
    Carried,
    Memory(MemKind),
    /// A cell of the RAM at this place of the library.
    Ram(u32),
    /// An instance of the module at this place of the file.
    Instance(u32),
    Unknown,
}

/// The type of a memory cell. It takes no memory.
pub fn mem_type(kind: MemKind) -> &'static [u8]
    ensures { result.now ≡ table.mem_type kind }
{
    match kind {
        MemKind::Packed => b"$mem_v2",
        MemKind::Read => b"$memrd_v2",
        MemKind::OldRead => b"$memrd",
        MemKind::Write => b"$memwr_v2",
        MemKind::Init => b"$meminit_v2",
    }
}

/// The kind of a cell by its type: a cell of the cell library, else one of a RAM, else an instance.
/// It takes no memory.
pub fn kind_of(name: &Name, rams: &Places, modules: &Places) -> CellKind
    ensures { result ≡ table.kind_of name.now (table.found rams.now name.now) (table.found modules.now name.now) }
{
    if let Some(kind) = comb_named(name) {
        return CellKind::Comb(kind);
    }
    if let Some(kind) = ff_named(name) {
        return CellKind::Reg(kind);
    }
    if is_carried_name(name) {
        return CellKind::Carried;
    }
    if let Some(kind) = mem_named(name) {
        return CellKind::Memory(kind);
    }
    if let Some(place) = rams.place(name) {
        return CellKind::Ram(place);
    }
    match modules.place(name) {
        Some(place) => CellKind::Instance(place),
        None => CellKind::Unknown,
    }
}

fn comb_named(name: &Name) -> Option<CombKind>
    ensures { result ≡ table.comb_named name.now }
{
    comb_kind(name)
}

fn ff_named(name: &Name) -> Option<FfKind>
    ensures { result ≡ table.ff_named name.now }
{
    ff_kind(name)
}

fn is_carried_name(name: &Name) -> bool
    ensures { result ≡ table.is_carried name.now }
{
    is_carried(name)
}

/// The kind of memory cell that has this type. It takes no memory.
#[tactic(auto, unfolding(crate::specs::Kinds::mem_named))]
pub fn mem_named(name: &Name) -> Option<MemKind>
    ensures { result ≡ table.mem_named name.now }
{
    if mem_type(MemKind::Packed) == name.as_slice() {
        return Some(MemKind::Packed);
    }
    if mem_type(MemKind::Read) == name.as_slice() {
        return Some(MemKind::Read);
    }
    if mem_type(MemKind::OldRead) == name.as_slice() {
        return Some(MemKind::OldRead);
    }
    if mem_type(MemKind::Write) == name.as_slice() {
        return Some(MemKind::Write);
    }
    if mem_type(MemKind::Init) == name.as_slice() {
        return Some(MemKind::Init);
    }
    None
}
