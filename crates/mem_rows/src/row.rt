//! What the parameters of a memory cell say, by its type.
ghost use Rattle.std.specs.Prelude.{◌≡◌, IfOk};
ghost use Rattle.mem_rows.specs.ByType as rows;

use crate::separate::{
    InitRow, PortRow, init_row, old_read_row, read_row, takes_no_clock, write_row,
};
use crate::whole::{WholeRow, whole_row};
use cell_rows::MemKind;
use lib_core::Memory;
use net_core::Attr;
use std::alloc::Global;

/// A memory cell.
#[derive(Debug, PartialEq, Eq, Drop)]
pub enum MemRow {
    /// A memory with all its ports: `$mem_v2`.
    Whole(WholeRow),
    /// A read port: `$memrd_v2`.
    Read(PortRow),
    /// A read port without a clock: `$memrd`.
    OldRead(PortRow),
    /// A write port: `$memwr_v2`.
    Write(PortRow),
    /// Words at the start: `$meminit_v2`.
    Init(InitRow),
}

/// The row of a memory cell. None where a parameter is missing or no number where one is wanted, and
/// as the row of its type says.
pub fn mem_row(alloc: Global, kind: MemKind, params: &[Attr]) -> Result<Option<MemRow>, Memory>
    ensures { IfOk result (λ row. row ≡ rows.mem_row kind params.now) }
{
    match kind {
        MemKind::Packed => Ok(whole_row(alloc, params)?.map(MemRow::Whole)),
        MemKind::Read => Ok(read_row(alloc, params)?.map(MemRow::Read)),
        MemKind::OldRead => Ok(old_read_row(alloc, params)?.map(MemRow::OldRead)),
        MemKind::Write => Ok(write_row(alloc, params)?.map(MemRow::Write)),
        MemKind::Init => Ok(init_row(alloc, params)?.map(MemRow::Init)),
    }
}

/// Whether a memory cell of this type and with these parameters is of a known type: `$memrd` is where
/// it has no clock and no transparency.
pub fn is_known(kind: MemKind, params: &[Attr]) -> bool
    ensures { result ≡ rows.is_known kind params.now }
{
    match kind {
        MemKind::OldRead => takes_no_clock(params),
        _ => true,
    }
}
