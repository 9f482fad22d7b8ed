//! A cell that holds a whole memory.
ghost use Rattle.std.specs.Prelude.{◌≡◌, IfOk};
ghost use Rattle.mem_rows.specs.Rows as rows;
ghost use Rattle.mem_rows.specs.Limits as limits;

use crate::groups::are_groups;
use crate::part::{bits, has, has_flag, has_memory_name, has_number, has_some, number, text};
use lib_core::{Memory, Name};
use net_core::Attr;
use std::alloc::Global;

/// The name and the sizes of a memory.
#[derive(Debug, PartialEq, Eq, Drop)]
pub struct WholeRow {
    pub name: Name,
    /// The number of words, at least 1.
    pub size: u32,
    /// The address of word 0.
    pub offset: u32,
    /// The bits of an address.
    pub abits: u32,
    /// The bits of a word, at least 1.
    pub width: u32,
    /// The port numbers that read: a port of several words has as many.
    pub reads: u32,
    /// The port numbers that write.
    pub writes: u32,
}

#[tactic(auto, unfolding(crate::specs::Rows::has_sizes))]
fn has_sizes(params: &[Attr]) -> bool
    ensures { result ≡ rows.has_sizes params.now }
{
    has_some(params, b"\\SIZE")
        && has_number(params, b"\\OFFSET")
        && has_number(params, b"\\ABITS")
        && has_some(params, b"\\WIDTH")
        && has_number(params, b"\\RD_PORTS")
        && has_number(params, b"\\WR_PORTS")
}

#[tactic(auto, unfolding(crate::specs::Rows::has_read_flags))]
fn has_read_flags(params: &[Attr]) -> bool
    ensures { result ≡ rows.has_read_flags params.now }
{
    has(params, b"\\RD_CLK_ENABLE")
        && has(params, b"\\RD_CLK_POLARITY")
        && has(params, b"\\RD_TRANSPARENCY_MASK")
        && has(params, b"\\RD_COLLISION_X_MASK")
        && has(params, b"\\RD_WIDE_CONTINUATION")
        && has(params, b"\\RD_CE_OVER_SRST")
}

#[tactic(auto, unfolding(crate::specs::Rows::has_read_values))]
fn has_read_values(params: &[Attr]) -> bool
    ensures { result ≡ rows.has_read_values params.now }
{
    has(params, b"\\RD_ARST_VALUE")
        && has(params, b"\\RD_SRST_VALUE")
        && has(params, b"\\RD_INIT_VALUE")
}

#[tactic(auto, unfolding(crate::specs::Rows::has_write_flags))]
fn has_write_flags(params: &[Attr]) -> bool
    ensures { result ≡ rows.has_write_flags params.now }
{
    has(params, b"\\WR_CLK_ENABLE")
        && has(params, b"\\WR_CLK_POLARITY")
        && has(params, b"\\WR_PRIORITY_MASK")
        && has(params, b"\\WR_WIDE_CONTINUATION")
}

#[tactic(auto, unfolding(crate::specs::Rows::has_contents))]
fn has_contents(params: &[Attr]) -> bool
    ensures { result ≡ rows.has_contents params.now }
{
    has_flag(params, b"\\INIT")
}

/// Whether every parameter is there, with a number where one is wanted.
#[tactic(auto, unfolding(crate::specs::Rows::has_all))]
fn has_all(params: &[Attr]) -> bool
    ensures { result ≡ rows.has_all params.now }
{
    has_memory_name(params)
        && has_contents(params)
        && has_sizes(params)
        && has_read_flags(params)
        && has_read_values(params)
        && has_write_flags(params)
}

/// Whether the port numbers of both sides make ports.
#[tactic(auto, unfolding(crate::specs::Rows::has_groups))]
fn has_groups(alloc: Global, params: &[Attr]) -> Result<bool, Memory>
    ensures { IfOk result (λ groups. groups ≡ rows.has_groups params.now) }
{
    let reads = bits(alloc, params, b"\\RD_WIDE_CONTINUATION")?;
    let writes = bits(alloc, params, b"\\WR_WIDE_CONTINUATION")?;
    Ok(
        are_groups(number(params, b"\\RD_PORTS"), reads.as_slice())
            && are_groups(number(params, b"\\WR_PORTS"), writes.as_slice()),
    )
}

#[tactic(auto, unfolding(crate::specs::Rows::whole_fields))]
fn whole_fields(alloc: Global, params: &[Attr]) -> Result<WholeRow, Memory>
    ensures { IfOk result (λ row. row ≡ rows.whole_fields params.now) }
{
    Ok(WholeRow {
        name: text(alloc, params, b"\\MEMID")?,
        size: number(params, b"\\SIZE"),
        offset: number(params, b"\\OFFSET"),
        abits: number(params, b"\\ABITS"),
        width: number(params, b"\\WIDTH"),
        reads: number(params, b"\\RD_PORTS"),
        writes: number(params, b"\\WR_PORTS"),
    })
}

/// The row of a cell `$mem_v2`. None where a parameter is missing, where a number is wanted and none
/// is given, where the size or the width is 0, where the contents are a string, or where
/// continuations make ports of a number of words that is no power of two up to 64.
pub fn whole_row(alloc: Global, params: &[Attr]) -> Result<Option<WholeRow>, Memory>
    ensures { IfOk result (λ row. row ≡ rows.whole_row params.now) }
{
    if has_all(params) && has_groups(alloc, params)? {
        Ok(Some(whole_fields(alloc, params)?))
    } else {
        Ok(None)
    }
}

/// One more than the first limit that a memory passes: its words and addresses up to 1,048,576, the
/// bits of a word up to 1,024, its bits up to 4,194,304.
pub fn size_limit(size: u32, offset: u32, width: u32) -> Option<u64>
    ensures { result ≡ limits.size_limit size offset width }
{
    if u64::from(offset) + u64::from(size) > 1_048_576 {
        return Some(1_048_577);
    }
    if width > 1024 {
        return Some(1025);
    }
    if u64::from(size) * u64::from(width) > 4_194_304 {
        return Some(4_194_305);
    }
    None
}

fn ports_limit(row: &WholeRow) -> Option<u64>
    ensures { result ≡ limits.ports_limit row.now }
{
    if row.abits > 32 {
        return Some(33);
    }
    if row.reads > 64 || row.writes > 64 {
        return Some(65);
    }
    None
}

/// One more than the first limit that the memory passes: those of [`size_limit`], then 32 bits of an
/// address and 64 port numbers of each side.
pub fn whole_limit(row: &WholeRow) -> Option<u64>
    ensures { result ≡ limits.whole_limit row.now }
{
    match size_limit(row.size, row.offset, row.width) {
        None => ports_limit(row),
        Some(seen) => Some(seen),
    }
}
