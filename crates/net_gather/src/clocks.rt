//! Write ports without a clock.
ghost use Rattle.std.specs.Prelude.{◌≡◌, IfOk, slice_get};
ghost use Rattle.net_wires.specs.Finds.{Finds};
ghost use Rattle.net_gather.specs.PortClocks as rows;

use lib_core::{Memory, Tri};
use mem_rows::{MemRow, bits};
use net_core::Attr;
use net_wires::{BuildCode, Stop, broken};
use raw_cells::CellRow;
use std::alloc::Global;

/// Whether the bit at a place is there and 1.
fn is_one(bits: &[Tri], place: u32) -> bool
    ensures { result ≡ rows.is_one_bit (slice_get bits.now place) }
{
    match bits.get(place as usize) {
        Some(bit) => *bit == Tri::One,
        None => false,
    }
}

/// Whether a port number below `ports` is the first of a port and has no clock. It takes no memory.
#[tactic(auto, using(crate::proofs::Below::below_turn, crate::proofs::Below::below_done))]
fn any_lacks_clock(continues: &[Tri], clocked: &[Tri], ports: u32) -> bool
    ensures { result ≡ rows.any_below (rows.lacks_clock continues.now clocked.now) ports }
{
    let mut left = ports;
    while left > 0 {
        left -= 1;
        if !is_one(continues, left) && !is_one(clocked, left) {
            return true;
        }
    }
    false
}

#[tactic(auto, unfolding(crate::specs::PortClocks::some_lacks_clock))]
fn some_lacks_clock(alloc: Global, params: &[Attr], ports: u32) -> Result<bool, Memory>
    ensures { IfOk result (λ lacks. lacks ≡ rows.some_lacks_clock params.now ports) }
{
    let continues = bits(alloc, params, b"\\WR_WIDE_CONTINUATION")?;
    let clocked = bits(alloc, params, b"\\WR_CLK_ENABLE")?;
    Ok(any_lacks_clock(continues.as_slice(), clocked.as_slice(), ports))
}

fn writes_at_once(alloc: Global, row: &MemRow, params: &[Attr]) -> Result<bool, Memory>
    ensures { IfOk result (λ lacks. lacks ≡ rows.writes_at_once row.now params.now) }
{
    match row {
        MemRow::Whole(whole) => some_lacks_clock(alloc, params, whole.writes),
        MemRow::Read(_) => Ok(false),
        MemRow::OldRead(_) => Ok(false),
        MemRow::Write(port) => Ok(!port.clocked),
        MemRow::Init(_) => Ok(false),
    }
}

/// Stops where a write port has no clock (`AsyncWrite`).
pub(crate) fn have_clocks(alloc: Global, row: &CellRow, params: &[Attr]) -> Result<(), Stop>
    ensures { Finds result (rows.clock_breaches row.now params.now) (λ _. Unit {0}) }
{
    match row {
        CellRow::Memory(row) => {
            if writes_at_once(alloc, row, params)? {
                return Err(broken(BuildCode::AsyncWrite));
            }
            Ok(())
        }
        CellRow::Comb(_) => Ok(()),
        CellRow::Reg(_) => Ok(()),
        CellRow::Ram(_) => Ok(()),
        CellRow::StrangeRam => Ok(()),
        CellRow::Kept => Ok(()),
    }
}
