//! The sizes of wires and memories.
ghost use Rattle.std.specs.Prelude.{◌≡◌, ◌≤◌, ◌+◌};
ghost use Rattle.net_wires.specs.Finds.{Finds};
ghost use Rattle.net_wires.specs.Spans.{wire_bits};
ghost use Rattle.net_gather.specs.Faults.{FindsFirst};
ghost use Rattle.net_gather.specs.Sizes.{item_bits, memory_breaches, size_breaches, size_faults};

use crate::fault::{Halt, halt_at};
use crate::limits::{add_within, unlimited};
use mem_rows::size_limit;
use net_wires::{BuildCode, Stop, broken};
use rtlil_text::{DocMem, Item};

/// How many nets a module may have, before its connects join them.
pub(crate) const MOST_NETS: u32 = 4_194_304;

#[tactic(auto, unfolding(crate::specs::Sizes::memory_breaches))]
fn sized_memory(memory: &DocMem) -> Result<(), Stop>
    ensures { Finds result (memory_breaches memory.now) (λ _. Unit {0}) }
{
    if memory.width == 0 || memory.size == 0 {
        return Err(broken(BuildCode::MissingParam));
    }
    unlimited(size_limit(memory.size, memory.offset, memory.width))
}

/// The bits of the wires so far, with those of an item.
fn with_item(bits: u32, item: &Item) -> Result<u32, Stop>
    requires { bits ≤ 4194304 }
    ensures { Finds result (size_breaches bits item.now) (λ next. (next ≡ bits + item_bits item.now) × (next ≤ 4194304)) }
{
    match item {
        Item::Wire(wire) => add_within(MOST_NETS, bits, u64::from(wire.width)),
        Item::Mem(memory) => {
            sized_memory(memory)?;
            Ok(bits)
        }
        Item::Param(_) => Ok(bits),
        Item::Cell(_) => Ok(bits),
        Item::Connect { .. } => Ok(bits),
    }
}

/// How many bits the wires have together. It stops at the first wire that makes them too many, or
/// memory that is empty (`MissingParam`) or too large. It takes no memory.
pub(crate) fn count_bits(items: &[Item]) -> Result<u32, Halt>
    ensures { FindsFirst result (size_faults 0 0 items.now) (λ bits. (bits ≡ wire_bits items.now) × (bits ≤ 4194304)) }
{
    let mut bits = 0u32;
    let mut place = 0usize;
    let mut rest = items;
    while let [item, tail @ ..] = rest {
        bits = match with_item(bits, item) {
            Ok(next) => next,
            Err(stop) => return Err(halt_at(place, stop)),
        };
        place += 1;
        rest = tail;
    }
    Ok(bits)
}
