//! Whether slots read at once where their kinds do.
ghost use Rattle.std.specs.Prelude.{◌≡◌};
ghost use Rattle.std.specs.List.{list_all};
ghost use Rattle.lib_core.specs.Rams.{reads_now};
ghost use Rattle.net_live.specs.Slots.{slot_agrees, slots_agree, cell_agrees};

use lib_core::{Group, Library, PortKind, Variant};
use net_core::{RamCell, SlotUse, variant_of};

/// Whether each slot of these cells says as its kind does whether it reads at once.
pub fn cells_agree(lib: &Library, cells: &[RamCell]) -> bool
    ensures { result ≡ list_all (cell_agrees lib.now) cells.now }
{
    cells.iter().all(|cell| cell_agrees(lib, cell))
}

fn cell_agrees(lib: &Library, cell: &RamCell) -> bool
    ensures { result ≡ cell_agrees lib.now cell.now }
{
    match variant_of(lib, cell) {
        None => true,
        Some(variant) => slots_agree(variant, cell.slots.as_slice()),
    }
}

fn slots_agree(variant: &Variant, slots: &[SlotUse]) -> bool
    ensures { result ≡ slots_agree variant.now.groups slots.now }
{
    let mut rest = slots;
    for group in variant.groups.as_slice() {
        let count = group.names.as_slice().len().min(rest.len());
        let (here, after) = rest.split_at(count);
        if !group_agrees(group, here) {
            return false;
        }
        rest = after;
    }
    true
}

fn group_agrees(group: &Group, slots: &[SlotUse]) -> bool
    ensures { result ≡ list_all (slot_agrees group.now) slots.now }
{
    slots.iter().all(|slot| slot_agrees(group, slot))
}

fn slot_agrees(group: &Group, slot: &SlotUse) -> bool
    ensures { result ≡ slot_agrees group.now slot.now }
{
    slot.reads_now == reads_now(group.kind)
}

fn reads_now(kind: PortKind) -> bool
    ensures { result ≡ reads_now kind }
{
    match kind {
        PortKind::Ar | PortKind::Arsw => true,
        PortKind::Sr | PortKind::Sw | PortKind::Srsw => false,
    }
}
