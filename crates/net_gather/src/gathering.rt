//! The items of a module.
ghost use Rattle.std.specs.Prelude.{◌≡◌, ◌++◌, ℕ, List as Seq, IfOk, OnOk};
ghost use Rattle.std.specs.List.{flat_map};
ghost use Rattle.cell_rows.specs.Kinds.{found, place_of};
ghost use Rattle.rtlil_text.specs.Grammar.{AreDistinct, memory_name, wire_name};
ghost use Rattle.net_wires.specs.Finds.{Finds};
ghost use Rattle.net_wires.specs.Spans.{There, wire_bits};
ghost use Rattle.net_gather.specs.Cells.{context_of};
ghost use Rattle.net_gather.specs.Faults.{FindsFirst};
ghost use Rattle.net_gather.specs.Counts.{tally_of};
ghost use Rattle.net_gather.specs.Gather as gathers;

use crate::around::Around;
use crate::cell::gather_cell;
use crate::connects::{Connects, tie_items};
use crate::counts::{Counts, Tally};
use crate::faces::Faces;
use crate::fault::{Halt, halt_at};
use crate::sizes::count_bits;
use cell_rows::Places;
use lib_core::{Library, List, Memory, Name};
use net_wires::{Pair, Stop, names_of};
use raw_cells::{RawCell, tied_of};
use rtlil_text::Item;
use std::alloc::Global;

/// What is gathered of a module.
#[derive(Debug, PartialEq, Eq, Drop)]
pub struct Gathered {
    /// How many bits the wires have. They have the first places.
    pub wire_places: u32,
    /// How many places there are: those of the wires, and behind them those of the open bits of
    /// pins.
    pub places: u32,
    /// The cells in file order.
    pub cells: List<RawCell>,
    /// The bits that connects drive, with those that drive them, in file order.
    pub pairs: List<Pair>,
}

fn push_memory(alloc: Global, names: &mut Vec<Name>, item: &Item) -> Result<(), Memory>
    ensures { OnOk result (names.new.items ≡ names.old.items ++ memory_name item.now) }
{
    if let Item::Mem(memory) = item {
        names.push(memory.name.copy(alloc)?)?;
    }
    Ok(())
}

/// The names of memories.
fn memory_names(alloc: Global, items: &[Item]) -> Result<Vec<Name>, Memory>
    ensures { IfOk result (λ names. names.items ≡ flat_map memory_name items.now) }
{
    let mut names = Vec::new(alloc);
    for item in items {
        push_memory(alloc, &mut names, item)?;
    }
    Ok(names)
}

fn memories_of(alloc: Global, items: &[Item]) -> Result<Places, Memory>
    ensures { IfOk result (λ places. (name : Seq ℕ) → found places name ≡ place_of (flat_map memory_name items.now) name) }
{
    let names = memory_names(alloc, items)?;
    Places::new(alloc, names.as_slice())
}

fn push_tally(tallies: &mut Vec<Tally>, item: &Item) -> Result<(), Memory>
    ensures { OnOk result (tallies.new.items ≡ tallies.old.items ++ tally_of item.now) }
{
    if let Item::Mem(memory) = item {
        tallies.push(Tally {
            width: memory.width,
            ports: 0,
        })?;
    }
    Ok(())
}

/// The memories with no ports.
fn tallies_of(alloc: Global, items: &[Item]) -> Result<List<Tally>, Memory>
    ensures { IfOk result (λ tallies. tallies ≡ flat_map tally_of items.now) }
{
    let mut tallies = Vec::new(alloc);
    for item in items {
        push_tally(&mut tallies, item)?;
    }
    Ok(List::from_vec(tallies))
}

/// What is counted before the first cell.
fn counts_before(alloc: Global, places: u32, items: &[Item]) -> Result<Counts, Memory>
    requires { places ≡ wire_bits items.now }
    ensures { IfOk result (λ counts. counts ≡ gathers.counts_before items.now) }
{
    Ok(Counts {
        places,
        pin_bits: 0,
        reads: tallies_of(alloc, items)?,
        writes: tallies_of(alloc, items)?,
    })
}

/// The cell of an item behind the others, if it is one, and what is counted behind it.
fn gather_item(
    alloc: Global,
    around: &Around,
    counts: Counts,
    cells: &mut Vec<RawCell>,
    item: &Item,
) -> Result<Counts, Stop>
    requires near { There 4294967295 around.now.names }
    ensures { Finds result (gathers.item_breaches (context_of around.now) counts item.now) (λ next. (next ≡ gathers.counted counts (gathers.item_gain (context_of around.now) counts item.now)) × (cells.new.items ≡ cells.old.items ++ gathers.gained (gathers.item_gain (context_of around.now) counts item.now))) }
{
    match item {
        Item::Cell(cell) => {
            let gain = gather_cell(alloc, around, counts, cell)?;
            cells.push(gain.cell)?;
            Ok(gain.counts)
        }
        Item::Wire(_) => Ok(counts),
        Item::Param(_) => Ok(counts),
        Item::Mem(_) => Ok(counts),
        Item::Connect { .. } => Ok(counts),
    }
}

/// The cells, and how many places there are behind the last.
#[derive(Drop)]
struct Cells {
    cells: Vec<RawCell>,
    places: u32,
}

fn gather_cells(
    alloc: Global,
    around: &Around,
    counts: Counts,
    items: &[Item],
) -> Result<Cells, Halt>
    requires near { There 4294967295 around.now.names }
    ensures { FindsFirst result (gathers.cell_faults (context_of around.now) 0 counts items.now) (λ found. (found.cells.items ≡ gathers.raw_cells (context_of around.now) counts items.now) × (found.places ≡ (gathers.counts_of (context_of around.now) counts items.now).places)) }
{
    let mut cells = Vec::new(alloc);
    let mut counts = counts;
    let mut place = 0usize;
    let mut rest = items;
    while let [item, tail @ ..] = rest {
        counts = match gather_item(alloc, around, counts, &mut cells, item) {
            Ok(next) => next,
            Err(stop) => return Err(halt_at(place, stop)),
        };
        place += 1;
        rest = tail;
    }
    Ok(Cells {
        cells,
        places: counts.places,
    })
}

/// The cells and the connected bits of a module's items, where the RAMs of the library stand at
/// these places and the file has these modules. It stops at the first fault: the wires and memories are looked at first, then
/// the cells, and then the connects, each in file order.
pub fn gather(
    alloc: Global,
    library: &Library,
    rams: &Places,
    faces: &Faces,
    items: &[Item],
) -> Result<Gathered, Halt>
    requires new { AreDistinct (flat_map wire_name items.now) }
    ensures { FindsFirst result (gathers.faults_of (gathers.context library.now (λ n. found rams.now n) faces.now items.now) items.now) (λ made. made ≡ gathers.gathered (gathers.context library.now (λ n. found rams.now n) faces.now items.now) items.now) }
{
    let wire_places = count_bits(items)?;
    let names = names_of(alloc, items)?;
    let Connects { pairs, fault } = tie_items(alloc, &names, items)?;
    let tied = tied_of(alloc, wire_places, pairs.as_slice())?;
    let around = Around {
        library,
        names,
        memories: memories_of(alloc, items)?,
        rams,
        faces,
        tied: &tied,
    };
    let counts = counts_before(alloc, wire_places, items)?;
    let found = gather_cells(alloc, &around, counts, items)?;
    if let Some(fault) = fault {
        return Err(Halt::Broken(fault));
    }
    Ok(Gathered {
        wire_places,
        places: found.places,
        cells: List::from_vec(found.cells),
        pairs,
    })
}
