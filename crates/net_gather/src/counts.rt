//! What is counted from cell to cell.
ghost use Rattle.std.specs.Prelude.{◌≡◌, ◌≤◌, ◌+◌, ◌++◌, codes};
ghost use Rattle.std.specs.Str.{bytes_eq};
ghost use Rattle.cell_rows.specs.Kinds.{found};
ghost use Rattle.net_wires.specs.Finds.{Finds};
ghost use Rattle.net_gather.specs.Counts as table;
ghost use Rattle.net_gather.specs.Faults.{limit_breaches};
ghost use Rattle.net_gather.specs.OpenPins.{open_count};

use crate::bits::{bits_open, bits_size};
use crate::limits::{add_within, few, unlimited};
use crate::open_pin::OpenPin;
use crate::sizes::MOST_NETS;
use cell_rows::Places;
use lib_core::List;
use mem_rows::{MemRow, PortRow, whole_limit};
use net_wires::Stop;
use raw_cells::CellRow;

const MOST_PIN_BITS: u32 = 16_777_216;

const MOST_PORTS: u32 = 64;

const MOST_ABITS: u32 = 32;

/// A memory that is declared, and the ports of single words that its cells have so far.
#[derive(Clone, Copy)]
pub struct Tally {
    /// The bits of a word.
    pub width: u32,
    pub ports: u32,
}

/// What the wires and the cells so far have.
#[derive(Drop)]
pub struct Counts {
    /// The bits of wires and the open bits of pins.
    pub places: u32,
    /// The bits of pins.
    pub pin_bits: u32,
    /// The memories of the module in file order, with their read ports.
    pub reads: List<Tally>,
    /// The memories of the module in file order, with their write ports.
    pub writes: List<Tally>,
}

/// Whether the address of a cell counts as 32 bits.
fn has_long_address(row: &CellRow) -> bool
    ensures { result ≡ table.has_long_address row.now }
{
    match row {
        CellRow::Memory(MemRow::Read(_)) => true,
        CellRow::Memory(MemRow::OldRead(_)) => true,
        CellRow::Memory(MemRow::Write(_)) => true,
        CellRow::Memory(MemRow::Whole(_)) => false,
        CellRow::Memory(MemRow::Init(_)) => false,
        CellRow::Comb(_) => false,
        CellRow::Reg(_) => false,
        CellRow::Ram(_) => false,
        CellRow::StrangeRam => false,
        CellRow::Kept => false,
    }
}

fn is_address(name: &[u8]) -> bool
    ensures { result ≡ bytes_eq name.now (codes "\\ADDR") }
{
    name == b"\\ADDR".as_slice()
}

/// As how many bits a pin counts.
fn pin_size(long: bool, pin: &OpenPin) -> u64
    ensures { result ≡ table.pin_size long pin.now }
{
    if long && is_address(pin.name.as_slice()) {
        32
    } else {
        bits_size(&pin.bits)
    }
}

/// What was counted so far with the open bits of pins. It stops where they are too many.
fn with_open(before: u32, pins: &[OpenPin]) -> Result<u32, Stop>
    ensures { Finds result (limit_breaches 4194304 (before + open_count pins.now)) (λ sum. (sum ≡ before + open_count pins.now) × (sum ≤ 4194304)) }
{
    let mut count = before;
    let mut rest = pins;
    while let [pin, tail @ ..] = rest {
        count = add_within(MOST_NETS, count, bits_open(&pin.bits))?;
        rest = tail;
    }
    add_within(MOST_NETS, count, 0)
}

/// What was counted so far with the bits of pins. It stops where they are too many.
fn with_bits(before: u32, long: bool, pins: &[OpenPin]) -> Result<u32, Stop>
    ensures { Finds result (limit_breaches 16777216 (before + table.pins_size long pins.now)) (λ sum. (sum ≡ before + table.pins_size long pins.now) × (sum ≤ 16777216)) }
{
    let mut count = before;
    let mut rest = pins;
    while let [pin, tail @ ..] = rest {
        count = add_within(MOST_PIN_BITS, count, pin_size(long, pin))?;
        rest = tail;
    }
    add_within(MOST_PIN_BITS, count, 0)
}

/// As how many ports of single words a port of this width counts.
fn words(port: u32, width: u32) -> u64
    ensures { result ≡ table.words port width }
{
    if width == 0 {
        return 0;
    }
    (u64::from(port) + u64::from(width - 1)) / u64::from(width)
}

fn with_port(tally: Tally, port: u32) -> Result<Tally, Stop>
    ensures { Finds result (limit_breaches 64 (tally.ports + table.words port tally.width)) (λ next. next ≡ table.with_port tally port) }
{
    let ports = add_within(MOST_PORTS, tally.ports, words(port, tally.width))?;
    Ok(Tally {
        width: tally.width,
        ports,
    })
}

/// The tallies with a port of the memory at a place.
fn with_one_port(tallies: List<Tally>, place: Option<u32>, port: u32) -> Result<List<Tally>, Stop>
    ensures { Finds result (table.port_breaches tallies place port) (λ next. next ≡ table.with_one_port tallies place port) }
{
    let Some(place) = place else {
        return Ok(tallies);
    };
    let place = place as usize;
    let mut tallies = tallies.into_vec();
    if place < tallies.len() {
        tallies[place] = with_port(tallies[place], port)?;
    }
    Ok(List::from_vec(tallies))
}

/// The tallies with the port of a cell. It stops where its address is too long or the ports are too
/// many.
fn count_port(memories: &Places, tallies: List<Tally>, port: &PortRow) -> Result<List<Tally>, Stop>
    ensures { Finds result (limit_breaches 32 port.now.abits ++ table.port_breaches tallies (found memories.now port.now.name) port.now.width) (λ next. next ≡ table.with_one_port tallies (found memories.now port.now.name) port.now.width) }
{
    few(MOST_ABITS, port.abits)?;
    with_one_port(tallies, memories.place(&port.name), port.width)
}

/// The ports of memories, by the sides of the memories.
#[derive(Drop)]
struct Tallies {
    reads: List<Tally>,
    writes: List<Tally>,
}

/// The ports of memories with those of a memory cell. It stops at what the cell may not have.
fn count_memory(memories: &Places, tallies: Tallies, row: &MemRow) -> Result<Tallies, Stop>
    ensures { Finds result (table.memory_limits (λ n. found memories.now n) tallies.reads tallies.writes row.now) (λ next. (next.reads ≡ table.reads_behind_memory (λ n. found memories.now n) tallies.reads row.now) × (next.writes ≡ table.writes_behind_memory (λ n. found memories.now n) tallies.writes row.now)) }
{
    let Tallies { reads, writes } = tallies;
    match row {
        MemRow::Whole(whole) => {
            unlimited(whole_limit(whole))?;
            Ok(Tallies { reads, writes })
        }
        MemRow::Read(port) => {
            let reads = count_port(memories, reads, port)?;
            Ok(Tallies { reads, writes })
        }
        MemRow::OldRead(port) => {
            let reads = count_port(memories, reads, port)?;
            Ok(Tallies { reads, writes })
        }
        MemRow::Write(port) => {
            let writes = count_port(memories, writes, port)?;
            Ok(Tallies { reads, writes })
        }
        MemRow::Init(init) => {
            few(MOST_ABITS, init.abits)?;
            Ok(Tallies { reads, writes })
        }
    }
}

/// The ports of memories with those of a cell.
fn count_row(memories: &Places, tallies: Tallies, row: &CellRow) -> Result<Tallies, Stop>
    ensures { Finds result (table.row_limits (λ n. found memories.now n) tallies.reads tallies.writes row.now) (λ next. (next.reads ≡ table.reads_behind (λ n. found memories.now n) tallies.reads row.now) × (next.writes ≡ table.writes_behind (λ n. found memories.now n) tallies.writes row.now)) }
{
    match row {
        CellRow::Memory(row) => count_memory(memories, tallies, row),
        CellRow::Comb(_) => Ok(tallies),
        CellRow::Reg(_) => Ok(tallies),
        CellRow::Ram(_) => Ok(tallies),
        CellRow::StrangeRam => Ok(tallies),
        CellRow::Kept => Ok(tallies),
    }
}

/// What is counted behind a cell. It stops at the first limit that the cell passes: nets, bits of
/// pins, and those of memories.
pub(crate) fn count_cell(
    memories: &Places,
    counts: Counts,
    row: &CellRow,
    pins: &[OpenPin],
) -> Result<Counts, Stop>
    ensures { Finds result (table.count_breaches (λ n. found memories.now n) counts row.now pins.now) (λ next. (next ≡ table.counts_behind (λ n. found memories.now n) counts row.now pins.now) × (next.places ≤ 4194304)) }
{
    let Counts {
        places,
        pin_bits,
        reads,
        writes,
    } = counts;
    let places = with_open(places, pins)?;
    let pin_bits = with_bits(pin_bits, has_long_address(row), pins)?;
    let Tallies { reads, writes } = count_row(memories, Tallies { reads, writes }, row)?;
    Ok(Counts {
        places,
        pin_bits,
        reads,
        writes,
    })
}
