//! The rules that a memory cell can break.
ghost use Rattle.std.specs.Prelude.{◌≡◌, Some, nat_eq, slice_get, IfOk};
ghost use Rattle.std.specs.List.{list_any};
ghost use Rattle.cell_rows.specs.Kinds.{found};
ghost use Rattle.mem_collect.specs.Unpacked.{overlap};
ghost use Rattle.mem_rows.specs.declared.row.MemRow.TheVariants as rows;
ghost use Rattle.part_faults.specs.Driven.{is_driven, is_driven_bit, is_net};
ghost use Rattle.part_faults.specs.Faults as spec;
ghost use Rattle.part_faults.specs.Ids.{ids_at};
ghost use Rattle.part_faults.specs.Parts.{row_of};
ghost use Rattle.part_faults.specs.Tables.{Tells, module_of};

use crate::ids::ids_in;
use crate::tables::{Tables, driven_at};
use crate::writes::port_id;
use cell_rows::Places;
use lib_core::{List, Memory, Tri};
use mem_collect::{CollectCode, pin_bits, unpack};
use mem_rows::{MemRow, WholeRow, bits, laws, whole_limit};
use net_core::{Attr, Bit, Mem, MemPart, Pin};
use std::alloc::Global;

/// Whether a cell names a memory that is not declared.
pub(crate) fn lacks_memory(memories: &Places, row: &MemRow) -> bool
    ensures { result ≡ spec.lacks_memory (found memories.now) row.now }
{
    match row {
        MemRow::Whole(_) => false,
        MemRow::Read(port) => memories.place(&port.name).is_none(),
        MemRow::OldRead(port) => memories.place(&port.name).is_none(),
        MemRow::Write(port) => memories.place(&port.name).is_none(),
        MemRow::Init(init) => memories.place(&init.name).is_none(),
    }
}

fn is_among(ids: &[u32], id: u32) -> bool
    ensures { result ≡ list_any (nat_eq id) ids.now }
{
    ids.iter().any(|other| id == *other)
}

/// Whether a write port has a number that stands in the table for its memory.
pub(crate) fn is_id_twice(
    memories: &Places,
    seen: &[List<u32>],
    params: &[Attr],
    row: &MemRow,
) -> bool
    ensures { result ≡ spec.is_id_twice (found memories.now) (ids_at seen.now) params.now row.now }
{
    match row {
        MemRow::Whole(_) => false,
        MemRow::Read(_) => false,
        MemRow::OldRead(_) => false,
        MemRow::Write(port) => is_among(ids_in(seen, memories.place(&port.name)), port_id(params)),
        MemRow::Init(_) => false,
    }
}

fn has_net(bits: &[Bit]) -> bool
    ensures { result ≡ list_any is_net bits.now }
{
    bits.iter().any(|bit| is_net(*bit))
}

fn is_net(bit: Bit) -> bool
    ensures { result ≡ is_net bit }
{
    match bit {
        Bit::Zero => false,
        Bit::One => false,
        Bit::Net(_) => true,
    }
}

fn is_driven_bit(tables: &Tables<'_>, bit: Bit) -> Result<bool, Memory>
    requires { Tells tables.now }
    ensures { IfOk result (λ driven. driven ≡ is_driven_bit (is_driven (module_of tables.now)) bit) }
{
    match bit {
        Bit::Zero => Ok(false),
        Bit::One => Ok(false),
        Bit::Net(net) => driven_at(tables, net),
    }
}

fn has_driven(tables: &Tables<'_>, bits: &[Bit]) -> Result<bool, Memory>
    requires { Tells tables.now }
    ensures { IfOk result (λ driven. driven ≡ list_any (is_driven_bit (is_driven (module_of tables.now))) bits.now) }
{
    let mut rest = bits;
    while let [bit, tail @ ..] = rest {
        if is_driven_bit(tables, *bit)? {
            return Ok(true);
        }
        rest = tail;
    }
    Ok(false)
}

#[tactic(auto, unfolding(crate::specs::Faults::is_not_constant))]
fn is_not_constant(alloc: Global, tables: &Tables<'_>, pins: &[Pin]) -> Result<bool, Memory>
    requires { Tells tables.now }
    ensures { IfOk result (λ found. found ≡ spec.is_not_constant (is_driven (module_of tables.now)) pins.now) }
{
    if has_net(pin_bits(alloc, pins, b"\\ADDR")?.as_slice()) {
        return Ok(true);
    }
    if has_net(pin_bits(alloc, pins, b"\\EN")?.as_slice()) {
        return Ok(true);
    }
    has_driven(tables, pin_bits(alloc, pins, b"\\DATA")?.as_slice())
}

/// Whether initial contents are not constant.
pub(crate) fn has_open_contents(
    alloc: Global,
    tables: &Tables<'_>,
    pins: &[Pin],
    row: &MemRow,
) -> Result<bool, Memory>
    requires { Tells tables.now }
    ensures { IfOk result (λ found. found ≡ spec.has_open_contents (is_driven (module_of tables.now)) pins.now row.now) }
{
    match row {
        MemRow::Whole(_) => Ok(false),
        MemRow::Read(_) => Ok(false),
        MemRow::OldRead(_) => Ok(false),
        MemRow::Write(_) => Ok(false),
        MemRow::Init(_) => is_not_constant(alloc, tables, pins),
    }
}

fn has_bit(mask: &[Tri], id: u32) -> bool
    ensures { result ≡ spec.has_bit mask.now id }
{
    match mask.get(id as usize) {
        Some(bit) => *bit == Tri::One,
        None => false,
    }
}

fn has_both(trans: &[Tri], coll: &[Tri], id: u32) -> bool
    ensures { result ≡ spec.has_both trans.now coll.now id }
{
    has_bit(trans, id) && has_bit(coll, id)
}

fn any_both(trans: &[Tri], coll: &[Tri], ids: &[u32]) -> bool
    ensures { result ≡ list_any (spec.has_both trans.now coll.now) ids.now }
{
    ids.iter().any(|id| has_both(trans, coll, *id))
}

#[tactic(auto, unfolding(crate::specs::Faults::some_both))]
fn some_both(alloc: Global, params: &[Attr], ids: &[u32]) -> Result<bool, Memory>
    ensures { IfOk result (λ found. found ≡ spec.some_both params.now ids.now) }
{
    let trans = bits(alloc, params, b"\\TRANSPARENCY_MASK")?;
    let coll = bits(alloc, params, b"\\COLLISION_X_MASK")?;
    Ok(any_both(trans.as_slice(), coll.as_slice(), ids))
}

/// Whether a read of a whole memory is both transparent and open to collisions for a write. A memory
/// outside the limits counts as want of memory.
#[tactic(auto, using(crate::proofs::Wholes::says_row))]
fn whole_overlap(alloc: Global, part: &MemPart, row: &WholeRow) -> Result<bool, Memory>
    requires { row_of part.now ≡ Some (rows.Whole row.now) }
    ensures { IfOk result (λ found. found ≡ overlap row.now part.now) }
{
    laws::no_limit_is_within();
    if whole_limit(row).is_some() {
        return Err(Memory);
    }
    match unpack(alloc, part) {
        Ok(_) => Ok(false),
        Err(fault) => {
            if fault.code == CollectCode::MasksOverlap {
                Ok(true)
            } else {
                Err(Memory)
            }
        }
    }
}

/// Whether a read is both transparent and open to collisions for a write of its memory.
pub(crate) fn masks_overlap(
    alloc: Global,
    tables: &Tables<'_>,
    part: &MemPart,
    row: &MemRow,
) -> Result<bool, Memory>
    requires { row_of part.now ≡ Some row.now }
    ensures { IfOk result (λ both. both ≡ spec.masks_overlap (found tables.now.memories) (ids_at tables.now.writes.items) part.now row.now) }
{
    match row {
        MemRow::Whole(whole) => whole_overlap(alloc, part, whole),
        MemRow::Read(port) => {
            let home = tables.memories.place(&port.name);
            let ids = ids_in(tables.writes.as_slice(), home);
            some_both(alloc, part.params.as_slice(), ids)
        }
        MemRow::OldRead(_) => Ok(false),
        MemRow::Write(_) => Ok(false),
        MemRow::Init(_) => Ok(false),
    }
}

fn fits_words(word: u32, width: u32) -> bool
    ensures { result ≡ spec.fits_words word width }
{
    let word = u64::from(word);
    let width = u64::from(width);
    width == word
        || width == word * 2
        || width == word * 4
        || width == word * 8
        || width == word * 16
        || width == word * 32
        || width == word * 64
}

fn width_at(declared: &[Mem], place: usize) -> Option<u32>
    ensures { result ≡ spec.width_of (slice_get declared.now place) }
{
    match declared.get(place) {
        Some(mem) => Some(mem.width),
        None => None,
    }
}

/// The bits of a word of the memory at a place.
fn word_at(declared: &[Mem], place: Option<u32>) -> Option<u32>
    ensures { result ≡ spec.word_at declared.now place }
{
    match place {
        None => None,
        Some(place) => width_at(declared, place as usize),
    }
}

fn port_misfits(word: Option<u32>, width: u32) -> bool
    ensures { result ≡ spec.port_misfits word width }
{
    match word {
        None => false,
        Some(word) => !fits_words(word, width),
    }
}

fn init_misfits(word: Option<u32>, width: u32) -> bool
    ensures { result ≡ spec.init_misfits word width }
{
    match word {
        None => false,
        Some(word) => width != word,
    }
}

/// Whether a cell has a width that does not suit its memory.
pub(crate) fn misfits(declared: &[Mem], memories: &Places, row: &MemRow) -> bool
    ensures { result ≡ spec.misfits declared.now (found memories.now) row.now }
{
    match row {
        MemRow::Whole(_) => false,
        MemRow::Read(port) => {
            port_misfits(word_at(declared, memories.place(&port.name)), port.width)
        }
        MemRow::OldRead(port) => {
            port_misfits(word_at(declared, memories.place(&port.name)), port.width)
        }
        MemRow::Write(port) => {
            port_misfits(word_at(declared, memories.place(&port.name)), port.width)
        }
        MemRow::Init(init) => {
            init_misfits(word_at(declared, memories.place(&init.name)), init.width)
        }
    }
}
