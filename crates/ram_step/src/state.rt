//! The state of a RAM cell.
ghost use Rattle.std.specs.Prelude.{◌≡◌, ◌*◌, ◌-◌, ◌^◌, ◌<◌, ◌≤◌, ◌&&◌, [], Some, true, length, slice_index_or, IfOk};
ghost use Rattle.lib_core.specs.Rams as rams;
ghost use Rattle.geom_core.specs.Places.{IsSized};
ghost use Rattle.net_core.specs.Ram as ram;
ghost use Rattle.net_core.specs.Shape as shape;
ghost use Rattle.ram_step.specs.Ports.{slot_of};
ghost use Rattle.ram_step.specs.Nexts.{AreWords};
ghost use Rattle.ram_step.specs.Moments.{valuation};
ghost use Rattle.ram_step.specs.States as states;
ghost use Rattle.ram_step.specs.States.{IsStateOf, start_of, stepped, IsShown, IsPlaceOf};

use crate::copies::copy_variant;
use crate::hits::Hit;
use crate::nexts::tri_of;
use crate::picks::{PickKey, resolve};
use crate::pins::filled;
use crate::ports::{Port, Ports, in_arst};
use crate::starts::{no_hits, owners_of, start_kept, start_rows};
use crate::steps::{find_hits, keep_all, keeps, write_all};
use fit_pairs::reads_now;
use geom_core::Geometry;
use lib_core::{Memory, Tri, Variant};
use net_core::{Event, RamCell};
use row_store::{Bits, Rows};
use std::alloc::Global;
use std::marker::Model;

/// The state of a RAM cell in a simulation. Contracts see its variant, its words of the last width,
/// and what its read registers keep.
#[derive(Drop)]
pub struct RamState<const LIMBS: usize, const LEVELS: usize> {
    variant: Variant,
    geometry: Geometry<LEVELS>,
    /// The number of the group of each slot.
    owners: Vec<u32>,
    rows: Rows<LIMBS>,
    kept: Vec<Bits<LIMBS>>,
    /// Room for what each slot writes in a step.
    hits: Vec<Option<Hit<LIMBS>>>,
}

impl<const LIMBS: usize, const LEVELS: usize> Model for RamState<LIMBS, LEVELS> {
    ghost use Rattle.std.specs.Prelude.{◌≡◌, ◌*◌, ◌-◌, ◌^◌, ◌<◌, ◌≤◌, length};
    ghost use Rattle.lib_core.specs.Rams.{last_width};
    ghost use Rattle.geom_core.specs.Places.{IsSized};
    ghost use Rattle.ram_step.specs.Owners.{owners_of};
    ghost use Rattle.ram_step.specs.States.{RamLook};

    ghost Value = { RamLook };

    ghost view = { λ s. record { variant = s.variant; words = s.rows; kept = s.kept.items } };

    ghost invariant = { λ s. (s.geometry.widths ≡ s.variant.widths) × (s.geometry.abits ≡ s.variant.abits) × (length s.variant.widths ≡ LEVELS) × IsSized s.variant × (s.owners.items ≡ owners_of s.variant.groups) × (length s.owners.items < 2 ^ 32 - 1) × (length s.hits.items ≡ length s.owners.items) × (last_width s.variant ≤ 64 * LIMBS) × (64 * LIMBS < 2 ^ 32) };
}

impl<const LIMBS: usize, const LEVELS: usize> RamState<LIMBS, LEVELS> {
    /// The state at the start of a cell that fits the variant.
    pub fn new(
        alloc: Global,
        variant: &Variant,
        cell: &RamCell,
        picks: &PickKey,
    ) -> Result<RamState<LIMBS, LEVELS>, Memory>
        requires fits { shape.fits_variant cell.now (Some variant.now) ≡ true }
        requires sized { IsSized variant.now }
        requires levels { length variant.now.widths ≡ LEVELS }
        requires some_levels { 1 ≤ LEVELS }
        requires few_bits { rams.last_width variant.now ≤ 64 * LIMBS }
        requires few_limbs { 64 * LIMBS < 2 ^ 32 }
        requires few_slots { length cell.now.slots < 2 ^ 32 - 1 }
        requires few_groups { length variant.now.groups < 2 ^ 32 }
        ensures value { IfOk result (λ state. state ≡ start_of variant.now cell.now picks.now) }
        ensures state { IfOk result (λ state. IsStateOf state cell.now) }
    {
        let geometry = Geometry::<LEVELS>::new(variant);
        let owners = owners_of(alloc, variant.groups.as_slice())?;
        let rows = start_rows(alloc, variant, &geometry, cell)?;
        let ports = Ports::new(variant, &geometry, owners.as_slice(), cell);
        let kept = start_kept(alloc, &ports, *picks)?;
        let hits = no_hits(alloc, owners.len())?;
        let variant = copy_variant(alloc, variant)?;
        Ok(RamState {
            variant,
            geometry,
            owners,
            rows,
            kept,
            hits,
        })
    }

    /// The state after an event, at these values of the nets. It takes no memory.
    pub fn step(&mut self, cell: &RamCell, values: &[bool], event: &Event, picks: &PickKey)
        requires { IsStateOf self.old cell.now }
        ensures value { self.new ≡ stepped self.old cell.now (valuation values.now) event.now picks.now }
        ensures state { IsStateOf self.new cell.now }
    {
        let ports = Ports::new(&self.variant, &self.geometry, self.owners.as_slice(), cell);
        find_hits(self.hits.as_mut_slice(), &ports, values, event);
        keep_all(
            self.kept.as_mut_slice(),
            &ports,
            self.hits.as_slice(),
            &self.rows,
            values,
            event,
            *picks,
        );
        write_all(&mut self.rows, &ports, self.hits.as_slice());
    }

    /// What a slot shows at a place of its outputs. It takes no memory.
    pub fn output(
        &self,
        cell: &RamCell,
        slot: u32,
        bit: u32,
        values: &[bool],
        picks: &PickKey,
    ) -> bool
        requires state { IsStateOf self.now cell.now }
        requires slot { slot < length cell.now.slots }
        requires bit { IsPlaceOf self.now cell.now slot bit }
        ensures { IsShown self.now cell.now (valuation values.now) picks.now slot bit result }
    {
        let ports = Ports::new(&self.variant, &self.geometry, self.owners.as_slice(), cell);
        let port = ports.get(slot);
        let tri = shown(&ports, &port, &self.rows, self.kept.as_slice(), values, bit);
        resolve(*picks, slot, bit, tri)
    }
}

/// Whether the slot reads at once.
fn shows_now(port: &Port<'_>) -> bool
    ensures { result ≡ (port.now.pins.now.used && rams.reads_now port.now.kind.now.kind) }
{
    port.pins.used && reads_now(port.kind.kind)
}

/// What a slot shows at a place of its outputs, where it may be undefined.
fn shown<const LIMBS: usize, const LEVELS: usize>(
    ports: &Ports<'_, LEVELS>,
    port: &Port<'_>,
    rows: &Rows<LIMBS>,
    kept: &[Bits<LIMBS>],
    values: &[bool],
    bit: u32,
) -> Tri
    requires fits { shape.slot_fits ports.now.variant port.now.kind.now port.now.pins.now ≡ true }
    requires words { AreWords ports.now.variant rows.now }
    requires kept { length (slice_index_or kept.now port.now.number []) ≡ states.kept_width ports.now.variant (slot_of port.now) }
    requires number { port.now.number < length kept.now }
    requires bit { bit < ram.slot_width ports.now.variant (slot_of port.now) }
    ensures { result ≡ states.shown_tri (record { variant = ports.now.variant; words = rows.now; kept = kept.now }) (valuation values.now) (slot_of port.now) bit }
{
    if shows_now(port) {
        let place = ports.place(port, values, bit);
        return rows.get(place.word, place.bit);
    }
    if !keeps(port) {
        return Tri::Any;
    }
    if in_arst(port, values) {
        return filled(port.kind.arst, port.pins.arst_value.as_slice(), bit);
    }
    tri_of(kept[port.number as usize].get(bit))
}
