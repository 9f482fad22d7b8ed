//! What each slot writes at a moment, packed.
ghost use Rattle.std.specs.Prelude.{◌≡◌, ℕ, ◌+◌, ◌-◌, ◌*◌, ◌^◌, ◌<◌, ◌≤◌, ◌&&◌, ◌||◌, nat_eq, true, length};
ghost use Rattle.lib_core.specs.Rams.{last_width, last_words};
ghost use Rattle.net_core.specs.Ram as ram;
ghost use Rattle.net_core.specs.Shape as shape;
ghost use Rattle.net_core.specs.Values.{bit_at, values_of};
ghost use Rattle.row_store.specs.Limbs.{bit_in};
ghost use Rattle.ram_step.specs.Ports.{slot_of};
ghost use Rattle.ram_step.specs.Moments.{inputs_alone, moment_of, valuation};
ghost use Rattle.ram_step.specs.Hits.{hit_bit, lane_bit, InRow};

use crate::pins::pin_bit;
use crate::ports::{Port, Ports, at_edge, is_enabled, lane_enabled};
use net_core::Event;
use row_store::set_bit;

/// The bits of a row that a slot writes, and their values.
#[derive(Clone, Copy)]
pub(crate) struct Hit<const LIMBS: usize> {
    pub row: u32,
    pub mask: [u64; LIMBS],
    pub value: [u64; LIMBS],
}

/// What a slot writes, where it is active.
pub(crate) fn hit_of<const LIMBS: usize, const LEVELS: usize>(
    ports: &Ports<'_, LEVELS>,
    port: &Port<'_>,
    values: &[bool],
    event: &Event,
) -> Option<Hit<LIMBS>>
    requires fits { shape.slot_fits ports.now.variant port.now.kind.now port.now.pins.now ≡ true }
    requires few_bits { last_width ports.now.variant ≤ 64 * LIMBS }
    requires few_limbs { 64 * LIMBS < 2 ^ 32 }
    ensures bits { (word k : ℕ) → hit_bit word k result ≡ ram.slot_hit (inputs_alone event.now) ports.now.variant (moment_of event.now) (valuation values.now) word k (slot_of port.now) }
    ensures row { InRow (last_words ports.now.variant) result }
{
    let width = ports.width(port);
    if width == 0 {
        return None;
    }
    if !at_edge(port, event.edge) {
        return None;
    }
    if !is_enabled(port, values) {
        return None;
    }
    let start = ports.start(port, values);
    Some(hit_from(ports, port, values, start.word, start.bit))
}

/// What an active slot writes to a row from a place on.
fn hit_from<const LIMBS: usize, const LEVELS: usize>(
    ports: &Ports<'_, LEVELS>,
    port: &Port<'_>,
    values: &[bool],
    row: u32,
    from: u32,
) -> Hit<LIMBS>
    requires room { from + ram.slot_width ports.now.variant (slot_of port.now) ≤ 64 * LIMBS }
    requires few_limbs { 64 * LIMBS < 2 ^ 32 }
    ensures row { result.row ≡ row }
    ensures mask { (k : ℕ) → bit_in result.mask k ≡ lane_bit ports.now.variant (valuation values.now) (slot_of port.now) from (ram.slot_width ports.now.variant (slot_of port.now)) k }
    ensures value { (k : ℕ) → bit_in result.value k ≡ (bit_in result.mask k && bit_at (values_of (valuation values.now) port.now.pins.now.value) (k - from)) }
{
    let width = ports.width(port);
    let mut mask = [0u64; LIMBS];
    let mut value = [0u64; LIMBS];
    for place in 0..width {
        let enabled = lane_enabled(port, values, ports.lane(width, place));
        let bit = enabled_bit(port, values, enabled, place);
        mark(&mut mask, (from + place) as usize, enabled);
        mark(&mut value, (from + place) as usize, bit);
    }
    Hit { row, mask, value }
}

/// The bit that the slot writes there, where it is enabled.
fn enabled_bit(port: &Port<'_>, values: &[bool], enabled: bool, place: u32) -> bool
    ensures { result ≡ (enabled && bit_at (values_of (valuation values.now) port.now.pins.now.value) place) }
{
    enabled && pin_bit(port.pins.value.as_slice(), place, values)
}

/// Sets a bit where asked.
fn mark<const LIMBS: usize>(limbs: &mut [u64; LIMBS], place: usize, bit: bool)
    requires { place < 64 * LIMBS }
    ensures { (k : ℕ) → bit_in limbs.new k ≡ ((nat_eq k place && bit) || bit_in limbs.old k) }
{
    if bit {
        set_bit(limbs, place);
    }
}
