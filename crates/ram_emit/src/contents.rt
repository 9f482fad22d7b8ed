//! The contents of the cell of a plain choice at the start.
ghost use Rattle.std.specs.Prelude.{◌≡◌, ◌+◌, ◌*◌, ◌/◌, ◌%◌, ◌<◌, ◌≤◌, ◌^◌, IfOk, length, map};
ghost use Rattle.std.specs.List.{range_with_len};
ghost use Rattle.lib_core.specs.Rams as rams;
ghost use Rattle.fit_rules.specs.Limits.{MemLimits, VariantLimits};
ghost use Rattle.ram_emit.specs.Cell as spec;

use crate::bits::takes_value;
use fit_rules::bits::two_to;
use geom_core::spreads::level_width;
use lib_core::{Fill, List, Memory, Tri, Variant};
use net_core::Mem;
use std::alloc::Global;

/// A bit as a fill wants it. It takes no memory.
fn settled(fill: Fill, bit: Tri) -> Tri
    ensures { result ≡ spec.settled fill bit }
{
    match fill {
        Fill::NoUndef => match bit {
            Tri::Any => Tri::Zero,
            Tri::Zero | Tri::One => bit,
        },
        Fill::Nothing | Fill::Zero | Fill::Any => bit,
    }
}

/// A bit of the memory's contents, any past the end. It takes no memory.
#[tactic(auto, using(crate::proofs::Padding::tri_at_is))]
fn given_bit(mem: &Mem, place: usize) -> Tri
    ensures { result ≡ rams.tri_at mem.now.init place }
{
    mem.init.as_slice().get(place).copied().unwrap_or(Tri::Any)
}

/// A bit of a word. It takes no memory.
#[tactic(auto, using(crate::proofs::Pushing::place_few))]
fn start_bit(variant: &Variant, mem: &Mem, word: usize, bit: usize) -> Tri
    requires { MemLimits mem.now }
    ensures { result ≡ spec.start_bit variant.now mem.now word bit }
{
    let inside = word < mem.size as usize && bit < mem.width as usize;
    let given = if inside {
        given_bit(mem, word * mem.width as usize + bit)
    } else {
        Tri::Any
    };
    settled(variant.fill, given)
}

/// So many words of so many bits.
fn words_of(
    alloc: Global,
    variant: &Variant,
    mem: &Mem,
    count: usize,
    width: usize,
) -> Result<List<Tri>, Memory>
    requires limits { MemLimits mem.now }
    requires some { 1 ≤ width }
    ensures { IfOk result (λ bits. bits ≡ map (λ p. spec.start_bit variant.now mem.now (p / width) (p % width)) (range_with_len 0 count)) }
{
    let mut bits = Vec::with_capacity(alloc, count)?;
    for place in 0..count {
        bits.push(start_bit(variant, mem, place / width, place % width))?;
    }
    Ok(List::from_vec(bits))
}

/// The last level of a variant. It takes no memory.
fn last_level(variant: &Variant) -> u32
    requires { VariantLimits variant.now }
    ensures { result ≡ rams.last_level variant.now }
{
    variant.widths.as_slice().len().saturating_sub(1) as u32
}

/// How many words of the last width there are. It takes no memory.
fn last_words(variant: &Variant) -> u64
    requires { VariantLimits variant.now }
    ensures { result ≡ rams.last_words variant.now }
{
    two_to(variant.abits.saturating_sub(last_level(variant)))
}

/// The last width. It takes no memory.
fn last_width(variant: &Variant) -> u32
    requires { VariantLimits variant.now }
    ensures { result ≡ rams.last_width variant.now }
{
    level_width(variant, last_level(variant))
}

/// The contents at the start: nothing where the variant takes none.
#[tactic(auto, using(crate::proofs::Pushing::all_few, crate::proofs::Pushing::no_contents))]
pub(crate) fn contents(alloc: Global, variant: &Variant, mem: &Mem) -> Result<List<Tri>, Memory>
    requires limits { VariantLimits variant.now }
    requires memory { MemLimits mem.now }
    ensures { IfOk result (λ bits. bits ≡ spec.contents variant.now mem.now) }
{
    let width = last_width(variant) as usize;
    if width == 0 || !takes_value(variant.fill) {
        return Ok(List::from_vec(Vec::new(alloc)));
    }
    let words = last_words(variant) as usize;
    words_of(alloc, variant, mem, words * width, width)
}
