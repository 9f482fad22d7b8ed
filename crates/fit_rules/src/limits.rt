//! Whether a memory and a library are within the limits under which candidates are judged.
ghost use Rattle.std.specs.Prelude.{◌≡◌, IsTrue};
ghost use Rattle.std.specs.List.{list_all};
ghost use Rattle.fit_rules.specs.Limits.{MemLimits, VariantLimits, RamLimits, LibraryLimits};
ghost use Rattle.fit_rules.specs.Judging as judging;

use lib_core::{Group, Library, RamKind, Variant};
use net_core::{Mem, RdPort, WrPort};

/// Whether a memory is within its limits. It takes no memory.
#[tactic(auto, using(crate::proofs::Judged::mem_limits))]
pub fn mem_within(mem: &Mem) -> bool
    ensures value { result ≡ judging.mem_within mem.now }
    ensures limits { IsTrue result → MemLimits mem.now }
{
    sizes_within(mem) && ports_within(mem)
}

#[tactic(auto, using(crate::proofs::Bounds::memory_bits_few))]
fn sizes_within(mem: &Mem) -> bool
    ensures { result ≡ judging.sizes_within mem.now }
{
    mem.size <= 1_048_576
        && 1 <= mem.width
        && mem.width <= 65_536
        && mem.abits <= 32
        && u64::from(mem.size) * u64::from(mem.width) <= 8_388_608
}

fn ports_within(mem: &Mem) -> bool
    ensures { result ≡ judging.ports_within mem.now }
{
    reads_within(mem.reads.as_slice()) && writes_within(mem.writes.as_slice())
}

fn reads_within(reads: &[RdPort]) -> bool
    ensures { result ≡ list_all judging.read_within reads.now }
{
    reads.iter().all(|read| read.wide <= 6)
}

fn writes_within(writes: &[WrPort]) -> bool
    ensures { result ≡ list_all judging.write_within writes.now }
{
    writes.iter().all(write_within)
}

fn write_within(write: &WrPort) -> bool
    ensures { result ≡ judging.write_within write.now }
{
    write.wide <= 6 && write.en.as_slice().len() <= 4_194_304
}

fn widths_within(widths: &[u32]) -> bool
    ensures { result ≡ judging.widths_within widths.now }
{
    match widths {
        [] => true,
        [width, rest @ ..] => {
            1 <= *width && *width <= 1024 && is_doubled(*width, rest) && widths_within(rest)
        }
    }
}

fn is_doubled(width: u32, rest: &[u32]) -> bool
    ensures { result ≡ judging.is_doubled width rest.now }
{
    match rest {
        [] => true,
        [next, ..] => 2 * u64::from(width) <= u64::from(*next),
    }
}

fn numbers_within(variant: &Variant) -> bool
    ensures { result ≡ judging.numbers_within variant.now }
{
    variant.abits <= 20 && variant.cost <= 1_048_576 && byte_within(variant.byte)
}

fn byte_within(byte: Option<u32>) -> bool
    ensures { result ≡ judging.byte_within byte }
{
    match byte {
        None => true,
        Some(byte) => 1 <= byte,
    }
}

fn lengths_within(variant: &Variant) -> bool
    ensures { result ≡ judging.lengths_within variant.now }
{
    let widths = variant.widths.as_slice().len();
    widths as u64 <= u64::from(variant.abits) + 1
        && widths <= 8
        && variant.groups.as_slice().len() <= 4
}

fn groups_within(groups: &[Group]) -> bool
    ensures { result ≡ list_all judging.group_within groups.now }
{
    groups.iter().all(|group| group.names.as_slice().len() <= 8)
}

/// Whether a variant is within its limits. It takes no memory.
#[tactic(auto, using(crate::proofs::Judged::variant_limits))]
pub fn variant_within(variant: &Variant) -> bool
    ensures value { result ≡ judging.variant_within variant.now }
    ensures limits { IsTrue result → VariantLimits variant.now }
{
    numbers_within(variant)
        && lengths_within(variant)
        && widths_within(variant.widths.as_slice())
        && groups_within(variant.groups.as_slice())
}

fn variants_within(variants: &[Variant]) -> bool
    ensures { result ≡ list_all judging.variant_within variants.now }
{
    match variants {
        [] => true,
        [variant, rest @ ..] => variant_within(variant) && variants_within(rest),
    }
}

fn ram_within(ram: &RamKind) -> bool
    ensures { result ≡ judging.ram_within ram.now }
{
    ram.variants.as_slice().len() <= 256 && variants_within(ram.variants.as_slice())
}

fn rams_within(rams: &[RamKind]) -> bool
    ensures { result ≡ list_all judging.ram_within rams.now }
{
    match rams {
        [] => true,
        [ram, rest @ ..] => ram_within(ram) && rams_within(rest),
    }
}

/// Whether a library is within its limits. It takes no memory.
#[tactic(auto, using(crate::proofs::Judged::library_limits))]
pub fn library_within(lib: &Library) -> bool
    ensures value { result ≡ judging.library_within lib.now }
    ensures limits { IsTrue result → LibraryLimits lib.now }
{
    lib.rams.as_slice().len() <= 64 && rams_within(lib.rams.as_slice())
}
