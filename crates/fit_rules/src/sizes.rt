//! How many rows and columns of cells a memory becomes, and how many nets that makes.
ghost use Rattle.std.specs.Prelude.{◌≡◌, ◌≤◌, ◌<◌, ◌-◌, ◌*◌, ◌^◌, length, cond};
ghost use Rattle.std.specs.List.{sum_by};
ghost use Rattle.net_core.specs.Valid.{Each, data_width};
ghost use Rattle.fit_rules.specs.Limits.{MemLimits, VariantLimits, IsSpot};
ghost use Rattle.fit_rules.specs.Shape as shape;
ghost use Rattle.fit_rules.specs.Rules as rules;

use crate::bits::{room_bits, two_to};
use crate::spots::Spot;
use fit_pairs::reads;
use geom_core::{layout, split};
use lib_core::{Group, Variant};
use net_core::{Mem, RdPort, WrPort};

/// The words of a memory that a row of cells has. It takes no memory.
#[tactic(auto, using(crate::proofs::Bounds::power_few, crate::proofs::Bounds::power_some, crate::proofs::Bounds::row_words_few, crate::proofs::Bounds::row_words_some))]
fn row_words(variant: &Variant, spot: Spot) -> u32
    requires limits { VariantLimits variant.now }
    requires spot { IsSpot variant.now spot }
    ensures value { result ≡ shape.row_words variant.now spot }
    ensures some { 0 < result }
{
    power(variant.abits.saturating_sub(spot.level)) * power(spot.fold)
}

/// A power of 2.
#[tactic(auto, using(crate::proofs::Powers::small_shifted_is))]
fn power(exponent: u32) -> u32
    requires { exponent ≤ 20 }
    ensures { result ≡ 2 ^ exponent }
{
    1 << exponent
}

/// The rows of cells. It takes no memory.
#[tactic(auto, using(crate::proofs::Bounds::rows_few, crate::proofs::Bounds::full_rows, crate::proofs::Bounds::power_some))]
pub fn rows(mem: &Mem, variant: &Variant, spot: Spot) -> u32
    requires memory { MemLimits mem.now }
    requires limits { VariantLimits variant.now }
    requires spot { IsSpot variant.now spot }
    ensures value { result ≡ shape.rows mem.now variant.now spot }
    ensures bound { result ≤ 1048576 }
    ensures full { (result - 1) * 2 ^ spot.fold ≤ mem.now.size }
{
    split(mem.size, row_words(variant, spot))
}

/// The columns of cells. It takes no memory.
#[tactic(auto, using(crate::proofs::Within::has_rows, crate::proofs::Within::has_units, crate::proofs::Bounds::row_bits_few))]
pub fn columns(mem: &Mem, variant: &Variant, spot: Spot) -> u32
    requires memory { MemLimits mem.now }
    requires limits { VariantLimits variant.now }
    requires spot { IsSpot variant.now spot }
    ensures value { result ≡ shape.columns mem.now variant.now spot }
    ensures bound { result ≤ 4194304 }
    ensures within { result ≤ mem.now.width * 2 ^ spot.fold }
{
    layout(mem, variant, spot.fold, spot.level).columns
}

/// The bits of a port's data. It takes no memory.
#[tactic(auto, using(crate::proofs::Bounds::row_bits_few, crate::proofs::Bounds::small_power_few))]
pub fn data_width(mem: &Mem, wide: u32) -> u64
    requires memory { MemLimits mem.now }
    requires wide { wide ≤ 6 }
    ensures value { result ≡ data_width mem.now wide }
    ensures bound { result ≤ 4194304 }
{
    u64::from(mem.width) * two_to(wide)
}

/// The largest of these widths, 0 where there is none. It takes no memory.
pub fn largest(widths: &[u32]) -> u32
    ensures { result ≡ rules.largest widths.now }
{
    match widths {
        [] => 0,
        [width, widths @ ..] => (*width).max(largest(widths)),
    }
}

/// How many names the groups have whose ports read. It takes no memory.
pub fn reading_names(variant: &Variant) -> u64
    requires { VariantLimits variant.now }
    ensures value { result ≡ rules.reading_names variant.now }
    ensures bound { result ≤ 32 }
{
    let mut names = 0;
    for group in variant.groups.as_slice() {
        names += names_that_read(group);
    }
    names
}

fn names_that_read(group: &Group) -> u64
    requires { length group.now.names ≤ 8 }
    ensures value { result ≡ rules.names_that_read group.now }
    ensures bound { result ≤ 8 }
{
    if reads(group.kind) {
        group.names.as_slice().len() as u64
    } else {
        0
    }
}

/// The nets that a port of 2 to this power words makes. It takes no memory.
#[tactic(auto, using(crate::proofs::Bounds::port_nets_few, crate::proofs::Bounds::row_part_few, crate::proofs::Bounds::small_power_few))]
pub fn port_nets(mem: &Mem, variant: &Variant, spot: Spot, wide: u32) -> u64
    requires memory { MemLimits mem.now }
    requires limits { VariantLimits variant.now }
    requires spot { IsSpot variant.now spot }
    requires wide { wide ≤ 6 }
    ensures value { result ≡ rules.port_nets mem.now variant.now spot wide }
    ensures bound { result ≤ 281477124194304 }
{
    u64::from(rows(mem, variant, spot))
        * two_to(spot.fold)
        * (u64::from(room_bits(mem, wide)) + data_width(mem, wide))
}

fn reads_nets(mem: &Mem, variant: &Variant, spot: Spot) -> u64
    requires memory { MemLimits mem.now }
    requires limits { VariantLimits variant.now }
    requires spot { IsSpot variant.now spot }
    requires few { length mem.now.reads ≤ 8 }
    ensures value { result ≡ sum_by (λ r. rules.port_nets mem.now variant.now spot r.wide) mem.now.reads }
    ensures bound { result ≤ 2251816993554432 }
{
    let mut nets = 0;
    for read in mem.reads.as_slice() {
        nets += port_nets(mem, variant, spot, read.wide);
    }
    nets
}

fn writes_nets(mem: &Mem, variant: &Variant, spot: Spot) -> u64
    requires memory { MemLimits mem.now }
    requires limits { VariantLimits variant.now }
    requires spot { IsSpot variant.now spot }
    requires few { length mem.now.writes ≤ 4 }
    ensures value { result ≡ sum_by (λ w. rules.port_nets mem.now variant.now spot w.wide) mem.now.writes }
    ensures bound { result ≤ 1125908496777216 }
{
    let mut nets = 0;
    for write in mem.writes.as_slice() {
        nets += port_nets(mem, variant, spot, write.wide);
    }
    nets
}

/// The nets that so many cells make, with what stands around them. It takes no memory.
#[tactic(auto, using(crate::proofs::Within::largest_few, crate::proofs::Bounds::cell_bits_few, crate::proofs::Bounds::cells_bits_few))]
pub fn new_nets(mem: &Mem, variant: &Variant, spot: Spot, cells: u64) -> u64
    requires memory { MemLimits mem.now }
    requires limits { VariantLimits variant.now }
    requires spot { IsSpot variant.now spot }
    requires few_reads { length mem.now.reads ≤ 8 }
    requires few_writes { length mem.now.writes ≤ 4 }
    requires cells { cells ≤ 4096 }
    ensures { result ≡ rules.new_nets mem.now variant.now spot cells }
{
    let bits = u64::from(largest(variant.widths.as_slice())) * reading_names(variant);
    cells * bits + 64 * (reads_nets(mem, variant, spot) + writes_nets(mem, variant, spot))
}
