//! The kinds of RAM that statements are: a variant for each choice of option values.
ghost use Rattle.std.specs.Prelude.{◌≡◌, ◌≤◌, IfOk, length, false};
ghost use Rattle.std.specs.Option.{option_copied};
ghost use Rattle.lib_judge.specs.Faults.{any_many, judges_of};
ghost use Rattle.lib_judge.specs.Judge.{plain_sizes, sizes_from};
ghost use Rattle.lib_judge.specs.Sketch.{sketch_of};
ghost use Rattle.lib_read.specs.Expansion.{all_rows, kind_of, style_in, style_of, style_word, variant_of, variants_of};

use crate::groups::{copies, groups_of};
use lib_core::{Choice, Group, List, Memory, Name, RamKind, Variant};
use lib_judge::{RawRam, Sizes, all_options, cut_row, rows, sizes_of, sketch_of};
use lib_tree::{Item, Statement};
use std::alloc::Global;

/// The variant of a RAM that a row of choices is.
#[tactic(auto, unfolding(crate::specs::Expansion::variant_of))]
fn variant_of(alloc: Global, ram: &RawRam, row: &[Choice]) -> Result<Variant, Memory>
    requires ports { length ram.now.ports ≤ 4 }
    requires widths { length (sizes_from plain_sizes (sketch_of ram.now row.now).items).widths ≤ 8 }
    ensures { IfOk result (λ variant. variant ≡ variant_of ram.now row.now) }
{
    let sketch = sketch_of(alloc, ram, row)?;
    let (of_ram, of_ports) = cut_row(row, ram.options.as_slice().len());
    let sizes = sizes_of(alloc, sketch.items.as_slice())?;
    let groups = groups_of(
        alloc,
        ram.ports.as_slice(),
        sizes.widths.as_slice(),
        of_ports,
        sketch.ports.as_slice(),
    )?;
    let options = copies(alloc, of_ram)?;
    Ok(sized(sizes, options, groups))
}

/// A variant by what its items say, its choices and its groups.
fn sized(sizes: Sizes, options: List<Choice>, groups: List<Group>) -> Variant
    ensures { result ≡ record { abits = sizes.abits; widths = sizes.widths; per_port = sizes.per_port; byte = sizes.byte; cost = sizes.cost; fill = sizes.fill; options = options; groups = groups } }
{
    let Sizes {
        abits,
        widths,
        per_port,
        byte,
        cost,
        fill,
        style: _,
    } = sizes;
    Variant {
        abits,
        widths,
        per_port,
        byte,
        cost,
        fill,
        options,
        groups,
    }
}

/// A variant for each of the rows.
fn variants_of(alloc: Global, ram: &RawRam, rows: &[List<Choice>]) -> Result<List<Variant>, Memory>
    requires ports { length ram.now.ports ≤ 4 }
    requires widths { any_many (judges_of ram.now rows.now) ≡ false }
    ensures { IfOk result (λ variants. variants ≡ variants_of ram.now rows.now) }
{
    let mut variants = Vec::new(alloc);
    let mut rest = rows;
    while let [row, tail @ ..] = rest {
        variants.push(variant_of(alloc, ram, row.as_slice())?)?;
        rest = tail;
    }
    Ok(List::from_vec(variants))
}

fn style_in(statement: &Statement) -> Option<&Name>
    ensures { option_copied result ≡ style_in statement.now }
{
    match statement {
        Statement::Item(Item::Style(style)) => Some(style),
        _ => None,
    }
}

/// The style of a RAM.
#[tactic(auto, unfolding(crate::specs::Expansion::style_of))]
fn style_of(alloc: Global, body: &[Statement]) -> Result<Option<Name>, Memory>
    ensures { IfOk result (λ style. style ≡ style_of body.now) }
{
    let mut rest = body;
    while let [statement, tail @ ..] = rest {
        if let Some(style) = style_in(statement) {
            return Ok(Some(style.copy(alloc)?));
        }
        rest = tail;
    }
    Ok(None)
}

/// The kind of RAM that a RAM is as it is written.
#[tactic(auto, unfolding(crate::specs::Expansion::kind_of))]
pub fn kind_of(alloc: Global, ram: &RawRam) -> Result<RamKind, Memory>
    requires ports { length ram.now.ports ≤ 4 }
    requires widths { any_many (judges_of ram.now (all_rows ram.now)) ≡ false }
    ensures { IfOk result (λ kind. kind ≡ kind_of ram.now) }
{
    let options = all_options(alloc, ram)?;
    let rows = rows(alloc, options.as_slice())?;
    Ok(RamKind {
        name: ram.name.copy(alloc)?,
        class: ram.class,
        style: style_of(alloc, ram.body.as_slice())?,
        variants: variants_of(alloc, ram, rows.as_slice())?,
    })
}
