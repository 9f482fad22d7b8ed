//! The choices of option values that make variants.
ghost use Rattle.std.specs.Prelude.{◌≡◌, ◌≤◌, ◌++◌, ◌∷◌, [], IfOk, OnOk, length, map};
ghost use Rattle.std.specs.Option.{option_copied};
ghost use Rattle.lib_judge.specs.Names.{place_of};
ghost use Rattle.lib_judge.specs.Variants.{axes, capped_count, extend, first_name, has_choice, has_name, mentions, option_in, row_with, rows_from, same_choice, same_value, with_choice, with_value};

use crate::names::Names;
use lib_core::{Choice, Duplicate, List, Memory, Name, Value};
use lib_tree::{Scope, Statement};
use std::alloc::Global;

fn same_value(a: &Value, b: &Value) -> bool
    ensures { result ≡ same_value a.now b.now }
{
    match (a, b) {
        (Value::Number(n), Value::Number(m)) => *n == *m,
        (Value::Text(s), Value::Text(t)) => s.as_slice() == t.as_slice(),
        _ => false,
    }
}

fn same_choice(a: &Choice, b: &Choice) -> bool
    ensures { result ≡ same_choice a.now b.now }
{
    a.name.as_slice() == b.name.as_slice() && same_value(&a.value, &b.value)
}

/// Whether the choice is among the choices.
pub fn has_choice(choices: &[Choice], choice: &Choice) -> bool
    ensures { result ≡ has_choice choices.now choice.now }
{
    choices.iter().any(|other| same_choice(other, choice))
}

/// Whether the name is among the names.
pub fn has_name(names: &[Name], name: &Name) -> bool
    ensures { result ≡ has_name names.now name.now }
{
    names
        .iter()
        .any(|other| other.as_slice() == name.as_slice())
}

/// The option of a statement, where it begins the block of one of the scope.
fn option_in(scope: Scope, statement: &Statement) -> Option<&Choice>
    ensures { option_copied result ≡ option_in scope statement.now }
{
    match statement {
        Statement::Block {
            scope: other,
            choice,
        } => { if *other == scope { Some(choice) } else { None } }
        _ => None,
    }
}

/// The options of the scope and their values, as they are written.
#[tactic(auto, unfolding(crate::specs::Variants::mentions))]
pub fn mentions(alloc: Global, scope: Scope, body: &[Statement]) -> Result<Vec<Choice>, Memory>
    ensures { IfOk result (λ choices. choices.items ≡ mentions scope body.now) }
{
    let mut choices = Vec::new(alloc);
    let mut rest = body;
    while let [statement, tail @ ..] = rest {
        if let Some(choice) = option_in(scope, statement) {
            choices.push(choice.duplicate(alloc)?)?;
        }
        rest = tail;
    }
    Ok(choices)
}

/// Puts the choice among the values, if it is not there yet.
fn add_value(alloc: Global, values: &mut List<Choice>, choice: &Choice) -> Result<(), Memory>
    ensures { OnOk result (values.new ≡ with_value values.old choice.now) }
{
    if !has_choice(values.as_slice(), choice) {
        values.push(choice.duplicate(alloc)?)?;
    }
    Ok(())
}

/// The values of an option that is mentioned once.
fn alone(alloc: Global, choice: &Choice) -> Result<List<Choice>, Memory>
    ensures { IfOk result (λ values. values ≡ choice.now ∷ []) }
{
    let mut values = List::from_vec(Vec::new(alloc));
    values.push(choice.duplicate(alloc)?)?;
    Ok(values)
}

/// Puts the choice among the values of its option, which stands at the place, or behind all options.
#[tactic(auto, using(crate::proofs::Grouped::put_there, crate::proofs::Grouped::put_new))]
fn add_choice(
    alloc: Global,
    axes: &mut Vec<List<Choice>>,
    place: usize,
    choice: &Choice,
) -> Result<(), Memory>
    requires { place ≡ place_of (map first_name axes.old.items) choice.now.name }
    ensures { OnOk result (axes.new.items ≡ with_choice axes.old.items choice.now) }
{
    if place < axes.len() {
        add_value(alloc, &mut axes[place], choice)?;
    } else {
        axes.push(alone(alloc, choice)?)?;
    }
    Ok(())
}

/// The values of each option.
#[tactic(auto, unfolding(crate::specs::Variants::axes_from), using(crate::proofs::Grouped::names_put))]
pub fn axes(alloc: Global, choices: &[Choice]) -> Result<Vec<List<Choice>>, Memory>
    ensures { IfOk result (λ found. found.items ≡ axes choices.now) }
{
    let mut names = Names::new(alloc);
    let mut axes: Vec<List<Choice>> = Vec::new(alloc);
    let mut rest = choices;
    while let [choice, tail @ ..] = rest {
        let place = names.add(alloc, &choice.name)?;
        add_choice(alloc, &mut axes, place, choice)?;
        rest = tail;
    }
    Ok(axes)
}

/// The row with each choice of the axis behind it.
fn row_with(alloc: Global, row: &List<Choice>, axis: &[Choice]) -> Result<Vec<List<Choice>>, Memory>
    ensures { IfOk result (λ rows. rows.items ≡ row_with axis.now row.now) }
{
    let mut rows = Vec::new(alloc);
    let mut rest = axis;
    while let [choice, tail @ ..] = rest {
        let mut longer = row.duplicate(alloc)?;
        longer.push(choice.duplicate(alloc)?)?;
        rows.push(longer)?;
        rest = tail;
    }
    Ok(rows)
}

/// Puts the items at the end.
fn append(rows: &mut Vec<List<Choice>>, more: Vec<List<Choice>>) -> Result<(), Memory>
    ensures { OnOk result (rows.new.items ≡ rows.old.items ++ more.items) }
{
    for row in more {
        rows.push(row)?;
    }
    Ok(())
}

/// Each row with each choice of the axis behind it.
fn extend(
    alloc: Global,
    rows: &[List<Choice>],
    axis: &[Choice],
) -> Result<Vec<List<Choice>>, Memory>
    ensures { IfOk result (λ longer. longer.items ≡ extend rows.now axis.now) }
{
    let mut longer = Vec::new(alloc);
    let mut rest = rows;
    while let [row, tail @ ..] = rest {
        append(&mut longer, row_with(alloc, row, axis)?)?;
        rest = tail;
    }
    Ok(longer)
}

/// Each row with the choice behind it.
fn each_with(
    alloc: Global,
    rows: Vec<List<Choice>>,
    choice: &Choice,
) -> Result<Vec<List<Choice>>, Memory>
    ensures { IfOk result (λ longer. longer.items ≡ map (λ row. row ++ choice.now ∷ []) rows.items) }
{
    let mut longer = Vec::new(alloc);
    for row in rows {
        let mut row = row;
        row.push(choice.duplicate(alloc)?)?;
        longer.push(row)?;
    }
    Ok(longer)
}

/// Each row with each choice of the axis behind it. Where there is one choice, no row is copied.
fn extended(
    alloc: Global,
    rows: Vec<List<Choice>>,
    axis: &[Choice],
) -> Result<Vec<List<Choice>>, Memory>
    ensures { IfOk result (λ longer. longer.items ≡ extend rows.items axis.now) }
{
    match axis {
        [only] => each_with(alloc, rows, only),
        _ => extend(alloc, rows.as_slice(), axis),
    }
}

/// One choice of each axis, in all ways. The last axis varies fastest.
#[tactic(auto, unfolding(crate::specs::Variants::rows_from))]
pub fn rows(alloc: Global, axes: &[List<Choice>]) -> Result<Vec<List<Choice>>, Memory>
    ensures { IfOk result (λ found. found.items ≡ rows_from ([] ∷ []) axes.now) }
{
    let mut rows = Vec::new(alloc);
    rows.push(List::from_vec(Vec::new(alloc)))?;
    let mut rest = axes;
    while let [axis, tail @ ..] = rest {
        rows = extended(alloc, rows, axis.as_slice())?;
        rest = tail;
    }
    Ok(rows)
}

/// How many rows there are, as far as 257.
#[tactic(auto, unfolding(crate::specs::Variants::capped_count))]
pub fn capped_count(axes: &[List<Choice>]) -> usize
    ensures { result ≡ capped_count 1 axes.now }
{
    let mut count: usize = 1;
    let mut rest = axes;
    while let [axis, tail @ ..] = rest {
        count = (count * axis.as_slice().len().min(257)).min(257);
        rest = tail;
    }
    count
}
