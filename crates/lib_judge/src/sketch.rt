//! What counts in a variant.
ghost use Rattle.std.specs.Prelude.{◌≡◌, ◌≤◌, ◌<◌, ◌+◌, ◌^◌, IfOk, length, take, drop, map};
ghost use Rattle.lib_judge.specs.Sketch.{counts, item_in, items_from, next_off, setting_in, settings_from, settings_of, sketch_of};
ghost use Rattle.std.specs.Option.{option_copied};

use crate::raw::{RawPort, RawRam};
use crate::variants::has_choice;
use lib_core::{Choice, Duplicate, List, Memory};
use lib_tree::{Item, Scope, Setting, Statement};
use std::alloc::Global;

/// What counts in a variant, of a RAM and of each of its ports.
#[derive(Debug)]
pub struct Sketch {
    pub items: List<Item>,
    pub ports: List<List<Setting>>,
}

/// By a function of its own, so that whatever holds a sketch drops it by one call.
impl Drop for Sketch {
    fn drop(self) {
        let Sketch {
            items: _items,
            ports: _ports,
        } = self;
    }
}

/// Whether a block counts, by the choices of the RAM and of the port.
fn counts(of_ram: &[Choice], of_port: &[Choice], scope: Scope, choice: &Choice) -> bool
    ensures { result ≡ counts of_ram.now of_port.now scope choice.now }
{
    match scope {
        Scope::Ram => has_choice(of_ram, choice),
        Scope::Port => has_choice(of_port, choice),
    }
}

/// How many blocks are open behind a statement, from the first on that does not count.
fn next_off(of_ram: &[Choice], of_port: &[Choice], off: usize, statement: &Statement) -> usize
    requires { off + 1 < 2 ^ 64 }
    ensures off { result ≡ next_off of_ram.now of_port.now off statement.now }
    ensures within { result ≤ off + 1 }
{
    match statement {
        Statement::Block { scope, choice } => {
            if off == 0 && counts(of_ram, of_port, *scope, choice) {
                0
            } else {
                off + 1
            }
        }
        Statement::Port { .. } => off + 1,
        Statement::End => off.saturating_sub(1),
        Statement::Ram { .. } | Statement::Item(_) | Statement::Setting(_) => off,
    }
}

fn item_in(statement: &Statement) -> Option<&Item>
    ensures { option_copied result ≡ item_in statement.now }
{
    match statement {
        Statement::Item(item) => Some(item),
        _ => None,
    }
}

fn setting_in(statement: &Statement) -> Option<&Setting>
    ensures { option_copied result ≡ setting_in statement.now }
{
    match statement {
        Statement::Setting(setting) => Some(setting),
        _ => None,
    }
}

/// The items of a block that count.
#[tactic(auto, unfolding(crate::specs::Sketch::items_from))]
fn items_of(alloc: Global, of_ram: &[Choice], body: &[Statement]) -> Result<List<Item>, Memory>
    ensures { IfOk result (λ items. items ≡ items_from of_ram.now 0 body.now) }
{
    let mut items = Vec::new(alloc);
    let mut off: usize = 0;
    let mut rest = body;
    while let [statement, tail @ ..] = rest {
        if off == 0 {
            if let Some(item) = item_in(statement) {
                items.push(item.duplicate(alloc)?)?;
            }
        }
        off = next_off(of_ram, &[], off, statement);
        rest = tail;
    }
    Ok(List::from_vec(items))
}

/// The properties of a port that count.
#[tactic(auto, unfolding(crate::specs::Sketch::settings_from))]
fn settings_in(
    alloc: Global,
    of_ram: &[Choice],
    of_port: &[Choice],
    body: &[Statement],
) -> Result<List<Setting>, Memory>
    ensures { IfOk result (λ settings. settings ≡ settings_from of_ram.now of_port.now 0 body.now) }
{
    let mut settings = Vec::new(alloc);
    let mut off: usize = 0;
    let mut rest = body;
    while let [statement, tail @ ..] = rest {
        if off == 0 {
            if let Some(setting) = setting_in(statement) {
                settings.push(setting.duplicate(alloc)?)?;
            }
        }
        off = next_off(of_ram, of_port, off, statement);
        rest = tail;
    }
    Ok(List::from_vec(settings))
}

/// The choices before a place and those behind it.
pub fn cut_row(row: &[Choice], count: usize) -> (&[Choice], &[Choice])
    ensures front { result.0.now ≡ take count row.now }
    ensures rest { result.1.now ≡ drop count row.now }
{
    row.split_at(count.min(row.len()))
}

/// What counts in each port, by the choices of the RAM and those of the ports in their order.
#[tactic(auto, unfolding(crate::specs::Sketch::settings_of))]
fn settings_of(
    alloc: Global,
    of_ram: &[Choice],
    of_ports: &[Choice],
    ports: &[RawPort],
) -> Result<List<List<Setting>>, Memory>
    ensures { IfOk result (λ settings. settings ≡ settings_of of_ram.now of_ports.now ports.now) }
{
    let mut settings = Vec::new(alloc);
    let mut row = of_ports;
    let mut rest = ports;
    while let [port, tail @ ..] = rest {
        let (own, behind) = cut_row(row, port.options.as_slice().len());
        settings.push(settings_in(alloc, of_ram, own, port.body.as_slice())?)?;
        row = behind;
        rest = tail;
    }
    Ok(List::from_vec(settings))
}

/// What counts in the variant of a RAM that a row of choices is.
pub fn sketch_of(alloc: Global, ram: &RawRam, row: &[Choice]) -> Result<Sketch, Memory>
    ensures { IfOk result (λ sketch. sketch ≡ sketch_of ram.now row.now) }
{
    let (of_ram, of_ports) = cut_row(row, ram.options.as_slice().len());
    let items = items_of(alloc, of_ram, ram.body.as_slice())?;
    let ports = settings_of(alloc, of_ram, of_ports, ram.ports.as_slice())?;
    Ok(Sketch { items, ports })
}
