//! The groups of a variant.
ghost use Rattle.std.specs.Prelude.{◌≡◌, ◌<◌, ◌≤◌, ◌^◌, IfOk, length, take, drop};
ghost use Rattle.lib_read.specs.Groups.{allows, gate_of, group_of, groups_of, has_one_of, is_allowed, levels_from, names_group, plain_group, prio_from, seen_by, seen_in, trans_from, wins_in, wins_over, with_setting, with_settings};

use lib_core::{
    Choice, Duplicate, Fill, Group, List, Memory, Name, OwnWrite, Seen, SrstGate, Trans,
};
use lib_judge::{RawPort, cut_row, has_name, is_width};
use lib_tree::{Setting, Targets};
use std::alloc::Global;

/// Whether one of the names is a name of the port.
fn has_one_of(names: &[Name], port: &RawPort) -> bool
    ensures { result ≡ has_one_of names.now port.now }
{
    names
        .iter()
        .any(|name| has_name(port.names.as_slice(), name))
}

/// Whether the targets name the group of the port.
fn names_group(targets: &Targets, port: &RawPort) -> bool
    ensures { result ≡ names_group targets.now port.now }
{
    match targets {
        Targets::All => true,
        Targets::Named(names) => has_one_of(names.as_slice(), port),
    }
}

/// How the reads of the port's group see the writes, where the statement is about them.
fn seen_in(port: &RawPort, setting: &Setting) -> Option<Seen>
    ensures { result ≡ seen_in port.now setting.now }
{
    match setting {
        Setting::Wrtrans { targets, seen } => {
            if names_group(targets, port) {
                Some(*seen)
            } else {
                None
            }
        }
        _ => None,
    }
}

/// How the reads of the port's group see the writes, where a statement says so.
#[tactic(auto, unfolding(crate::specs::Groups::seen_by))]
fn seen_by(port: &RawPort, settings: &[Setting]) -> Option<Seen>
    ensures { result ≡ seen_by port.now settings.now }
{
    let mut rest = settings;
    while let [setting, tail @ ..] = rest {
        if let Some(seen) = seen_in(port, setting) {
            return Some(seen);
        }
        rest = tail;
    }
    None
}

/// The groups whose reads see the writes in a way that is said.
#[tactic(auto, unfolding(crate::specs::Groups::trans_from))]
fn trans_of(alloc: Global, ports: &[RawPort], settings: &[Setting]) -> Result<List<Trans>, Memory>
    requires { length ports.now < 2 ^ 32 }
    ensures { IfOk result (λ trans. trans ≡ trans_from 0 ports.now settings.now) }
{
    let mut trans = Vec::new(alloc);
    let mut group: u32 = 0;
    let mut rest = ports;
    while let [port, tail @ ..] = rest {
        if let Some(seen) = seen_by(port, settings) {
            trans.push(Trans { group, seen })?;
        }
        group += 1;
        rest = tail;
    }
    Ok(List::from_vec(trans))
}

fn wins_in(port: &RawPort, setting: &Setting) -> bool
    ensures { result ≡ wins_in port.now setting.now }
{
    match setting {
        Setting::Wrprio(targets) => names_group(targets, port),
        _ => false,
    }
}

/// Whether the writes win over those of the port's group.
fn wins_over(port: &RawPort, settings: &[Setting]) -> bool
    ensures { result ≡ wins_over port.now settings.now }
{
    settings.iter().any(|setting| wins_in(port, setting))
}

/// The groups over which the writes win.
#[tactic(auto, unfolding(crate::specs::Groups::prio_from))]
fn prio_of(alloc: Global, ports: &[RawPort], settings: &[Setting]) -> Result<List<u32>, Memory>
    requires { length ports.now < 2 ^ 32 }
    ensures { IfOk result (λ prio. prio ≡ prio_from 0 ports.now settings.now) }
{
    let mut prio = Vec::new(alloc);
    let mut group: u32 = 0;
    let mut rest = ports;
    while let [port, tail @ ..] = rest {
        if wins_over(port, settings) {
            prio.push(group)?;
        }
        group += 1;
        rest = tail;
    }
    Ok(List::from_vec(prio))
}

/// Whether the statement leaves the width to the port.
fn allows(width: u32, setting: &Setting) -> bool
    ensures { result ≡ allows width setting.now }
{
    match setting {
        Setting::Width { widths, .. } => is_width(widths.as_slice(), width),
        _ => true,
    }
}

/// Whether a port may have the width.
fn is_allowed(settings: &[Setting], width: u32) -> bool
    ensures { result ≡ is_allowed settings.now width }
{
    settings.iter().all(|setting| allows(width, setting))
}

/// The places of the widths that a port may have.
#[tactic(auto, unfolding(crate::specs::Groups::levels_from))]
fn levels_of(alloc: Global, widths: &[u32], settings: &[Setting]) -> Result<List<u32>, Memory>
    requires { length widths.now < 2 ^ 32 }
    ensures { IfOk result (λ levels. levels ≡ levels_from 0 widths.now settings.now) }
{
    let mut levels = Vec::new(alloc);
    let mut level: u32 = 0;
    let mut rest = widths;
    while let [width, tail @ ..] = rest {
        if is_allowed(settings, *width) {
            levels.push(level)?;
        }
        level += 1;
        rest = tail;
    }
    Ok(List::from_vec(levels))
}

fn gate_of(gate: Option<SrstGate>) -> SrstGate
    ensures { result ≡ gate_of gate }
{
    match gate {
        None => SrstGate::Ungated,
        Some(gate) => gate,
    }
}

/// The group with what the statement says. Targets and widths are there before.
fn with_setting(group: Group, setting: &Setting) -> Group
    ensures { result ≡ with_setting group setting.now }
{
    match setting {
        Setting::Clock(edge) => Group {
            edge: Some(*edge),
            ..group
        },
        Setting::Clken => Group {
            clken: true,
            ..group
        },
        Setting::Rden => Group {
            rden: true,
            ..group
        },
        Setting::Rdwr(own) => Group { own: *own, ..group },
        Setting::Rdsrst { fill, gate } => Group {
            srst: *fill,
            srst_gate: gate_of(*gate),
            ..group
        },
        Setting::Rdarst(fill) => Group {
            arst: *fill,
            ..group
        },
        Setting::Rdinit(fill) => Group {
            start: *fill,
            ..group
        },
        Setting::WrbeSeparate => Group {
            separate: true,
            ..group
        },
        Setting::Wrtrans { .. } | Setting::Wrprio(_) | Setting::Width { .. } => group,
    }
}

/// The group with what the statements say.
#[tactic(auto, unfolding(crate::specs::Groups::with_settings))]
fn with_settings(mut group: Group, settings: &[Setting]) -> Group
    ensures { result ≡ with_settings group settings.now }
{
    let mut rest = settings;
    while let [setting, tail @ ..] = rest {
        group = with_setting(group, setting);
        rest = tail;
    }
    group
}

/// Equal copies of choices.
pub fn copies(alloc: Global, choices: &[Choice]) -> Result<List<Choice>, Memory>
    ensures { IfOk result (λ copies. copies ≡ choices.now) }
{
    let mut copies = Vec::with_capacity(alloc, choices.len())?;
    for choice in choices {
        copies.push(choice.duplicate(alloc)?)?;
    }
    Ok(List::from_vec(copies))
}

/// A group of which nothing is said but its targets and its widths.
fn plain_group(
    alloc: Global,
    port: &RawPort,
    choices: &[Choice],
    trans: List<Trans>,
    prio: List<u32>,
    levels: List<u32>,
) -> Result<Group, Memory>
    ensures { IfOk result (λ group. group ≡ plain_group port.now choices.now trans prio levels) }
{
    Ok(Group {
        kind: port.kind,
        names: port.names.duplicate(alloc)?,
        options: copies(alloc, choices)?,
        edge: None,
        clken: false,
        rden: false,
        own: OwnWrite::Undefined,
        trans,
        prio,
        srst: Fill::Nothing,
        srst_gate: SrstGate::Ungated,
        arst: Fill::Nothing,
        start: Fill::Nothing,
        separate: false,
        levels,
    })
}

/// The group of a port of a RAM with these ports and these widths.
#[tactic(auto, unfolding(crate::specs::Groups::group_of))]
fn group_of(
    alloc: Global,
    ports: &[RawPort],
    widths: &[u32],
    port: &RawPort,
    choices: &[Choice],
    settings: &[Setting],
) -> Result<Group, Memory>
    requires ports { length ports.now < 2 ^ 32 }
    requires widths { length widths.now < 2 ^ 32 }
    ensures { IfOk result (λ group. group ≡ group_of ports.now widths.now port.now choices.now settings.now) }
{
    let trans = trans_of(alloc, ports, settings)?;
    let prio = prio_of(alloc, ports, settings)?;
    let levels = levels_of(alloc, widths, settings)?;
    let plain = plain_group(alloc, port, choices, trans, prio, levels)?;
    Ok(with_settings(plain, settings))
}

/// The groups of the ports, each with its choices of the row and its statements.
#[tactic(auto, unfolding(crate::specs::Groups::groups_of))]
pub fn groups_of(
    alloc: Global,
    ports: &[RawPort],
    widths: &[u32],
    row: &[Choice],
    settings: &[List<Setting>],
) -> Result<List<Group>, Memory>
    requires ports { length ports.now < 2 ^ 32 }
    requires widths { length widths.now < 2 ^ 32 }
    ensures { IfOk result (λ groups. groups ≡ groups_of ports.now widths.now ports.now row.now settings.now) }
{
    let mut groups = Vec::new(alloc);
    let mut choices = row;
    let mut behind = settings;
    let mut rest = ports;
    while let [port, tail @ ..] = rest {
        let [own, others @ ..] = behind else {
            return Ok(List::from_vec(groups));
        };
        let (mine, left) = cut_row(choices, port.options.as_slice().len());
        groups.push(group_of(alloc, ports, widths, port, mine, own.as_slice())?)?;
        choices = left;
        behind = others;
        rest = tail;
    }
    Ok(List::from_vec(groups))
}
