//! The connects of a module.
ghost use Rattle.std.specs.Prelude.{◌≡◌, ◌++◌, IfOk};
ghost use Rattle.net_wires.specs.Connects.{connect_breaches, connect_pairs};
ghost use Rattle.net_wires.specs.Spans.{There};
ghost use Rattle.net_gather.specs.Gather as gathers;
ghost use Rattle.net_gather.specs.Ties as ties;

use crate::fault::Fault;
use lib_core::{List, Memory};
use net_wires::{Breach, Names, Pair, Stop, connect};
use rtlil_text::{Item, Part};
use std::alloc::Global;

/// What the connects of a module tie, and what they break first.
#[derive(Drop)]
pub(crate) struct Connects {
    /// The bits that the connects drive, with those that drive them, but for those that break a
    /// rule.
    pub pairs: List<Pair>,
    pub fault: Option<Fault>,
}

/// Puts the pairs of a connect behind the others, or tells what it breaks first.
fn tie_connect(
    alloc: Global,
    names: &Names,
    pairs: &mut Vec<Pair>,
    left: &[Part],
    right: &[Part],
) -> Result<Option<Breach>, Memory>
    requires near { There 4294967295 names.now }
    ensures { IfOk result (λ breach. (breach ≡ ties.first_of (connect_breaches names.now left.now right.now)) × (pairs.new.items ≡ pairs.old.items ++ ties.if_sound (connect_breaches names.now left.now right.now) (connect_pairs names.now left.now right.now))) }
{
    let mut more = Vec::new(alloc);
    match connect(alloc, names, left, right, &mut more) {
        Ok(()) => {
            pairs.append(&mut more)?;
            Ok(None)
        }
        Err(Stop::Broken(breach)) => Ok(Some(breach)),
        Err(Stop::Memory) => Err(Memory),
    }
}

/// Puts the pairs of an item behind the others, if it is a connect that breaks nothing.
fn tie_item(
    alloc: Global,
    names: &Names,
    pairs: &mut Vec<Pair>,
    item: &Item,
) -> Result<Option<Breach>, Memory>
    requires near { There 4294967295 names.now }
    ensures { IfOk result (λ breach. (breach ≡ ties.first_of (gathers.item_connect_breaches names.now item.now)) × (pairs.new.items ≡ pairs.old.items ++ ties.item_ties names.now item.now)) }
{
    match item {
        Item::Connect { left, right } => {
            tie_connect(alloc, names, pairs, left.as_slice(), right.as_slice())
        }
        Item::Wire(_) => Ok(None),
        Item::Param(_) => Ok(None),
        Item::Mem(_) => Ok(None),
        Item::Cell(_) => Ok(None),
    }
}

/// The first fault, where this item breaks a rule first.
fn or_first(fault: Option<Fault>, item: usize, breach: Option<Breach>) -> Option<Fault>
    ensures { result ≡ ties.or_first fault item breach }
{
    match fault {
        Some(fault) => Some(fault),
        None => match breach {
            None => None,
            Some(breach) => Some(Fault { item, breach }),
        },
    }
}

/// What the connects among the items tie, and what they break first.
pub(crate) fn tie_items(alloc: Global, names: &Names, items: &[Item]) -> Result<Connects, Memory>
    requires near { There 4294967295 names.now }
    ensures { IfOk result (λ found. (found.pairs ≡ ties.ties_of names.now items.now) × (found.fault ≡ ties.first_of (gathers.connect_faults names.now 0 items.now))) }
{
    let mut pairs = Vec::new(alloc);
    let mut fault = None;
    let mut place = 0usize;
    let mut rest = items;
    while let [item, tail @ ..] = rest {
        let breach = tie_item(alloc, names, &mut pairs, item)?;
        fault = or_first(fault, place, breach);
        place += 1;
        rest = tail;
    }
    Ok(Connects {
        pairs: List::from_vec(pairs),
        fault,
    })
}
