//! Wires, compared but for how their bits start, and wires that may be added.
ghost use Rattle.std.specs.Prelude.{◌≡◌, ◌≤◌, true, codes, length};
ghost use Rattle.std.specs.Str.{bytes_eq};
ghost use Rattle.std.specs.List.{AllByRecursion};
ghost use Rattle.net_same.specs.Nets.{sent};
ghost use Rattle.net_same.specs.Same.{is_start_attr, without_starts, BeginsPlain, has_ram_name, IsSameWire, IsAdded, WiresSame};
ghost use Rattle.net_same.specs.Learning.{WiresTeach, IsWireSeen, AreWiresSeen};

use crate::alike::Alike;
use crate::nets::Wired;
use crate::tables::Tables;
use net_core::{Attr, Wire};

/// Whether an attribute tells how the bits of a wire start.
fn is_start_attr(attr: &Attr) -> bool
    ensures { result ≡ is_start_attr attr.now }
{
    attr.name.as_slice() == b"\\init".as_slice()
}

/// The attributes from the first on that does not tell how bits start.
fn past_starts(attrs: &[Attr]) -> &[Attr]
    ensures same { without_starts result.now ≡ without_starts attrs.now }
    ensures plain { BeginsPlain result.now }
    ensures shorter { length result.now ≤ length attrs.now }
{
    let mut rest = attrs;
    while let [first, tail @ ..] = rest {
        if !is_start_attr(first) {
            return rest;
        }
        rest = tail;
    }
    rest
}

/// Whether attributes are the same but for those that tell how bits start.
fn are_same_attrs(olds: &[Attr], news: &[Attr]) -> bool
    ensures sound { result ≡ true → without_starts news.now ≡ without_starts olds.now }
    ensures complete { without_starts news.now ≡ without_starts olds.now → result ≡ true }
{
    let mut lefts = past_starts(olds);
    let mut rights = past_starts(news);
    while let [old, tail @ ..] = lefts {
        let [new, more @ ..] = rights else {
            return false;
        };
        if !old.is_alike(new) {
            return false;
        }
        lefts = past_starts(tail);
        rights = past_starts(more);
    }
    rights.is_empty()
}

/// Whether a wire is another, but for how its bits start, with the nets that the tables say.
fn is_same_wire(old: &Wire, new: &Wire, tables: &Tables) -> bool
    ensures sound { result ≡ true → IsSameWire (sent tables.now) old.now new.now }
    ensures complete { IsWireSeen old.now new.now tables.now result }
{
    old.name.is_alike(&new.name)
        & old.port.is_alike(&new.port)
        & old.input.is_alike(&new.input)
        & old.output.is_alike(&new.output)
        & old.offset.is_alike(&new.offset)
        & old.upto.is_alike(&new.upto)
        & old.signed.is_alike(&new.signed)
        & old.bits.is_renamed(&new.bits, tables)
        & are_same_attrs(old.attrs.as_slice(), new.attrs.as_slice())
}

/// Whether a wire may be added: it is no port, and its name is not one of a RAM cell's nets.
fn is_added(wire: &Wire) -> bool
    ensures sound { result ≡ true → IsAdded wire.now }
    ensures complete { IsAdded wire.now → result ≡ true }
{
    (wire.port == 0) & !wire.input & !wire.output & !has_ram_name(wire.name.as_slice())
}

/// Whether a name begins with `$ram`.
fn has_ram_name(name: &[u8]) -> bool
    ensures { result ≡ has_ram_name name.now }
{
    name.starts_with(b"$ram".as_slice())
}

/// Whether all of these wires may be added.
fn are_added(wires: &[Wire]) -> bool
    ensures sound { result ≡ true → AllByRecursion IsAdded wires.now }
    ensures complete { AllByRecursion IsAdded wires.now → result ≡ true }
{
    let mut rest = wires;
    while let [first, tail @ ..] = rest {
        if !is_added(first) {
            return false;
        }
        rest = tail;
    }
    true
}

/// Whether wires are others, in order, and then wires that may be added.
pub fn wires_are_same(olds: &[Wire], news: &[Wire], tables: &Tables) -> bool
    ensures sound { result ≡ true → WiresSame (sent tables.now) olds.now news.now }
    ensures complete { AreWiresSeen olds.now news.now tables.now result }
{
    let mut lefts = olds;
    let mut rights = news;
    while let [old, tail @ ..] = lefts {
        let [new, more @ ..] = rights else {
            return false;
        };
        if !is_same_wire(old, new, tables) {
            return false;
        }
        lefts = tail;
        rights = more;
    }
    are_added(rights)
}

/// Enters the nets of wires that stand at the same places.
pub fn learn_wires(olds: &[Wire], news: &[Wire], tables: &mut Tables)
    ensures { WiresTeach olds.now news.now tables.old tables.new }
{
    let mut lefts = olds;
    let mut rights = news;
    while let [old, tail @ ..] = lefts {
        let [new, more @ ..] = rights else {
            return;
        };
        old.bits.learn(&new.bits, tables);
        lefts = tail;
        rights = more;
    }
}
