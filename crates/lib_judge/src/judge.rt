//! What is wrong with a RAM.
ghost use Rattle.std.specs.Prelude.{◌≡◌, ◌≤◌, ◌<◌, ◌+◌, ◌++◌, ◌∷◌, [], IfOk, OnOk, length, map};
ghost use Rattle.lib_judge.specs.Judge.{all_fit, all_known, any_lacks, any_named, any_overlap, any_repeat, any_unknown, fits_byte, fits_bytes, has_abits, has_both, has_clock, has_widths, is_abits, is_bad, is_byte, is_clock, is_cost, is_init, is_missing, is_set_again, is_style, is_twice, is_width, items_repeat, lacks, lacks_clock, lacks_target, missing_in, one_group, one_overlap, overlap, plain_sizes, ports_known, rises, rises_from, same_item, same_setting, same_target, sets_widths, settings_known, settings_repeat, sizes_from, stands_again, widths_known, with_item};

use crate::names::Names;
use crate::raw::{RawPort, RawRam};
use crate::sketch::Sketch;
use crate::variants::has_name;
use lib_core::{Duplicate, Fill, List, Memory, Name, PortKind, Property, kind_table};
use lib_tree::{Item, Setting, Size, Targets};
use std::alloc::Global;

fn is_abits(item: &Item) -> bool
    ensures { result ≡ is_abits item.now }
{
    matches!(item, Item::Size(Size::Abits, _))
}

/// `width` and `widths` are one item.
fn sets_widths(item: &Item) -> bool
    ensures { result ≡ sets_widths item.now }
{
    match item {
        Item::Size(Size::Width, _) => true,
        Item::Widths { .. } => true,
        _ => false,
    }
}

fn is_byte(item: &Item) -> bool
    ensures { result ≡ is_byte item.now }
{
    matches!(item, Item::Size(Size::Byte, _))
}

fn is_cost(item: &Item) -> bool
    ensures { result ≡ is_cost item.now }
{
    matches!(item, Item::Size(Size::Cost, _))
}

fn is_init(item: &Item) -> bool
    ensures { result ≡ is_init item.now }
{
    matches!(item, Item::Init(_))
}

fn is_style(item: &Item) -> bool
    ensures { result ≡ is_style item.now }
{
    matches!(item, Item::Style(_))
}

fn same_item(a: &Item, b: &Item) -> bool
    ensures { result ≡ same_item a.now b.now }
{
    match a {
        Item::Size(Size::Abits, _) => is_abits(b),
        Item::Size(Size::Width, _) => sets_widths(b),
        Item::Size(Size::Byte, _) => is_byte(b),
        Item::Size(Size::Cost, _) => is_cost(b),
        Item::Widths { .. } => sets_widths(b),
        Item::Init(_) => is_init(b),
        Item::Style(_) => is_style(b),
    }
}

/// Whether the item is among the items.
fn stands_again(item: &Item, items: &[Item]) -> bool
    ensures { result ≡ stands_again item.now items.now }
{
    items.iter().any(|other| same_item(item, other))
}

/// Whether an item stands twice.
#[tactic(auto, unfolding(crate::specs::Judge::items_repeat))]
fn items_repeat(items: &[Item]) -> bool
    ensures { result ≡ items_repeat items.now }
{
    let mut rest = items;
    while let [item, tail @ ..] = rest {
        if stands_again(item, tail) {
            return true;
        }
        rest = tail;
    }
    false
}

/// Whether two names are of one group.
fn same_target(ports: &[RawPort], a: &Name, b: &Name) -> bool
    ensures { result ≡ same_target ports.now a.now b.now }
{
    a.as_slice() == b.as_slice() || one_group(ports, a, b)
}

/// Whether a port has both names.
fn one_group(ports: &[RawPort], a: &Name, b: &Name) -> bool
    ensures { result ≡ one_group ports.now a.now b.now }
{
    ports.iter().any(|port| has_both(port, a, b))
}

fn has_both(port: &RawPort, a: &Name, b: &Name) -> bool
    ensures { result ≡ has_both a.now b.now port.now }
{
    has_name(port.names.as_slice(), a) && has_name(port.names.as_slice(), b)
}

fn one_overlap(ports: &[RawPort], name: &Name, names: &[Name]) -> bool
    ensures { result ≡ one_overlap ports.now names.now name.now }
{
    names.iter().any(|other| same_target(ports, name, other))
}

/// Whether a name is of a group.
fn any_named(known: &Names, names: &[Name]) -> bool
    ensures { result ≡ any_named known.now names.now }
{
    names.iter().any(|name| known.has(name))
}

fn any_overlap(ports: &[RawPort], names: &[Name], others: &[Name]) -> bool
    ensures { result ≡ any_overlap ports.now names.now others.now }
{
    names.iter().any(|name| one_overlap(ports, name, others))
}

/// Whether two statements of one property name one group.
fn overlap(known: &Names, ports: &[RawPort], a: &Targets, b: &Targets) -> bool
    ensures { result ≡ overlap known.now ports.now a.now b.now }
{
    match a {
        Targets::All => match b {
            Targets::All => true,
            Targets::Named(names) => any_named(known, names.as_slice()),
        },
        Targets::Named(names) => match b {
            Targets::All => any_named(known, names.as_slice()),
            Targets::Named(others) => any_overlap(ports, names.as_slice(), others.as_slice()),
        },
    }
}

fn same_setting(known: &Names, ports: &[RawPort], a: &Setting, b: &Setting) -> bool
    ensures { result ≡ same_setting known.now ports.now a.now b.now }
{
    match a {
        Setting::Clock(_) => matches!(b, Setting::Clock(_)),
        Setting::Clken => matches!(b, Setting::Clken),
        Setting::Rden => matches!(b, Setting::Rden),
        Setting::Rdwr(_) => matches!(b, Setting::Rdwr(_)),
        Setting::Wrtrans { targets, .. } => match b {
            Setting::Wrtrans { targets: other, .. } => overlap(known, ports, targets, other),
            _ => false,
        },
        Setting::Wrprio(targets) => match b {
            Setting::Wrprio(other) => overlap(known, ports, targets, other),
            _ => false,
        },
        Setting::Rdsrst { .. } => matches!(b, Setting::Rdsrst { .. }),
        Setting::Rdarst(_) => matches!(b, Setting::Rdarst(_)),
        Setting::Rdinit(_) => matches!(b, Setting::Rdinit(_)),
        Setting::WrbeSeparate => matches!(b, Setting::WrbeSeparate),
        Setting::Width { .. } => matches!(b, Setting::Width { .. }),
    }
}

/// Whether the property is among the properties.
fn is_set_again(known: &Names, ports: &[RawPort], setting: &Setting, settings: &[Setting]) -> bool
    ensures { result ≡ is_set_again known.now ports.now setting.now settings.now }
{
    settings
        .iter()
        .any(|other| same_setting(known, ports, setting, other))
}

/// Whether a property stands twice.
#[tactic(auto, unfolding(crate::specs::Judge::settings_repeat))]
fn settings_repeat(known: &Names, ports: &[RawPort], settings: &[Setting]) -> bool
    ensures { result ≡ settings_repeat known.now ports.now settings.now }
{
    let mut rest = settings;
    while let [setting, tail @ ..] = rest {
        if is_set_again(known, ports, setting, tail) {
            return true;
        }
        rest = tail;
    }
    false
}

pub fn is_twice(known: &Names, ports: &[RawPort], sketch: &Sketch) -> bool
    ensures { result ≡ is_twice known.now ports.now sketch.now }
{
    items_repeat(sketch.items.as_slice()) || any_repeat(known, ports, sketch.ports.as_slice())
}

/// Whether a property stands twice in one of the ports.
fn any_repeat(known: &Names, ports: &[RawPort], settings: &[List<Setting>]) -> bool
    ensures { result ≡ any_repeat known.now ports.now settings.now }
{
    settings
        .iter()
        .any(|own| settings_repeat(known, ports, own.as_slice()))
}

fn is_clock(setting: &Setting) -> bool
    ensures { result ≡ is_clock setting.now }
{
    matches!(setting, Setting::Clock(_))
}

fn lacks_clock(kind: PortKind, settings: &[Setting]) -> bool
    ensures { result ≡ lacks_clock kind settings.now }
{
    kind_table!(kind, Property::Clock) && !has_clock(settings)
}

fn has_clock(settings: &[Setting]) -> bool
    ensures { result ≡ has_clock settings.now }
{
    settings.iter().any(|setting| is_clock(setting))
}

/// Whether a name is of no port.
fn lacks(known: &Names, targets: &Targets) -> bool
    ensures { result ≡ lacks known.now targets.now }
{
    match targets {
        Targets::All => false,
        Targets::Named(names) => any_unknown(known, names.as_slice()),
    }
}

/// Whether a name is of no port.
fn any_unknown(known: &Names, names: &[Name]) -> bool
    ensures { result ≡ any_unknown known.now names.now }
{
    names.iter().any(|name| !known.has(name))
}

fn any_lacks(known: &Names, settings: &[Setting]) -> bool
    ensures { result ≡ any_lacks known.now settings.now }
{
    settings.iter().any(|setting| lacks_target(known, setting))
}

fn lacks_target(known: &Names, setting: &Setting) -> bool
    ensures { result ≡ lacks_target known.now setting.now }
{
    match setting {
        Setting::Wrtrans { targets, .. } => lacks(known, targets),
        Setting::Wrprio(targets) => lacks(known, targets),
        _ => false,
    }
}

/// Whether a port lacks what it needs.
#[tactic(auto, unfolding(crate::specs::Judge::missing_in))]
fn missing_in(known: &Names, ports: &[RawPort], settings: &[List<Setting>]) -> bool
    ensures { result ≡ missing_in known.now ports.now settings.now }
{
    let mut behind = settings;
    let mut rest = ports;
    while let [port, tail @ ..] = rest {
        let [own, others @ ..] = behind else {
            return false;
        };
        if lacks_clock(port.kind, own.as_slice()) || any_lacks(known, own.as_slice()) {
            return true;
        }
        behind = others;
        rest = tail;
    }
    false
}

fn has_abits(items: &[Item]) -> bool
    ensures { result ≡ has_abits items.now }
{
    items.iter().any(|item| is_abits(item))
}

fn has_widths(items: &[Item]) -> bool
    ensures { result ≡ has_widths items.now }
{
    items.iter().any(|item| sets_widths(item))
}

pub fn is_missing(known: &Names, ports: &[RawPort], sketch: &Sketch) -> bool
    ensures { result ≡ is_missing known.now ports.now sketch.now }
{
    !has_abits(sketch.items.as_slice())
        || !has_widths(sketch.items.as_slice())
        || missing_in(known, ports, sketch.ports.as_slice())
}

/// What the items of a variant say.
#[derive(Debug, Drop)]
pub struct Sizes {
    pub abits: u32,
    pub widths: List<u32>,
    pub per_port: bool,
    pub byte: Option<u32>,
    pub cost: u32,
    pub fill: Fill,
    pub style: Option<Name>,
}

impl Sizes {
    /// Notes what an item says.
    fn put(&mut self, alloc: Global, item: &Item) -> Result<(), Memory>
        ensures { OnOk result (self.new ≡ with_item self.old item.now) }
    {
        match item {
            Item::Size(Size::Abits, number) => self.abits = *number,
            Item::Size(Size::Width, number) => {
                let mut widths = List::from_vec(Vec::new(alloc));
                widths.push(*number)?;
                self.widths = widths;
                self.per_port = false;
            }
            Item::Size(Size::Byte, number) => self.byte = Some(*number),
            Item::Size(Size::Cost, number) => self.cost = *number,
            Item::Widths { widths, per_port } => {
                self.widths = widths.duplicate(alloc)?;
                self.per_port = *per_port;
            }
            Item::Init(fill) => self.fill = *fill,
            Item::Style(style) => self.style = Some(style.copy(alloc)?),
        }
        Ok(())
    }
}

/// What the items say, and what holds where none says otherwise.
#[tactic(auto, unfolding(crate::specs::Judge::sizes_from))]
pub fn sizes_of(alloc: Global, items: &[Item]) -> Result<Sizes, Memory>
    ensures { IfOk result (λ sizes. sizes ≡ sizes_from plain_sizes items.now) }
{
    let mut sizes = Sizes {
        abits: 0,
        widths: List::from_vec(Vec::new(alloc)),
        per_port: false,
        byte: None,
        cost: 1,
        fill: Fill::Nothing,
        style: None,
    };
    let mut rest = items;
    while let [item, tail @ ..] = rest {
        sizes.put(alloc, item)?;
        rest = tail;
    }
    Ok(sizes)
}

/// Whether each width is at least twice and less than four times the one before.
#[tactic(auto, unfolding(crate::specs::Judge::rises_from))]
fn rises_from(first: u32, widths: &[u32]) -> bool
    ensures { result ≡ rises_from first widths.now }
{
    let mut before = first;
    let mut rest = widths;
    while let [width, tail @ ..] = rest {
        let (least, most) = (2 * before as u64, 4 * before as u64);
        if (*width as u64) < least || *width as u64 >= most {
            return false;
        }
        before = *width;
        rest = tail;
    }
    true
}

fn rises(widths: &[u32]) -> bool
    ensures { result ≡ rises widths.now }
{
    match widths {
        [] => true,
        [first, rest @ ..] => rises_from(*first, rest),
    }
}

/// Whether the byte exceeds the width or divides it.
fn fits_byte(byte: u32, width: u32) -> bool
    ensures { result ≡ fits_byte byte width }
{
    width < byte || (byte != 0 && width % byte == 0)
}

fn fits_bytes(byte: Option<u32>, widths: &[u32]) -> bool
    ensures { result ≡ fits_bytes byte widths.now }
{
    match byte {
        None => true,
        Some(byte) => all_fit(byte, widths),
    }
}

fn all_fit(byte: u32, widths: &[u32]) -> bool
    ensures { result ≡ all_fit byte widths.now }
{
    widths.iter().all(|width| fits_byte(byte, *width))
}

/// Whether the widths of a port are widths of the RAM.
fn widths_known(widths: &[u32], setting: &Setting) -> bool
    ensures { result ≡ widths_known widths.now setting.now }
{
    match setting {
        Setting::Width { widths: own, .. } => all_known(widths, own.as_slice()),
        _ => true,
    }
}

/// Whether the width is among the widths.
pub fn is_width(widths: &[u32], width: u32) -> bool
    ensures { result ≡ is_width widths.now width }
{
    widths.iter().any(|other| *other == width)
}

fn all_known(widths: &[u32], own: &[u32]) -> bool
    ensures { result ≡ all_known widths.now own.now }
{
    own.iter().all(|width| is_width(widths, *width))
}

fn settings_known(widths: &[u32], settings: &[Setting]) -> bool
    ensures { result ≡ settings_known widths.now settings.now }
{
    settings.iter().all(|setting| widths_known(widths, setting))
}

fn ports_known(widths: &[u32], ports: &[List<Setting>]) -> bool
    ensures { result ≡ ports_known widths.now ports.now }
{
    ports
        .iter()
        .all(|settings| settings_known(widths, settings.as_slice()))
}

pub fn is_bad(sizes: &Sizes, sketch: &Sketch) -> bool
    ensures { result ≡ is_bad sizes.now sketch.now }
{
    let widths = sizes.widths.as_slice();
    !rises(widths)
        || widths.len() as u64 > sizes.abits as u64 + 1
        || !fits_bytes(sizes.byte, widths)
        || !ports_known(widths, sketch.ports.as_slice())
}
