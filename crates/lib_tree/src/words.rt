//! Which word is meant by letters.
ghost use Rattle.std.specs.Prelude.{◌≡◌};
ghost use Rattle.lib_tree.specs.Words.{class_of, edge_of, fill_of, gate_of, item_of, kind_of, own_of, property_of, word_of};

use crate::token::Word;
use lib_core::{EdgeKind, Fill, PortKind, Property, RamClass, Seen, SrstGate};

#[tactic(auto, unfolding(crate::specs::Words::class_of))]
fn class_of(bytes: &[u8]) -> Option<RamClass>
    ensures { result ≡ class_of bytes.now }
{
    if bytes == b"distributed".as_slice() {
        Some(RamClass::Distributed)
    } else if bytes == b"block".as_slice() {
        Some(RamClass::Block)
    } else if bytes == b"huge".as_slice() {
        Some(RamClass::Huge)
    } else {
        None
    }
}

#[tactic(auto, unfolding(crate::specs::Words::kind_of))]
fn kind_of(bytes: &[u8]) -> Option<PortKind>
    ensures { result ≡ kind_of bytes.now }
{
    if bytes == b"ar".as_slice() {
        Some(PortKind::Ar)
    } else if bytes == b"sr".as_slice() {
        Some(PortKind::Sr)
    } else if bytes == b"sw".as_slice() {
        Some(PortKind::Sw)
    } else if bytes == b"arsw".as_slice() {
        Some(PortKind::Arsw)
    } else if bytes == b"srsw".as_slice() {
        Some(PortKind::Srsw)
    } else {
        None
    }
}

#[tactic(auto, unfolding(crate::specs::Words::property_of))]
fn property_of(bytes: &[u8]) -> Option<Property>
    ensures { result ≡ property_of bytes.now }
{
    if bytes == b"clock".as_slice() {
        Some(Property::Clock)
    } else if bytes == b"clken".as_slice() {
        Some(Property::Clken)
    } else if bytes == b"rden".as_slice() {
        Some(Property::Rden)
    } else if bytes == b"rdwr".as_slice() {
        Some(Property::Rdwr)
    } else if bytes == b"wrtrans".as_slice() {
        Some(Property::Wrtrans)
    } else if bytes == b"wrprio".as_slice() {
        Some(Property::Wrprio)
    } else if bytes == b"rdsrst".as_slice() {
        Some(Property::Rdsrst)
    } else if bytes == b"rdarst".as_slice() {
        Some(Property::Rdarst)
    } else if bytes == b"rdinit".as_slice() {
        Some(Property::Rdinit)
    } else if bytes == b"wrbe_separate".as_slice() {
        Some(Property::WrbeSeparate)
    } else if bytes == b"width".as_slice() {
        Some(Property::Width)
    } else {
        None
    }
}

#[tactic(auto, unfolding(crate::specs::Words::edge_of))]
fn edge_of(bytes: &[u8]) -> Option<EdgeKind>
    ensures { result ≡ edge_of bytes.now }
{
    if bytes == b"posedge".as_slice() {
        Some(EdgeKind::Pos)
    } else if bytes == b"negedge".as_slice() {
        Some(EdgeKind::Neg)
    } else if bytes == b"anyedge".as_slice() {
        Some(EdgeKind::Either)
    } else {
        None
    }
}

#[tactic(auto, unfolding(crate::specs::Words::fill_of))]
fn fill_of(bytes: &[u8]) -> Option<Fill>
    ensures { result ≡ fill_of bytes.now }
{
    if bytes == b"none".as_slice() {
        Some(Fill::Nothing)
    } else if bytes == b"zero".as_slice() {
        Some(Fill::Zero)
    } else if bytes == b"any".as_slice() {
        Some(Fill::Any)
    } else if bytes == b"no_undef".as_slice() {
        Some(Fill::NoUndef)
    } else {
        None
    }
}

#[tactic(auto, unfolding(crate::specs::Words::gate_of))]
fn gate_of(bytes: &[u8]) -> Option<SrstGate>
    ensures { result ≡ gate_of bytes.now }
{
    if bytes == b"ungated".as_slice() {
        Some(SrstGate::Ungated)
    } else if bytes == b"gated_clken".as_slice() {
        Some(SrstGate::Clken)
    } else if bytes == b"gated_rden".as_slice() {
        Some(SrstGate::Rden)
    } else {
        None
    }
}

/// The words that say what a port shows of a write.
#[tactic(auto, unfolding(crate::specs::Words::own_of))]
fn own_of(bytes: &[u8]) -> Option<Word>
    ensures { result ≡ own_of bytes.now }
{
    if bytes == b"undefined".as_slice() {
        Some(Word::Undefined)
    } else if bytes == b"no_change".as_slice() {
        Some(Word::NoChange)
    } else if bytes == b"old".as_slice() {
        Some(Word::Seen(Seen::Old))
    } else if bytes == b"new".as_slice() {
        Some(Word::Seen(Seen::New))
    } else if bytes == b"new_only".as_slice() {
        Some(Word::NewOnly)
    } else {
        None
    }
}

/// The words that begin items or stand in them.
#[tactic(auto, unfolding(crate::specs::Words::item_of))]
fn item_of(bytes: &[u8]) -> Word
    ensures { result ≡ item_of bytes.now }
{
    if bytes == b"abits".as_slice() {
        Word::Abits
    } else if bytes == b"widths".as_slice() {
        Word::Widths
    } else if bytes == b"per_port".as_slice() {
        Word::PerPort
    } else if bytes == b"global".as_slice() {
        Word::Global
    } else if bytes == b"byte".as_slice() {
        Word::Byte
    } else if bytes == b"cost".as_slice() {
        Word::Cost
    } else if bytes == b"init".as_slice() {
        Word::Init
    } else if bytes == b"style".as_slice() {
        Word::Style
    } else if bytes == b"option".as_slice() {
        Word::RamOption
    } else if bytes == b"portoption".as_slice() {
        Word::PortOption
    } else if bytes == b"port".as_slice() {
        Word::Port
    } else if bytes == b"all".as_slice() {
        Word::All
    } else if bytes == b"tied".as_slice() {
        Word::Tied
    } else {
        Word::Other
    }
}

/// The word that the letters are.
#[tactic(auto, unfolding(crate::specs::Words::word_of))]
pub fn word_of(bytes: &[u8]) -> Word
    ensures { result ≡ word_of bytes.now }
{
    if let Some(class) = class_of(bytes) {
        Word::Class(class)
    } else if let Some(kind) = kind_of(bytes) {
        Word::Kind(kind)
    } else if let Some(property) = property_of(bytes) {
        Word::Property(property)
    } else if let Some(edge) = edge_of(bytes) {
        Word::Edge(edge)
    } else if let Some(fill) = fill_of(bytes) {
        Word::Fill(fill)
    } else if let Some(gate) = gate_of(bytes) {
        Word::Gate(gate)
    } else if let Some(word) = own_of(bytes) {
        word
    } else {
        item_of(bytes)
    }
}
