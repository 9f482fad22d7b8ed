//! Laws of the definitions.
ghost use Rattle.std.specs.Prelude.{◌≡◌, ◌≤◌, ◌+◌, ℕ, List, length};
ghost use Rattle.net_core.specs.declared.bits.Bit.{Bit};
ghost use Rattle.rtlil_lex.specs.declared.token.Token.{Token};
ghost use Rattle.rtlil_text.specs.declared.doc.Item.{Item};
ghost use Rattle.rtlil_text.specs.declared.doc.Part.{Part};
ghost use Rattle.rtlil_text.specs.Grammar.{IsSignal};
ghost use Rattle.net_wires.specs.declared.clock.ClockRoot.{ClockRoot};
ghost use Rattle.net_wires.specs.declared.clock.Drive.{Drive};
ghost use Rattle.net_wires.specs.declared.link.Link.{Link};
ghost use Rattle.net_wires.specs.declared.source.Pair.{Pair};
ghost use Rattle.net_wires.specs.declared.source.Source.{Source};
ghost use Rattle.net_wires.specs.Clocks.{IsClock};
ghost use Rattle.net_wires.specs.Connects.{connect_pairs};
ghost use Rattle.net_wires.specs.Links.{links_of, PairsWithin, SourcesWithin};
ghost use Rattle.net_wires.specs.Nets.{HasNoRing, InOrder, Resolves, Solves};
ghost use Rattle.net_wires.specs.Parts.{signal_bits, signal_breaches};
ghost use Rattle.net_wires.specs.Settled.{loose_count, settled};
ghost use Rattle.net_wires.specs.Signals.{bits_of, breaches_of, IsSpelled, parts_of, Signal};
ghost use Rattle.net_wires.specs.Spans.{Entry, spans, There, wire_bits};

/// The bits that the parts of a signal give are the signal's.
pub fn parts_give_bits()
    ensures { (names : List Entry) (s : Signal) → signal_bits names (parts_of s) ≡ bits_of names s }
{}

/// And so is what is wrong with it.
pub fn parts_give_breaches()
    ensures { (names : List Entry) (s : Signal) → signal_breaches names (parts_of s) ≡ breaches_of names s }
{}

/// What the grammar calls a signal is the spelling of one.
pub fn signals_are_spelled()
    ensures { (ps : List Part) (ts : List Token) → IsSignal ps ts → IsSpelled ps }
{}

/// The bits of wires that stand one behind the other are among all bits.
pub fn wires_are_there()
    ensures { (items : List Item) → There (wire_bits items) (spans 0 items) }
{}

/// The bits of a signal with nothing wrong are among those of the wires.
pub fn signals_are_within()
    ensures { (n : ℕ) (names : List Entry) (ps : List Part) → There n names → SourcesWithin n (signal_bits names ps) }
{}

/// And so they are where digits without a value have places.
pub fn settled_are_within()
    ensures { (n m next : ℕ) (bits : List Source) → n ≤ m → next + loose_count bits ≤ m → SourcesWithin n bits → SourcesWithin m (settled next bits) }
{}

/// And so are the pairs of a connect.
pub fn connects_are_within()
    ensures { (n : ℕ) (names : List Entry) (left right : List Part) → There n names → PairsWithin n (connect_pairs names left right) }
{}

/// The bits of followed connects solve them.
pub fn resolved_solves()
    ensures { (t : List Link) (bits : List Bit) (count : ℕ) → Resolves t bits count → Solves t bits }
{}

/// And their nets are numbered in the order in which their first bits stand.
pub fn resolved_in_order()
    ensures { (t : List Link) (bits : List Bit) (count : ℕ) → Resolves t bits count → InOrder 0 bits count }
{}

/// Where connects make no ring, no other bits solve them in that order.
pub fn solution_is_one()
    ensures { (n : ℕ) (ps : List Pair) (a b : List Bit) (k l : ℕ) → PairsWithin n ps → HasNoRing (links_of n ps) → length a ≡ n → length b ≡ n → Solves (links_of n ps) a → InOrder 0 a k → Solves (links_of n ps) b → InOrder 0 b l → (a ≡ b) × (k ≡ l) }
{}

/// A place leads to one clock.
pub fn clock_is_one()
    ensures { (t : List Link) (drives : List Drive) (place : ℕ) (x y : ClockRoot) → IsClock t drives place x → IsClock t drives place y → x ≡ y }
{}
