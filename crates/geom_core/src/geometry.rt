//! Where the words of a RAM's levels lie in its words of the last width.
ghost use Rattle.std.specs.Prelude.{◌≡◌, ℕ, ◌+◌, ◌-◌, ◌*◌, ◌/◌, ◌^◌, ◌<◌, ◌≤◌, length};
ghost use Rattle.lib_core.specs.Rams.{width_at, offset_in, words_at};
ghost use Rattle.geom_core.specs.Widths.{AreWidths};

use lib_core::Variant;

/// A bit of a RAM: its word of the last width, and its place in that word.
#[derive(Clone, Copy, Debug, PartialEq, Eq)]
pub struct BasePlace {
    pub word: u32,
    pub bit: u32,
}

/// The widths of a RAM, and its address bits at the first of them.
#[derive(Clone, Copy, Debug)]
pub struct Geometry<const LEVELS: usize> {
    pub abits: u32,
    pub widths: [u32; LEVELS],
    ghost few_addresses: { abits ≤ 20 },
    ghost few_levels: { length widths ≤ abits + 1 },
    ghost growing: { AreWidths widths },
}

impl<const LEVELS: usize> Geometry<LEVELS> {
    ghost use Rattle.geom_core.specs.Places.{place_in, place_above, IsSized};

    /// The geometry of a variant. It takes no memory.
    pub fn new(variant: &Variant) -> Geometry<LEVELS>
        requires levels { length variant.now.widths ≡ LEVELS }
        requires sized { IsSized variant.now }
        ensures widths { result.widths ≡ variant.now.widths }
        ensures abits { result.abits ≡ variant.now.abits }
    {
        let mut widths = [0u32; LEVELS];
        widths.copy_from_slice(variant.widths.as_slice());
        Geometry {
            abits: variant.abits,
            widths,
        }
    }

    /// Where a bit of a word of a level lies. It takes no memory.
    pub fn place(&self, level: u32, word: u32, bit: u32) -> BasePlace
        requires level { level < LEVELS }
        requires word { word < 2 ^ (self.now.abits - level) }
        requires bit { bit < width_at self.now.widths level }
        ensures value { result ≡ place_in self.now.widths level word bit }
        ensures word { result.word < 2 ^ (self.now.abits - (LEVELS - 1)) }
        ensures bit { result.bit < width_at self.now.widths (LEVELS - 1) }

        // Two different bits of one level lie in two different places.
        ensures apart { (other_word other_bit : ℕ) → other_bit < width_at self.now.widths level
            → place_in self.now.widths level other_word other_bit ≡ result
            → (other_word ≡ word) × (other_bit ≡ bit) }
    {
        self.lift(level, LEVELS as u32 - 1, word, bit)
    }

    /// How many words a level has. It takes no memory.
    pub fn rows_of(&self, level: u32) -> u32
        requires { level < LEVELS }
        ensures { result ≡ 2 ^ (self.now.abits - level) }
    {
        1 << (self.abits - level)
    }

    /// The bit at which a word of a level begins in a word of a higher one, whose words of the lower
    /// level are counted from 0. It takes no memory.
    pub fn offset(&self, low: u32, high: u32, word: u32) -> u32
        requires order { low ≤ high }
        requires high { high < LEVELS }
        requires word { word < 2 ^ (high - low) }
        ensures { result ≡ offset_in self.now.widths low high word }
    {
        self.lift(low, high, word, 0).bit
    }

    /// Where a bit of a word of a level lies in the words of a higher one.
    fn lift(&self, low: u32, high: u32, word: u32, bit: u32) -> BasePlace
        requires order { low ≤ high }
        requires high { high < LEVELS }
        requires bit { bit < width_at self.now.widths low }
        ensures value { result ≡ place_above self.now.widths (high - low) low word bit }
        ensures bit { result.bit < width_at self.now.widths high }
        ensures word { result.word ≡ word / 2 ^ (high - low) }
    {
        let mut place = BasePlace { word, bit };
        for level in low..high {
            place = BasePlace {
                word: place.word / 2,
                bit: place.word % 2 * self.widths[level as usize] + place.bit,
            };
        }
        place
    }
}
