//! Equality: yes means that two values are one, and no that they are not.
ghost use Rattle.std.specs.Prelude.{◌≡◌, true};

use lib_core::{List, Name, Tri};
use net_core::{Attr, CombKind, FfKind, Place};

/// What can be compared with its like.
pub trait Alike {
    /// Whether the two are one value.
    fn is_alike(&self, other: &Self) -> bool
        ensures sound { result ≡ true → other.now ≡ self.now }
        ensures complete { other.now ≡ self.now → result ≡ true };
}

impl Alike for u32 {
    fn is_alike(&self, other: &u32) -> bool {
        *self == *other
    }
}

impl Alike for i32 {
    fn is_alike(&self, other: &i32) -> bool {
        *self == *other
    }
}

impl Alike for bool {
    fn is_alike(&self, other: &bool) -> bool {
        *self == *other
    }
}

impl Alike for Tri {
    fn is_alike(&self, other: &Tri) -> bool {
        *self == *other
    }
}

impl Alike for CombKind {
    fn is_alike(&self, other: &CombKind) -> bool {
        *self == *other
    }
}

impl Alike for FfKind {
    fn is_alike(&self, other: &FfKind) -> bool {
        *self == *other
    }
}

impl Alike for Name {
    fn is_alike(&self, other: &Name) -> bool {
        self.as_slice() == other.as_slice()
    }
}

impl Alike for Place {
    fn is_alike(&self, other: &Place) -> bool {
        self.copy == other.copy && self.row == other.row && self.column == other.column
    }
}

impl Alike for Attr {
    fn is_alike(&self, other: &Attr) -> bool {
        self.name.is_alike(&other.name)
            & self.is_text.is_alike(&other.is_text)
            & self.value.is_alike(&other.value)
            & self.bits.is_alike(&other.bits)
    }
}

impl<T: Alike> Alike for List<T> {
    fn is_alike(&self, other: &List<T>) -> bool {
        are_alike(self.as_slice(), other.as_slice())
    }
}

/// Whether two lists have the same items in the same order.
fn are_alike<T: Alike>(left: &[T], right: &[T]) -> bool
    ensures sound { result ≡ true → right.now ≡ left.now }
    ensures complete { right.now ≡ left.now → result ≡ true }
{
    let mut lefts = left;
    let mut rights = right;
    while let [first, tail @ ..] = lefts {
        let [other, more @ ..] = rights else {
            return false;
        };
        if !first.is_alike(other) {
            return false;
        }
        lefts = tail;
        rights = more;
    }
    rights.is_empty()
}
