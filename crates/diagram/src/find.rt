// Finding an equal item in a list.
ghost use Rattle.std.specs.Prelude.{◌≡◌, ◌≢◌, MatchBool};
ghost use Rattle.std.specs.Bool.{Decides};
ghost use Rattle.diagram.specs.Equality.{decides_byte, decides_number, decides_edge, decides_entry, decides_reference};
ghost use Rattle.diagram.specs.Places.{Located};

use crate::entry::{Edge, Entry, Reference};
use domain::number::Number;

// Items that can be told equal, by whatever test their type has.
pub trait Same {
    fn same(&self, other: &Self) -> bool
        ensures { MatchBool result (self.now ≡ other.now) (self.now ≢ other.now) };
}

// A type whose `==` holds of the same items alone.
pub trait Exact: Eq {
    ghost exact: { (x y : Self) → Decides (Self.PartialEq.eq x y) (x ≡ y) };
}

impl Exact for u8 {
    ghost exact = { decides_byte };
}

impl Exact for Number {
    ghost exact = { decides_number };
}

impl Exact for Edge {
    ghost exact = { decides_edge };
}

impl Exact for Entry {
    ghost exact = { decides_entry };
}

impl Exact for Reference {
    ghost exact = { decides_reference };
}

// Its `==` is the test.
impl<T: Exact> Same for T {
    fn same(&self, other: &T) -> bool {
        *self == *other
    }
}

// The first place of x.
pub fn position<T: Same>(items: &[T], x: &T) -> Option<usize>
    ensures { Located items.now x.now result }
{
    items.iter().position(|y| y.same(x))
}
