//! Ways of joining two words into one, and numbered sets of them.
//!
//! A word is a whole number from 0 to 4,294,967,295, a `u32`. Joining two words gives a word, and
//! neither the order of the words nor the way they are bracketed matters: each `Joining` proves
//! these as laws. Joining refuses nothing and changes nothing.
#![tactic(auto)]

ghost use Rattle.std.specs.Prelude.{◌≡◌};
ghost use Rattle.joining.specs.Shipped.{shipped_joinings};
ghost use Rattle.joining.specs.contracts.shipped_set.ShippedSetJoiningSet.TheImpl.{ghosts as ShippedJoinings};

mod joinings;
mod sets;
mod shipped_set;

pub use joinings::{Joining, Maximum, Sum, Union};
pub use sets::{Also, JoiningSet, Only};
pub use shipped_set::ShippedSet;

/// The set that comes with the crate: 1 is the sum, 2 the maximum, 3 the union.
pub fn shipped() -> ShippedSet
    ensures { ShippedJoinings.joinings result ≡ shipped_joinings }
{
    ShippedSet::new()
}
