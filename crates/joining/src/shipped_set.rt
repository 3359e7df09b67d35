//! The set that comes with the crate.
ghost use Rattle.joining.specs.Shipped.{shipped_joinings};
ghost use Rattle.std.proofs.Common.{rules};
ghost use Rattle.joining.specs.Bits.{either_bits_lawful};

use super::joinings::{Joining, Maximum, Sum, Union};
use super::sets::{Also, JoiningSet, Only};

/// A type of its own, so that a caller brings one impl into scope and its meaning is one list.
#[derive(Drop)]
pub struct ShippedSet {
    three: Also<Also<Only<Sum>, Maximum>, Union>,
}

impl ShippedSet {
    pub(super) fn new() -> Self {
        let two = Also {
            set: Only(Sum),
            last: Maximum,
        };
        ShippedSet {
            three: Also {
                set: two,
                last: Union,
            },
        }
    }
}

impl JoiningSet for ShippedSet {
    ghost joinings = { λ _. shipped_joinings };

    ghost lawful = { λ s. (Prim.search rules, (Prim.search rules, (either_bits_lawful, tt))) };

    fn count(&self) -> u32 {
        self.three.count()
    }

    fn join(&self, number: u32, a: u32, b: u32) -> u32 {
        self.three.join(number, a, b)
    }
}
