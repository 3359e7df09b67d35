//! Sets of joinings, which are numbered from 1.
ghost use Rattle.std.specs.Prelude.{ℕ, ◌+◌, min, eqb, length, List, [], ◌∷◌, ◌++◌, ◌≡◌};
ghost use Rattle.joining.specs.Laws.{AllLawful};
ghost use Rattle.joining.specs.Numbered.{by_number};
ghost use Rattle.std.proofs.Common.{rules};
ghost use Rattle.joining.specs.OneMore.{all_lawful_more};

use super::joinings::Joining;

/// Joinings in a fixed order.
pub trait JoiningSet {
    /// What each of them makes of two words, from number 1 on.
    ghost joinings: { Self → List (ℕ → ℕ → ℕ) };

    /// How many there are, or 4,294,967,295 where that is smaller.
    fn count(&self) -> u32
        ensures { result ≡ min (length (joinings self.now)) 4294967295 };

    /// Joins by the joining of this number. Where none has it, the answer is `a`.
    fn join(&self, number: u32, a: u32, b: u32) -> u32
        ensures { result ≡ by_number (joinings self.now) number a b };

    ghost lawful: { (s : Self) → AllLawful (joinings s) };
}

/// One joining, as a set.
#[derive(Drop)]
pub struct Only<J>(pub J);

impl<J: Joining> JoiningSet for Only<J> {
    ghost joinings = { λ s. J.Joining.joined s.0 ∷ [] };

    ghost lawful = { Prim.search rules };

    fn count(&self) -> u32 {
        1
    }

    fn join(&self, number: u32, a: u32, b: u32) -> u32 {
        if number == 1 { self.0.join(a, b) } else { a }
    }
}

/// A set and one joining more, whose number is the one after those of the set.
#[derive(Drop)]
pub struct Also<S, J> {
    pub set: S,
    pub last: J,
}

impl<S: JoiningSet, J: Joining> JoiningSet for Also<S, J> {
    ghost joinings = { λ s. S.JoiningSet.joinings s.set ++ (J.Joining.joined s.last ∷ []) };

    ghost lawful = { λ s.
        let law = J.Joining in
        all_lawful_more _ _ (S.JoiningSet.lawful s.set)
        (record { closed = law.closed s.last; commutes = law.commutes s.last; associates = law.associates s.last }) };

    fn count(&self) -> u32 {
        one_more(self.set.count())
    }

    fn join(&self, number: u32, a: u32, b: u32) -> u32 {
        if is_next(self.set.count(), number) {
            self.last.join(a, b)
        } else {
            // a number past the last is none of the set's either, which keeps `a`
            self.set.join(number, a, b)
        }
    }
}

fn one_more(count: u32) -> u32
    ensures { result ≡ min (count + 1) 4294967295 }
{
    count.saturating_add(1)
}

/// Whether the number is the one after the count. None is after 4,294,967,295. A private step: a
/// test of ranking has one of its own, of another type.
fn is_next(count: u32, number: u32) -> bool
    ensures { result ≡ eqb number (count + 1) }
{
    number > count && number - count == 1
}
