//! What a joining is, and the three that come with the crate.
ghost use Rattle.std.specs.Prelude.{ℕ, ◌≡◌};
ghost use Rattle.joining.specs.Laws.{Associates, Closed, Commutes};
ghost use Rattle.joining.specs.Shipped.{capped_sum, either_bits, larger};
ghost use Rattle.std.proofs.Common.{rules};
ghost use Rattle.joining.specs.Bits.{either_bits_lawful};

/// A way of joining two words into one.
pub trait Joining {
    /// What it makes of two words.
    ghost joined: { Self → ℕ → ℕ → ℕ };

    fn join(&self, a: u32, b: u32) -> u32
        ensures { result ≡ joined self.now a b };

    // the three laws let words be joined in any order and any grouping
    ghost closed: { (s : Self) → Closed (joined s) };

    ghost commutes: { (s : Self) → Commutes (joined s) };

    ghost associates: { (s : Self) → Associates (joined s) };
}

/// The sum, or 4,294,967,295 where that is smaller.
#[derive(Clone, Copy)]
pub struct Sum;

impl Joining for Sum {
    ghost joined = { λ _. capped_sum };

    ghost closed = { Prim.search rules };

    ghost commutes = { Prim.search rules };

    ghost associates = { Prim.search rules };

    fn join(&self, a: u32, b: u32) -> u32 {
        a.saturating_add(b)
    }
}

/// The larger of the two.
#[derive(Clone, Copy)]
pub struct Maximum;

impl Joining for Maximum {
    ghost joined = { λ _. larger };

    ghost closed = { Prim.search rules };

    ghost commutes = { Prim.search rules };

    ghost associates = { Prim.search rules };

    fn join(&self, a: u32, b: u32) -> u32 {
        a.max(b)
    }
}

/// The bits that are set in either.
#[derive(Clone, Copy)]
pub struct Union;

impl Joining for Union {
    ghost joined = { λ _. either_bits };

    ghost closed = { λ s. either_bits_lawful.closed };

    ghost commutes = { λ s. either_bits_lawful.commutes };

    ghost associates = { λ s. either_bits_lawful.associates };

    fn join(&self, a: u32, b: u32) -> u32 {
        a | b
    }
}
