//! What a refusal tells, whichever layer refuses.
#![tactic(auto)]

ghost use Rattle.std.specs.Prelude.{◌≡◌, ℕ};

/// Why something is refused, as the line of its refusal tells it.
pub trait Refusal: Copy {
    ghost layer: { Self → ℕ };

    ghost number: { Self → ℕ };

    ghost place: { Self → ℕ };

    /// The layer whose question got no.
    fn layer(self) -> u32
        ensures { result ≡ layer self };

    /// The number of that question, 0 where none did.
    fn number(self) -> u32
        ensures { result ≡ number self };

    /// The place that the refusal tells, 0 where it tells none.
    fn place(self) -> u32
        ensures { result ≡ place self };
}
