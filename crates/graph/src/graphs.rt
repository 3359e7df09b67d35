//! What a graph tells of itself.
ghost use Rattle.std.specs.Prelude.{◌≡◌, ℕ, Bool};

/// A graph whose nodes are the numbers below a count. Only nodes have followers, and only nodes
/// are followers, whatever `is_follower` answers for other numbers.
pub trait Graph {
    ghost nodes: { Self → ℕ };

    // is the second a follower of the first?
    ghost follows: { Self → ℕ → ℕ → Bool };

    fn node_count(&self) -> usize
        ensures { result ≡ nodes self.now };

    /// Is `other` a follower of `node`?
    fn is_follower(&self, node: usize, other: usize) -> bool
        ensures { result ≡ follows self.now node other };
}
