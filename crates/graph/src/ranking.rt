//! Ranks for the nodes of a graph.
ghost use Rattle.std.specs.Prelude.{◌≡◌, IfOk};
ghost use Rattle.graph.specs.Graphs.{Lowest, Ranked, UnlessShort, loop_of, lowest_loop};
ghost use Rattle.graph.specs.declared.ranking.Unranked.TheVariants.{Memory};

use crate::graphs::Graph;
use crate::tables::Table;
use std::alloc::{AllocError, Global};

/// Why a graph has no ranks: a node reaches itself, and this is the lowest; or memory is short.
#[derive(Clone, Copy, PartialEq, Eq, Debug)]
pub enum Unranked {
    Loop(usize),
    Memory(AllocError),
}

// By hand, as a derived `From` would not say which fault it makes.
impl From<AllocError> for Unranked {
    ghost from_gives = { λ e reason. reason ≡ Memory e };

    fn from(short: AllocError) -> Unranked {
        Unranked::Memory(short)
    }
}

/// A rank for each node, higher at each follower. It is how many nodes reach the node: what reaches
/// a node reaches its followers, and so does the node, which where there is no loop does not reach
/// itself.
pub fn rank<G: Graph>(heap: Global, graph: &G) -> Result<Vec<usize>, Unranked>
    ensures value { UnlessShort result
        (loop_of result ≡ lowest_loop (G.nodes graph.now) (G.follows graph.now)) }
    ensures lowest { UnlessShort result
        (Lowest (G.nodes graph.now) (G.follows graph.now) (loop_of result)) }
    ensures ranks { IfOk result
        (λ ranks. Ranked (G.nodes graph.now) (G.follows graph.now) ranks.items) }
{
    let table = Table::of(heap, graph)?;
    match table.lowest_loop() {
        Some(node) => Err(Unranked::Loop(node)),
        None => Ok(table.column_counts(heap)?),
    }
}
