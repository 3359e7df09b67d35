//! Ranking on examples.
ghost use Rattle.std.specs.Prelude.{◌≡◌, ◌+◌, ◌&&◌, ◌||◌, ◌==◌};

use graph::{Graph, Unranked, rank};
use std::alloc::Global;
use std::process::Abort;
use std::test::Fail;

// Of a test's own graph: what joining has of this name is private to it.
fn is_next(node: usize, other: usize) -> bool
    ensures { result ≡ (other == node + 1) }
{
    node < other && other - node == 1
}

// Each node is followed by the next, and the last by one that it goes back to.
#[derive(Drop)]
struct Chain {
    size: usize,
    back: usize,
}

impl Graph for Chain {
    ghost nodes = { λ g. g.size };

    ghost follows = { λ g node other. (other == node + 1) || (g.size == node + 1 && other == g.back) };

    fn node_count(&self) -> usize {
        self.size
    }

    fn is_follower(&self, node: usize, other: usize) -> bool {
        is_next(node, other) || (is_next(node, self.size) && other == self.back)
    }
}

// The lowest node that reaches itself, if there is one; else the ranks rise.
fn lowest(rt: &impl Abort, heap: Global, size: usize, back: usize) -> Result<Option<usize>, Fail> {
    match rank(heap, &Chain { size, back }) {
        Ok(ranks) => {
            assert_eq!(rt; ranks.len(), size);
            for (earlier, later) in ranks.iter().zip(ranks.iter().skip(1)) {
                assert!(rt; earlier < later);
            }
            Ok(None)
        }
        Err(Unranked::Loop(node)) => Ok(Some(node)),
        Err(reason) => Err(reason.into()),
    }
}

#[test]
fn ranks_rise_or_the_lowest_node_on_a_ring_is_told(rt: HostRuntime) -> Result<(), Fail> {
    let heap = rt.alloc();
    assert_eq!(rt; lowest(&rt, heap, 0, 0)?, None);
    assert_eq!(rt; lowest(&rt, heap, 1, 1)?, None);
    assert_eq!(rt; lowest(&rt, heap, 1, 0)?, Some(0));
    assert_eq!(rt; lowest(&rt, heap, 6, 6)?, None);
    assert_eq!(rt; lowest(&rt, heap, 6, 2)?, Some(2));
    assert_eq!(rt; lowest(&rt, heap, 512, 512)?, None);
    assert_eq!(rt; lowest(&rt, heap, 512, 511)?, Some(511));
    Ok(())
}

#[test]
fn a_graph_that_no_memory_holds_is_told_at_once(rt: HostRuntime) {
    // the cells are 256 TiB, more than a process can address, but a row is only 16 MiB: without the
    // question for room it would fill one row after another
    let size = 1 << 24;
    let answer = rank(rt.alloc(), &Chain { size, back: size });
    assert!(rt; matches!(answer, Err(Unranked::Memory(_))));
}
