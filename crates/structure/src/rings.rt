//! Question 8: the regions above a region.
ghost use Rattle.std.specs.Prelude.{◌≡◌, length};
ghost use Rattle.structure.specs.Rings.{is_below, parent_lies_in, rings_verdict};
ghost use Rattle.structure.specs.Verdicts.{Asked};

use crate::asking::named;
use crate::lines::Lines;
use faults::ChartFault;
use graph::{Graph, Unranked, rank};
use std::alloc::Global;

fn parent_lies_in(lines: &Lines, region: usize, parent: Option<u32>) -> bool
    ensures { result ≡ parent_lies_in lines.now region parent }
{
    parent
        .and_then(|state| named(&lines.states, state as usize))
        .is_some_and(|state| state.region as usize == region)
}

// The regions, each followed by the one of its parent state.
#[derive(Clone, Copy)]
struct RegionGraph<'a> {
    lines: &'a Lines,
}

impl<'a> Graph for RegionGraph<'a> {
    ghost nodes = { λ graph. length graph.lines.now.regions };

    ghost follows = { λ graph region above. is_below graph.lines.now region above };

    fn node_count(&self) -> usize {
        let lines = self.lines;
        lines.regions.len()
    }

    fn is_follower(&self, node: usize, other: usize) -> bool {
        let lines = self.lines;
        let region = named(&lines.regions, node);
        region.is_some_and(|region| parent_lies_in(lines, other, region.parent))
    }
}

pub(crate) fn ask_rings(heap: Global, lines: &Lines) -> Result<(), ChartFault>
    ensures { Asked result (rings_verdict lines.now) }
{
    match rank(heap, &RegionGraph { lines }) {
        Ok(_) => Ok(()),
        Err(Unranked::Loop(region)) => {
            // a chart has at most 416 lines, so the number fits a word
            Err(ChartFault::Ring((lines.before_regions() + region) as u32))
        }
        Err(Unranked::Memory(short)) => Err(short.into()),
    }
}
