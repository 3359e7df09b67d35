//! The questions that are asked of a chart's lines, one after another.
ghost use Rattle.structure.specs.Structure.{structure_verdict};
ghost use Rattle.structure.specs.Verdicts.{Asked};

use crate::effects::ask_writes;
use crate::lines::Lines;
use crate::names::ask_names;
use crate::regions::{ask_initials, ask_roots};
use crate::rings::ask_rings;
use crate::states::ask_exits;
use crate::transitions::ask_crossing;
use faults::ChartFault;
use std::alloc::Global;

// Asks questions 6 to 12, where the joinings are numbered up to `joinings`: the first no is told.
pub(crate) fn check(heap: Global, lines: &Lines, joinings: u32) -> Result<(), ChartFault>
    ensures { Asked result (structure_verdict joinings lines.now) }
{
    ask_names(lines, joinings)?;
    ask_roots(lines)?;
    ask_rings(heap, lines)?;
    ask_initials(lines)?;
    ask_exits(lines)?;
    ask_crossing(lines)?;
    ask_writes(lines)
}
