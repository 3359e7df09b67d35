//! Reading a chart file into its lines.
ghost use Rattle.structure.specs.Charts.{Exactly, Settles, verdict};
ghost use Rattle.structure.specs.Verdicts.{Asked};

use crate::checking::check;
use crate::lines::Lines;
use crate::sorting::sorted;
use chart::Line;
use faults::ChartFault;
use linefile::read_lines;
use std::alloc::Global;

// The lines of a file that gets yes to all questions. `heap`, `text` and `joinings` are what the
// public call is handed; it is thin over two steps, so that each is proved alone.
fn read_chart(heap: Global, text: &[u8], joinings: u32) -> Result<Lines, ChartFault>
    ensures { Asked result (verdict joinings text.now) }
{
    let read: Vec<Line> = read_lines(heap, text)?;
    let lines = sorted(heap, &read)?;
    check(heap, &lines, joinings)?;
    Ok(lines)
}

// Reading, where a refusal leaves no lines.
fn read_into(lines: &mut Lines, heap: Global, text: &[u8], joinings: u32) -> Result<(), ChartFault>
    ensures { Settles (verdict joinings text.now) (result, lines.new) }
{
    *lines = Lines::new(heap);
    *lines = read_chart(heap, text, joinings)?;
    Ok(())
}

impl Lines {
    /// Reads the lines of a chart file, in which joinings are numbered up to `joinings`. A file
    /// that is refused leaves no lines.
    pub fn read(&mut self, heap: Global, text: &[u8], joinings: u32) -> Result<(), ChartFault>
        ensures all { Settles (verdict joinings text.now) (result, self.new) }
        ensures exactly { Exactly joinings text.now (result, self.new) }
    {
        read_into(self, heap, text, joinings)
    }
}
