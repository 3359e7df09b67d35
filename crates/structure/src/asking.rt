//! What every question is asked with.
ghost use Rattle.std.specs.Prelude.{◌≡◌, ℕ, ◌+◌, ◌^◌, ◌<◌, length};
ghost use Rattle.std.specs.List.{slice_get};
ghost use Rattle.faults.specs.declared.charts.ChartFault.{ChartFault};
ghost use Rattle.structure.specs.Verdicts.{Makes, first_line, refused_at};

use faults::ChartFault;
use linefile::{Question, first_no};

// The line of that number, if there is one. Numbers of lines are words; `as usize` brings them
// here, since `usize::try_from` would have an error that cannot come.
pub(crate) fn named<L: Copy>(lines: &[L], number: usize) -> Option<L>
    ensures { result ≡ slice_get lines.now number }
{
    lines.get(number).copied()
}

// Asks each line, where so many lines of the file stand before them: the first no is refused. The
// list and the count stay two parameters: a pair would be made for each call. Numbers of lines fit
// a word, so `as u32` loses nothing.
pub(crate) fn ask<L, Q: Question<L>, R: FnOnce(u32) -> ChartFault>(
    question: &Q,
    before: usize,
    lines: &[L],
    fault: R,
) -> Result<(), ChartFault>
    requires refuses { R.IsAlwaysCallable fault }
    requires fits { before + length lines.now < 2 ^ 32 }
    ensures { (fault_at : ℕ → ChartFault) → Makes R.FnOnce fault fault_at
        → result ≡ refused_at fault_at (first_line before (Q.Question.yes question.now) lines.now) }
{
    match first_no(question, lines) {
        Some(number) => Err(fault((before + number) as u32)),
        None => Ok(()),
    }
}
