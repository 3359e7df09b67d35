//! Question 11: where transitions lead.
ghost use Rattle.std.specs.Prelude.{◌≡◌};
ghost use Rattle.structure.specs.Transitions.{crossing_verdict, stays};

use crate::asking::{ask, named};
use crate::lines::Lines;
use chart::Transition;
use faults::ChartFault;
use linefile::Question;

// Does the transition stay in its source's region?
fn stays(lines: &Lines, transition: &Transition) -> bool
    ensures { result ≡ stays lines.now transition.now }
{
    let source = named(&lines.states, transition.source as usize);
    let target = named(&lines.states, transition.target as usize);
    source
        .zip(target)
        .is_some_and(|(source, target)| source.region == target.region)
}

#[derive(Clone, Copy)]
struct Staying<'a> {
    lines: &'a Lines,
}

impl<'a> Question<Transition> for Staying<'a> {
    ghost yes = { λ question _ transition. stays question.lines.now transition };

    fn holds(&self, _number: usize, transition: &Transition) -> bool {
        stays(self.lines, transition)
    }
}

pub(crate) fn ask_crossing(lines: &Lines) -> Result<(), ChartFault>
    ensures { result ≡ crossing_verdict lines.now }
{
    let before = lines.before_transitions();
    ask(
        &Staying { lines },
        before,
        &lines.transitions,
        ChartFault::Crossing,
    )
}
