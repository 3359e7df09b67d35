//! Questions 7 and 9: one root, and one initial state in each region.
ghost use Rattle.std.specs.Prelude.{◌≡◌};
ghost use Rattle.structure.specs.Regions.{has_no_parent, initial_in, initials_verdict, one_initial, roots_verdict};

use crate::asking::ask;
use crate::lines::Lines;
use chart::{Kind, Region, State};
use faults::ChartFault;
use linefile::{Question, count_yes};

// Has the region no parent?
#[derive(Clone, Copy)]
struct Roots;

impl Question<Region> for Roots {
    ghost yes = { λ _ _ region. has_no_parent region.parent };

    fn holds(&self, _number: usize, region: &Region) -> bool {
        region.parent.is_none()
    }
}

pub(crate) fn ask_roots(lines: &Lines) -> Result<(), ChartFault>
    ensures { result ≡ roots_verdict lines.now }
{
    if count_yes(&Roots, &lines.regions) == 1 {
        Ok(())
    } else {
        Err(ChartFault::Roots)
    }
}

// Is the state an initial one of the region?
#[derive(Clone, Copy)]
struct InitialIn {
    region: usize,
}

impl Question<State> for InitialIn {
    ghost yes = { λ question _ state. initial_in question.region state };

    fn holds(&self, _number: usize, state: &State) -> bool {
        state.region as usize == self.region && state.kind == Kind::Initial
    }
}

// Has the region exactly one initial state?
#[derive(Clone, Copy)]
struct Starting<'a> {
    lines: &'a Lines,
}

impl<'a> Question<Region> for Starting<'a> {
    ghost yes = { λ question region _. one_initial question.lines.now region };

    fn holds(&self, number: usize, _region: &Region) -> bool {
        let lines = self.lines;
        count_yes(&InitialIn { region: number }, &lines.states) == 1
    }
}

pub(crate) fn ask_initials(lines: &Lines) -> Result<(), ChartFault>
    ensures { result ≡ initials_verdict lines.now }
{
    let before = lines.before_regions();
    ask(
        &Starting { lines },
        before,
        &lines.regions,
        ChartFault::Initials,
    )
}
