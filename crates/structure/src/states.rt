//! Question 10: the transitions out of states.
ghost use Rattle.std.specs.Prelude.{◌≡◌, ◌==◌};
ghost use Rattle.structure.specs.States.{ends, exit_count, exits_fit, exits_verdict, is_parent, region_count, state_exits_fit, termination_count};

use crate::asking::ask;
use crate::lines::Lines;
use chart::{Kind, Region, State, Transition};
use faults::ChartFault;
use linefile::{Question, count_yes};

// Is the state the region's parent?
#[derive(Clone, Copy)]
struct RegionOf {
    state: usize,
}

impl Question<Region> for RegionOf {
    ghost yes = { λ question _ region. is_parent question.state region.parent };

    fn holds(&self, _number: usize, region: &Region) -> bool {
        region
            .parent
            .is_some_and(|parent| parent as usize == self.state)
    }
}

// Is the state the transition's source?
#[derive(Clone, Copy)]
struct Exit {
    state: usize,
}

impl Question<Transition> for Exit {
    ghost yes = { λ question _ transition. (transition.source == question.state) };

    fn holds(&self, _number: usize, transition: &Transition) -> bool {
        transition.source as usize == self.state
    }
}

// Is the state the transition's source, and the transition a termination?
#[derive(Clone, Copy)]
struct Termination {
    state: usize,
}

impl Question<Transition> for Termination {
    ghost yes = { λ question _ transition. ends question.state transition };

    fn holds(&self, _number: usize, transition: &Transition) -> bool {
        transition.source as usize == self.state && transition.when.is_termination()
    }
}

fn region_count(lines: &Lines, state: usize) -> usize
    ensures { result ≡ region_count lines.now state }
{
    count_yes(&RegionOf { state }, &lines.regions)
}

fn exit_count(lines: &Lines, state: usize) -> usize
    ensures { result ≡ exit_count lines.now state }
{
    count_yes(&Exit { state }, &lines.transitions)
}

fn termination_count(lines: &Lines, state: usize) -> usize
    ensures { result ≡ termination_count lines.now state }
{
    count_yes(&Termination { state }, &lines.transitions)
}

// May a state of this kind have so many regions, transitions out, and terminations among these?
fn exits_fit(kind: Kind, regions: usize, exits: usize, terminations: usize) -> bool
    ensures { result ≡ exits_fit kind regions exits terminations }
{
    match kind {
        Kind::Final => exits == 0 && regions == 0,
        Kind::Initial | Kind::Ordinary => {
            if regions == 0 {
                terminations == 0
            } else {
                exits == 1 && terminations == 1
            }
        }
    }
}

// Do the transitions out of the state fit its kind and its regions?
fn state_exits_fit(lines: &Lines, number: usize, state: &State) -> bool
    ensures { result ≡ state_exits_fit lines.now number state.now }
{
    exits_fit(
        state.kind,
        region_count(lines, number),
        exit_count(lines, number),
        termination_count(lines, number),
    )
}

#[derive(Clone, Copy)]
struct Leaving<'a> {
    lines: &'a Lines,
}

impl<'a> Question<State> for Leaving<'a> {
    ghost yes = { λ question number state. state_exits_fit question.lines.now number state };

    fn holds(&self, number: usize, state: &State) -> bool {
        state_exits_fit(self.lines, number, state)
    }
}

pub(crate) fn ask_exits(lines: &Lines) -> Result<(), ChartFault>
    ensures { result ≡ exits_verdict lines.now }
{
    let before = lines.before_states();
    ask(&Leaving { lines }, before, &lines.states, ChartFault::Exits)
}
