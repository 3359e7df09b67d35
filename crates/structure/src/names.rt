//! Question 6: what lines name.
ghost use Rattle.std.specs.Prelude.{◌≡◌, ◌+◌, ◌^◌, ◌<◌, length};
ghost use Rattle.faults.specs.declared.charts.ChartFault.TheVariants.{Names};
ghost use Rattle.structure.specs.Verdicts.{first_line, refused_at};
ghost use Rattle.structure.specs.Names.{effect_names, exists, names_verdict, operands_exist, operand_exists, region_names, state_names, transition_names, variable_names};

use crate::asking::ask;
use crate::lines::Lines;
use chart::{Effect, Expression, Operand, Region, State, Transition, Variable};
use faults::ChartFault;
use linefile::Question;

fn exists<L>(lines: &[L], number: u32) -> bool
    ensures { result ≡ exists lines.now number }
{
    (number as usize) < lines.len()
}

fn operand_exists(lines: &Lines, operand: Operand) -> bool
    ensures { result ≡ operand_exists lines.now operand }
{
    match operand {
        Operand::Constant(_) => true,
        Operand::Variable(variable) => exists(&lines.variables, variable),
    }
}

fn operands_exist(lines: &Lines, expression: Expression) -> bool
    ensures { result ≡ operands_exist lines.now expression }
{
    operand_exists(lines, expression.left) && operand_exists(lines, expression.right)
}

fn region_names(lines: &Lines, region: &Region) -> bool
    ensures { result ≡ region_names lines.now region.now }
{
    region
        .parent
        .is_none_or(|state| exists(&lines.states, state))
}

fn transition_names(lines: &Lines, transition: &Transition) -> bool
    ensures { result ≡ transition_names lines.now transition.now }
{
    exists(&lines.states, transition.source)
        && exists(&lines.states, transition.target)
        && operands_exist(lines, transition.trigger)
}

fn effect_names(lines: &Lines, effect: &Effect) -> bool
    ensures { result ≡ effect_names lines.now effect.now }
{
    exists(&lines.transitions, effect.transition)
        && exists(&lines.variables, effect.variable)
        && operands_exist(lines, effect.value)
}

// Does every line that the line names exist, and is a joining at most the last?
#[derive(Clone, Copy)]
struct Naming<'a> {
    lines: &'a Lines,
    joinings: u32,
}

impl<'a> Question<Variable> for Naming<'a> {
    ghost yes = { λ question _ variable. variable_names question.joinings variable };

    fn holds(&self, _number: usize, variable: &Variable) -> bool {
        variable.joining <= self.joinings
    }
}

impl<'a> Question<Region> for Naming<'a> {
    ghost yes = { λ question _ region. region_names question.lines.now region };

    fn holds(&self, _number: usize, region: &Region) -> bool {
        region_names(self.lines, region)
    }
}

impl<'a> Question<State> for Naming<'a> {
    ghost yes = { λ question _ state. state_names question.lines.now state };

    fn holds(&self, _number: usize, state: &State) -> bool {
        let lines = self.lines;
        exists(&lines.regions, state.region)
    }
}

impl<'a> Question<Transition> for Naming<'a> {
    ghost yes = { λ question _ transition. transition_names question.lines.now transition };

    fn holds(&self, _number: usize, transition: &Transition) -> bool {
        transition_names(self.lines, transition)
    }
}

impl<'a> Question<Effect> for Naming<'a> {
    ghost yes = { λ question _ effect. effect_names question.lines.now effect };

    fn holds(&self, _number: usize, effect: &Effect) -> bool {
        effect_names(self.lines, effect)
    }
}

// Asks the lines of one kind.
fn ask_kind<L, Q: Question<L>>(question: &Q, before: usize, lines: &[L]) -> Result<(), ChartFault>
    requires { before + length lines.now < 2 ^ 32 }
    ensures { result ≡ refused_at Names (first_line before (Q.Question.yes question.now) lines.now) }
{
    ask(question, before, lines, ChartFault::Names)
}

pub(crate) fn ask_names(lines: &Lines, joinings: u32) -> Result<(), ChartFault>
    ensures { result ≡ names_verdict joinings lines.now }
{
    let question = Naming { lines, joinings };
    ask_kind(&question, 0, &lines.variables)?;
    ask_kind(&question, lines.before_regions(), &lines.regions)?;
    ask_kind(&question, lines.before_states(), &lines.states)?;
    ask_kind(&question, lines.before_transitions(), &lines.transitions)?;
    ask_kind(&question, lines.before_effects(), &lines.effects)
}
