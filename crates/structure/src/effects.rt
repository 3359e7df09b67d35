//! Question 12: what effects write.
ghost use Rattle.std.specs.Prelude.{◌≡◌};
ghost use Rattle.structure.specs.Effects.{is_operand, may_join, may_write, reads, write_verdict};

use crate::asking::{ask, named};
use crate::lines::Lines;
use crate::variables::is_input;
use chart::{Effect, Expression, How, Operand, Variable};
use faults::ChartFault;
use linefile::Question;

fn is_operand(variable: u32, operand: Operand) -> bool
    ensures { result ≡ is_operand variable operand }
{
    operand == Operand::Variable(variable)
}

fn reads(variable: u32, value: Expression) -> bool
    ensures { result ≡ reads variable value }
{
    is_operand(variable, value.left) || is_operand(variable, value.right)
}

// Joining wants a joining, which 0 is not, and a value that does not read the variable.
fn may_join(effect: &Effect, variable: Variable) -> bool
    ensures { result ≡ may_join effect.now variable effect.now.how }
{
    match effect.how {
        How::Absolute => true,
        How::Relative => variable.joining != 0 && !reads(effect.variable, effect.value),
    }
}

// May the effect write its variable so?
fn may_write(lines: &Lines, effect: &Effect) -> bool
    ensures { result ≡ may_write lines.now effect.now }
{
    let variable = named(&lines.variables, effect.variable as usize);
    variable.is_some_and(|variable| !is_input(variable.usage) && may_join(effect, variable))
}

#[derive(Clone, Copy)]
struct Writing<'a> {
    lines: &'a Lines,
}

impl<'a> Question<Effect> for Writing<'a> {
    ghost yes = { λ question _ effect. may_write question.lines.now effect };

    fn holds(&self, _number: usize, effect: &Effect) -> bool {
        may_write(self.lines, effect)
    }
}

pub(crate) fn ask_writes(lines: &Lines) -> Result<(), ChartFault>
    ensures { result ≡ write_verdict lines.now }
{
    let before = lines.before_effects();
    ask(
        &Writing { lines },
        before,
        &lines.effects,
        ChartFault::Write,
    )
}
