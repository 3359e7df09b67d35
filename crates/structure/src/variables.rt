//! The variables that are inputs.
ghost use Rattle.std.specs.Prelude.{◌≡◌};
ghost use Rattle.structure.specs.Variables.{is_input};

use chart::{Use, Variable};
use linefile::Question;

pub(crate) fn is_input(usage: Use) -> bool
    ensures { result ≡ is_input usage }
{
    usage == Use::Input
}

// Is the variable an input?
#[derive(Clone, Copy)]
pub(crate) struct Inputs;

impl Question<Variable> for Inputs {
    ghost yes = { λ _ _ variable. is_input variable.usage };

    fn holds(&self, _number: usize, variable: &Variable) -> bool {
        is_input(variable.usage)
    }
}
