//! A transition: a `T` line.
ghost use Rattle.std.specs.Prelude.{◌≡◌};
ghost use Rattle.chart.specs.Transitions.{is_termination, trigger_fits, transition_in, when_in};
ghost use Rattle.text.specs.Unread.{unread};

use crate::expressions::{Expression, parse_expression};
use linefile::{FieldForm, only_byte, take_field};
use text::Fields;

/// When a transition may be taken.
#[derive(Clone, Copy, PartialEq, Eq, Debug)]
pub enum When {
    /// Already in the tick that enters its source.
    Immediate,
    /// Only in a later tick.
    Delayed,
    /// Once all regions of its source have ended.
    Termination,
}

// One letter each: the letters are all that differs from the other kinds of one letter.
impl FieldForm for When {
    ghost form = { when_in };

    fn parse(field: &[u8]) -> Option<When> {
        match only_byte(field)? {
            b'i' => Some(When::Immediate),
            b'd' => Some(When::Delayed),
            b't' => Some(When::Termination),
            _ => None,
        }
    }
}

impl When {
    /// Is it on termination?
    pub fn is_termination(self) -> bool
        ensures { result ≡ is_termination self }
    {
        self == When::Termination
    }
}

/// A transition between two states, given by their numbers, with its trigger.
#[derive(Clone, Copy, PartialEq, Eq, Debug)]
pub struct Transition {
    pub source: u32,
    pub target: u32,
    pub when: When,
    pub trigger: Expression,
}

// On termination there is nothing left to ask.
fn trigger_fits(transition: Transition) -> bool
    ensures { result ≡ trigger_fits transition }
{
    !transition.when.is_termination() || transition.trigger.is_always()
}

// The transition whose fields follow the letter, with its number.
pub(crate) fn parse_transition(mut fields: Fields) -> Option<(u32, Transition)>
    ensures { result ≡ transition_in (unread fields.entry) }
{
    let number = take_field(&mut fields)?;
    let source = take_field(&mut fields)?;
    let target = take_field(&mut fields)?;
    let when = take_field(&mut fields)?;
    let trigger = parse_expression(fields)?;
    let transition = Transition {
        source,
        target,
        when,
        trigger,
    };
    trigger_fits(transition).then_some((number, transition))
}
