//! An effect: an `E` line.
ghost use Rattle.std.specs.Prelude.{◌≡◌};
ghost use Rattle.chart.specs.Effects.{effect_in, how_in};
ghost use Rattle.text.specs.Unread.{unread};

use crate::expressions::{Expression, parse_expression};
use linefile::{FieldForm, only_byte, take_field};
use text::Fields;

/// How an effect writes its variable.
#[derive(Clone, Copy, PartialEq, Eq, Debug)]
pub enum How {
    /// The value takes the place of the variable's word.
    Absolute,
    /// The value is joined with the variable's word.
    Relative,
}

// One letter each: the letters are all that differs from the other kinds of one letter.
impl FieldForm for How {
    ghost form = { how_in };

    fn parse(field: &[u8]) -> Option<How> {
        match only_byte(field)? {
            b'a' => Some(How::Absolute),
            b'r' => Some(How::Relative),
            _ => None,
        }
    }
}

/// What a transition does to a variable, both given by their numbers.
#[derive(Clone, Copy, PartialEq, Eq, Debug)]
pub struct Effect {
    pub transition: u32,
    pub variable: u32,
    pub how: How,
    pub value: Expression,
}

// The effect whose fields follow the letter, with its number.
pub(crate) fn parse_effect(mut fields: Fields) -> Option<(u32, Effect)>
    ensures { result ≡ effect_in (unread fields.entry) }
{
    let number = take_field(&mut fields)?;
    let transition = take_field(&mut fields)?;
    let variable = take_field(&mut fields)?;
    let how = take_field(&mut fields)?;
    let value = parse_expression(fields)?;
    Some((
        number,
        Effect {
            transition,
            variable,
            how,
            value,
        },
    ))
}
