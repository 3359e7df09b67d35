//! A variable: a `V` line.
ghost use Rattle.std.specs.Prelude.{◌≡◌};
ghost use Rattle.chart.specs.Variables.{use_in, variable_in};
ghost use Rattle.text.specs.Unread.{unread};

use linefile::{FieldForm, end_fields, only_byte, take_field};
use text::Fields;

/// Who sees a variable.
#[derive(Clone, Copy, PartialEq, Eq, Debug)]
pub enum Use {
    Input,
    Output,
    Local,
}

// One letter each: the letters are all that differs from the other kinds of one letter.
impl FieldForm for Use {
    ghost form = { use_in };

    fn parse(field: &[u8]) -> Option<Use> {
        match only_byte(field)? {
            b'i' => Some(Use::Input),
            b'o' => Some(Use::Output),
            b'l' => Some(Use::Local),
            _ => None,
        }
    }
}

/// A variable of a chart, with the number of its joining (0 for none) and the word it starts with.
#[derive(Clone, Copy, PartialEq, Eq, Debug)]
pub struct Variable {
    pub usage: Use,
    // a number and no `Option`: a joining set takes any number, 0 as one that no joining has
    pub joining: u32,
    pub start: u32,
}

// The variable whose fields follow the letter, with its number.
pub(crate) fn parse_variable(mut fields: Fields) -> Option<(u32, Variable)>
    ensures { result ≡ variable_in (unread fields.entry) }
{
    let number = take_field(&mut fields)?;
    let usage = take_field(&mut fields)?;
    let joining = take_field(&mut fields)?;
    let start = take_field(&mut fields)?;
    end_fields(fields)?;
    Some((
        number,
        Variable {
            usage,
            joining,
            start,
        },
    ))
}
