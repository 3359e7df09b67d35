//! A state: an `S` line.
ghost use Rattle.std.specs.Prelude.{◌≡◌};
ghost use Rattle.chart.specs.States.{kind_in, state_in};
ghost use Rattle.text.specs.Unread.{unread};

use linefile::{FieldForm, end_fields, only_byte, take_field};
use text::Fields;

/// What a state is in its region.
#[derive(Clone, Copy, PartialEq, Eq, Debug)]
pub enum Kind {
    Initial,
    Ordinary,
    Final,
}

// One letter each: the letters are all that differs from the other kinds of one letter.
impl FieldForm for Kind {
    ghost form = { kind_in };

    fn parse(field: &[u8]) -> Option<Kind> {
        match only_byte(field)? {
            b'i' => Some(Kind::Initial),
            b'n' => Some(Kind::Ordinary),
            b'f' => Some(Kind::Final),
            _ => None,
        }
    }
}

/// A state of a chart, with the number of the region it lies in.
#[derive(Clone, Copy, PartialEq, Eq, Debug)]
pub struct State {
    pub region: u32,
    pub kind: Kind,
}

// The state whose fields follow the letter, with its number.
pub(crate) fn parse_state(mut fields: Fields) -> Option<(u32, State)>
    ensures { result ≡ state_in (unread fields.entry) }
{
    let number = take_field(&mut fields)?;
    let region = take_field(&mut fields)?;
    let kind = take_field(&mut fields)?;
    end_fields(fields)?;
    Some((number, State { region, kind }))
}
