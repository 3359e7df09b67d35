//! Fields of a form: what a field may hold, and the value it stands for.
ghost use Rattle.std.specs.Prelude.{◌≡◌, ℕ, List, Option};
ghost use Rattle.text.specs.Fields.{next_place};
ghost use Rattle.text.specs.Unread.{unread};
ghost use Rattle.linefile.specs.Forms.{first_of, nothing_left, only_byte, optional, rest};
ghost use Rattle.text.specs.Words.{word_in};

use text::{Fields, parse_word};

/// A type whose values are written as fields.
pub trait FieldForm {
    ghost form: { List ℕ → Option Self };

    /// The value that the field stands for, if it has the form.
    fn parse(field: &[u8]) -> Option<Self>
        ensures { result ≡ form «field».now };
}

impl FieldForm for u32 {
    ghost form = { word_in };

    fn parse(field: &[u8]) -> Option<u32> {
        parse_word(field)
    }
}

// What stands in place of a value that is absent.
const ABSENT: u8 = b'-';

impl<F: FieldForm> FieldForm for Option<F> {
    ghost form = { optional F.form };

    fn parse(field: &[u8]) -> Option<Option<F>> {
        match field {
            [ABSENT] => Some(None),
            _ => Some(Some(F::parse(field)?)),
        }
    }
}

/// The byte of a field that has just one. What is written as one letter matches on it: the letters
/// of its type are all that such a `parse` has.
pub fn only_byte(field: &[u8]) -> Option<u8>
    ensures { result ≡ only_byte «field».now }
{
    match field {
        [byte] => Some(*byte),
        _ => None,
    }
}

/// The value of the next field, if there is one and it has the form.
pub fn take_field<F: FieldForm>(fields: &mut Fields) -> Option<F>
    ensures value { result ≡ first_of F.form (unread fields.old) }
    ensures left { unread fields.new ≡ rest (unread fields.old) }
    ensures text { fields.new.text.now ≡ fields.old.text.now }
    ensures next { fields.new.next ≡ next_place fields.old.text.now fields.old.next }
{
    let field = fields.next_field()?;
    F::parse(field.text)
}

/// Asks that no field is left.
pub fn end_fields(mut fields: Fields) -> Option<()>
    ensures { result ≡ nothing_left (unread fields.entry) }
{
    match fields.next_field() {
        Some(_) => None,
        None => Some(()),
    }
}
