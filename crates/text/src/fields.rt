//! The fields of a line, read one after another as parts of the caller's text.
ghost use Rattle.std.specs.Prelude.{◌≡◌, ℕ, ◌+◌, ◌≤◌, List, [], ◌∷◌, length, take, drop, IfSome, Some, MatchOption};
ghost use Rattle.std.specs.Option.{unwrap_or};
ghost use Rattle.text.specs.Fields.{Parted, fields_from, next_place};

use crate::places::find;

/// The byte that parts fields.
pub const COMMA: u8 = b',';

/// A part of the caller's text, and the place where it begins there.
#[derive(Clone, Copy)]
pub struct Field<'a> {
    pub text: &'a [u8],
    pub place: usize,
}

/// The fields of a line that are still to be read.
#[derive(Drop)]
pub struct Fields<'a> {
    text: &'a [u8],
    next: Option<usize>,
    ghost within: { unwrap_or next 0 ≤ length text.now },
}

impl<'a> Fields<'a> {
    ghost use Rattle.text.specs.Unread.{unread};

    /// The fields of the line that begins at a place and ends with the text.
    pub fn new(text: &'a [u8], place: usize) -> Fields<'a>
        ensures text { result.text.now ≡ text.now }
        ensures fields { unread result ≡ fields_from text.now (Some place) }
        ensures parted { place ≤ length text.now → Parted (drop place text.now) (unread result) }
        ensures only { place ≤ length text.now → (fs : List (List ℕ)) → Parted (drop place text.now) fs → fs ≡ unread result }
    {
        if place > text.len() {
            return Fields { text, next: None };
        }
        Fields {
            text,
            next: Some(place),
        }
    }

    // The field at the place that is next: the part up to the next comma, or to the end of the text.
    fn cut_field(&mut self, place: usize) -> Field<'a>
        requires { self.old.next ≡ Some place }
        ensures text { self.new.text.now ≡ self.old.text.now }
        ensures field { unread self.old ≡ result.text.now ∷ unread self.new }
        ensures place { (result.place ≡ place) × (result.text.now ≡ take (length result.text.now) (drop place self.old.text.now)) }
        ensures next { self.new.next ≡ next_place self.old.text.now self.old.next }
    {
        match find(self.text, COMMA, place) {
            Some(end) => {
                self.next = Some(end + 1);
                Field {
                    text: &self.text[place..end],
                    place,
                }
            }
            None => {
                self.next = None;
                Field {
                    text: &self.text[place..],
                    place,
                }
            }
        }
    }

    /// The next field: the part up to the next comma, or to the end of the text.
    pub fn next_field(&mut self) -> Option<Field<'a>>
        ensures text { self.new.text.now ≡ self.old.text.now }
        ensures field { MatchOption result ((unread self.old ≡ []) × (unread self.new ≡ [])) (λ f. unread self.old ≡ f.text.now ∷ unread self.new) }
        ensures place { IfSome result (λ f. (self.old.next ≡ Some f.place) × (f.text.now ≡ take (length f.text.now) (drop f.place self.old.text.now))) }
        ensures next { self.new.next ≡ next_place self.old.text.now self.old.next }
    {
        let place = self.next?;
        Some(self.cut_field(place))
    }
}

impl<'a> Iterator for Fields<'a> {
    ghost use Rattle.std.specs.Iterator.{YieldsFirstBy, item_count};
    ghost use Rattle.text.specs.Unread.{unread};

    type Item = Field<'a>;

    ghost next_gives = { YieldsFirstBy (λ f. f.text.now) unread };

    ghost remaining = { item_count unread };

    fn next(&mut self) -> Option<Field<'a>> {
        self.next_field()
    }
}
