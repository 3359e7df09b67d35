//! Words, fields and lines, as the parts of a text that spell them.
#![tactic(auto)]

mod fields;
mod lines;
mod places;
mod words;

pub use fields::{COMMA, Field, Fields};
pub use lines::Lines;
pub use places::{NEWLINE, find};
pub use words::{parse_word, word_len, write_word};
