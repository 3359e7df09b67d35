//! Line files: reading one of any kind, the forms of its fields, and questions asked of its lines.
#![tactic(auto)]

mod forms;
mod questions;
mod reading;

pub use forms::{FieldForm, end_fields, only_byte, take_field};
pub use questions::{Question, count_yes, first_no};
pub use reading::{FileLine, MOST_BYTES, read_lines};
