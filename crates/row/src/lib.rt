//! Rows of words: read from a text and written into one, in memory that the caller lends.
#![tactic(auto)]

mod faults;
mod limits;
mod lines;
mod reading;
mod writing;

pub use faults::RowFault;
pub use limits::{MOST_BYTES, MOST_WORDS};
pub use reading::{read, width};
pub use refusal::Refusal;
pub use text::NEWLINE;
pub use writing::write;
