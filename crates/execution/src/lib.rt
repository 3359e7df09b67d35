//! Executing a trace: from the bytes of a chart and of the rows to the bytes of the output.
#![tactic(auto)]

mod output;
mod stops;

pub use output::{MOST_BYTES, execute};
