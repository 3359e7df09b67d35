//! Executing a trace: from the bytes of its rows to the bytes of the output.
#![tactic(auto)]

mod bytes;
mod faults;
mod output;

pub use bytes::{MOST_BYTES, Trace};
pub use faults::Fault;
pub use output::{execute, execute_rows, refuse};
pub use refusal::Refusal;
