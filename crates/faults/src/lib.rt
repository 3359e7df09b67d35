//! What is refused of a chart, and of an execution with one: each fault with its layer, the number
//! of its question and its place. The fault of a lower layer is carried whole in the layer above.
#![tactic(auto)]

mod charts;
mod lines;
mod outputs;

pub use charts::ChartFault;
pub use lines::{FileFault, LineFault};
pub use outputs::Fault;
pub use refusal::Refusal;
