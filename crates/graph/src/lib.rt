//! Graphs on the numbers below a count, and ranks for their nodes.
#![tactic(auto)]

mod graphs;
mod ranking;
mod rows;
mod tables;

pub use graphs::Graph;
pub use ranking::{Unranked, rank};
