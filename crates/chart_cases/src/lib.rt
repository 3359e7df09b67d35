//! The rules of charts and executions on examples: the tests of the upper crates.
#![tactic(auto)]

#[cfg(test)]
mod charts;
#[cfg(test)]
mod traces;
