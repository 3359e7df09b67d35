//! The structure of a chart: its lines by kind, and the questions that they have to answer.
#![tactic(auto)]

mod asking;
mod checking;
mod effects;
mod lines;
mod names;
mod reading;
mod regions;
mod rings;
mod sorting;
mod states;
mod transitions;
mod variables;

pub use lines::Lines;
