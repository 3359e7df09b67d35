//! The rules on examples: the tests of every crate.
//!
//! They stand apart since a crate with tests is proved twice, once with them.
#![tactic(auto)]

#[cfg(test)]
mod graphs;
#[cfg(test)]
mod joinings;
#[cfg(test)]
mod rows;
#[cfg(test)]
mod texts;
#[cfg(test)]
mod traces;
