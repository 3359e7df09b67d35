//! The lines of a chart file.
#![tactic(auto)]

mod effects;
mod expressions;
mod lines;
mod regions;
mod states;
mod transitions;
mod variables;

pub use effects::{Effect, How};
pub use expressions::{Expression, Operand, Operator};
pub use lines::{Letter, Line};
pub use regions::Region;
pub use states::{Kind, State};
pub use transitions::{Transition, When};
pub use variables::{Use, Variable};
