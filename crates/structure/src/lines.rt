//! The lines of a chart, sorted by kind.
ghost use Rattle.std.specs.Prelude.{◌≡◌, ◌≤◌};
ghost use Rattle.structure.specs.Limits.{most_variables};
ghost use Rattle.structure.specs.Lists.{Limited, before_effects, before_regions, before_states, before_transitions, no_lines};
ghost use Rattle.structure.specs.Variables.{input_count};

use crate::variables::Inputs;
use chart::{Effect, Region, State, Transition, Variable};
use linefile::count_yes;
use std::alloc::Global;
use std::marker::Model;

/// The lines of each kind in their order, so that a line's number is its place in its list.
#[derive(Drop)]
pub struct Lines {
    pub variables: Vec<Variable>,
    pub regions: Vec<Region>,
    pub states: Vec<State>,
    pub transitions: Vec<Transition>,
    pub effects: Vec<Effect>,
}

impl Model for Lines {
    ghost use Rattle.std.specs.Prelude.{length};
    ghost use Rattle.structure.specs.Limits.{Few};
    ghost use Rattle.structure.specs.Lists.{Lists};

    ghost Value = { Lists };

    ghost view = { λ lines. record {
      variables = lines.variables.items;
      regions = lines.regions.items;
      states = lines.states.items;
      transitions = lines.transitions.items;
      effects = lines.effects.items;
    } };

    // A chart has no more lines of each kind than its limit.
    ghost invariant = { λ lines. Few
        (length lines.variables.items)
        (length lines.regions.items)
        (length lines.states.items)
        (length lines.transitions.items)
        (length lines.effects.items) };
}

impl Lines {
    /// No lines.
    pub fn new(heap: Global) -> Lines
        ensures { result ≡ no_lines }
    {
        Lines {
            variables: Vec::new(heap),
            regions: Vec::new(heap),
            states: Vec::new(heap),
            transitions: Vec::new(heap),
            effects: Vec::new(heap),
        }
    }

    /// How many variables are inputs.
    pub fn input_count(&self) -> usize
        ensures value { result ≡ input_count self.now }
        ensures bound { result ≤ most_variables }
        ensures limited { Limited self.now }
    {
        count_yes(&Inputs, &self.variables)
    }

    // How many lines of the file stand before those of a kind. `limited` tells a caller that reads
    // no field what is true of all lines.
    pub(crate) fn before_regions(&self) -> usize
        ensures value { result ≡ before_regions self.now }
        ensures limited { Limited self.now }
    {
        self.variables.len()
    }

    pub(crate) fn before_states(&self) -> usize
        ensures { result ≡ before_states self.now }
    {
        self.before_regions() + self.regions.len()
    }

    pub(crate) fn before_transitions(&self) -> usize
        ensures { result ≡ before_transitions self.now }
    {
        self.before_states() + self.states.len()
    }

    pub(crate) fn before_effects(&self) -> usize
        ensures { result ≡ before_effects self.now }
    {
        self.before_transitions() + self.transitions.len()
    }
}
