//! A line of a chart file, of any letter.
ghost use Rattle.std.specs.Prelude.{◌≡◌, ◌≤◌, MatchOption, length, refl};
ghost use Rattle.chart.specs.declared.lines.Letter.TheVariants.{Variable, Region, State, Transition, Effect};
ghost use Rattle.chart.specs.ChartFiles.{chart_format, letters, place_of};

use crate::effects::{Effect, parse_effect};
use crate::regions::{Region, parse_region};
use crate::states::{State, parse_state};
use crate::transitions::{Transition, parse_transition};
use crate::variables::{Variable, parse_variable};
use linefile::FileLine;
use text::Fields;

/// What a line of a chart file begins with: `V`, `R`, `S`, `T` or `E`, in this order.
#[derive(Clone, Copy, PartialEq, Eq, PartialOrd, Ord, Debug)]
pub enum Letter {
    Variable,
    Region,
    State,
    Transition,
    Effect,
}

/// A line of a chart file. Its number is its place among the lines of its letter.
#[derive(Clone, Copy, PartialEq, Eq, Debug)]
pub enum Line {
    Variable(Variable),
    Region(Region),
    State(State),
    Transition(Transition),
    Effect(Effect),
}

// The letter that stands at a place among the letters.
fn letter_at(place: usize) -> Option<Letter>
    ensures { MatchOption result (length letters ≤ place) (λ letter. place_of letter ≡ place) }
{
    match place {
        0 => Some(Letter::Variable),
        1 => Some(Letter::Region),
        2 => Some(Letter::State),
        3 => Some(Letter::Transition),
        4 => Some(Letter::Effect),
        _ => None,
    }
}

impl FileLine for Line {
    type Letter = Letter;

    ghost format = { chart_format };

    ghost place = { place_of };

    ghost ordered = { elim [
      | Variable ↦ elim [ Variable ↦ refl | Region ↦ refl | State ↦ refl | Transition ↦ refl | Effect ↦ refl ]
      | Region ↦ elim [ Variable ↦ refl | Region ↦ refl | State ↦ refl | Transition ↦ refl | Effect ↦ refl ]
      | State ↦ elim [ Variable ↦ refl | Region ↦ refl | State ↦ refl | Transition ↦ refl | Effect ↦ refl ]
      | Transition ↦ elim [ Variable ↦ refl | Region ↦ refl | State ↦ refl | Transition ↦ refl | Effect ↦ refl ]
      | Effect ↦ elim [ Variable ↦ refl | Region ↦ refl | State ↦ refl | Transition ↦ refl | Effect ↦ refl ]
    ] };

    fn letters() -> &'static [u8] {
        b"VRSTE"
    }

    fn letter(byte: u8) -> Option<Letter> {
        match byte {
            b'V' => Some(Letter::Variable),
            b'R' => Some(Letter::Region),
            b'S' => Some(Letter::State),
            b'T' => Some(Letter::Transition),
            b'E' => Some(Letter::Effect),
            _ => None,
        }
    }

    fn place(letter: Letter) -> usize {
        match letter {
            Letter::Variable => 0,
            Letter::Region => 1,
            Letter::State => 2,
            Letter::Transition => 3,
            Letter::Effect => 4,
        }
    }

    fn limit(letter: usize) -> u32 {
        match letter_at(letter) {
            Some(Letter::Variable) => 64,
            Some(Letter::Region) => 32,
            Some(Letter::State) => 64,
            Some(Letter::Transition) => 128,
            Some(Letter::Effect) => 128,
            None => 0,
        }
    }

    // five closures and no call that takes the variant: that call would need a clause about it
    fn parse(letter: usize, fields: Fields) -> Option<(u32, Line)> {
        match letter_at(letter)? {
            Letter::Variable => parse_variable(fields).map(|(number, line)| (
                number,
                Line::Variable(line),
            )),
            Letter::Region => parse_region(fields).map(|(number, line)| (
                number,
                Line::Region(line),
            )),
            Letter::State => parse_state(fields).map(|(number, line)| (number, Line::State(line))),
            Letter::Transition => parse_transition(fields).map(|(number, line)| (
                number,
                Line::Transition(line),
            )),
            Letter::Effect => parse_effect(fields).map(|(number, line)| (
                number,
                Line::Effect(line),
            )),
        }
    }
}
