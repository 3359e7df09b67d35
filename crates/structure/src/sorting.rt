//! The lines of a file, sorted by kind.
ghost use Rattle.std.specs.Prelude.{◌≡◌, IfOk, Option};
ghost use Rattle.std.specs.List.{filter_map};
ghost use Rattle.chart.specs.declared.lines.Line.{Line};
ghost use Rattle.structure.specs.Lists.{Limited, Picks, listed};

use crate::lines::Lines;
use chart::Line;
use std::alloc::{AllocError, Global};

// What the lines of a kind hold, in their order.
fn pick_all<T: Drop, F: Fn(&Line) -> Option<T>>(
    heap: Global,
    lines: &[Line],
    pick: F,
) -> Result<Vec<T>, AllocError>
    requires { F.IsAlwaysCallable pick }
    ensures { (picks : Line → Option T) → Picks F.Fn pick picks
        → IfOk result (λ all. all.items ≡ filter_map picks lines.now) }
{
    // a loop: all lines are gone over five times, and `filter_map` and `collect` cost more for each
    let mut all = Vec::new(heap);
    for line in lines {
        if let Some(held) = pick(line) {
            all.push(held)?;
        }
    }
    Ok(all)
}

// The lines of a file that keeps the limits.
pub(crate) fn sorted(heap: Global, lines: &[Line]) -> Result<Lines, AllocError>
    requires { Limited (listed lines.now) }
    ensures { IfOk result (λ all. all ≡ listed lines.now) }
{
    Ok(Lines {
        variables: pick_all(heap, lines, |line| match line {
            Line::Variable(variable) => Some(*variable),
            _ => None,
        })?,
        regions: pick_all(heap, lines, |line| match line {
            Line::Region(region) => Some(*region),
            _ => None,
        })?,
        states: pick_all(heap, lines, |line| match line {
            Line::State(state) => Some(*state),
            _ => None,
        })?,
        transitions: pick_all(heap, lines, |line| match line {
            Line::Transition(transition) => Some(*transition),
            _ => None,
        })?,
        effects: pick_all(heap, lines, |line| match line {
            Line::Effect(effect) => Some(*effect),
            _ => None,
        })?,
    })
}
