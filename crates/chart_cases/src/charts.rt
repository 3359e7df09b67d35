//! The rules of charts on examples. Crate `table` has the verdicts on many more.
use chart::{Kind, Letter, Line, Operand, Operator, Region};
use faults::{ChartFault, FileFault, LineFault};
use linefile::FileLine;
use refusal::Refusal;
use std::alloc::{AllocError, Global};
use std::process::Abort;
use structure::Lines;
use text::Fields;

// A chart that is accepted, with a line of each letter and a second state.
fn small_chart(rt: &impl Abort, heap: Global) -> Lines {
    let text = b"V,0,i,2,9\nR,0,-\nS,0,0,i\nS,1,0,f\nT,0,0,1,d,6,c4,v0\nE,0,0,0,a,0,c1,c0\n";
    let mut lines = Lines::new(heap);
    // an input may not be written
    assert_eq!(rt; lines.read(heap, text, 3).is_ok(), false);
    assert!(rt; lines.read(heap, &text[0..50], 3).is_ok());
    lines
}

#[test]
fn an_accepted_read_leaves_the_lines_of_the_file(rt: HostRuntime) {
    let lines = small_chart(&rt, rt.alloc());
    assert_eq!(rt; lines.input_count(), 1);
    assert_eq!(rt; lines.variables.len(), 1);
    assert_eq!(rt; lines.regions.len(), 1);
    assert_eq!(rt; lines.transitions.len(), 1);
    assert_eq!(rt; lines.effects.len(), 0);
    for state in lines.states.iter().skip(1) {
        assert!(rt; state.kind == Kind::Final && state.region == 0);
    }
    for transition in &lines.transitions {
        let trigger = transition.trigger;
        assert_eq!(rt; trigger.operator, Operator::Smaller);
        assert_eq!(rt; trigger.left, Operand::Constant(4));
        assert_eq!(rt; trigger.right, Operand::Variable(0));
    }
}

#[test]
fn a_refused_read_leaves_no_lines(rt: HostRuntime) {
    let mut lines = small_chart(&rt, rt.alloc());
    assert!(rt;
        lines
            .read(rt.alloc(), b"R,0,-\nS,0,0,i\nS,1,0,i\n", 3)
            .is_err()
    );
    assert_eq!(rt;
        lines.variables.len() + lines.regions.len() + lines.states.len(),
        0
    );
    assert_eq!(rt; lines.transitions.len() + lines.effects.len(), 0);
}

#[test]
fn a_fault_carries_the_one_below(rt: HostRuntime) {
    let line: FileFault = LineFault::Number(7).into();
    let chart: ChartFault = line.into();
    assert_eq!(rt; (chart.number(), chart.place()), (4, 7));
    let file: ChartFault = FileFault::Bytes.into();
    assert_eq!(rt; (file.number(), file.place()), (1, 0));
    let memory: ChartFault = FileFault::Memory(AllocError).into();
    assert_eq!(rt; (memory.number(), memory.place()), (0, 0));
}

#[test]
fn letters_stand_at_their_places(rt: HostRuntime) {
    assert_eq!(rt; Line::letters(), b"VRSTE".as_slice());
    assert_eq!(rt; Line::letter(b'S'), Some(Letter::State));
    assert_eq!(rt; Line::letter(b'M'), None);
    assert_eq!(rt; Line::place(Letter::State), 2);
    assert_eq!(rt; Line::limit(1), 32);
    assert_eq!(rt; Line::limit(5), 0);
    assert_eq!(rt;
        Line::parse(1, Fields::new(b"R,0,-", 2)),
        Some((0, Line::Region(Region { parent: None }),))
    );
    assert_eq!(rt; Line::parse(5, Fields::new(b"R,0,-", 2)), None);
}
