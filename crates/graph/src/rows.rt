//! What a node reaches, in a row of cells. A node is a number below their count, and each step asks
//! for it: a type for it would have to name its table.
ghost use Rattle.std.specs.Prelude.{◌≡◌, ◌<◌, ◌||◌, length, map, All, IfOk};
ghost use Rattle.graph.specs.Graphs.{by_way_of};
ghost use Rattle.graph.specs.Tables.{IsSquare, cell, gone_on, marked, row_of, square};

use crate::graphs::Graph;
use std::alloc::{AllocError, Global};
use std::marker::Model;

/// A cell for each node, marked where the row's own node reaches it.
#[derive(Drop)]
pub(crate) struct Row {
    cells: Vec<bool>,
}

// Clauses see the cells.
impl Model for Row {
    ghost use Rattle.std.specs.Prelude.{Bool, List};

    ghost Value = { List Bool };

    ghost view = { λ row. row.cells.items };
}

impl Row {
    // Marks what follows a node, in a graph of so many nodes.
    pub(crate) fn of<G: Graph>(
        heap: Global,
        graph: &G,
        size: usize,
        node: usize,
    ) -> Result<Row, AllocError>
        ensures { IfOk result (λ row. row ≡ row_of size (G.follows graph.now node)) }
    {
        let mut cells = vec![in heap; false; size]?;
        for (other, cell) in cells.iter_mut().enumerate() {
            *cell = graph.is_follower(node, other);
        }
        Ok(Row { cells })
    }

    pub(crate) fn is_marked(&self, node: usize) -> bool
        requires { node < length self.now }
        ensures { result ≡ marked self.now node }
    {
        self.cells[node]
    }

    // Marks what another row has marked.
    fn join(&mut self, other: &Row)
        requires { length other.now ≡ length self.old }
        ensures { self.new
            ≡ row_of (length self.old) (λ b. marked self.old b || marked other.now b) }
    {
        // a slice, since each write of a cell would have `other.cells` read anew
        let marks = other.cells.as_slice();
        // by number, since after a zip over `iter_mut` nothing is known of the cells
        for (node, cell) in self.cells.iter_mut().enumerate() {
            *cell |= marks[node];
        }
    }

    // What reaches a node reaches what that node does.
    fn go_on(&mut self, node: usize, through: &Row)
        requires node { node < length self.old }
        requires size { length through.now ≡ length self.old }
        ensures { self.new ≡ gone_on node through.now self.old }
    {
        if self.is_marked(node) {
            self.join(through);
        }
    }
}

fn all_go_on(rows: &mut [Row], node: usize, through: &Row)
    requires node { node < length through.now }
    requires size { All (λ row. length through.now ≡ length row) rows.old }
    ensures { rows.new ≡ map (gone_on node through.now) rows.old }
{
    for row in rows.iter_mut() {
        row.go_on(node, through);
    }
}

// Each row goes on by way of one node. That node's own row would take nothing new from itself, so
// it stays as it is, and the others may read it while they are written.
pub(crate) fn pass(rows: &mut [Row], node: usize)
    requires node { node < length rows.old }
    requires square { IsSquare rows.old }
    ensures { rows.new ≡ square (length rows.old) (by_way_of node (cell rows.old)) }
{
    let (before, rest) = rows.split_at_mut(node);
    let (through, after) = rest.split_first_mut().unwrap();
    all_go_on(before, node, through);
    all_go_on(after, node, through);
}
