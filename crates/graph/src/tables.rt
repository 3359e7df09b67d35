//! What reaches what, in a square table.
ghost use Rattle.std.specs.Prelude.{◌≡◌, ◌<◌, length, find, IfOk};
ghost use Rattle.std.specs.List.{range_with_len};
ghost use Rattle.graph.specs.Graphs.{reaches};
ghost use Rattle.graph.specs.Tables.{cell, column_count, column_counts, square};

use crate::graphs::Graph;
use crate::rows::{Row, pass};
use std::alloc::{AllocError, Global};
use std::marker::Model;

/// A row for each node.
#[derive(Drop)]
pub(crate) struct Table {
    rows: Vec<Row>,
}

// Clauses see the rows.
impl Model for Table {
    ghost use Rattle.std.specs.Prelude.{Bool, List};
    ghost use Rattle.graph.specs.Tables.{IsSquare};

    ghost Value = { List (List Bool) };

    ghost view = { λ table. table.rows.items };

    ghost invariant = { λ table. IsSquare table.rows.items };
}

// Is there memory for so many cells? It is given back at once.
fn has_room(heap: Global, cells: usize) -> Result<(), AllocError> {
    let _room: Vec<bool> = Vec::with_capacity(heap, cells)?;
    Ok(())
}

// A row for each node, of what follows it.
fn follower_rows<G: Graph>(heap: Global, graph: &G, size: usize) -> Result<Vec<Row>, AllocError>
    ensures { IfOk result (λ rows. rows.items ≡ square size (G.follows graph.now)) }
{
    let mut rows = Vec::with_capacity(heap, size)?;
    for node in 0..size {
        rows.push(Row::of(heap, graph, size, node)?)?;
    }
    Ok(rows)
}

impl Table {
    // From what follows what to what reaches what.
    pub(crate) fn of<G: Graph>(heap: Global, graph: &G) -> Result<Table, AllocError>
        ensures { IfOk result (λ table. let n = G.nodes graph.now in
            table ≡ square n (reaches n (G.follows graph.now))) }
    {
        let size = graph.node_count();
        // Room for all rows is asked for before anything is asked of the graph, so where there is
        // none that is told at once. Where the square is no `usize`, no memory could hold it.
        has_room(heap, size.saturating_mul(size))?;
        let mut rows = follower_rows(heap, graph, size)?;
        // one node after another, as each pass reads what the passes before it wrote
        for node in 0..size {
            pass(&mut rows, node);
        }
        Ok(Table { rows })
    }

    fn reaches_itself(&self, node: usize) -> bool
        requires { node < length self.now }
        ensures { result ≡ cell self.now node node }
    {
        self.rows[node].is_marked(node)
    }

    pub(crate) fn lowest_loop(&self) -> Option<usize>
        ensures { result ≡ find (λ a. cell self.now a a) (range_with_len 0 (length self.now)) }
    {
        (0..self.rows.len()).find(|&node| self.reaches_itself(node))
    }

    // How many nodes reach the node.
    fn column_count(&self, node: usize) -> usize
        requires { node < length self.now }
        ensures { result ≡ column_count self.now node }
    {
        self.rows.iter().filter(|row| row.is_marked(node)).count()
    }

    // For each node, how many nodes reach it.
    pub(crate) fn column_counts(&self, heap: Global) -> Result<Vec<usize>, AllocError>
        ensures { IfOk result (λ counts. counts.items ≡ column_counts self.now) }
    {
        (0..self.rows.len())
            .map(|node| self.column_count(node))
            .collect(heap)
    }
}
