//! The edges that join two blocks, listed by the earlier of the two.
ghost use Rattle.std.specs.Prelude.{◌≡◌, ◌≢◌, ℕ, ◌+◌, ◌<◌, ◌≤◌, ◌++◌, ◌∷◌, [], length, IfOk, OnOk, slice_set};
ghost use Rattle.graph_core.specs.from_counting.Common.{rising_list, row_of};
ghost use Rattle.graph_core.specs.Common.{IsGraph, graph_of, has_ends};
ghost use Rattle.contraction.specs.EdgeRows.{AreEdgeRows};

use graph_core::vset_core::MOST_VERTICES;
use graph_core::{Ends, MOST_EDGES};
use std::alloc::{AllocError as Memory, Global};
use std::marker::Model;

/// For each place the edges that join the block there to a block at a later place, in increasing
/// order. Contracts see these lists, with an empty one for the place 0.
#[derive(Drop)]
pub(crate) struct EdgeRows {
    rows: Vec<Vec<u32>>,
}

impl Model for EdgeRows {
    ghost use Rattle.std.specs.Prelude.{List, ℕ};
    ghost use Rattle.contraction.specs.EdgeRows.{lists_of};

    ghost Value = { List (List ℕ) };

    ghost view = { λ rows. lists_of rows.rows.items };
}

impl EdgeRows {
    /// The rows of the edges with these ends. One pass over the edges.
    pub(crate) fn of(alloc: Global, n: u32, ends: &[Ends]) -> Result<EdgeRows, Memory>
        requires places { n ≤ MOST_VERTICES }
        requires few { length ends.now ≤ MOST_EDGES }
        requires graph { IsGraph (graph_of n ends.now) }
        ensures { IfOk result (AreEdgeRows (graph_of 0 ends.now)) }
    {
        let mut rows = EdgeRows::empty(alloc, n)?;
        for (k, edge) in ends.iter().enumerate() {
            if edge.a != edge.b {
                rows.add(edge.a.min(edge.b), k as u32 + 1)?;
            }
        }
        Ok(rows)
    }

    // A row for each place and for 0, all empty.
    fn empty(alloc: Global, n: u32) -> Result<EdgeRows, Memory>
        requires { n ≤ MOST_VERTICES }
        ensures size { IfOk result (λ rows. length rows ≡ n + 1) }
        ensures empty { IfOk result (λ rows. (a : ℕ) → row_of rows a ≡ []) }
    {
        let mut rows = Vec::with_capacity(alloc, n as usize + 1)?;
        for _place in 0..n + 1 {
            rows.push(Vec::new(alloc))?;
        }
        Ok(EdgeRows { rows })
    }

    // Lists edge e at a place.
    fn add(&mut self, a: u32, e: u32) -> Result<(), Memory>
        requires { a < length self.old }
        ensures { OnOk result (self.new ≡ slice_set self.old a (row_of self.old a ++ e ∷ [])) }
    {
        self.rows[a as usize].push(e)?;
        Ok(())
    }

    // The edges at a place; none past the last.
    fn row(&self, a: u32) -> &[u32]
        ensures { result.now ≡ row_of self.now a }
    {
        match self.rows.get(a as usize) {
            Some(row) => row,
            None => &[],
        }
    }
}

/// The edges with the two different ends, in increasing order: one pass over the row of the lesser.
pub(crate) fn edges_with(
    alloc: Global,
    ends: &[Ends],
    rows: &EdgeRows,
    a: u32,
    b: u32,
) -> Result<Vec<u32>, Memory>
    requires rows { AreEdgeRows (graph_of 0 ends.now) rows.now }
    requires apart { a ≢ b }
    ensures { IfOk result (λ edges. edges.items ≡
        rising_list (length ends.now) (has_ends (graph_of 0 ends.now) a b)) }
{
    let mut edges = Vec::new(alloc);
    for edge in rows.row(a.min(b)) {
        if ends[*edge as usize - 1].are(a, b) {
            edges.push(*edge)?;
        }
    }
    Ok(edges)
}
