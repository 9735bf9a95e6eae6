//! The edges of a graph as they join the blocks of a partition.
ghost use Rattle.std.specs.Prelude.{◌≡◌, ◌≢◌, IfOk};
ghost use Rattle.graph_core.specs.from_counting.Common.{rising_list};
ghost use Rattle.graph_core.specs.Common.{contracted, has_ends, size};

use crate::Partition;
use crate::edge_rows::{EdgeRows, edges_with};
use crate::place_pairs::ends_at;
use graph_core::{Ends, MultiGraph};
use std::alloc::{AllocError as Memory, Global};
use std::marker::Model;

/// The edges of a graph with their ends as places of blocks, those that join two blocks also by the
/// earlier of the two.
/// Contracts see the contracted graph, which has the edges of the graph by their numbers.
#[derive(Drop)]
pub struct PlacedEdges {
    order: u32,
    ends: Vec<Ends>,
    rows: EdgeRows,
}

impl Model for PlacedEdges {
    ghost use Rattle.graph_core.specs.Common.{Graph, graph_of};
    ghost use Rattle.contraction.specs.EdgeRows.{AreEdgeRows};

    ghost Value = { Graph };

    ghost view = { λ e. graph_of e.order e.ends.items };

    ghost invariant = { λ e. AreEdgeRows (graph_of 0 e.ends.items) e.rows };
}

impl PlacedEdges {
    /// The edges of `g` at the partition `p`. Takes O(n^2 + m) time; the only error is `Memory`.
    pub fn of(alloc: Global, g: &MultiGraph, p: &Partition) -> Result<PlacedEdges, Memory>
        requires { p.now.order ≡ g.now.order }
        ensures { IfOk result (λ e. e ≡ contracted g.now p.now.blocks) }
    {
        p.keeps_partition();
        let ends = ends_at(alloc, g.edges(), p)?;
        let order = p.len() as u32;
        let rows = EdgeRows::of(alloc, order, &ends)?;
        Ok(PlacedEdges { order, ends, rows })
    }

    /// The edges between the blocks at the two different places, in increasing order: one pass over
    /// the edges that join the earlier of the two blocks to a later one, so O(m) time at most; the
    /// only error is `Memory`.
    pub fn between(&self, alloc: Global, a: u32, b: u32) -> Result<Vec<u32>, Memory>
        requires { a ≢ b }
        ensures { IfOk result
            (λ edges. edges.items ≡ rising_list (size self.now) (has_ends self.now a b)) }
    {
        edges_with(alloc, &self.ends, &self.rows, a, b)
    }
}
