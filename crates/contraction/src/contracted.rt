//! The quotient of a graph at a partition, with its remembered edges.
ghost use Rattle.std.specs.Prelude.{◌≡◌, ◌↔◌, slice_index_or, ◌<◌, ◌≤◌, ◌+◌, ◌&&◌, ℕ, List, [], length, map, IfOk, IsTrue};
ghost use Rattle.graph_core.specs.from_counting.Common.{Within, mem, item, rising_list, some};
ghost use Rattle.graph_core.specs.Common.{Graph, HasNoLoop, has_ends, size, block, contracted, remembered, union_of_blocks, graph_of, pair_of};
ghost use Rattle.indexmap.specs.IndexMap.{keys};
ghost use Rattle.contraction.specs.Contracted.{KeepsContraction, contraction};
ghost use Rattle.contraction.specs.EdgeRows.{AreEdgeRows};
ghost use Rattle.contraction.specs.LeastEdges.{least_at};
ghost use Rattle.contraction.specs.Pairs.{EachOnce, joined_pairs};

use crate::Partition;
use crate::edge_rows::{EdgeRows, edges_with};
use crate::partition::union_at;
use crate::place_pairs::{graph_with, joined_places};
use graph_core::vset_core::{MOST_VERTICES, VSet};
use graph_core::{Ends, MOST_EDGES, MultiGraph};
use indexmap::IndexMap;
use std::alloc::{AllocError as Memory, Global};
use std::marker::Model;

/// The quotient of a graph at a partition: the graph with one vertex for each block, by place, and
/// one edge for each pair of adjacent blocks, in lexicographic order of their places. Each of its
/// edges remembers the edges of the graph between its two blocks. Contracts see the quotient graph,
/// the blocks and the remembered edges.
#[derive(Drop)]
pub struct Contracted {
    order: u32,
    size: u32,
    blocks: Vec<VSet>,
    graph: MultiGraph,
    remembered: IndexMap<(u32, u32), Vec<u32>>,
}

impl Model for Contracted {
    ghost use Rattle.std.specs.Prelude.{map};
    ghost use Rattle.contraction.specs.Contracted.{ContractedValue, KeepsContraction};

    ghost Value = { ContractedValue };

    ghost view = { λ q. record { order = q.order; size = q.size; blocks = q.blocks.items; graph = q.graph; edges = map (λ entry. entry.1.items) q.remembered.entries } };

    ghost invariant = { λ q. KeepsContraction (record { order = q.order; size = q.size; blocks = q.blocks.items; graph = q.graph; edges = map (λ entry. entry.1.items) q.remembered.entries }) };
}

impl Contracted {
    /// The law that this is the quotient of some multigraph at some partition. It does nothing: a
    /// caller states it where it needs it.
    pub fn keeps_contraction(&self)
        ensures { KeepsContraction self.now }
    {
        let _ = &self.blocks;
    }

    /// Whether this is a quotient at the partition `p`. Takes no memory.
    pub fn is_at(&self, p: &Partition) -> bool
        ensures { IsTrue result ↔ (self.now.blocks ≡ p.now.blocks) }
    {
        self.blocks == p.blocks
    }

    /// The quotient graph. Takes no memory.
    pub fn graph(&self) -> &MultiGraph
        ensures { result.now ≡ self.now.graph }
    {
        &self.graph
    }

    /// The edges of g between the two blocks that edge `e` of the quotient joins, in increasing
    /// order. Takes no memory.
    pub fn remembered(&self, e: u32) -> &[u32]
        requires { Within (size self.now.graph) e }
        ensures value { result.now ≡ item self.now.edges e }
        ensures edges { (g : Graph) (p : List (List ℕ)) → self.now ≡ contraction g p →
            result.now ≡ remembered g p e }
    {
        edges_at(&self.remembered, e as usize - 1)
    }

    /// The union of the blocks at the places in `s`. Takes no memory, and O(k) steps on words for k
    /// blocks.
    pub fn lift_set(&self, s: VSet) -> VSet
        ensures { (g : Graph) (p : List (List ℕ)) → self.now ≡ contraction g p →
            result ≡ union_of_blocks g p (mem s) }
    {
        self.keeps_contraction();
        let union = union_at(&self.blocks, s);
        union.rises();
        union
    }

    /// The least of the edges of the graph between the two blocks that edge `e` of the quotient
    /// joins.
    pub(crate) fn least(&self, e: u32) -> u32
        requires { Within (size self.now.graph) e }
        ensures value { result ≡ least_at self.now e }
        ensures within { Within self.now.size result }
    {
        self.keeps_contraction();
        self.remembered(e)[0]
    }

    /// The number of edges of the original graph.
    pub(crate) fn base_size(&self) -> u32
        ensures value { result ≡ self.now.size }
        ensures few { result ≤ MOST_EDGES }
    {
        self.size
    }
}

// The remembered edges at place i.
fn edges_at(kept: &IndexMap<(u32, u32), Vec<u32>>, i: usize) -> &[u32]
    requires { i < length kept.now.entries }
    ensures { result.now ≡ slice_index_or (map (λ entry. entry.1.items) kept.now.entries) i [] }
{
    match kept.get_index(i) {
        Some((_, edges)) => edges,
        None => unreachable!(),
    }
}

/// The quotient of `g` at `p`, a partition of its vertices: one edge for each pair of adjacent
/// blocks, in lexicographic order of their places, with its remembered edges. Takes O(n (n + m))
/// time; the only error is `Memory`.
pub fn quotient(alloc: Global, g: &MultiGraph, p: &Partition) -> Result<Contracted, Memory>
    requires { p.now.order ≡ g.now.order }
    ensures { IfOk result (λ q. q ≡ contraction g.now p.now.blocks) }
{
    let (ends, pairs) = joined_places(alloc, g, p)?;
    quotient_by(alloc, g, p, &ends, &pairs)
}

// The quotient, from the ends of the edges as places of blocks, and the pairs of places that they
// join.
fn quotient_by(
    alloc: Global,
    g: &MultiGraph,
    p: &Partition,
    ends: &[Ends],
    pairs: &[Ends],
) -> Result<Contracted, Memory>
    requires order { p.now.order ≡ g.now.order }
    requires ends { graph_of (length p.now.blocks) ends.now ≡ contracted g.now p.now.blocks }
    requires pairs { map pair_of pairs.now ≡ joined_pairs (contracted g.now p.now.blocks) }
    ensures { IfOk result (λ q. q ≡ contraction g.now p.now.blocks) }
{
    g.keeps_limits();
    p.keeps_partition();
    let order = p.len() as u32;
    let graph = graph_with(alloc, order, pairs)?;
    let rows = EdgeRows::of(alloc, order, ends)?;
    let remembered = remember(alloc, ends, &rows, pairs)?;
    let blocks = p.copy_blocks(alloc)?;
    Ok(Contracted {
        order: g.order(),
        size: g.size(),
        blocks,
        graph,
        remembered,
    })
}

// The remembered edges of each pair.
fn remember(
    alloc: Global,
    ends: &[Ends],
    rows: &EdgeRows,
    pairs: &[Ends],
) -> Result<IndexMap<(u32, u32), Vec<u32>>, Memory>
    requires rows { AreEdgeRows (graph_of 0 ends.now) rows.now }
    requires apart { HasNoLoop (graph_of 0 pairs.now) }
    requires once { EachOnce (map pair_of pairs.now) }
    ensures keys { IfOk result (λ kept. keys kept ≡ map pair_of pairs.now) }
    ensures edges { IfOk result
        (λ kept. map (λ entry. entry.1.items) kept.entries ≡
        map (λ pair. rising_list (length ends.now)
        (has_ends (graph_of 0 ends.now) pair.0 pair.1)) (map pair_of pairs.now)) }
{
    let mut kept = IndexMap::new(alloc);
    for pair in pairs {
        let edges = edges_with(alloc, ends, rows, pair.a, pair.b)?;
        kept.insert((pair.a, pair.b), edges)?;
    }
    Ok(kept)
}
