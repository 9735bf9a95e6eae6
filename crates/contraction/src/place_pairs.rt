//! The pairs of places of blocks that edges join, and the graph with given edges.
ghost use Rattle.std.specs.Prelude.{◌≡◌, ◌<◌, ◌≤◌, ◌+◌, ◌&&◌, ◌||◌, ◌++◌, ℕ, List, [], All, length, map, nat_lt, flat_map, IfOk, OnOk};
ghost use Rattle.std.specs.List.{list_any};
ghost use Rattle.graph_core.specs.from_counting.Common.{Within, mem, item, pair_with, rising_list, IsRisingIn, everything, some};
ghost use Rattle.graph_core.specs.Common.{IsGraph, contracted, graph_of, pair_of, are_ends, place, IsWithinLimits};
ghost use Rattle.contraction.specs.Pairs.{ArePlaces, joined_pairs};

use crate::Partition;
use graph_core::vset_core::{MOST_VERTICES, VSet};
use graph_core::{Ends, MultiGraph};
use std::alloc::{AllocError as Memory, Global};

// For each vertex the place of the block that contains it.
fn places(alloc: Global, p: &Partition) -> Result<Vec<u32>, Memory>
    ensures each { IfOk result (λ places. length places.items ≡ p.now.order) }
    ensures right { IfOk result (λ places. ArePlaces p.now.blocks places.items) }
{
    p.keeps_partition();
    let mut places = Vec::with_capacity(alloc, p.order() as usize)?;
    for v in 0..p.order() {
        places.push(p.place(v + 1))?;
    }
    Ok(places)
}

// The ends of an edge as places of blocks.
fn placed(places: &[u32], edge: Ends) -> Ends
    requires first { Within (length places.now) edge.a }
    requires second { Within (length places.now) edge.b }
    ensures { (p : List (List ℕ)) → ArePlaces p places.now →
        pair_of result ≡ (place p edge.a, place p edge.b) }
{
    Ends {
        a: places[edge.a as usize - 1],
        b: places[edge.b as usize - 1],
    }
}

/// The ends of the edges as places of blocks.
pub(crate) fn ends_at(alloc: Global, edges: &[Ends], p: &Partition) -> Result<Vec<Ends>, Memory>
    requires { IsGraph (graph_of p.now.order edges.now) }
    ensures { IfOk result
        (λ ends. graph_of (length p.now.blocks) ends.items ≡
        contracted (graph_of p.now.order edges.now) p.now.blocks) }
{
    let places = places(alloc, p)?;
    let mut ends = Vec::with_capacity(alloc, edges.len())?;
    for edge in edges {
        ends.push(placed(&places, *edge))?;
    }
    Ok(ends)
}

// Writes the later end of an edge into the row of the earlier one.
fn note_edge(rows: &mut [VSet], edge: Ends)
    requires few { length rows.old ≤ MOST_VERTICES }
    requires first { Within (length rows.old) edge.a }
    requires second { Within (length rows.old) edge.b }
    ensures { (i j : ℕ) → Within (length rows.old) i →
        mem (item rows.new i) j ≡ (mem (item rows.old i) j || (nat_lt i j && are_ends i j edge)) }
{
    if edge.a < edge.b {
        let i = edge.a as usize - 1;
        rows[i] = rows[i].with(edge.b);
    } else if edge.b < edge.a {
        let i = edge.b as usize - 1;
        rows[i] = rows[i].with(edge.a);
    }
}

// Writes into the empty rows the later neighbours of each vertex.
fn note_edges(rows: &mut [VSet], ends: &[Ends])
    requires few { length rows.old ≤ MOST_VERTICES }
    requires graph { IsGraph (graph_of (length rows.old) ends.now) }
    requires empty { All (λ row. row ≡ []) rows.old }
    ensures { (i j : ℕ) → Within (length rows.old) i →
        mem (item rows.new i) j ≡ (nat_lt i j && list_any (are_ends i j) ends.now) }
{
    for edge in ends {
        note_edge(rows, *edge);
    }
}

// For each vertex, in order, the set of its later neighbours.
fn later_neighbours(alloc: Global, n: u32, ends: &[Ends]) -> Result<Vec<VSet>, Memory>
    requires few { n ≤ MOST_VERTICES }
    requires graph { IsGraph (graph_of n ends.now) }
    ensures each { IfOk result (λ rows. length rows.items ≡ n) }
    ensures later { IfOk result
        (λ rows. (i j : ℕ) → Within n i →
        mem (item rows.items i) j ≡ (nat_lt i j && list_any (are_ends i j) ends.now)) }
{
    let mut rows = vec![in alloc; VSet::empty(); n as usize]?;
    note_edges(&mut rows, ends);
    Ok(rows)
}

// Appends the pairs of a with the members of its row.
fn push_row(pairs: &mut Vec<Ends>, a: u32, row: VSet) -> Result<(), Memory>
    ensures { OnOk result
        (map pair_of pairs.new.items ≡ map pair_of pairs.old.items ++ map (pair_with a) row) }
{
    for b in row.iter() {
        pairs.push(Ends { a, b })?;
    }
    Ok(())
}

// The pairs of each number with the members of its row, in lexicographic order.
fn row_pairs(alloc: Global, rows: &[VSet]) -> Result<Vec<Ends>, Memory>
    requires { length rows.now ≤ MOST_VERTICES }
    ensures pairs { IfOk result
        (λ pairs. map pair_of pairs.items ≡
        flat_map (λ a. map (pair_with a) (item rows.now a))
        (rising_list (length rows.now) everything)) }
    ensures rising { OnOk result
        ((i : ℕ) → Within (length rows.now) i → IsRisingIn MOST_VERTICES (item rows.now i)) }
{
    let mut pairs = Vec::new(alloc);
    for (i, row) in rows.iter().enumerate() {
        row.rises();
        push_row(&mut pairs, i as u32 + 1, *row)?;
    }
    Ok(pairs)
}

/// The pairs a < b of places that some edge joins, in lexicographic order.
pub(crate) fn pairs_joined(alloc: Global, n: u32, ends: &[Ends]) -> Result<Vec<Ends>, Memory>
    requires few { n ≤ MOST_VERTICES }
    requires graph { IsGraph (graph_of n ends.now) }
    ensures { IfOk result (λ pairs. map pair_of pairs.items ≡ joined_pairs (graph_of n ends.now)) }
{
    let rows = later_neighbours(alloc, n, ends)?;
    row_pairs(alloc, &rows)
}

/// The edges of `g` seen from the blocks of `p`: the ends of each as places of blocks, and the
/// pairs a < b of places that some edge joins, in lexicographic order.
pub(crate) fn joined_places(
    alloc: Global,
    g: &MultiGraph,
    p: &Partition,
) -> Result<(Vec<Ends>, Vec<Ends>), Memory>
    requires { p.now.order ≡ g.now.order }
    ensures ends { IfOk result (λ made.
        graph_of (length p.now.blocks) made.0.items ≡ contracted g.now p.now.blocks) }
    ensures pairs { IfOk result (λ made.
        map pair_of made.1.items ≡ joined_pairs (contracted g.now p.now.blocks)) }
{
    p.keeps_partition();
    let ends = ends_at(alloc, g.edges(), p)?;
    let pairs = pairs_joined(alloc, p.len() as u32, &ends)?;
    Ok((ends, pairs))
}

/// The graph with these edges.
pub(crate) fn graph_with(alloc: Global, n: u32, pairs: &[Ends]) -> Result<MultiGraph, Memory>
    requires { IsWithinLimits (graph_of n pairs.now) }
    ensures { IfOk result (λ g. g ≡ graph_of n pairs.now) }
{
    let mut graph = MultiGraph::new(alloc, n)?;
    for pair in pairs {
        graph.push_edge(*pair)?;
    }
    Ok(graph)
}
