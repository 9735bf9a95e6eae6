//! All perfect matchings, and the size of a maximum matching.
ghost use Rattle.std.specs.Prelude.{◌≡◌, ◌≤◌, ℕ, true, All, Contains, IfOk, filter, length};
ghost use Rattle.std.specs.List.{list_any};
ghost use Rattle.allowed_edges.specs.from_counting.Common.{Within, count, mem, rising_list, IsRisingIn, Set};
ghost use Rattle.graph_core.specs.Common.{size, IsMatching, IsPerfect, has_matching_of, has_perfect, is_allowed, is_matching, is_perfect};
ghost use Rattle.plain_graph.specs.Small.{IsSmall};
ghost use Rattle.plain_graph.specs.Subsets.{perfect_matchings_of};

use crate::edge_sets::edge_sets;
use crate::{is_matching, is_perfect};
use graph_core::vset_core::{MOST_VERTICES, VSet};
use graph_core::{MultiGraph, SetList};
use std::alloc::{AllocError as Memory, Global};

/// Those of the sets that are perfect matchings of G - `removed`.
fn perfect_among(
    alloc: Global,
    graph: &MultiGraph,
    removed: VSet,
    sets: &[VSet],
) -> Result<SetList, Memory>
    requires { IsSmall graph.now }
    ensures { IfOk result
        (λ found. found ≡ filter (λ m. is_perfect graph.now (mem removed) (mem m)) sets.now) }
{
    let mut found = SetList::new(alloc);
    for edges in sets {
        if is_perfect(graph, removed, *edges) {
            found.push(*edges)?;
        }
    }
    Ok(found)
}

/// All perfect matchings of G - `removed`, as sets of edge numbers.
pub fn perfect_matchings(
    alloc: Global,
    graph: &MultiGraph,
    removed: VSet,
) -> Result<SetList, Memory>
    requires { IsSmall graph.now }
    ensures list { IfOk result (λ found. found ≡ perfect_matchings_of graph.now (mem removed)) }
    ensures perfect { IfOk result
        (All (λ m. IsRisingIn (size graph.now) m × IsPerfect graph.now (mem removed) (mem m))) }
    ensures all { IfOk result (λ found. (m : Set) → IsPerfect graph.now (mem removed) m →
        Contains found (rising_list (size graph.now) m)) }
{
    let sets = edge_sets(alloc, graph.size())?;
    let found = perfect_among(alloc, graph, removed, sets.as_slice())?;
    Ok(found)
}

/// Whether G - `removed` has a perfect matching.
pub fn has_perfect(alloc: Global, graph: &MultiGraph, removed: VSet) -> Result<bool, Memory>
    requires { IsSmall graph.now }
    ensures { IfOk result (λ found. found ≡ has_perfect graph.now (mem removed)) }
{
    let matchings = perfect_matchings(alloc, graph, removed)?;
    Ok(!matchings.is_empty())
}

/// Whether one of the sets contains the edge.
fn is_in_some(sets: &[VSet], edge: u32) -> bool
    requires { Within MOST_VERTICES edge }
    ensures { result ≡ list_any (λ m. mem m edge) sets.now }
{
    sets.iter().any(|set| set.contains(edge))
}

/// Whether some perfect matching contains the edge.
pub fn is_allowed(alloc: Global, graph: &MultiGraph, edge: u32) -> Result<bool, Memory>
    requires small { IsSmall graph.now }
    requires edge { Within (size graph.now) edge }
    ensures { IfOk result (λ found. found ≡ is_allowed graph.now edge) }
{
    let matchings = perfect_matchings(alloc, graph, VSet::empty())?;
    Ok(is_in_some(matchings.as_slice(), edge))
}

/// The largest size of those of the sets that are matchings of G - `removed`, or 0 if none is.
fn greatest_among(graph: &MultiGraph, removed: VSet, sets: &[VSet]) -> u32
    requires small { IsSmall graph.now }
    requires edges { All (IsRisingIn (size graph.now)) sets.now }
    ensures reached { has_matching_of graph.now (mem removed) result ≡ true }
    ensures greatest { All (λ m. is_matching graph.now (mem removed) (mem m) ≡ true →
        length m ≤ result) sets.now }
{
    let mut most: u32 = 0;
    for edges in sets {
        if is_matching(graph, removed, *edges) {
            most = most.max(edges.len());
        }
    }
    most
}

/// The size of a maximum matching of G - `removed`.
pub fn greatest_matching(alloc: Global, graph: &MultiGraph, removed: VSet) -> Result<u32, Memory>
    requires { IsSmall graph.now }
    ensures reached { IfOk result (λ most. has_matching_of graph.now (mem removed) most ≡ true) }
    ensures greatest { IfOk result (λ most. (m : Set) → IsMatching graph.now (mem removed) m →
        count (size graph.now) m ≤ most) }
{
    let sets = edge_sets(alloc, graph.size())?;
    Ok(greatest_among(graph, removed, sets.as_slice()))
}
