//! Cuts, and whether they are tight.
ghost use Rattle.std.specs.Prelude.{◌≡◌, ◌≤◌, ◌==◌, IfOk};
ghost use Rattle.std.specs.List.{list_all};
ghost use Rattle.allowed_edges.specs.from_counting.Common.{Within, count, is_odd, mem};
ghost use Rattle.graph_core.specs.Common.{edges_in_cut, in_cut, size, is_tight};
ghost use Rattle.plain_graph.specs.Cuts.{has_odd_sides};
ghost use Rattle.plain_graph.specs.Small.{IsSmall};

use crate::perfect_matchings;
use graph_core::MultiGraph;
use graph_core::vset_core::VSet;
use std::alloc::{AllocError as Memory, Global};

/// Whether exactly one end of the edge is in the shore.
fn is_in_cut(graph: &MultiGraph, shore: VSet, edge: u32) -> bool
    requires small { IsSmall graph.now }
    requires edge { Within (size graph.now) edge }
    ensures { result ≡ in_cut graph.now (mem shore) edge }
{
    let ends = graph.ends(edge);
    shore.contains(ends.a) != shore.contains(ends.b)
}

/// How many of the edges are in the cut of the shore.
pub fn edges_in_cut(graph: &MultiGraph, edges: VSet, shore: VSet) -> u32
    requires { IsSmall graph.now }
    ensures { result ≡ edges_in_cut graph.now (mem edges) (mem shore) }
{
    let mut found = 0;
    for i in 0..graph.size() {
        if edges.contains(i + 1) && is_in_cut(graph, shore, i + 1) {
            found += 1;
        }
    }
    found
}

/// How many vertices are in the shore.
fn vertices_in(graph: &MultiGraph, shore: VSet) -> u32
    requires { IsSmall graph.now }
    ensures is { result ≡ count graph.now.order (mem shore) }
    ensures few { result ≤ graph.now.order }
{
    let mut found = 0;
    for i in 0..graph.order() {
        if shore.contains(i + 1) {
            found += 1;
        }
    }
    found
}

/// Whether the number of vertices is odd inside and outside of the shore.
fn has_odd_sides(graph: &MultiGraph, shore: VSet) -> bool
    requires { IsSmall graph.now }
    ensures { result ≡ has_odd_sides graph.now (mem shore) }
{
    let inside = vertices_in(graph, shore);
    inside % 2 == 1 && (graph.order() - inside) % 2 == 1
}

/// Whether each of the sets has exactly one edge in the cut of the shore.
fn each_has_one(graph: &MultiGraph, sets: &[VSet], shore: VSet) -> bool
    requires { IsSmall graph.now }
    ensures { result ≡ list_all (λ m. edges_in_cut graph.now (mem m) (mem shore) == 1) sets.now }
{
    sets.iter().all(|set| edges_in_cut(graph, *set, shore) == 1)
}

/// Whether the shore is tight: an odd number of vertices inside and outside, and exactly one edge
/// of each perfect matching in its cut.
pub fn is_tight(alloc: Global, graph: &MultiGraph, shore: VSet) -> Result<bool, Memory>
    requires { IsSmall graph.now }
    ensures { IfOk result (λ tight. tight ≡ is_tight graph.now (mem shore)) }
{
    let matchings = perfect_matchings(alloc, graph, VSet::empty())?;
    Ok(has_odd_sides(graph, shore) && each_has_one(graph, matchings.as_slice(), shore))
}
