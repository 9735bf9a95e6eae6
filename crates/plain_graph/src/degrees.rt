//! Degrees, and whether a set of edges is a matching.
ghost use Rattle.std.specs.Prelude.{◌≡◌, ◌≤◌, ◌+◌, ◌==◌, cond};
ghost use Rattle.allowed_edges.specs.from_counting.Common.{Within, bit, mem};
ghost use Rattle.graph_core.specs.Common.{degree, is_matching, is_perfect};
ghost use Rattle.plain_graph.specs.Small.{IsSmall};

use graph_core::vset_core::{MOST_VERTICES, VSet};
use graph_core::{Ends, MultiGraph};

/// How many of the two ends are `v`.
fn ends_at(ends: Ends, v: u32) -> u32
    ensures is { result ≡ bit (ends.a == v) + bit (ends.b == v) }
    ensures few { result ≤ 2 }
{
    let first = if ends.a == v { 1 } else { 0 };
    let second = if ends.b == v { 1 } else { 0 };
    first + second
}

/// How many ends at `v` the edges of the set have.
pub fn degree(graph: &MultiGraph, edges: VSet, v: u32) -> u32
    requires { IsSmall graph.now }
    ensures { result ≡ degree graph.now (mem edges) v }
{
    let mut found = 0;
    for i in 0..graph.size() {
        if edges.contains(i + 1) {
            found += ends_at(graph.ends(i + 1), v);
        }
    }
    found
}

/// The degree of `v` in a perfect matching of G - `removed`.
fn wanted_at(removed: VSet, v: u32) -> u32
    requires { Within MOST_VERTICES v }
    ensures { result ≡ cond (mem removed v) 0 1 }
{
    if removed.contains(v) { 0 } else { 1 }
}

/// Whether the edges are a matching of G - `removed`.
pub fn is_matching(graph: &MultiGraph, removed: VSet, edges: VSet) -> bool
    requires { IsSmall graph.now }
    ensures { result ≡ is_matching graph.now (mem removed) (mem edges) }
{
    for i in 0..graph.order() {
        if degree(graph, edges, i + 1) > wanted_at(removed, i + 1) {
            return false;
        }
    }
    true
}

/// Whether the edges are a perfect matching of G - `removed`.
pub fn is_perfect(graph: &MultiGraph, removed: VSet, edges: VSet) -> bool
    requires { IsSmall graph.now }
    ensures { result ≡ is_perfect graph.now (mem removed) (mem edges) }
{
    for i in 0..graph.order() {
        if degree(graph, edges, i + 1) != wanted_at(removed, i + 1) {
            return false;
        }
    }
    true
}
