//! The Gallai-Edmonds sets of a graph.
use vset_core::VSet;

/// The Gallai-Edmonds sets: each vertex is in exactly one of them.
#[derive(Clone, Copy)]
pub struct ThreeSets {
    /// D: the vertices that some maximum matching misses.
    pub d: VSet,
    /// A: the vertices outside `d` that are adjacent to a vertex of `d`.
    pub a: VSet,
    /// C: the rest.
    pub c: VSet,
}
