//! Graphs of the literature, by the ends of their edges: each is a constant, the edges in the
//! order of their numbers.
ghost use Rattle.std.specs.Prelude.{◌≡◌, ℕ, ◌<◌, ◌≤◌, length, IfOk, OnOk, IsErrOf};
ghost use Rattle.allowed_edges.specs.from_counting.Common.{Within};
ghost use Rattle.plain_graph.specs.EdgeFaults.{IsReachedPair, JoinsTwo, pair_at};

use graph_core::vset_core::MOST_VERTICES;
use graph_core::{AddFault, MOST_EDGES, MultiGraph};
use std::alloc::Global;

/// Two disjoint edges, on 4 vertices.
pub const TWO_EDGES: [(u32, u32); 2] = [(1, 2), (3, 4)];

/// The path of three edges, on 4 vertices.
pub const PATH: [(u32, u32); 3] = [(1, 2), (2, 3), (3, 4)];

/// The star of three edges, on 4 vertices.
pub const STAR: [(u32, u32); 3] = [(1, 2), (1, 3), (1, 4)];

/// The triangle.
pub const TRIANGLE: [(u32, u32); 3] = [(1, 2), (1, 3), (2, 3)];

/// The cycle of four.
pub const FOUR_CYCLE: [(u32, u32); 4] = [(1, 2), (2, 3), (3, 4), (4, 1)];

/// The cycle of six.
pub const HEXAGON: [(u32, u32); 6] = [(1, 2), (2, 3), (3, 4), (4, 5), (5, 6), (6, 1)];

/// The cycle of eight.
pub const CYCLE_OF_8: [(u32, u32); 8] = [
    (1, 2),
    (2, 3),
    (3, 4),
    (4, 5),
    (5, 6),
    (6, 7),
    (7, 8),
    (8, 1),
];

/// The cycle of four with one edge doubled.
pub const DOUBLED_SQUARE: [(u32, u32); 5] = [(1, 2), (1, 2), (2, 3), (3, 4), (4, 1)];

/// The triangle 1 2 3 with the paths 1 4 5 2 and 4 6 7 3 and the edge 7 8 added, on 8 vertices:
/// three nested blossoms and a stem.
pub const FLOWER: [(u32, u32); 10] = [
    (1, 2),
    (4, 5),
    (6, 7),
    (1, 3),
    (2, 3),
    (1, 4),
    (5, 2),
    (4, 6),
    (7, 3),
    (8, 7),
];

/// The Petersen graph, on 10 vertices: the outer cycle is 1 to 5.
pub const PETERSEN: [(u32, u32); 15] = [
    (1, 2),
    (2, 3),
    (3, 4),
    (4, 5),
    (1, 5),
    (1, 6),
    (2, 7),
    (3, 8),
    (4, 9),
    (5, 10),
    (6, 8),
    (8, 10),
    (7, 10),
    (7, 9),
    (6, 9),
];

/// K3,3 with the triangle 1 2 3 in place of one vertex, on 8 vertices.
pub const TRIANGLE_IN_K33: [(u32, u32); 12] = [
    (1, 2),
    (1, 3),
    (2, 3),
    (1, 4),
    (2, 5),
    (3, 6),
    (7, 4),
    (7, 5),
    (7, 6),
    (8, 4),
    (8, 5),
    (8, 6),
];

/// Two copies of K4 that share the edge 1-2, on 6 vertices.
pub const TWO_K4: [(u32, u32); 11] = [
    (1, 2),
    (1, 3),
    (1, 4),
    (2, 3),
    (2, 4),
    (3, 4),
    (1, 5),
    (1, 6),
    (2, 5),
    (2, 6),
    (5, 6),
];

/// The graph of `order` vertices with these edges, numbered in their order. An error is that of the
/// first edge that has one: `Range` if an end is not a vertex, `Loop` if the two ends are one
/// vertex, `TooMany` if there are `MOST_EDGES` edges before it. Otherwise the only error is
/// `Memory`.
pub fn graph_with(alloc: Global, order: u32, edges: &[(u32, u32)]) -> Result<MultiGraph, AddFault>
    requires { order ≤ MOST_VERTICES }
    ensures graph { IfOk result (λ g. g ≡ record { order = order; ends = edges.now }) }
    ensures fits { OnOk result
        ((k : ℕ) → k < length edges.now → JoinsTwo order (pair_at edges.now k)) }
    ensures few { OnOk result (length edges.now ≤ MOST_EDGES) }
    ensures range { IsErrOf result AddFault.Range → (k : ℕ) × IsReachedPair order edges.now k
        × ¬ (Within order (pair_at edges.now k).0 × Within order (pair_at edges.now k).1) }
    ensures equal { IsErrOf result AddFault.Loop → (k : ℕ) × IsReachedPair order edges.now k
        × Within order (pair_at edges.now k).0 ×
        ((pair_at edges.now k).0 ≡ (pair_at edges.now k).1) }
    ensures too_many { IsErrOf result AddFault.TooMany → (k : ℕ) × IsReachedPair order edges.now k
        × JoinsTwo order (pair_at edges.now k) × (k ≡ MOST_EDGES) }
{
    let mut graph = MultiGraph::new(alloc, order).map_err(|_| AddFault::Memory)?;
    for edge in edges {
        graph.keeps_limits();
        graph.add_edge(edge.0, edge.1)?;
    }
    graph.keeps_limits();
    Ok(graph)
}
