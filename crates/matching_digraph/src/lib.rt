//! Tight cuts of bipartite graphs by reachability in the digraph of a perfect matching.
//!
//! Which tight shores separate the ends of an edge of a perfect matching? Direct each edge of the
//! matching from one side to the other, and take an arc from each vertex of the other side to each
//! of its neighbours (`arc`). In a covered graph the tight shores that contain a vertex a of the
//! side but not its mate are exactly the vertex sets that only the arc of a leaves
//! (`tight_shores_law`). So the least of them with a vertex r is the set of vertices reached from r
//! past a (`Digraph::shore`), and none is nontrivial if and only if two searches, one in the
//! digraph of each side, reach all vertices (`Digraph::is_inseparable`). A covered bipartite graph
//! is a brace if and only if this is so at each edge of the matching (`separated_mates_law`).
//!
//! A search goes over rows of words, a `VSet` for each vertex, and takes no memory.
//!
//! Depends on `graph_facts` and `barrier_kit`. Sources: Dulmage and Mendelsohn 1958; Lovász and
//! Plummer, "Matching Theory", chapter 4; Lovász 1987 for tight cuts.
#![tactic(auto)]

mod arcs;
mod digraph;
mod flood;
pub mod laws;

// Passed on to the crates above.
pub use barrier_kit;
pub use digraph::Digraph;
