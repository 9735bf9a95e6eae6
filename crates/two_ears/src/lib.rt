//! The two-ear theorem of matching covered graphs.
//!
//! `laws::two_ears_law`: if deleting all vertices of some pairs leaves a matching covered graph
//! with a perfect matching, then deleting two of the pairs does, or one. `laws::further_edges_law`
//! says it of edges: if a matching covered graph stays matching covered when edges are added, it
//! does so with one or two of them. So each matching covered graph grows from one edge by single
//! and double ears. `laws::opposite_sides_law`: in a bipartite graph any two vertices on opposite
//! sides will do, so single ears are enough there.
//!
//! The proof looks at the parts of one class of the canonical partition. For a pair outside the
//! class some part leaves as many components as it has vertices and keeps the pair joined
//! (`PairBarriers`); such parts may be united (`BarrierComponents`), since the number of components
//! is submodular (`JoinedClasses`).
//!
//! Depends on `barrier_kit`. Source: Lovász and Plummer, "Matching Theory", section 5.4.
#![tactic(auto)]

pub mod laws;

// Passed on to the crates above.
pub use barrier_kit::{allowed_edges, graph_facts, match_core, match_search};
