//! Barriers, the classes of the canonical partition, and the cuts that they give.
//!
//! A set S of vertices is a barrier if o(G - S) = |S| (`IsBarrier`). Two vertices u and v of a
//! covered graph are in one class if they are equal or G - u - v has no perfect matching
//! (`Equivalent`). `is_barrier` decides the first for every graph, `classes` lists the classes, and
//! `barrier_cuts` lists the nontrivial cuts ∂(V(K)), K a component of G - B for a class B, each
//! once by its canonical shore. `classes_of`, `barrier_cuts_of` and `first_barrier_cut` take a
//! `Covered` of `graph_facts`; `first_barrier_cut_from` is lent the classes too.
//!
//! The laws: the classes are the maximal barriers (`equivalence_law`, `class_law`), barriers give
//! tight cuts (`barrier_law`, `barrier_cuts_law`), and a graph that is neither bicritical nor
//! bipartite has such a cut (`wide_class_law`). Depends on `graph_facts`. Sources: Lovász and
//! Plummer, "Matching Theory", chapters 3 and 5; Edmonds, Lovász and Pulleyblank 1982.
#![tactic(auto)]

mod barrier;
mod canonical_partition;
mod laws;
mod shores;

// Passed on to the crates above.
pub use barrier::is_barrier;
pub use canonical_partition::{classes, classes_of};
pub use graph_facts;
pub use graph_facts::{allowed_edges, match_core, match_search};
pub use laws::{barrier_cuts_law, barrier_law, class_law, equivalence_law, wide_class_law};
pub use shores::{barrier_cuts, barrier_cuts_of, first_barrier_cut, first_barrier_cut_from};
