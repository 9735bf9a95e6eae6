//! The Gallai-Edmonds decomposition of a graph.
//!
//! For every graph, covered or not: D is the set of vertices that some maximum matching misses, A
//! the set of the other vertices adjacent to D, and C the rest (`InD`, `InA`, `InC` of
//! `graph_core`). `sets` returns the three as increasing lists; `sets_of` reads them off the facts
//! of a graph.
//!
//! Depends on `graph_facts`; the last search forest of `match_core` gives the sets. Sources: Gallai
//! 1964, Edmonds 1965; Lovász and Plummer, "Matching Theory", chapter 3.
#![tactic(auto)]

mod three_sets;

// Passed on to the crates above.
pub use graph_core::ThreeSets;
pub use graph_facts;
pub use three_sets::{sets, sets_of};
