//! Bicritical graphs, cut pairs, and the tight cuts that they give.
//!
//! A graph is bicritical if G - u - v has a perfect matching for any two different vertices u and v
//! (`IsBicritical`). A cut pair is a 2-vertex cut: G - u - v has at least two components
//! (`IsCutPair`). `not_bicritical` and `cut_pair` return the lexicographically first pair that
//! shows a graph not to be bicritical, and the first cut pair; `FirstPairs` is a covered graph with
//! these. `separation_cuts` lists the nontrivial cuts that the cut pairs of a bicritical covered
//! graph give, each once by its canonical shore; `first_separation_cut` returns the first of them.
//!
//! The laws: what `None` means (`missing_pairs_law`), the components of G - u - v are even and have
//! tight cuts (`separation_law`), a bicritical graph with a cut pair has such a cut
//! (`separation_cuts_law`), and a brick is bicritical and has no cut pair (`brick_conditions_law`).
//!
//! Depends on `barrier_kit`. Sources: Edmonds, Lovász and Pulleyblank 1982; Lovász 1987.
#![tactic(auto)]

mod critical;
mod dominators;
mod first_pairs;
mod flood;
mod laws;
mod pairs;
mod shores;

// Passed on to the crates above.
pub use barrier_kit::graph_facts;
pub use critical::{cut_pair, equivalent_pair, first_cut_pair, not_bicritical, parts_without};
pub use first_pairs::FirstPairs;
pub use laws::{brick_conditions_law, missing_pairs_law, separation_cuts_law, separation_law};
pub use pairs::{Pair, all_pairs};
pub use shores::{first_separation_cut, separation_cuts};
