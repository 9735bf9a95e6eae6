//! What is known of a graph, computed once and kept as a value.
//!
//! `Facts` is a graph with its components, one side if it is bipartite, a maximum matching with the
//! Gallai-Edmonds sets D and A, and the table of partners if the matching is perfect (`AreFacts`).
//! `Facts::of` computes them, with one search each.
//!
//! `Covered` is a matching covered graph with a perfect matching, its table of partners and one
//! side if it is bipartite (`AreCoveredFacts`). Contracts see the graph, and the type's invariant
//! says that it is covered (`IsCovered`), so no caller tests it again. `Covered::of` returns one,
//! or the first reason why the graph is not covered. `known` and `kept` take a graph that a theorem
//! says to be covered, `from_facts` one with its facts. `keeps_covered` states the fact.
//! `Bipartite` is a covered graph with one of its sides.
//!
//! Depends on `match_core` and `allowed_edges`. Source: Lovász and Plummer, "Matching Theory",
//! chapters 3 and 5.
#![tactic(auto)]

mod bipartite;
mod covered_graph;
mod facts;
mod layers;
mod lent;

// Passed on to the crates above.
pub use allowed_edges;
pub use allowed_edges::{match_core, match_search};
pub use bipartite::Bipartite;
pub use covered_graph::Covered;
pub use facts::Facts;
pub use lent::Lent;
