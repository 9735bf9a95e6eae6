//! The kinds of matching covered graphs: brace, brick or composite.
//!
//! A tight cut decomposition ends in graphs without a nontrivial tight cut: the bipartite ones are
//! braces, the others bricks (`IsKind`). `kind` returns which of the two a covered graph is, or the
//! shore of a nontrivial tight cut, which `tight_cuts::find_any` gives; `kind_of` takes a covered
//! graph with its first pairs. If they return a brick, the graph has the three properties of
//! `IsThreeConnectedAndBicritical`.
//!
//! Depends on `tight_cuts`, whose search is complete, and on `separation_kit` for the law of
//! bricks. Sources: Lovász, "Matching structure and the matching lattice" (1987); Lucchesi and
//! Murty, "Perfect Matchings".
#![tactic(auto)]

mod kinds;
mod laws;

// Passed on to the crates above.
pub use kinds::{kind, kind_of};
pub use laws::brick_kind_law;
pub use tight_cuts::{graph_facts, separation_kit};
