//! Fast tests for braces and bricks, which do not list all tight cuts.
//!
//! A brace is a bipartite and a brick a nonbipartite covered graph without a nontrivial tight cut.
//! `quick_brace` says whether a bipartite covered graph with at least four vertices is a brace, by
//! reachability in the digraph of a perfect matching; `four_deletions_law` is the theorem on
//! braces. `quick_brick` returns `None` if and only if a nonbipartite covered graph is a brick,
//! that is, bicritical without a cut pair, by the theorem of Edmonds, Lovász and Pulleyblank
//! (`tight_cut_reason_law` of `brick_kit`); otherwise it returns a canonical nontrivial tight
//! shore.
//!
//! Depends on `match_core`, `barrier_kit`, `separation_kit`, `brick_kit` and `matching_digraph`,
//! but not on the complete search. Sources: Lovász and Plummer, "Matching Theory"; Edmonds, Lovász
//! and Pulleyblank 1982.
#![tactic(auto)]

mod brace;
mod brick;
mod laws;

// Passed on to the crates above.
pub use brace::{is_brace, quick_brace};
pub use brick::quick_brick;
pub use brick_kit::separation_kit;
pub use laws::four_deletions_law;
pub use matching_digraph;
