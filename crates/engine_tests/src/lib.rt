//! Tests of the crates of the engine, by their public calls alone.
//!
//! What no clause says is tried here: that each call succeeds on worked graphs, that its answers
//! are those of the literature or were worked out by hand, and that they agree with the plain slow
//! program of `plain_graph`. The tests stand in one crate above all others, so that no crate of the
//! engine is proved a second time with its tests. Each is a table of constants, which costs little
//! to prove, and a small function that walks it.
//!
//! Most files ask the calls of one crate each. `cuts` and `tight_sets` compare tight cuts with the
//! plain program; `worked` asks the kits about graphs of the literature, `grown` about generated
//! ones; `enumerated` compares `quick_brace` and `quick_brick` with all odd sets, on all matching
//! covered simple graphs of 4 and 6 vertices and some of 8; `candidate_counts` counts candidates;
//! `compared` and `worked_pairings` compare derivations. `made`, `built_trees`, `choices`,
//! `numbered` and `shapes` have what the tests share. Source of the graphs: Lovász and Plummer,
//! "Matching Theory".
#![tactic(auto)]

#[cfg(test)]
mod tests;
