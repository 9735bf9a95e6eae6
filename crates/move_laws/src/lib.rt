//! The laws of moves on tight cut decompositions.
//!
//! Any two tight cut decompositions of a matching covered graph have the same leaves, up to
//! multiplicities of edges (Lovász 1987). Here this is proved by the moves Rotate and Switch of
//! `tree_core`: `laws::turning_law` turns any derivation into any other through derivations, by
//! few moves, and `laws::moves_pair_law` says that the maps of a proper move pair the leaves
//! (`IsPairing`), partners being the same leaf by names of blocks (`IsSameLeaf`).
//!
//! The steps: `laws::exchange_law` exchanges two blocks between a tight shore and its complement;
//! `laws::carrying_law` and `laws::same_leaves_law` carry derivations from a leaf to the same leaf;
//! by `laws::rotate_derives_law` and `laws::switch_derives_law` moves keep derivations; by
//! `laws::exposing_law` each tight shore can be brought to the root (`specs/Corners`,
//! `specs/Turning`).
//!
//! Depends on `tree_core`. Sources: Lovász 1987; Lucchesi and Murty, "Perfect Matchings".
#![tactic(auto)]

pub mod laws;

// Passed on to the crates above.
pub use tree_core::{contraction, graph_facts};
