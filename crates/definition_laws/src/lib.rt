//! Do the definitions of the field mean what a textbook says?
//!
//! Many definitions of `graph_core` are degrees, counts or tests that compute, because proofs and
//! code need that form. Each law here says that a test is true if and only if its relation holds,
//! or that a relation is the textbook's (`specs/Words.antt`).
//!
//! Matchings: `perfect_law` and `matching_without_law` (`IsPerfect`, `IsMatching`,
//! `has_matching_of`), `tight_law` (`is_allowed`, `is_tight`), `three_sets_law` (`InD`, `InA`,
//! `InC`). Components: `adjacency_law`, `component_law`. Partitions: `blocks_law`, `perfect_at_law`
//! and `tight_at_law` (`IsPartition`, `IsPerfectAt`, `IsTightAt`). Covered graphs: `reason_law`
//! (`IsCovered`, `IsReason`), `canonical_partition_law` (`classes`), `first_pair_law`
//! (`equivalent_pair`, `cut_pair`).
//!
//! Depends on `graph_core`, `match_core` and `barrier_kit`. Source: Lovász and Plummer, "Matching
//! Theory".
#![tactic(auto)]

mod components;
mod covered;
mod matchings;
mod partitions;

pub use components::{adjacency_law, component_law};
pub use covered::{canonical_partition_law, first_pair_law, reason_law};
pub use matchings::{matching_without_law, perfect_law, three_sets_law, tight_law};
pub use partitions::{blocks_law, perfect_at_law, tight_at_law};
