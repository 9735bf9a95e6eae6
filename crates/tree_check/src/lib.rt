//! Whether a tree is a derivation of a graph.
//!
//! `check` accepts exactly the derivations of a matching covered graph (`IsDerivation` of
//! `tree_core`). Of another tree it names the first node in preorder that breaks a rule, with the
//! first of the rules 1 to 5 that it breaks and what shows it (`IsRefused` of `specs/Refusals`);
//! for a graph that is not matching covered it gives the first reason. `scan_covered` also counts
//! the leaves of a derivation, its bricks and its braces (`IsScanResult` of `specs/Scans`), and
//! `scan_known` does so for several trees of one graph, with their cuts and leaves kept
//! (`KnownPlaces`). `replay` makes a script of moves on a derivation and judges each tree on the
//! way (`IsReplay` of `specs/Replays`). By the `laws` the answers exclude one another, and a
//! refusal is one up to the perfect matching that it shows.
//!
//! Depends on `graph_facts`, `contraction`, `tight_cuts` for the test of a cut, `tree_core` for
//! trees and places, and `move_laws` for what moves keep. Source: Lovász, "Matching structure and
//! the matching lattice" (1987); Lucchesi and Murty, "Perfect Matchings".
#![tactic(auto)]

mod judgement;
mod known_places;
pub mod laws;
mod leaf;
mod replaying;
mod rules;
mod scan;
mod sound_moves;

// Passed on to the crates above.
pub use judgement::{Judgement, Scanned, Why};
pub use known_places::KnownPlaces;
pub use replaying::{Replayed, replay, replay_covered};
pub use scan::{check, check_covered, scan_covered, scan_known};
pub use tight_cuts;
pub use tight_cuts::{barrier_kit, separation_kit};
