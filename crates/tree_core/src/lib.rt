//! Tight cut decompositions as trees.
//!
//! A `Tree` is a leaf or a cut with a shore and two trees below it: `kept`, where the complement of
//! the shore is made one block, and `merged`, where the shore is. A tree is a derivation of a
//! matching covered graph (`IsDerivation` of `specs/Derivations`) if each cut names a canonical
//! nontrivial tight shore at the partition where it stands and each leaf stands where no such shore
//! is. A `Place` is a graph with a partition where a derivation may stand; a `KnownPlace` also has
//! what is known of its quotient. `fits`, `nodes`, `depth`, `copy` and `leaves` are exactly the
//! definitions; `count_leaves` counts bricks and braces.
//!
//! Two moves change a tree (`specs/Moves`): `rotate` brings a cut over its parent, and `switch`
//! exchanges two sets of vertices between a shore and its complement. They hand the same tree back
//! where a move has no result; `specs/LeafMaps` says where they take each leaf. Depends on
//! `contraction` and `graph_facts`. Source: Lovász, "Matching structure and the matching lattice"
//! (1987); Lucchesi and Murty, "Perfect Matchings".
#![tactic(auto)]

mod known_place;
pub mod laws;
mod leaf_partitions;
mod leaf_places;
mod moves;
mod opened;
mod partitions;
mod path;
mod place;
mod rotation;
mod switched_shores;
mod switching;
mod tallies;
mod tree;
mod turns;

// Passed on to the crates above.
pub use contraction;
pub use graph_facts;
pub use known_place::KnownPlace;
pub use leaf_partitions::{complement_in, leaves};
pub use leaf_places::kinds_at;
pub use moves::{Move, Moves, Stuck, apply};
pub use opened::{Opened, open};
pub use partitions::Partitions;
pub use path::{Path, Side};
pub use place::Place;
pub use rotation::{are_apart, rotate};
pub use switched_shores::holds_greatest;
pub use switching::switch;
pub use tallies::{LeafKind, Tally, count_leaves, kind_by_side, leaf_kind_of, tallied};
pub use tree::{MOST_NODES, Tree, copy, depth, fits, nodes};
