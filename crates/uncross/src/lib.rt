//! The comparison of two derivations of a graph.
//!
//! Any two tight cut decompositions of a matching covered graph have the same leaves, up to
//! multiplicities of edges (Lovász 1987). `compare` turns a derivation into another by the moves
//! Rotate and Switch of `tree_core`, through derivations, and returns the maps of this script,
//! which pair the leaves (`IsPairing`), partners being the same leaf by names of blocks
//! (`IsSameLeaf`). `compare_covered` does the same for a `Covered`, and `moves_between_covered`
//! returns only the script. `expose` brings a given shore to the root of a derivation.
//!
//! How: the root shore of the second derivation is exposed in the first, and then the same is done
//! in the two subtrees (`comparing`). If the shore to be exposed crosses the root shore, the
//! corners with at least three blocks are exposed first, and then a Switch is made at the root
//! (`plans`, `turning`, `exposing`). The maps are composed move by move.
//!
//! Depends on `move_laws` and `tree_core`. Sources: Lovász 1987; Lucchesi and Murty 2024.
#![tactic(auto)]

mod block_images;
mod comparing;
mod exchanges;
mod exposing;
pub mod laws;
mod leaf_maps;
mod leaf_orders;
mod move_maps;
mod places_below;
mod plans;
mod turning;

pub use comparing::{Pairing, compare, compare_covered, moves_between_covered};
pub use exposing::{Exposed, expose};
pub use leaf_maps::{LeafMap, LeafMaps};
