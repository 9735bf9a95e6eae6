//! The search for a maximum matching.
//!
//! `augment_once` augments a matching or returns a frame. It works on a row of neighbours and a
//! mate for each vertex, without a list of edges: it grows an alternating forest, augments along
//! two of its paths, or shrinks a blossom, after which all vertices keep their numbers
//! (`IsInstance`, `HoldsMatching`, `HoldsAlternating`, `HoldsBlossom`, `IsMateStep`). A frame is
//! what the last forest proves: its inner vertices show that no matching is larger (`Frame`).
//!
//! `find_mates` begins with a greedy matching and repeats it until the matching is maximum
//! (`HasFrame`); `enlarge` begins with given mates. `find_best` and `best_from` also mark the edges
//! at the end (`IsBest`). The questions on maximum matchings are in `match_core`, above.
//!
//! Depends on `graph_core` and `vset_core`. Sources: Edmonds 1965; Lovász and Plummer, "Matching
//! Theory", chapters 1 and 9.
#![tactic(auto)]

mod alternating;
mod answer;
mod augment;
mod best;
mod blossom;
mod cycle;
mod flower;
mod growing;
mod instance;
mod marked;
mod mates;
mod missable;
mod outer;
mod paths;
mod row_space;
mod rows;

pub use answer::FinalSets;
pub use best::{Best, Mated, best_from, enlarge, find_best, find_mates, is_addable};
pub use instance::{Instance, instance_of};
pub use mates::{join, mates_of};
pub use missable::{missable_beside, missable_in};
pub use row_space::RowSpace;
pub use rows::{falses, is_marked, mark_place, mark_places};
