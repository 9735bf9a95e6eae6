//! Allowed edges, whether a graph is matching covered, and which pairs of edges lie together.
//!
//! An edge is allowed if some perfect matching contains it (`Allowed`). `allowed` lists the allowed
//! edges. `covered` says whether a graph is matching covered (`IsCovered`) or returns the first
//! reason why not (`IsVerdict`): too few vertices, disconnected, no perfect matching, or the least
//! edge that is not allowed. `allowed_in` and `verdict_in` read a given table of partners.
//!
//! Two edges lie together if some perfect matching contains both (`Together`). `together` returns a
//! `PairTable`: `both` is the relation, and `list` a pair list (`IsPairList`) in which each
//! matching has an edge or pair that no earlier one has (`IsLean`). `no_pairs`, `seek_pair`,
//! `list_with_edge` and `list_new` build a part of such a table. Each pair takes at most one
//! augmentation.
//!
//! Depends on `match_core`, `graph_core` and `vset_core`. Sources: Lovász and Plummer, "Matching
//! Theory", chapter 5; Lucchesi and Murty, "Perfect Matchings".
#![tactic(auto)]

mod bases;
mod edges;
mod exchanges;
mod pair_table;
mod pairs;
mod perfect;
mod questions;
mod sharing;
mod short_paths;
mod table;
mod varied;
mod verdict;

// Passed on to the crates above.
pub use bases::base_with_edge;
pub use edges::{allowed, allowed_in, is_allowed_in};
pub use match_core;
pub use match_core::match_search;
pub use pair_table::PairTable;
pub use pairs::{list_new, list_with_edge, no_pairs, seek_pair, together};
pub use perfect::partners_where_perfect;
pub use questions::{perfect_with_edge, perfect_with_pair};
pub use sharing::share_end;
pub use verdict::{covered, first_unallowed, verdict_in};
