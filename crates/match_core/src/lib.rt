//! Maximum and perfect matchings, and partners.
//!
//! `maximum` returns a maximum matching with a Berge set S: the matching misses exactly o(S) - |S|
//! vertices, so no matching misses fewer (`Attains`, `IsMaximum`). `frame` also returns the
//! Gallai-Edmonds sets, read off the last forest of the search. `perfect_without` and
//! `perfect_with` return a perfect matching of G - R, or one that contains given edges; `None`
//! means that there is none. `Matching::cleared` and `Matching::joined` delete rows from a matching
//! and add one, and `matching_of` makes one from marked edges. `partners` returns the table of
//! partners (`ArePartners`), and `LazyPartners` single rows of it. `tutte_berge_law` is the theorem
//! of Tutte and Berge.
//!
//! Depends on `match_search`, which has the search, on `graph_core` and `vset_core`. Sources: Tutte
//! 1947, Berge 1958, Gallai 1964, Edmonds 1965; Lovász and Plummer, "Matching Theory", chapters 1,
//! 3 and 9.
#![tactic(auto)]

mod frames;
pub mod laws;
mod lazy_partners;
mod matching;
mod mates;
mod partner_table;
mod questions;
mod repairs;

// Passed on to the crates above.
pub use frames::{Found, FrameSets, frame, maximum};
pub use lazy_partners::LazyPartners;
pub use match_search;
pub use match_search::FinalSets;
pub use matching::{MatchRow, Matching, matching_of};
pub use partner_table::{PartnerTable, all_partners, partners};
pub use questions::{perfect_with, perfect_without};
pub use repairs::repair;
