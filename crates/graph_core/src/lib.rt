//! Finite undirected multigraphs without loops, and the definitions of the theory of their
//! matchings.
//!
//! `MultiGraph` has up to 128 vertices and 2,048 edges, numbered from 1; contracts see a `Graph`.
//! Its main calls are `components`, `components_without`, `two_sides` and `simple`;
//! `parts_and_side` returns the components and a side, `canonical_shore` and `add_cut` are for
//! lists of cuts.
//!
//! The definitions, in specs/: `Matchings`, `Walks`, `Components`, `BergeSets`, `GallaiEdmonds`,
//! matching covered graphs (`Covered`), the canonical partition, barriers and pairs (`Structure`),
//! tight cuts (`Tight`, with `Merges`: one graph is another with a set contracted), `Partitions`
//! with `Quotients` and `Shores`. The laws, in `laws`: parity of a cut, weak duality, contraction
//! of a tight cut, uncrossing. `definition_laws` ties the definitions to a textbook's. Depends on
//! `counting`, `listed`, `vset_core` and `line_text`. Sources: Lovász and Plummer, "Matching
//! Theory"; Lovász 1987; Lucchesi and Murty, "Perfect Matchings".
#![tactic(auto)]

mod cuts;
mod ends;
mod faults;
mod graph;
pub mod laws;
mod lists;
mod neighbours;
mod repeated_edges;
mod search;
mod sides;
mod three_sets;
mod tree;
mod verdict;

// Passed on to the crates above.
pub use cuts::{add_cut, add_cuts, canonical_shore, is_in_cut, is_nontrivial};
pub use ends::Ends;
pub use faults::AddFault;
pub use graph::{MOST_EDGES, MultiGraph};
pub use line_text;
pub use line_text::{FaultKind, TextFault};
pub use listed;
pub use lists::{Numbers, SetList};
pub use repeated_edges::simple;
pub use sides::{Sides, parts_and_side};
pub use three_sets::ThreeSets;
pub use verdict::{Kind, Reason, Verdict};
pub use vset_core;
