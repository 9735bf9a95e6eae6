//! What `mcg6` answers to one line of a list of graphs.
//!
//! A line holds a graph6 text. `tell` returns, for a `Query`, the bytes that are written for it, or
//! the kind of its first fault; a line is bad exactly when it stands for no graph (`HasFault`).
//! What the bytes say is a relation on the graph alone (`IsTold`): the line of its kind
//! (`IsKindLine`), the lines of its leaves as graphs (`AreLeafLines`), those of its elementary
//! components (`elementary_lines`), the line of a maximum matching with the Gallai-Edmonds sets
//! (`IsMatchingLine`), the lines of its candidates (`AreCutLines`), the line of an ear list
//! (`AreEarLines`), the canonical text of its graph file, or the line itself if the graph has a
//! property and nothing if it has not (`IsSelected`). What is told of a line is one, except that
//! `matching` may write any maximum matching and `ears` any ear list that takes single ears where it
//! can (`is_free`, `AreAlike`): two first reasons differ at most in the Berge set
//! (`definition_laws`), and the numbers of bricks and braces depend on no choice by the law of
//! pairings of `move_laws` (Lovász, "Matching structure and the matching lattice", 1987).
//!
//! Depends on `graph6_text` for the lines, on `match_search`, `match_core`, `allowed_edges`,
//! `gallai_edmonds`, `graph_facts`, `separation_kit` and `leaf_kinds` for what a graph is, on
//! `decomposer`, `tree_core` and `contraction` for its leaves, on `tight_cuts` for its candidates, on
//! `ear_core` for its ear lists, and on `report_text` for the words of reasons, kinds and answers.
#![tactic(auto)]

mod bicritical;
mod cut_lines;
mod decimals;
mod deficiencies;
mod ear_lines;
mod elementary_lines;
mod kind_lines;
mod leaf_counts;
mod leaf_lines;
mod matching_lines;
mod maximum_matching;
mod query;
mod selecting;
mod standings;
mod telling;

// Passed on to the crates above.
pub use decomposer;
pub use query::{Property, Query};
pub use report_text;
pub use standings::Standing;
pub use telling::tell;
