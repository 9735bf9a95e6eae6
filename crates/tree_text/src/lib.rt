//! Texts of derivations, and of picks: reading them, and writing a tree.
//!
//! A text stands for a tree of cuts over 1 to n by the rules of `specs/TreeFormat`: a header `t mcg
//! N`, and a line for each node in preorder, `leaf` or `cut` with the vertices of the shore. It
//! stands for a list of picks by those of `specs/PickFormat`: a header `s mcg K` and K lines `pick
//! P`. `read_tree` and `read_picks` return what a text stands for, or its first error, as the rules
//! say. `write_tree` writes the canonical text of `specs/Writing`, and reading it gives the same
//! tree: `laws::written_tree_law`. A tree that was read fits n, and its shores are nonempty
//! increasing lists: `laws::read_tree_law`. `shores` has the tests of lists of vertices, which the
//! format of moves shares.
//!
//! Depends on `line_text` for what a format is and for the reader, and on `tree_core` for trees.
//! The style of the formats is that of the graph files of the DIMACS challenges (1990 to 1993).
#![tactic(auto)]

pub mod laws;
mod nodes_read;
mod pick_format;
mod place;
pub mod shores;
mod tree_format;
mod writing;

// Passed on to the crates above.
pub use graph_core::{line_text, vset_core};
pub use pick_format::read_picks;
pub use tree_core;
pub use tree_format::read_tree;
pub use writing::write_tree;
