//! Reading and writing graph6: a simple graph as one line of printable bytes.
//!
//! `read_graph6` returns the graph that a text stands for, or the line and the kind of its first
//! error. `write_graph6` returns the text of a simple graph, `push_graph6` appends it, and
//! `bare_text` returns the same from a text that stands for it.
//!
//! Main definitions: `outcome_of`, a table of eleven errors in their order and otherwise a graph
//! (specs/Reading); `graph6_of`, the size and then one bit for each pair of vertices, column by
//! column (specs/Writing). Main promises: the reader returns what `outcome_of` says; reading what
//! was written gives a simple graph with the same adjacent pairs (`read_back_law`); a text without
//! header and line end that is accepted is the text of its graph (`canonical_law`).
//!
//! Depends on `graph_core`. Source: B. D. McKay, "Description of graph6, sparse6 and digraph6
//! encodings". Here a text is one graph, of at most 128 vertices and 2,048 edges.
#![tactic(auto)]

mod body;
mod checks;
mod digits;
mod laws;
mod pairs;
mod read;
mod write;

pub use laws::{canonical_law, read_back_law};
pub use read::{bare_text, read_graph6};
pub use write::{push_graph6, write_graph6};
