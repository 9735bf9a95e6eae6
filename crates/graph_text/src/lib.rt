//! Texts of graphs: reading and writing them, with and without names of vertices.
//!
//! A text stands for a graph by the rules of `specs/VersionOne`: a header `p mcg N M`, and M lines
//! `e A B` between numbered vertices; and for a graph that may have `Names` by those of
//! `specs/EitherVersion`: a header `p mcg2 N M`, N lines `v NAME` and M lines `e X Y` between
//! names. `read_graph` and `read_any` return what a text stands for, or its first error, as the
//! rules say. `write_graph` and `write_named` write the canonical texts of `specs/Writing`, and
//! reading them gives the same graph again: `laws::written_graph_law`,
//! `laws::written_names_law`. Comments at the end change nothing:
//! `laws::graph_comments_law`.
//!
//! Depends on `line_text` for what a format is and for the reader, on `graph_core` for graphs and
//! on `indexmap` for the names. The style of the format is that of the graph files of the DIMACS
//! challenges (1990 to 1993).
#![tactic(auto)]

mod body;
mod either_version;
mod graph_lines;
pub mod laws;
mod named;
mod names;
mod version_one;
mod writing;

pub use either_version::read_any;
pub use named::Named;
pub use names::{Names, plain_names};
pub use version_one::{VERSION_ONE_EDGES, VERSION_ONE_VERTICES, read_graph};
pub use writing::{write_graph, write_named};
