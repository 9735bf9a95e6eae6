//! The graph6 text of the graph in a graph file.
//!
//! `encode` reads a graph file from a `Source` to its end, and writes one line to a `Sink`: the
//! graph6 text of the underlying simple graph. Parallel edges count once, names of vertices are
//! dropped, and vertex i of the file is vertex i of the text. `simple_beneath` is that graph.
//!
//! Main definitions, in specs/: `IsBeneath` of `SimpleGraphs`; `IsEncoded` and `IsBadFile` of
//! `Files`, exactly one of which holds for a file within the limit of bytes; `Encodes`, what is
//! written up to each `InputEnding`; `ReadsThenWrites` of `Reads`, the reads and the writes in
//! their order. Main promises: the output is what the file gives, in whatever pieces it came;
//! nothing is written before the file was read to its end, nor for a bad file; an error of the
//! source or the sink comes only if its count rose; a file has one text or one first error
//! (`one_encoding_law`).
//!
//! Depends on `graph_text` and `graph6_text` for the texts, on `graph_core` for graphs, on
//! `mcg6_reader` for the report on a bad file, and on `outside` for the source and the sink.
#![tactic(auto)]

mod encoding;
mod laws;
mod lines;
mod reading;
mod simple;
mod text;

// Passed on to the crates above.
pub use encoding::encode;
pub use laws::one_encoding_law;
pub use mcg6_reader;
pub use outside;
pub use simple::simple_beneath;
pub use text::graph6_line;
