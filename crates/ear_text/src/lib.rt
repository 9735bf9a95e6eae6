//! Texts of ear lists: reading and writing them.
//!
//! A text stands for an ear list by the rules of `specs/EarFormat`: a header `r mcg N M`, a line
//! `start E`, and for each step a line `ear V E1 E2 ..`, which a line `with V E1 E2 ..` may follow
//! directly. `read_ears` returns what a text stands for, with all numbers in range, or its first
//! error, as the rules say. `write_ears` writes the canonical text of `specs/Writing`, and reading
//! it gives the same list: `laws::written_ears_law`. Whether the stages are matching covered is
//! not tested here.
//!
//! Depends on `line_text` for what a format is and for the reader, and on `ear_core` for ear lists.
//! The style of the format is that of the graph files of the DIMACS challenges (1990 to 1993).
#![tactic(auto)]

mod ear_format;
mod ears_read;
pub mod laws;
mod writing;

// Passed on to the crates above.
pub use ear_core;
pub use ear_format::read_ears;
pub use writing::write_ears;
