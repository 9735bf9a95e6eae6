//! Texts of moves on trees of cuts: reading and writing them.
//!
//! A text stands for a list of moves by the rules of `specs/MoveFormat`: a header `m mcg N`, and a
//! line for each move, `rotate PATH` or `switch PATH U V`. `read_moves` returns what a text stands
//! for, or its first error, as the rules say. `write_moves` writes the canonical text of
//! `specs/Writing`, and reading it gives the same moves: `laws::written_moves_law`. What a text
//! stands for can be written: `laws::read_moves_law`. Whether a move has a result on a tree is not
//! tested here.
//!
//! Depends on `line_text` for what a format is and for the reader, on `tree_text` for lists of
//! vertices and on `tree_core` for moves. The style of the format is that of the graph files of the
//! DIMACS challenges (1990 to 1993).
#![tactic(auto)]

pub mod laws;
mod move_format;
mod move_words;
mod writing;

// Passed on to the crates above.
pub use move_format::read_moves;
pub use tree_text;
pub use tree_text::tree_core;
pub use writing::{push_move, write_moves};
