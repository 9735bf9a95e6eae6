//! Tests of the crates of texts, and of the outside, by their public calls alone.
//!
//! A text is read, and what it stands for is written again: `formats` has one runner for all
//! formats, and a row of a table is a text with how it is written again, or with the line and the
//! kind of its first fault. `graph_rows`, `graph6_rows`, `tree_rows`, `move_rows` and `ear_rows`
//! have the tables, and the texts that are too long for a row; `tables` walks them. `words` asks
//! for lines, words and numbers, `reads_and_writes` for the shelves and the sinks, `sources` for
//! the sources, in memory and real. `lists` has lists that are answered line by line, and
//! `long_lines` those of a line that may be too long.
//!
//! The rows come from the tables of the formats. What reports say is tried in `run_tests`, byte
//! by byte.
#![tactic(auto)]

#[cfg(test)]
mod tests;
