//! The tests.

mod ear_rows;
mod examples;
mod formats;
mod graph6_rows;
mod graph_rows;
mod lists;
mod long_lines;
mod move_rows;
mod reads_and_writes;
mod sources;
mod tables;
mod tree_rows;
mod words;
