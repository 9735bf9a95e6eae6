//! Tests of what is told of the lines of a list, and of graph files as graph6, by public calls
//! alone.
//!
//! `kinds`, `graphs` and `selecting` ask the queries for single lines, by `told`.
//! `selections` counts what is kept of the connected cubic graphs, whose table is in `cubic`.
//! `encoding` asks for the lines of graph files.
#![tactic(auto)]

#[cfg(test)]
mod tests;
