//! The premises of the theorems are needed: for each row of a table of premises in
//! `docs/THEOREMS.md` a test shows a graph without the premise of which the sentence is false.
//!
//! A `Row` of `rows` names the premise as the book words it, and the graph, and lists claims that
//! hold of the graph and claims that fail. The first claim that fails is the premise; the others
//! are the premises that are left, and the two sides of the sentence. `tools/agree_docs premises`
//! compares the fields `premises` and `graph` with the tables of the book, both ways. A premise of
//! several parts, or with several graphs, has a row for each, in the order of the book.
//!
//! A small program decides the claims, which shares nothing with the engine: a `PairGraph` is a
//! list of pairs of vertices, loops among them, with all its matchings and all sets of its
//! vertices, and each question goes through these. `matchings`, `cuts`, `sides`, `decompositions`
//! and `ears` have the questions, `claims` has their names, and `deciding` joins the two. The crate
//! stands on `std` alone.
#![tactic(auto)]

#[cfg(test)]
mod tests;
