//! An example for users of the library: decompositions in a user's own order of choice.
//!
//! `decompose_widest` reads the text of a graph, decomposes the graph by tight cuts, at each node
//! by the candidate whose cut has the most edges, and passes the derivation to `check`. Its
//! contract says what one then knows: the tree is a derivation of the graph that the text stands
//! for (`IsDerivation` of `tree_core`), it is the one that this order picks (`IsPicked` of
//! `decomposer`, `PicksWidest` of `specs/WidestCuts`), and `check` accepts it.
//!
//! The order is a type with an `impl Order`, which holds the graph. `decompose_by_turns` and
//! `decompose_by_width` show the other way, a closure, which may borrow the graph.
//! `docs/LIBRARY.md` explains these files.
#![tactic(auto)]

mod turns;
mod widest;
mod widest_cuts;

pub use turns::{decompose_by_turns, decompose_by_width};
pub use widest::{Decomposed, Failed, decompose_widest};
pub use widest_cuts::{Widest, cut_width};
