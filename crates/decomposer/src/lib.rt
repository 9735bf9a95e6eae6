//! Tight cut decompositions of matching covered graphs, in any order of choice.
//!
//! `decompose` cuts a matching covered graph by tight cuts until no quotient has a nontrivial one.
//! At each node it asks an `Order` for one of the candidates there: one of the orders that have
//! names (`NamedOrder`), the order of a list of picks (`Scripted`), that of a function
//! (`ByFunction`), or any type with an `impl Order`. The tree is a derivation of the graph
//! (`IsDerivation` of `tree_core`) and exactly one that the order picks (`IsPicked` of
//! `specs/Picked`), with cuts counted in preorder. `decompose_covered` takes a `Covered` of
//! `graph_facts`. `decompose_places` and `decompose_places_from_first` return the leaves beside the
//! tree, as places that know their quotients (`KnownPlace` of `tree_core`); `tally` counts them by
//! kind. `VisitedPlaces` decomposes one graph in several orders, and searches each place only once.
//!
//! Depends on `tight_cuts` for the candidates at a place and on `tree_core` for trees. Source:
//! Lovász, "Matching structure and the matching lattice" (1987); Lucchesi and Murty, "Perfect
//! Matchings".
#![tactic(auto)]

mod by_function;
mod counting_leaves;
mod decomposition;
mod orders;
mod pickers;
mod shores;
mod trees;
mod visited_places;

pub use by_function::{ByFunction, Function, decompose_by};
pub use counting_leaves::tally;
pub use decomposition::{Decomposition, decompose_places, decompose_places_from_first};
pub use orders::{NamedOrder, Order, Scripted};
pub use trees::{Refused, decompose, decompose_covered};
pub use visited_places::{CountedTree, VisitedPlaces};
