//! Sets of vertices.
//!
//! `VSet` is a set of numbers from 1 to `MOST_VERTICES` in one machine word of 128 bits. Contracts
//! see a set as the list of its members in increasing order (law `VSet::rises`): `mem set v` says
//! whether v is in it, and `length set` how many members it has. Each operation is a few steps on
//! words, takes no memory and cannot fail: `union`, `meet`, `minus`, `with` and `without`; the
//! tests `contains`, `is_subset` and `==`; `len`, the size; `first`, `last`, `next_after`,
//! `split_first` and `iter`, which go through the members in order.
//!
//! A digraph is given by a row for each vertex, the set of vertices to which its arcs lead.
//! `add_arc` adds an arc; `flooded` finds the least set that has the roots and that no arc leaves
//! (`IsFlood`).
//!
//! Depends on `counting` (`RisingLists`, `SetSizes`). A set as the bits of a word is a standard
//! representation (Knuth, "The Art of Computer Programming", volume 4A, section 7.1.3).
#![tactic(auto)]

mod bits;
mod flood;
mod members;
mod vertex_set;

pub use flood::{Flood, add_arc, flooded};
pub use members::Members;
pub use vertex_set::{MOST_VERTICES, VSet};
