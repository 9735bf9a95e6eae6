//! The lists of this program: a `Vec` that contracts see as the list of its items.
//!
//! `Listed<T>` returns references to its items. `CopyList<T>`, for items that are `Copy`, returns
//! copies. They differ in nothing else. An item that has a view of its own is seen by that view, so
//! a list of vertex sets is a list of lists of numbers. The crates name their lists by aliases:
//! `Moves`, `Partitions`, `LeafMaps`, `Steps` and `MapLines` of the first type, `Numbers`,
//! `SetList`, `SignedList` and `Path` of the second. Each call does what its one clause says:
//! `push` appends, `get` returns the item at a place, `as_slice` gives the items to a loop.
//!
//! Depends on `std` alone.
#![tactic(auto)]

mod copied;
mod lent;

pub use copied::CopyList;
pub use lent::Listed;
