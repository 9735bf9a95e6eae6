//! Lists of numbers and of vertex sets.

use listed::CopyList;
use vset_core::VSet;

/// A list of vertex or edge numbers.
pub type Numbers = CopyList<u32>;

/// A list of vertex sets, seen by contracts as a list of increasing lists.
pub type SetList = CopyList<VSet>;
