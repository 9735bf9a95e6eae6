//! Paths in trees.
ghost use Rattle.std.specs.Prelude.{◌≡◌, ◌∷◌, IfOk};

use graph_core::listed::CopyList;
use std::alloc::{AllocError as Memory, Global};

/// A step from a cut to one of the two trees below it.
#[derive(Clone, Copy, Debug, PartialEq, Eq)]
pub enum Side {
    /// To the tree where the complement of the shore is one block.
    Kept,
    /// To the tree where the shore is one block.
    Merged,
}

/// A path that leads from the root of a tree to a node, as the list of its steps.
pub type Path = CopyList<Side>;

/// The path with one step before it.
pub(crate) fn path_below(alloc: Global, path: &Path, side: Side) -> Result<Path, Memory>
    ensures { IfOk result (λ below. below ≡ side ∷ path.now) }
{
    let mut sides = Vec::new(alloc);
    sides.push(side)?;
    sides.extend_from_slice(path.as_slice())?;
    Ok(CopyList::from_items(sides))
}
