//! The place of the next node of a text.
ghost use Rattle.std.specs.Prelude.{◌≡◌, IfOk};
ghost use Rattle.tree_core.specs.Common.{shape_of};
ghost use Rattle.tree_text.specs.Common.{put, next_place, progress_of};

use graph_core::vset_core::VSet;
use std::alloc::{AllocError as Memory, Global};
use tree_core::Tree;

/// The cuts above a node that is still to be read, from the lowest on, with their subtrees read so
/// far.
#[derive(Drop)]
pub enum Above {
    Root,
    InKept {
        shore: VSet,
        above: Box<Above>,
    },
    InMerged {
        shore: VSet,
        kept: Box<Tree>,
        above: Box<Above>,
    },
}

/// How far a tree has been read.
#[derive(Drop)]
pub enum Progress {
    /// The next node is below these cuts.
    Wanted(Above),
    /// All nodes have been read.
    Whole(Tree),
}

/// The tree after a subtree is put at the place of the next node.
pub fn put(alloc: Global, above: Above, tree: Tree) -> Result<Progress, Memory>
    ensures { IfOk result
        (λ progress. progress_of progress ≡ put (next_place above) (shape_of tree)) }
{
    match above {
        Above::Root => Ok(Progress::Whole(tree)),
        Above::InKept { shore, above } => {
            let kept = Box::new(alloc, tree)?;
            Ok(Progress::Wanted(Above::InMerged { shore, kept, above }))
        }
        Above::InMerged { shore, kept, above } => {
            let merged = Box::new(alloc, tree)?;
            let cut = Tree::Cut {
                shore,
                kept,
                merged,
            };
            put(alloc, Box::into_inner(above), cut)
        }
    }
}
