//! Cuts whose child on one side is taken out, changed and put back.
ghost use Rattle.std.specs.Prelude.{◌≡◌, ℕ};
ghost use Rattle.tree_core.specs.Common.{with_child, Fits, cut, shape_of};

use crate::path::Side;
use crate::tree::Tree;
use graph_core::vset_core::VSet;
use std::mem;

/// A cut whose child on one side was taken out.
#[derive(Drop)]
pub struct Opened {
    /// The side.
    pub side: Side,
    /// The shore of the cut.
    pub shore: VSet,
    /// The place of the child.
    pub place: Box<Tree>,
    /// The tree on the other side.
    pub other: Box<Tree>,
}

/// Takes the child on the side out of a cut. Takes no memory.
pub fn open(side: Side, shore: VSet, mut kept: Box<Tree>, mut merged: Box<Tree>) -> (Tree, Opened)
    ensures side { result.1.side ≡ side }
    ensures whole { cut shore (shape_of kept.value) (shape_of merged.value) ≡
        with_child side result.1.shore (shape_of result.1.other.value) (shape_of result.0) }
    ensures fits { (n : ℕ) → Fits n (cut shore (shape_of kept.value) (shape_of merged.value)) →
        Fits n (shape_of result.0) }
{
    match side {
        Side::Kept => {
            let child = mem::replace(&mut *kept, Tree::Leaf);
            let opened = Opened {
                side,
                shore,
                place: kept,
                other: merged,
            };
            (child, opened)
        }
        Side::Merged => {
            let child = mem::replace(&mut *merged, Tree::Leaf);
            let opened = Opened {
                side,
                shore,
                place: merged,
                other: kept,
            };
            (child, opened)
        }
    }
}

impl Opened {
    /// The cut with this child in the place. Takes no memory.
    pub fn close(self, child: Tree) -> Tree
        ensures { shape_of result ≡
            with_child self.side self.shore (shape_of self.other.value) (shape_of child) }
    {
        let Opened {
            side,
            shore,
            mut place,
            other,
        } = self;
        *place = child;
        match side {
            Side::Kept => Tree::Cut {
                shore,
                kept: place,
                merged: other,
            },
            Side::Merged => Tree::Cut {
                shore,
                kept: other,
                merged: place,
            },
        }
    }
}
