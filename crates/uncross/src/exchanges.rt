//! What a Switch does to the leaves of a tree: which of them are below its node, and how their
//! blocks correspond to the blocks of their partners.
ghost use Rattle.std.specs.Prelude.{◌≡◌, ◌≤◌, ◌+◌};
ghost use Rattle.tree_core.specs.Common.{leaf_count, shape_of};
ghost use Rattle.uncross.specs.Common.{exchange_at, images_at};

use crate::block_images::{Images, kept_images, merged_images};
use crate::leaf_orders::leaf_total;
use graph_core::vset_core::{MOST_VERTICES, VSet};
use tree_core::{MOST_NODES, Side, Tree};

/// The leaves below the node of a Switch, by their numbers in preorder, counted from 1, and the
/// images of their blocks.
#[derive(Clone, Copy)]
pub struct Exchange {
    /// The number of the last leaf before them.
    pub before: u32,
    /// The number of the last leaf below `kept`.
    pub middle: u32,
    /// The number of the last leaf below `merged`.
    pub last: u32,
    /// The images of the blocks below `kept`.
    pub kept: Images,
    /// The images of the blocks below `merged`.
    pub merged: Images,
}

impl Exchange {
    /// The images of the blocks of leaf `i`.
    pub fn images_at(&self, i: u32) -> Images
        ensures { result ≡ images_at self.now i }
    {
        if self.last < i {
            Images::Own
        } else if self.middle < i {
            self.merged
        } else if self.before < i {
            self.kept
        } else {
            Images::Own
        }
    }
}

/// What a Switch of u and v at the end of the path does to the leaves of a tree over 1 to `n`, if k
/// leaves come before the tree.
pub fn exchange_at(n: u32, path: &[Side], u: VSet, v: VSet, k: u32, tree: &Tree) -> Exchange
    requires order { n ≤ MOST_VERTICES }
    requires few { k + leaf_count (shape_of tree.now) ≤ MOST_NODES }
    ensures { result ≡ exchange_at n path.now u v k (shape_of tree.now) }
{
    match tree {
        Tree::Leaf => Exchange {
            before: k,
            middle: k,
            last: k,
            kept: Images::Own,
            merged: Images::Own,
        },
        Tree::Cut {
            shore,
            kept,
            merged,
        } => {
            let middle = k + leaf_total(kept);
            match path.split_first() {
                None => Exchange {
                    before: k,
                    middle,
                    last: middle + leaf_total(merged),
                    kept: kept_images(n, *shore, u, v),
                    merged: merged_images(n, *shore, u, v),
                },
                Some((Side::Kept, rest)) => exchange_at(n, rest, u, v, k, kept),
                Some((Side::Merged, rest)) => exchange_at(n, rest, u, v, middle, merged),
            }
        }
    }
}
