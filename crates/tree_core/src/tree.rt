//! Trees of cuts.
ghost use Rattle.std.specs.Prelude.{◌≡◌, ◌≤◌, ◌-◌, ◌↔◌, IfOk, IsTrue, All};
ghost use Rattle.graph_core.specs.from_counting.Common.{Within};
ghost use Rattle.tree_core.specs.Common.{Fits, node_count, depth, shape_of};

use graph_core::vset_core::VSet;
use std::alloc::{AllocError as Memory, Global};

/// A tree of cuts. Contracts see it by its plain shape, whatever boxes hold its nodes.
#[derive(Drop)]
pub enum Tree {
    /// A leaf: nothing is cut here.
    Leaf,
    /// A cut.
    Cut {
        /// The shore without the greatest vertex.
        shore: VSet,
        /// The tree where the complement of the shore is one block.
        kept: Box<Tree>,
        /// The tree where the shore is one block.
        merged: Box<Tree>,
    },
}

// Whether all vertices of the shore lie from 1 to n - 1.
fn is_below(shore: VSet, n: u32) -> bool
    ensures { IsTrue result ↔ All (Within (n - 1)) shore }
{
    shore.rises();
    match shore.last() {
        Some(v) => v < n,
        None => true,
    }
}

/// Whether all shores of the tree lie in 1 to `n` - 1. Takes no memory.
pub fn fits(tree: &Tree, n: u32) -> bool
    ensures { IsTrue result ↔ Fits n (shape_of tree.now) }
{
    match tree {
        Tree::Leaf => true,
        Tree::Cut {
            shore,
            kept,
            merged,
        } => is_below(*shore, n) && fits(kept, n) && fits(merged, n),
    }
}

/// The most nodes, and the most leaves, of a tree that is counted: a derivation of a graph with 128
/// vertices has fewer.
pub const MOST_NODES: usize = 255;

/// The number of nodes of the tree, its leaves among them. Takes no memory.
pub fn nodes(tree: &Tree) -> usize
    requires { node_count (shape_of tree.now) ≤ MOST_NODES }
    ensures { result ≡ node_count (shape_of tree.now) }
{
    match tree {
        Tree::Leaf => 1,
        Tree::Cut { kept, merged, .. } => 1 + nodes(kept) + nodes(merged),
    }
}

/// The greatest number of nodes on a path from the root to a leaf, 1 where the tree is a leaf.
/// Takes no memory.
#[tactic(auto, using(crate::proofs::Sizes::depth_at_most_nodes))]
pub fn depth(tree: &Tree) -> usize
    requires { node_count (shape_of tree.now) ≤ MOST_NODES }
    ensures { result ≡ depth (shape_of tree.now) }
{
    match tree {
        Tree::Leaf => 1,
        Tree::Cut { kept, merged, .. } => 1 + depth(kept).max(depth(merged)),
    }
}

/// An equal tree. Takes O(c) time for c cuts; the only error is `Memory`.
pub fn copy(alloc: Global, tree: &Tree) -> Result<Tree, Memory>
    ensures { IfOk result (λ other. shape_of other ≡ shape_of tree.now) }
{
    match tree {
        Tree::Leaf => Ok(Tree::Leaf),
        Tree::Cut {
            shore,
            kept,
            merged,
        } => {
            let kept = Box::new(alloc, copy(alloc, kept)?)?;
            let merged = Box::new(alloc, copy(alloc, merged)?)?;
            Ok(Tree::Cut {
                shore: *shore,
                kept,
                merged,
            })
        }
    }
}
