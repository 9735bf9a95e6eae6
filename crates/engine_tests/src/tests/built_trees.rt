//! Trees by their parts: built from the shores in preorder, and compared node by node.
ghost use Rattle.std.specs.Prelude.{◌≡◌, IfOk};
ghost use Rattle.tree_core.specs.Common.{cut, leaf, shape_of};

use super::made::set_of_bits;
use graph_core::vset_core::VSet;
use std::alloc::{AllocError as Memory, Global};
use std::test::Fail;
use tree_core::Tree;

/// The shores of a tree in preorder, each as a set of bits, of which that of 1 is the lowest; 0
/// stands for a leaf.
pub type Shores = &'static [u32];

/// A cut with these trees below it.
pub fn cut_into(alloc: Global, shore: VSet, kept: Tree, merged: Tree) -> Result<Tree, Memory>
    ensures { IfOk result (λ tree. shape_of tree ≡ cut shore (shape_of kept) (shape_of merged)) }
{
    Ok(Tree::Cut {
        shore,
        kept: Box::new(alloc, kept)?,
        merged: Box::new(alloc, merged)?,
    })
}

/// A cut with two leaves.
pub fn one_cut(alloc: Global, shore: VSet) -> Result<Tree, Memory>
    ensures { IfOk result (λ tree. shape_of tree ≡ cut shore leaf leaf) }
{
    cut_into(alloc, shore, Tree::Leaf, Tree::Leaf)
}

// Puts a cut over the last two trees of a list in their place.
fn cut_over(alloc: Global, shore: VSet, below: &mut Vec<Tree>) -> Result<(), Fail> {
    let Some(kept) = below.pop() else {
        return Err("a cut without a tree below it".into());
    };
    let Some(merged) = below.pop() else {
        return Err("a cut with one tree below it".into());
    };
    below.push(cut_into(alloc, shore, kept, merged)?)?;
    Ok(())
}

/// The tree with these shores.
pub fn tree_of(alloc: Global, shores: &[u32]) -> Result<Tree, Fail> {
    let mut below = Vec::new(alloc);
    for shore in shores.iter().rev() {
        if *shore == 0 {
            below.push(Tree::Leaf)?;
        } else {
            cut_over(alloc, set_of_bits(*shore), &mut below)?;
        }
    }
    match below.pop() {
        Some(tree) if below.is_empty() => Ok(tree),
        _ => Err("a list that is not one tree".into()),
    }
}

/// Whether two trees are the same.
pub fn same_tree(first: &Tree, second: &Tree) -> bool {
    match first {
        Tree::Leaf => matches!(second, Tree::Leaf),
        Tree::Cut {
            shore,
            kept,
            merged,
        } => match second {
            Tree::Leaf => false,
            Tree::Cut {
                shore: other,
                kept: other_kept,
                merged: other_merged,
            } => *shore == *other && same_tree(kept, other_kept) && same_tree(merged, other_merged),
        },
    }
}

/// Whether the tree is the one with these shores.
pub fn is_tree(alloc: Global, tree: &Tree, shores: &[u32]) -> Result<bool, Fail> {
    let wanted = tree_of(alloc, shores)?;
    Ok(same_tree(tree, &wanted))
}
