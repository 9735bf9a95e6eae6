//! Rotate: a cut is brought over its parent.
ghost use Rattle.std.specs.Prelude.{◌≡◌, Some, None, IfOk, IfErr};
ghost use Rattle.graph_core.specs.from_counting.Common.{is_apart};
ghost use Rattle.tree_core.specs.Common.{rotate_result, rotate_result_at, with_child, Shape, cut, IsAnswer, shape_of};

use crate::moves::Stuck;
use crate::opened::{Opened, open};
use crate::path::{Path, Side};
use crate::tree::Tree;
use crate::turns::{Turn, turn_along};
use graph_core::vset_core::VSet;

/// Whether two sets have no common vertex. Takes no memory.
pub fn are_apart(x: VSet, y: VSet) -> bool
    ensures { result ≡ is_apart x y }
{
    x.is_subset(x.minus(y))
}

// A cut over two trees.
fn cut_over(shore: VSet, kept: Box<Tree>, merged: Box<Tree>) -> Tree
    ensures { shape_of result ≡ cut shore (shape_of kept.value) (shape_of merged.value) }
{
    Tree::Cut {
        shore,
        kept,
        merged,
    }
}

// Brings the cut of `lower`, which was taken out of a cut, over that cut.
fn rotate_over(
    upper: Opened,
    lower: VSet,
    first: Box<Tree>,
    second: Box<Tree>,
) -> Result<Tree, Tree>
    ensures { (t : Shape) → t ≡ with_child upper.side upper.shore (shape_of upper.other.value)
        (cut lower (shape_of first.value) (shape_of second.value)) →
        IsAnswer (rotate_result_at upper.side t) t result }
{
    let Opened {
        side,
        shore,
        mut place,
        other,
    } = upper;
    match side {
        Side::Kept => {
            *place = cut_over(shore, second, other);
            Ok(cut_over(lower, first, place))
        }
        Side::Merged if shore.is_subset(lower) => {
            *place = cut_over(shore, other, first);
            Ok(cut_over(lower, place, second))
        }
        Side::Merged if are_apart(shore, lower) => {
            *place = cut_over(shore, other, second);
            Ok(cut_over(lower, first, place))
        }
        Side::Merged => {
            *place = cut_over(lower, first, second);
            Err(cut_over(shore, other, place))
        }
    }
}

/// Brings the root of the child on the side over the root of the tree.
pub(crate) fn rotate_here(tree: Tree, side: Side) -> Result<Tree, Tree>
    ensures { IsAnswer (rotate_result_at side (shape_of tree)) (shape_of tree) result }
{
    let Tree::Cut {
        shore,
        kept,
        merged,
    } = tree
    else {
        return Err(Tree::Leaf);
    };
    let (child, upper) = open(side, shore, kept, merged);
    match child {
        Tree::Leaf => Err(upper.close(Tree::Leaf)),
        Tree::Cut {
            shore: lower,
            kept: first,
            merged: second,
        } => rotate_over(upper, lower, first, second),
    }
}

/// Brings the cut at the end of the path over its parent. `Stuck` comes exactly when there is no
/// result: the path is empty or leads to no cut, or the cut stands in `merged` of a shore that it
/// meets and does not contain. Then the same tree is handed back. Takes no memory, and O(d) steps
/// on words for a path of d steps.
pub fn rotate(tree: Tree, path: &Path) -> Result<Tree, (Tree, Stuck)>
    ensures ok { IfOk result
        (λ made. rotate_result path.now (shape_of tree) ≡ Some (shape_of made)) }
    ensures stuck { IfErr result (λ e. rotate_result path.now (shape_of tree) ≡ None) }
    ensures same { IfErr result (λ e. shape_of e.0 ≡ shape_of tree) }
{
    let Some((last, parents)) = path.as_slice().split_last() else {
        return Err((tree, Stuck));
    };
    match turn_along(tree, parents, &Turn::Rotate(*last)) {
        Ok(made) => Ok(made),
        Err(back) => Err((back, Stuck)),
    }
}
