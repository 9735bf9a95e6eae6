//! What a move does at the end of its path.
ghost use Rattle.tree_core.specs.Common.{result_at, IsAnswer, MayTurn, turn_result, shape_of};

use crate::opened::open;
use crate::path::Side;
use crate::rotation::rotate_here;
use crate::switching::switch_here;
use crate::tree::Tree;
use graph_core::vset_core::VSet;

/// What a move does at a node.
#[derive(Drop)]
pub enum Turn {
    /// The root of the child on the side is brought over the node.
    Rotate(Side),
    /// Two sets are exchanged at the node of a tree over 1 to `n`.
    Switch {
        /// The greatest vertex.
        n: u32,
        /// What leaves the shore.
        u: VSet,
        /// What comes in its place.
        v: VSet,
    },
}

/// Makes the turn at the end of the path. The same tree is handed back where it has no result.
pub(crate) fn turn_along(tree: Tree, path: &[Side], turn: &Turn) -> Result<Tree, Tree>
    requires { MayTurn turn.now (shape_of tree) }
    ensures { IsAnswer (result_at (turn_result turn.now) path.now (shape_of tree)) (shape_of tree)
        result }
{
    let Some((side, rest)) = path.split_first() else {
        return match turn {
            Turn::Rotate(side) => rotate_here(tree, *side),
            Turn::Switch { n, u, v } => switch_here(tree, *n, *u, *v),
        };
    };
    match tree {
        Tree::Leaf => Err(Tree::Leaf),
        Tree::Cut {
            shore,
            kept,
            merged,
        } => {
            let (child, opened) = open(*side, shore, kept, merged);
            match turn_along(child, rest, turn) {
                Ok(made) => Ok(opened.close(made)),
                Err(back) => Err(opened.close(back)),
            }
        }
    }
}
