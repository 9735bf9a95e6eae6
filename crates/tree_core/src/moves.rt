//! Moves on trees of cuts.
ghost use Rattle.std.specs.Prelude.{◌≡◌, Some, None, IfOk, IfErr};
ghost use Rattle.tree_core.specs.Common.{move_of, below, move_result, Fits, shape_of};

use crate::path::{Path, Side, path_below};
use crate::rotation::rotate;
use crate::switching::switch;
use crate::tree::Tree;
use graph_core::listed::Listed;
use graph_core::vset_core::VSet;
use std::alloc::{AllocError as Memory, Global};

/// A move on a tree of cuts, with the path from the root to its node.
#[derive(Drop)]
pub enum Move {
    /// Brings the cut at the node over its parent.
    Rotate {
        /// The path to the lower cut.
        path: Path,
    },
    /// Exchanges two sets of vertices between the shore of the node and its complement.
    Switch {
        /// The path to the cut.
        path: Path,
        /// The set that leaves the shore.
        u: VSet,
        /// The set that comes in its place.
        v: VSet,
    },
}

impl Move {
    /// The move one step further down. Takes O(d) time for a path of d steps; the only error is
    /// `Memory`.
    pub fn below(&self, alloc: Global, side: Side) -> Result<Move, Memory>
        ensures { IfOk result (λ m. move_of m ≡ below side (move_of self.now)) }
    {
        match self {
            Move::Rotate { path } => Ok(Move::Rotate {
                path: path_below(alloc, path, side)?,
            }),
            Move::Switch { path, u, v } => Ok(Move::Switch {
                path: path_below(alloc, path, side)?,
                u: *u,
                v: *v,
            }),
        }
    }
}

/// The answer where a move does not fit the tree.
#[derive(Clone, Copy, Debug, PartialEq, Eq)]
pub struct Stuck;

/// What the move makes of the tree over 1 to `n`, as `rotate` and `switch` do. `Stuck` comes
/// exactly when the move has no result and hands back the same tree. Takes no memory, and O(c)
/// steps on words for a tree of c cuts.
pub fn apply(tree: Tree, n: u32, m: &Move) -> Result<Tree, (Tree, Stuck)>
    requires { Fits n (shape_of tree) }
    ensures ok { IfOk result
        (λ made. move_result n (shape_of tree) (move_of m.now) ≡ Some (shape_of made)) }
    ensures stuck { IfErr result (λ e. move_result n (shape_of tree) (move_of m.now) ≡ None) }
    ensures same { IfErr result (λ e. shape_of e.0 ≡ shape_of tree) }
{
    match m {
        Move::Rotate { path } => rotate(tree, path),
        Move::Switch { path, u, v } => switch(tree, n, path, *u, *v),
    }
}

/// A list of moves.
pub type Moves = Listed<Move>;
