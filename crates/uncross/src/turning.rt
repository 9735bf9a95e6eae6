//! Turned trees: a tree that moves have made, and the moves.
ghost use Rattle.std.specs.Prelude.{◌≡◌, ◌++◌, ◌∷◌, ◌-◌, ℕ, [], Some, IfOk, OnOk, map, option_map, All};
ghost use Rattle.graph_core.specs.from_counting.Common.{Within};
ghost use Rattle.tree_core.specs.Common.{moves_of, below, switch_at, with_child, Fits, cut, shape_of};
ghost use Rattle.move_laws.specs.Common.{PlainTurned, followed, outer_below, over_inner, over_outer, raised, switched, switched_below};
ghost use Rattle.uncross.specs.Common.{IsMade, turned_of};

use graph_core::vset_core::VSet;
use std::alloc::{AllocError as Memory, Global};
use tree_core::{Move, Moves, Opened, Path, Side, Tree, open, rotate, switch};

/// A tree that moves have made, and the moves, with paths from its root.
#[derive(Drop)]
pub struct Turned {
    /// The tree.
    pub tree: Tree,
    /// The moves.
    pub moves: Moves,
}

/// A shore at the root of a tree over 1 to `order`, and two corners that it makes with a shore that
/// crosses it.
#[derive(Clone, Copy)]
pub struct Corners {
    /// The greatest vertex.
    pub order: u32,
    /// The shore at the root.
    pub root: VSet,
    /// The inner corner.
    pub inner: VSet,
    /// The outer corner.
    pub outer: VSet,
}

/// Appends moves, each one step further down.
pub fn append_below(
    alloc: Global,
    side: Side,
    moves: &[Move],
    into: &mut Moves,
) -> Result<(), Memory>
    ensures { OnOk result
        (moves_of into.new ≡ moves_of into.old ++ map (below side) (moves_of moves.now)) }
{
    let mut rest = moves;
    'moves: while let Some((m, others)) = rest.split_first() {
        into.push(m.below(alloc, side)?)?;
        rest = others;
    }
    Ok(())
}

/// Brings the root of the child on a side, which moves have made, above the root.
pub fn raise(
    alloc: Global,
    side: Side,
    tree: Tree,
    made: &Moves,
    into: &mut Moves,
) -> Result<Tree, Memory>
    ensures made { (s : PlainTurned) →
        followed (map (below side) (moves_of made.now)) (raised side (shape_of tree)) ≡ Some s →
        IfOk result (λ r. IsMade (shape_of r) (moves_of into.new) (moves_of into.old) s) }
    ensures fits { (n : ℕ) → Fits n (shape_of tree) → IfOk result (λ r. Fits n (shape_of r)) }
{
    let mut path = Path::new(alloc);
    path.push(side)?;
    match rotate(tree, &path) {
        Ok(up) => {
            append_below(alloc, side, made.as_slice(), into)?;
            into.push(Move::Rotate { path })?;
            Ok(up)
        }
        Err((back, _)) => Ok(back),
    }
}

// Exchanges the corners at the root.
fn switch_root(alloc: Global, corners: Corners, tree: Tree) -> Result<Turned, Memory>
    requires { Fits corners.order (shape_of tree) }
    ensures { IfOk result
        (λ r. (s : PlainTurned) →
        switched corners.order corners.inner corners.outer (shape_of tree) ≡ Some s →
        turned_of r ≡ s) }
{
    let path = Path::new(alloc);
    let mut moves = Moves::new(alloc);
    let (u, v) = (corners.inner, corners.outer);
    match switch(tree, corners.order, &path, u, v) {
        Ok(tree) => {
            moves.push(Move::Switch { path, u, v })?;
            Ok(Turned { tree, moves })
        }
        Err((tree, _)) => Ok(Turned { tree, moves }),
    }
}

// Puts back a child of the root that was turned, and brings up its new root. The moves made so far
// come first.
fn raise_turned(
    alloc: Global,
    opened: Opened,
    child: Turned,
    moves: Moves,
) -> Result<Turned, Memory>
    ensures { IfOk result
        (λ r. (s : PlainTurned) →
        followed (map (below opened.side) (moves_of child.moves))
        (raised opened.side
        (with_child opened.side opened.shore (shape_of opened.other.value) (shape_of child.tree))) ≡
        Some s → IsMade (shape_of r.tree) (moves_of r.moves) (moves_of moves) s) }
{
    let mut moves = moves;
    let side = opened.side;
    let cut = opened.close(child.tree);
    let tree = raise(alloc, side, cut, &child.moves, &mut moves)?;
    Ok(Turned { tree, moves })
}

// With the outer corner, or its complement, at the root: the corners are exchanged in the child
// that contains x, and its new root is brought up. The moves made so far come first.
fn switch_below(alloc: Global, corners: Corners, tree: Tree, moves: Moves) -> Result<Turned, Memory>
    requires { Fits corners.order (shape_of tree) }
    ensures { IfOk result
        (λ r. (s : PlainTurned) →
        followed (moves_of moves)
        (switched_below corners.order corners.root corners.inner corners.outer (shape_of tree)) ≡
        Some s → turned_of r ≡ s) }
{
    match tree {
        Tree::Leaf => Ok(Turned { tree, moves }),
        Tree::Cut {
            shore,
            kept,
            merged,
        } => {
            let side = if corners.root.is_subset(shore) {
                Side::Kept
            } else {
                Side::Merged
            };
            let (child, opened) = open(side, shore, kept, merged);
            let turned = switch_root(alloc, corners, child)?;
            raise_turned(alloc, opened, turned, moves)
        }
    }
}

// Brings the shore of the corners to the root: at once, or after moves in `merged` that brought the
// outer corner to its root.
fn turn_over_outer(
    alloc: Global,
    corners: Corners,
    kept: Box<Tree>,
    merged: Box<Tree>,
    outer: &Option<Moves>,
) -> Result<Turned, Memory>
    requires { Fits corners.order (cut corners.root (shape_of kept.value) (shape_of merged.value)) }
    ensures { IfOk result
        (λ r. (s : PlainTurned) →
        over_outer corners.order corners.root corners.inner corners.outer (shape_of kept.value)
        (shape_of merged.value) (option_map moves_of outer.now) ≡ Some s → turned_of r ≡ s) }
{
    let tree = Tree::Cut {
        shore: corners.root,
        kept,
        merged,
    };
    match outer {
        None => switch_root(alloc, corners, tree),
        Some(made) => {
            let mut moves = Moves::new(alloc);
            let up = raise(alloc, Side::Merged, tree, made, &mut moves)?;
            let turned = switch_below(alloc, corners, up, moves)?;
            Ok(turned)
        }
    }
}

// With the inner corner at the root: the shore of the corners is brought to the root of the child
// that contains x, and then up. The moves made so far come first.
fn turn_below_inner(
    alloc: Global,
    corners: Corners,
    tree: Tree,
    moves: Moves,
    outer: &Option<Moves>,
) -> Result<Turned, Memory>
    requires shore { All (Within (corners.order - 1)) corners.root }
    requires fits { Fits corners.order (shape_of tree) }
    ensures { IfOk result
        (λ r. (s : PlainTurned) →
        followed (moves_of moves)
        (outer_below corners.order corners.root corners.inner corners.outer
        (option_map moves_of outer.now) (shape_of tree)) ≡ Some s →
        turned_of r ≡ s) }
{
    match tree {
        Tree::Leaf => Ok(Turned { tree, moves }),
        Tree::Cut {
            shore,
            kept,
            merged,
        } => {
            let (child, opened) = open(Side::Merged, shore, kept, merged);
            match child {
                Tree::Leaf => Ok(Turned { tree: child, moves }),
                Tree::Cut { kept, merged, .. } => {
                    let turned = turn_over_outer(alloc, corners, kept, merged, outer)?;
                    raise_turned(alloc, opened, turned, moves)
                }
            }
        }
    }
}

/// Brings the shore of the corners to the root, after moves in `kept` that brought the inner corner
/// to its root, if any, and moves in `merged` that brought the outer corner to its root, if any.
pub fn turn_over_inner(
    alloc: Global,
    corners: Corners,
    kept: Box<Tree>,
    merged: Box<Tree>,
    inner: &Option<Moves>,
    outer: &Option<Moves>,
) -> Result<Turned, Memory>
    requires { Fits corners.order (cut corners.root (shape_of kept.value) (shape_of merged.value)) }
    ensures { IfOk result
        (λ r. (s : PlainTurned) →
        over_inner corners.order corners.root corners.inner corners.outer (shape_of kept.value)
        (shape_of merged.value) (option_map moves_of inner.now) (option_map moves_of outer.now) ≡
        Some s → turned_of r ≡ s) }
{
    match inner {
        None => turn_over_outer(alloc, corners, kept, merged, outer),
        Some(made) => {
            let tree = Tree::Cut {
                shore: corners.root,
                kept,
                merged,
            };
            let mut moves = Moves::new(alloc);
            let up = raise(alloc, Side::Kept, tree, made, &mut moves)?;
            let turned = turn_below_inner(alloc, corners, up, moves, outer)?;
            Ok(turned)
        }
    }
}
