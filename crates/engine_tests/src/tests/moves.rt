//! What a move makes of small trees.

use super::built_trees::{Shores, is_tree, one_cut, tree_of};
use graph_core::vset_core::VSet;
use std::alloc::Global;
use std::test::Fail;
use tree_core::{Move, Moves, Path, Side, Tree, apply, fits, rotate, switch};

// The tree that a move makes; none where it makes none.
fn moved(tree: Tree, n: u32, step: &Move) -> Option<Tree> {
    if !fits(&tree, n) {
        return None;
    }
    apply(tree, n, step).ok()
}

// Whether the move makes of the first tree the second.
fn turns_into(
    alloc: Global,
    n: u32,
    step: &Move,
    first: &[u32],
    second: &[u32],
) -> Result<bool, Fail> {
    match moved(tree_of(alloc, first)?, n, step) {
        Some(made) => is_tree(alloc, &made, second),
        None => Ok(false),
    }
}

#[test]
fn a_switch_moves_the_cut_of_the_hexagon(rt: HostRuntime) -> Result<(), Fail> {
    let path = Path::new(rt.alloc());
    let step = Move::Switch {
        path,
        u: VSet::one(1),
        v: VSet::one(4),
    };
    let first: Shores = &[0b111, 0, 0];
    assert!(rt; turns_into(rt.alloc(), 6, &step, first, &[0b1110, 0, 0])?);
    Ok(())
}

#[test]
fn a_switch_of_the_hexagon_by_its_own_call(rt: HostRuntime) -> Result<(), Fail> {
    let tree = one_cut(rt.alloc(), VSet::full(3))?;
    assert!(rt; fits(&tree, 6));
    let path = Path::new(rt.alloc());
    let made = match switch(tree, 6, &path, VSet::one(1), VSet::one(4)) {
        Ok(made) => made,
        Err((back, _)) => back,
    };
    assert!(rt; is_tree(rt.alloc(), &made, &[0b1110, 0, 0])?);
    Ok(())
}

#[test]
fn a_rotate_at_the_root_is_stuck(rt: HostRuntime) -> Result<(), Fail> {
    let tree = one_cut(rt.alloc(), VSet::full(3))?;
    let path = Path::new(rt.alloc());
    let Err((back, _)) = rotate(tree, &path) else {
        assert!(rt; false);
        return Ok(());
    };
    assert!(rt; is_tree(rt.alloc(), &back, &[0b111, 0, 0])?);
    let mut moves = Moves::new(rt.alloc());
    moves.push(Move::Rotate { path })?;
    assert!(rt; moves.len() == 1 && matches!(moves.get(0), Move::Rotate { .. }));
    Ok(())
}

// A side of the root, a tree, and the tree that Rotate makes of it with the lower cut at that
// side: a worked pair, and each of the three cases over trees that are not equal.
static ROTATED: [(Side, Shores, Shores); 4] = [
    (
        Side::Kept,
        &[0b11111, 0b111, 0, 0, 0],
        &[0b111, 0, 0b11111, 0, 0],
    ),
    (
        Side::Kept,
        &[0b11111, 0b111, 0b10, 0, 0, 0b1000, 0, 0, 0b100000, 0, 0],
        &[0b111, 0b10, 0, 0, 0b11111, 0b1000, 0, 0, 0b100000, 0, 0],
    ),
    (
        Side::Merged,
        &[0b111, 0b10, 0, 0, 0b11111, 0b1000, 0, 0, 0b100000, 0, 0],
        &[0b11111, 0b111, 0b10, 0, 0, 0b1000, 0, 0, 0b100000, 0, 0],
    ),
    (
        Side::Merged,
        &[0b111, 0b10, 0, 0, 0b1110000, 0b1000, 0, 0, 0b100000, 0, 0],
        &[0b1110000, 0b1000, 0, 0, 0b111, 0b10, 0, 0, 0b100000, 0, 0],
    ),
];

#[test]
fn a_rotate_brings_the_lower_cut_up(rt: HostRuntime) -> Result<(), Fail> {
    for (side, first, second) in &ROTATED {
        let mut path = Path::new(rt.alloc());
        path.push(*side)?;
        let step = Move::Rotate { path };
        assert!(rt; turns_into(rt.alloc(), 8, &step, first, second)?);
    }
    Ok(())
}
