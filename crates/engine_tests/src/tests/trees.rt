//! Small trees: their sizes, their copies and their leaves.
ghost use Rattle.std.specs.Prelude.{◌≡◌, IfOk};
ghost use Rattle.tree_core.specs.Common.{node_count, shape_of};

use super::built_trees::{Shores, cut_into, is_tree, one_cut, same_tree, tree_of};
use super::made::set_of;
use super::quotients::has_blocks;
use contraction::Partition;
use graph_core::vset_core::VSet;
use std::alloc::{AllocError as Memory, Global};
use std::test::Fail;
use tree_core::{Partitions, Path, Side, Tree, copy, depth, fits, leaves, nodes};

// The blocks of the two leaves of the hexagon with the shore 1 2 3.
static LEAVES: [[&[u32]; 4]; 2] = [
    [&[1], &[2], &[3], &[4, 5, 6]],
    [&[1, 2, 3], &[4], &[5], &[6]],
];

#[test]
fn leaves_of_the_hexagon_cut_once(rt: HostRuntime) -> Result<(), Fail> {
    let tree = one_cut(rt.alloc(), VSet::full(3))?;
    let found = leaves(rt.alloc(), &tree, 6)?;
    assert!(rt; found.len() == 2);
    for (i, blocks) in LEAVES.iter().enumerate() {
        assert!(rt; i < found.len());
        assert!(rt; has_blocks(found.get(i), blocks));
    }
    Ok(())
}

// A tree of four cuts whose deepest path turns to `merged` after the first cut, and the same with
// the two trees below the root exchanged.
fn four_cuts(alloc: Global, is_turned: bool) -> Result<Tree, Memory>
    ensures { IfOk result (λ tree. node_count (shape_of tree) ≡ 9) }
{
    let below = one_cut(alloc, set_of(&[5, 6, 7]))?;
    let deep = cut_into(alloc, VSet::full(3), Tree::Leaf, below)?;
    let flat = one_cut(alloc, set_of(&[2, 3, 4]))?;
    if is_turned {
        return cut_into(alloc, set_of(&[3, 4, 5]), flat, deep);
    }
    cut_into(alloc, set_of(&[3, 4, 5]), deep, flat)
}

// Whether a copy of the tree has the sizes of the tree, and fits 8 vertices and no fewer.
fn is_sized(alloc: Global, is_turned: bool) -> Result<bool, Memory> {
    let tree = four_cuts(alloc, is_turned)?;
    let other = copy(alloc, &tree)?;
    let is_least = fits(&other, 8) && fits(&other, 9) && !fits(&other, 7);
    Ok(nodes(&tree) == 9 && depth(&tree) == 4 && nodes(&other) == 9 && is_least)
}

#[test]
fn sizes_and_copies(rt: HostRuntime) -> Result<(), Fail> {
    let leaf = Tree::Leaf;
    assert!(rt; fits(&leaf, 0) && nodes(&leaf) == 1 && depth(&leaf) == 1);
    let tree = one_cut(rt.alloc(), VSet::full(3))?;
    assert!(rt; fits(&tree, 6) && fits(&tree, 4) && !fits(&tree, 3));
    let other = copy(rt.alloc(), &tree)?;
    assert!(rt; fits(&other, 4) && !fits(&other, 3));
    assert!(rt; nodes(&other) == 3 && depth(&other) == 2);
    assert!(rt; is_sized(rt.alloc(), false)? && is_sized(rt.alloc(), true)?);
    Ok(())
}

// Trees whose two trees below the root are not equal.
static UNEQUAL: [Shores; 4] = [
    &[0b11111, 0b111, 0, 0, 0],
    &[0b111, 0, 0b11111, 0, 0],
    &[0b11100, 0b111, 0, 0, 0b111000, 0, 0],
    &[0b11100, 0b111, 0, 0b1110000, 0, 0, 0b1110, 0, 0],
];

// Whether a copy of the tree is the tree, and is no other tree of the table.
fn is_copied(alloc: Global, shores: &[u32], place: usize) -> Result<bool, Fail> {
    let tree = tree_of(alloc, shores)?;
    let other = copy(alloc, &tree)?;
    let mut alike = same_tree(&other, &tree);
    for (i, others) in UNEQUAL.iter().enumerate() {
        alike = alike && is_tree(alloc, &other, others)? == (i == place);
    }
    Ok(alike)
}

#[test]
fn a_copy_is_the_tree(rt: HostRuntime) -> Result<(), Fail> {
    for (place, shores) in UNEQUAL.iter().enumerate() {
        assert!(rt; is_copied(rt.alloc(), shores, place)?);
    }
    Ok(())
}

#[test]
fn paths_and_lists_of_partitions(rt: HostRuntime) -> Result<(), Fail> {
    let mut path = Path::new(rt.alloc());
    path.push(Side::Kept)?;
    path.push(Side::Merged)?;
    assert!(rt; path.as_slice() == [Side::Kept, Side::Merged].as_slice());
    let mut list = Partitions::new(rt.alloc());
    list.push(Partition::singles(rt.alloc(), 4)?)?;
    assert!(rt; list.len() == 1 && has_blocks(list.get(0), &[&[1], &[2], &[3], &[4]]));
    Ok(())
}
