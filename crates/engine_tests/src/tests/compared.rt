//! Two derivations of the cycle of eight vertices: compared, their moves made again, and a shore
//! exposed.
ghost use Rattle.tree_core.specs.Common.{IsDerivation, shape_of};

use super::built_trees::same_tree;
use super::choices::{FIRST, LAST, derived};
use super::made::made;
use graph_core::MultiGraph;
use graph_core::vset_core::VSet;
use plain_graph::CYCLE_OF_8;
use std::alloc::{AllocError as Memory, Global};
use std::test::Fail;
use tree_core::laws::derivation_stands_law;
use tree_core::{Moves, Tree, apply, copy, fits};
use uncross::{compare, expose};

// What the moves make of a tree, as far as they fit.
fn replayed(tree: Tree, n: u32, moves: &Moves) -> Tree {
    let mut tree = tree;
    for i in 0..moves.len() {
        if !fits(&tree, n) {
            return tree;
        }
        tree = match apply(tree, n, moves.get(i)) {
            Ok(made) => made,
            Err((same, _)) => same,
        };
    }
    tree
}

// Whether no move leads from a derivation to itself.
fn is_like_itself(alloc: Global, g: &MultiGraph, tree: &Tree) -> Result<bool, Memory>
    requires { IsDerivation g.now (shape_of tree.now) }
{
    Ok(compare(alloc, g, tree, tree)?.moves.is_empty())
}

// Whether moves lead from a derivation to another, with a map for each of three leaves.
fn turns_into(alloc: Global, g: &MultiGraph, first: &Tree, second: &Tree) -> Result<bool, Memory>
    requires first { IsDerivation g.now (shape_of first.now) }
    requires second { IsDerivation g.now (shape_of second.now) }
{
    let pairing = compare(alloc, g, first, second)?;
    if pairing.moves.is_empty() || pairing.maps.len() != 3 {
        return Ok(false);
    }
    let made = replayed(copy(alloc, first)?, g.order(), &pairing.moves);
    Ok(same_tree(&made, second))
}

// Whether the tree is a cut with this shore.
fn has_root(tree: &Tree, wanted: VSet) -> bool {
    match tree {
        Tree::Leaf => false,
        Tree::Cut { shore, .. } => *shore == wanted,
    }
}

// Whether the root shore of a derivation is brought to the root of another, with a map for each
// of three leaves, and the moves make the tree that is answered.
fn root_exposed(alloc: Global, g: &MultiGraph, first: Tree, second: &Tree) -> Result<bool, Memory>
    requires first { IsDerivation g.now (shape_of first) }
    requires second { IsDerivation g.now (shape_of second.now) }
{
    match second {
        Tree::Leaf => Ok(false),
        Tree::Cut { shore, .. } => {
            let before = copy(alloc, &first)?;
            let exposed = expose(alloc, g, first, *shore)?;
            let made = replayed(before, g.order(), &exposed.moves);
            let same = has_root(&made, *shore) && same_tree(&made, &exposed.tree);
            Ok(same && exposed.maps.len() == 3)
        }
    }
}

// Whether the derivation by the first candidates is like itself, turns into that by the last, and
// exposes the root shore of that.
fn first_meets_last(alloc: Global, g: &MultiGraph) -> Result<bool, Memory> {
    let Some(first) = derived(alloc, g, FIRST)? else {
        return Ok(false);
    };
    let Some(second) = derived(alloc, g, LAST)? else {
        return Ok(false);
    };
    if !is_like_itself(alloc, g, &first)? || !turns_into(alloc, g, &first, &second)? {
        return Ok(false);
    }
    root_exposed(alloc, g, first, &second)
}

#[test]
fn derivations_of_the_cycle_of_eight(rt: HostRuntime) -> Result<(), Fail> {
    let g = made(rt.alloc(), 8, &CYCLE_OF_8)?;
    assert!(rt; first_meets_last(rt.alloc(), &g)?);
    Ok(())
}
