//! The maps of scripts of moves: where they take each leaf of a tree, and its blocks.
ghost use Rattle.std.specs.Prelude.{◌≡◌, ◌≤◌, Some, All, IfOk};
ghost use Rattle.graph_core.specs.Common.{singles};
ghost use Rattle.tree_core.specs.Common.{IsDerivation, own_maps, script_maps, StandsAt, leaves, move_of, moves_of, move_result, Fits, Shape, leaf_count, shape_of};
ghost use Rattle.move_laws.specs.Common.{IsProperScript};
ghost use Rattle.uncross.specs.Common.{IsMapInto, IsSwitched, led_on, maps_of};

use crate::block_images::{Images, image_names};
use crate::exchanges::exchange_at;
use crate::leaf_maps::{LeafMap, LeafMaps, Switched, maps_after};
use crate::leaf_orders::move_order;
use graph_core::MultiGraph;
use graph_core::vset_core::MOST_VERTICES;
use std::alloc::{AllocError as Memory, Global};
use tree_core::{MOST_NODES, Move, Moves, Tree, apply, copy, leaves};

/// The maps of the empty script: each leaf and each block to itself.
pub fn own_maps(alloc: Global, n: u32, tree: &Tree) -> Result<LeafMaps, Memory>
    requires order { n ≤ MOST_VERTICES }
    requires fits { Fits n (shape_of tree.now) }
    requires stands { StandsAt n (singles n) (shape_of tree.now) }
    requires few { leaf_count (shape_of tree.now) ≤ MOST_NODES }
    ensures { IfOk result (λ maps. maps_of maps ≡ own_maps n (shape_of tree.now)) }
{
    let mut rest = leaves(alloc, tree, n)?.into_items().into_iter();
    let mut maps = LeafMaps::new(alloc);
    let mut to = 0;
    'leaves: while let Some(leaf) = rest.next() {
        let images = image_names(alloc, &Images::Own, &leaf)?;
        to += 1;
        maps.push(LeafMap { to, images })?;
    }
    Ok(maps)
}

// A Switch on the tree, if the move is one.
fn switched_by(alloc: Global, n: u32, tree: &Tree, m: &Move) -> Result<Option<Switched>, Memory>
    requires order { n ≤ MOST_VERTICES }
    requires fits { Fits n (shape_of tree.now) }
    requires stands { StandsAt n (singles n) (shape_of tree.now) }
    requires few { leaf_count (shape_of tree.now) ≤ MOST_NODES }
    ensures { IfOk result
        (λ switched. IsSwitched n (shape_of tree.now) (move_of m.now) switched) }
{
    match m {
        Move::Rotate { .. } => Ok(None),
        Move::Switch { path, u, v } => Ok(Some(Switched {
            leaves: leaves(alloc, tree, n)?,
            exchange: exchange_at(n, path.as_slice(), *u, *v, 0, tree),
        })),
    }
}

// The tree that a move makes.
fn moved(tree: Tree, n: u32, m: &Move) -> Tree
    requires { Fits n (shape_of tree) }
    ensures { (t : Shape) → move_result n (shape_of tree) (move_of m.now) ≡ Some t →
        shape_of result ≡ t }
{
    match apply(tree, n, m) {
        Ok(made) => made,
        Err((same, _)) => same,
    }
}

// The maps so far, each composed with the map that a move of the tree gives its partner.
fn maps_onward(
    alloc: Global,
    n: u32,
    tree: &Tree,
    m: &Move,
    maps: LeafMaps,
) -> Result<LeafMaps, Memory>
    requires order { n ≤ MOST_VERTICES }
    requires fits { Fits n (shape_of tree.now) }
    requires stands { StandsAt n (singles n) (shape_of tree.now) }
    requires few { leaf_count (shape_of tree.now) ≤ MOST_NODES }
    requires leads { All (IsMapInto (leaves n (shape_of tree.now))) (maps_of maps) }
    ensures { IfOk result
        (λ after. maps_of after ≡ led_on n (shape_of tree.now) (move_of m.now) (maps_of maps)) }
{
    let order = move_order(alloc, n, tree, m)?;
    let switched = switched_by(alloc, n, tree, m)?;
    let after = maps_after(alloc, n, order.as_slice(), &switched, maps)?;
    Ok(after)
}

/// The maps of a script of moves that leads through derivations of the graph, each Switch proper:
/// where each leaf of the tree goes, and its blocks.
pub fn script_maps(
    alloc: Global,
    g: &MultiGraph,
    tree: &Tree,
    moves: &Moves,
) -> Result<LeafMaps, Memory>
    requires derives { IsDerivation g.now (shape_of tree.now) }
    requires script { (t : Shape) ×
        IsProperScript g.now (singles g.now.order) (shape_of tree.now) (moves_of moves.now) t }
    ensures { IfOk result
        (λ maps. maps_of maps ≡ script_maps g.now.order (shape_of tree.now) (moves_of moves.now)) }
{
    g.keeps_limits();
    let n = g.order();
    let mut current = copy(alloc, tree)?;
    let mut maps = own_maps(alloc, n, tree)?;
    let mut rest = moves.as_slice();
    'moves: while let Some((m, others)) = rest.split_first() {
        maps = maps_onward(alloc, n, &current, m, maps)?;
        current = moved(current, n, m);
        rest = others;
    }
    Ok(maps)
}
