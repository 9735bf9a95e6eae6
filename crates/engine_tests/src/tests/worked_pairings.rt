//! Worked pairs of derivations: all moves and all maps of their comparison, and the root shore of
//! the second exposed in the first.
ghost use Rattle.std.specs.Prelude.{◌≡◌, IfOk, Some};
ghost use Rattle.tree_core.specs.Common.{IsDerivation, shape_of};

use super::built_trees::{Shores, same_tree, tree_of};
use super::made::{made, set_of};
use graph_core::MultiGraph;
use plain_graph::{CYCLE_OF_8, HEXAGON};
use std::alloc::Global;
use std::test::Fail;
use tree_check::{Judgement, check};
use tree_core::{Move, Moves, Side, Tree, fits};
use uncross::{LeafMaps, compare, expose};

// A move: its path, and the two sets that Switch exchanges; none for Rotate.
type Step = (&'static [Side], Option<(&'static [u32], &'static [u32])>);

// A leaf of the first tree: the place of its partner, and the names of the images of its blocks.
type Map = (u32, &'static [u32]);

// A graph, two derivations of it, and the moves and the maps from the first to the second.
struct Row {
    order: u32,
    edges: &'static [(u32, u32)],
    first: Shores,
    second: Shores,
    moves: &'static [Step],
    maps: &'static [Map],
}

static ROWS: [Row; 4] = [
    // the roots cross
    Row {
        order: 6,
        edges: &HEXAGON,
        first: &[0b111, 0, 0],
        second: &[0b1110, 0, 0],
        moves: &[(&[], Some((&[1], &[4])))],
        maps: &[(1, &[6, 2, 3, 4]), (2, &[1, 4, 5, 6])],
    },
    // one tree twice
    Row {
        order: 6,
        edges: &HEXAGON,
        first: &[0b111, 0, 0],
        second: &[0b111, 0, 0],
        moves: &[],
        maps: &[(1, &[1, 2, 3, 6]), (2, &[3, 4, 5, 6])],
    },
    // the same cuts
    Row {
        order: 8,
        edges: &CYCLE_OF_8,
        first: &[0b11111, 0b111, 0, 0, 0],
        second: &[0b111, 0, 0b11111, 0, 0],
        moves: &[(&[Side::Kept], None)],
        maps: &[(1, &[1, 2, 3, 8]), (2, &[3, 4, 5, 8]), (3, &[5, 6, 7, 8])],
    },
    // the roots meet in three vertices, so that a third cut comes first
    Row {
        order: 8,
        edges: &CYCLE_OF_8,
        first: &[0b11111, 0b111, 0, 0, 0],
        second: &[0b1111100, 0b11100, 0, 0, 0],
        moves: &[
            (&[Side::Kept], Some((&[3], &[6, 7, 8]))),
            (&[Side::Kept], None),
            (&[Side::Merged], Some((&[3, 4, 5], &[8]))),
            (&[Side::Merged], None),
        ],
        maps: &[(3, &[1, 2, 7, 8]), (1, &[3, 4, 5, 8]), (2, &[5, 6, 7, 8])],
    },
];

fn is_move(step: &Move, wanted: &Step) -> bool {
    let (path, exchanged) = wanted;
    match step {
        Move::Rotate { path: found } => exchanged.is_none() && found.as_slice() == *path,
        Move::Switch { path: found, u, v } => match exchanged {
            Some((out, inside)) => {
                found.as_slice() == *path && *u == set_of(out) && *v == set_of(inside)
            }
            None => false,
        },
    }
}

// Whether these are the moves, in their order.
fn are_moves(moves: &Moves, wanted: &[Step]) -> bool {
    if moves.len() != wanted.len() {
        return false;
    }
    for (step, row) in moves.as_slice().iter().zip(wanted) {
        if !is_move(step, row) {
            return false;
        }
    }
    true
}

// Whether these are the maps, in their order.
fn are_maps(maps: &LeafMaps, wanted: &[Map]) -> bool {
    if maps.len() != wanted.len() {
        return false;
    }
    for (map, (to, images)) in maps.as_slice().iter().zip(wanted) {
        if map.to != *to || map.images.as_slice() != *images {
            return false;
        }
    }
    true
}

// The tree with these shores, if it is a derivation of the graph.
fn derivation_of(alloc: Global, g: &MultiGraph, shores: Shores) -> Result<Option<Tree>, Fail>
    ensures { IfOk result (λ o. (t : _) → o ≡ Some t → IsDerivation g.now (shape_of t)) }
{
    let tree = tree_of(alloc, shores)?;
    if !fits(&tree, g.order()) {
        return Ok(None);
    }
    match check(alloc, g, &tree)? {
        Judgement::Accepted => Ok(Some(tree)),
        _ => Ok(None),
    }
}

// Whether these are the moves and the maps of the row.
fn are_of(moves: &Moves, maps: &LeafMaps, row: &Row) -> bool {
    are_moves(moves, row.moves) && are_maps(maps, row.maps)
}

// Whether the comparison of the two derivations answers the moves and the maps of the row, and the
// root shore of the second, exposed in the first, makes the second of it, by the same.
fn is_answered(alloc: Global, row: &Row) -> Result<bool, Fail> {
    let g = made(alloc, row.order, row.edges)?;
    let Some(first) = derivation_of(alloc, &g, row.first)? else {
        return Ok(false);
    };
    let Some(second) = derivation_of(alloc, &g, row.second)? else {
        return Ok(false);
    };
    let pairing = compare(alloc, &g, &first, &second)?;
    match &second {
        Tree::Leaf => Ok(false),
        Tree::Cut { shore, .. } => {
            let exposed = expose(alloc, &g, first, *shore)?;
            Ok(
                are_of(&pairing.moves, &pairing.maps, row)
                    && are_of(&exposed.moves, &exposed.maps, row)
                    && same_tree(&exposed.tree, &second),
            )
        }
    }
}

#[test]
fn moves_and_maps_of_worked_pairs(rt: HostRuntime) -> Result<(), Fail> {
    for row in &ROWS {
        assert!(rt; is_answered(rt.alloc(), row)?);
    }
    Ok(())
}
