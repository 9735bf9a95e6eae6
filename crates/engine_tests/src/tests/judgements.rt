//! Worked trees, each answer once.
ghost use Rattle.std.specs.Prelude.{◌≤◌, length};

use super::built_trees::{cut_into, is_tree};
use super::made::{made, set_of};
use graph_core::vset_core::VSet;
use graph_core::{MultiGraph, Reason};
use plain_graph::{HEXAGON, PETERSEN, PRISM, TRIANGLE_IN_K33, TWO_EDGES};
use std::alloc::{AllocError as Memory, Global};
use std::test::Fail;
use tree_check::{Judgement, Replayed, Why, check, replay};
use tree_core::{Move, Moves, Path, Tree, fits};

// The answer to a tree, and none where it does not fit the graph.
fn judged(alloc: Global, g: &MultiGraph, tree: &Tree) -> Result<Option<Judgement>, Memory> {
    if fits(tree, g.order()) {
        Ok(Some(check(alloc, g, tree)?))
    } else {
        Ok(None)
    }
}

// The answer to a cut with two leaves.
fn judged_cut(alloc: Global, g: &MultiGraph, shore: VSet) -> Result<Option<Judgement>, Memory> {
    let tree = cut_into(alloc, shore, Tree::Leaf, Tree::Leaf)?;
    judged(alloc, g, &tree)
}

// Whether the node is refused, and for this reason, which is that of a shore that is no union of
// blocks, even or trivial.
fn is_refused(judgement: &Option<Judgement>, at: u32, reason: &Why) -> bool {
    match judgement {
        Some(Judgement::Refused { node, why }) => {
            *node == at
                && matches!(
                    (why, reason),
                    (Why::NotBlocks, Why::NotBlocks)
                        | (Why::Even, Why::Even)
                        | (Why::Trivial, Why::Trivial)
                )
        }
        _ => false,
    }
}

// Whether the root is refused as a cut that is not tight, by a matching of these edges.
fn is_crossed_by(judgement: &Option<Judgement>, edges: &[u32]) -> bool {
    match judgement {
        Some(
            Judgement::Refused {
                node,
                why: Why::NotTight { matching },
            },
        ) => *node == 1 && matching.as_slice() == edges,
        _ => false,
    }
}

// Whether the root is refused as a leaf that this shore cuts.
fn is_cut_further(judgement: &Option<Judgement>, shore: VSet) -> bool {
    match judgement {
        Some(
            Judgement::Refused {
                node,
                why: Why::NotLeaf { cut },
            },
        ) => *node == 1 && *cut == shore,
        _ => false,
    }
}

// A graph, the shore of its cut, and the matching that crosses it.
static CROSSED: [(u32, &[(u32, u32)], &[u32], &[u32]); 2] = [
    (6, &PRISM, &[1, 2, 3], &[7, 8, 9]),
    (10, &PETERSEN, &[1, 2, 3, 4, 5], &[6, 7, 8, 9, 10]),
];

#[test]
fn cuts_that_are_not_tight(rt: HostRuntime) -> Result<(), Fail> {
    for (order, edges, shore, crossing) in &CROSSED {
        let graph = made(rt.alloc(), *order, edges)?;
        let answer = judged_cut(rt.alloc(), &graph, set_of(shore))?;
        assert!(rt; is_crossed_by(&answer, crossing));
    }
    Ok(())
}

#[test]
fn a_hexagon_that_is_no_leaf(rt: HostRuntime) -> Result<(), Fail> {
    let hexagon = made(rt.alloc(), 6, &HEXAGON)?;
    let answer = judged(rt.alloc(), &hexagon, &Tree::Leaf)?;
    assert!(rt; is_cut_further(&answer, set_of(&[2, 3, 4])));
    Ok(())
}

#[test]
fn shores_of_a_hexagon(rt: HostRuntime) -> Result<(), Fail> {
    let hexagon = made(rt.alloc(), 6, &HEXAGON)?;
    let even = judged_cut(rt.alloc(), &hexagon, VSet::full(2))?;
    assert!(rt; is_refused(&even, 1, &Why::Even));
    let trivial = judged_cut(rt.alloc(), &hexagon, VSet::one(1))?;
    assert!(rt; is_refused(&trivial, 1, &Why::Trivial));
    Ok(())
}

#[test]
fn a_shore_below_that_is_no_union_of_blocks(rt: HostRuntime) -> Result<(), Fail> {
    let hexagon = made(rt.alloc(), 6, &HEXAGON)?;
    let below = cut_into(rt.alloc(), set_of(&[1, 4, 5]), Tree::Leaf, Tree::Leaf)?;
    let tree = cut_into(rt.alloc(), VSet::full(3), below, Tree::Leaf)?;
    let answer = judged(rt.alloc(), &hexagon, &tree)?;
    assert!(rt; is_refused(&answer, 2, &Why::NotBlocks));
    Ok(())
}

fn is_accepted(judgement: &Option<Judgement>) -> bool {
    matches!(judgement, Some(Judgement::Accepted))
}

// Whether the graph is refused since no path joins two vertices.
fn is_parted(judgement: &Option<Judgement>, first: u32, second: u32) -> bool {
    match judgement {
        Some(Judgement::NotCovered(Reason::Parted { a, b })) => *a == first && *b == second,
        _ => false,
    }
}

#[test]
fn accepted_and_not_covered(rt: HostRuntime) -> Result<(), Fail> {
    let g = made(rt.alloc(), 8, &TRIANGLE_IN_K33)?;
    assert!(rt; is_accepted(&judged_cut(rt.alloc(), &g, VSet::full(3))?));
    let parted = made(rt.alloc(), 4, &TWO_EDGES)?;
    assert!(rt; is_parted(&judged(rt.alloc(), &parted, &Tree::Leaf)?, 1, 3));
    Ok(())
}

// A Switch at the root by two vertices, or a Rotate there.
type Step = Option<(u32, u32)>;

fn move_of(alloc: Global, step: Step) -> Move {
    let path = Path::new(alloc);
    match step {
        Some((u, v)) => Move::Switch {
            path,
            u: set_of(&[u]),
            v: set_of(&[v]),
        },
        None => Move::Rotate { path },
    }
}

// The answer to moves on the cut of a hexagon with the shore 1 2 3, and none where it is not a
// derivation.
fn replayed_hexagon(alloc: Global, moves: &Moves) -> Result<Option<Replayed>, Fail>
    requires { length moves.now ≤ 3 }
{
    let hexagon = made(alloc, 6, &HEXAGON)?;
    let tree = cut_into(alloc, VSet::full(3), Tree::Leaf, Tree::Leaf)?;
    if !fits(&tree, hexagon.order()) {
        return Ok(None);
    }
    match check(alloc, &hexagon, &tree)? {
        Judgement::Accepted => Ok(Some(replay(alloc, &hexagon, tree, moves)?)),
        _ => Ok(None),
    }
}

// Whether the last tree is the one with these shores.
fn is_done_with(alloc: Global, answer: &Option<Replayed>, shores: &[u32]) -> Result<bool, Fail> {
    match answer {
        Some(Replayed::Done { tree }) => is_tree(alloc, tree, shores),
        _ => Ok(false),
    }
}

// Whether the move of that number has no result.
fn is_stuck(answer: &Option<Replayed>, number: u32) -> bool {
    match answer {
        Some(Replayed::Stuck { at }) => *at == number,
        _ => false,
    }
}

// Whether the result of the move of that number has a root that is not tight, by a matching of
// these edges.
fn is_refused_move(answer: &Option<Replayed>, number: u32, edges: &[u32]) -> bool {
    match answer {
        Some(
            Replayed::Refused {
                at,
                node,
                why: Why::NotTight { matching },
            },
        ) => *at == number && *node == 1 && matching.as_slice() == edges,
        _ => false,
    }
}

// The answer to these steps on that cut.
fn after(alloc: Global, steps: &[Step]) -> Result<Option<Replayed>, Fail> {
    let mut moves = Moves::new(alloc);
    for step in steps {
        moves.push(move_of(alloc, *step))?;
    }
    if moves.len() > 3 {
        return Ok(None);
    }
    replayed_hexagon(alloc, &moves)
}

#[test]
fn scripts_replayed(rt: HostRuntime) -> Result<(), Fail> {
    let answer = after(rt.alloc(), &[Some((1, 4))])?;
    assert!(rt; is_done_with(rt.alloc(), &answer, &[0b1110, 0, 0])?);
    let answer = after(rt.alloc(), &[Some((2, 4)), Some((4, 2))])?;
    assert!(rt; is_refused_move(&answer, 1, &[2, 4, 6]));
    Ok(())
}

#[test]
fn moves_without_result(rt: HostRuntime) -> Result<(), Fail> {
    assert!(rt; is_stuck(&after(rt.alloc(), &[Some((1, 4)), None])?, 2));
    assert!(rt; is_stuck(&after(rt.alloc(), &[None])?, 1));
    Ok(())
}
