//! Worked graphs, each in several orders.

use super::choices::{Choice, FIRST, LAST, decomposed};
use super::made::{made, set_of};
use decomposer::{NamedOrder, Refused};
use graph_core::Reason;
use graph_core::vset_core::VSet;
use plain_graph::{HEXAGON, PATH, TRIANGLE_IN_K33};
use std::alloc::Global;
use std::test::Fail;
use tree_core::Tree;

// The shore of the only cut of a tree; none if it is a leaf or has more cuts.
fn only_shore(tree: &Tree) -> Option<VSet> {
    match tree {
        Tree::Leaf => None,
        Tree::Cut {
            shore,
            kept,
            merged,
        } => {
            if is_leaf(kept) && is_leaf(merged) {
                return Some(*shore);
            }
            None
        }
    }
}

fn is_leaf(tree: &Tree) -> bool {
    matches!(tree, Tree::Leaf)
}

// A graph, by its order and its edges, an order of choice, and the shore of the only cut.
static ONE_CUT: [(u32, &[(u32, u32)], Choice, &[u32]); 12] = [
    (6, &HEXAGON, FIRST, &[2, 3, 4]),
    (6, &HEXAGON, Choice::Boxed, &[1, 2, 3]),
    (6, &HEXAGON, Choice::Borrowing, &[2, 3, 4]),
    (6, &HEXAGON, LAST, &[1, 2, 3]),
    (6, &HEXAGON, Choice::Named(NamedOrder::Balanced), &[2, 3, 4]),
    (6, &HEXAGON, Choice::Scripted, &[1, 2, 3]),
    (8, &TRIANGLE_IN_K33, FIRST, &[1, 2, 3]),
    (8, &TRIANGLE_IN_K33, Choice::Boxed, &[1, 2, 3]),
    (8, &TRIANGLE_IN_K33, Choice::Borrowing, &[1, 2, 3]),
    (8, &TRIANGLE_IN_K33, LAST, &[1, 2, 3]),
    (
        8,
        &TRIANGLE_IN_K33,
        Choice::Named(NamedOrder::Balanced),
        &[1, 2, 3],
    ),
    (8, &TRIANGLE_IN_K33, Choice::Scripted, &[1, 2, 3]),
];

// Whether the decomposition of the graph has one cut, with this shore.
fn has_one_cut(
    alloc: Global,
    order: u32,
    edges: &[(u32, u32)],
    choice: Choice,
    shore: &[u32],
) -> Result<bool, Fail> {
    let g = made(alloc, order, edges)?;
    match decomposed(alloc, &g, choice) {
        Ok(tree) => Ok(only_shore(&tree) == Some(set_of(shore))),
        Err(_) => Ok(false),
    }
}

#[test]
fn graphs_with_one_cut(rt: HostRuntime) -> Result<(), Fail> {
    for (order, edges, choice, shore) in &ONE_CUT {
        assert!(rt; has_one_cut(rt.alloc(), *order, edges, *choice, shore)?);
    }
    Ok(())
}

// Whether the graph is a leaf in the order of the first candidates.
fn is_whole(alloc: Global, order: u32, edges: &[(u32, u32)]) -> Result<bool, Fail> {
    let g = made(alloc, order, edges)?;
    match decomposed(alloc, &g, FIRST) {
        Ok(tree) => Ok(is_leaf(&tree)),
        Err(_) => Ok(false),
    }
}

// Why the graph is refused; nothing if it is not.
fn refusal(alloc: Global, order: u32, edges: &[(u32, u32)]) -> Result<Option<Reason>, Fail> {
    let g = made(alloc, order, edges)?;
    match decomposed(alloc, &g, LAST) {
        Ok(_) => Ok(None),
        Err(Refused::NotCovered(reason)) => Ok(Some(reason)),
        Err(Refused::Memory) => Ok(None),
    }
}

#[test]
fn a_leaf_and_a_refusal(rt: HostRuntime) -> Result<(), Fail> {
    assert!(rt; is_whole(rt.alloc(), 2, &[(1, 2), (1, 2)])?);
    let reason = refusal(rt.alloc(), 4, &PATH)?;
    assert!(rt; reason == Some(Reason::Unallowed { edge: 2 }));
    Ok(())
}
