//! Graphs that show that a premise of a theorem cannot be dropped, asked of the plain program, and
//! shores that are tight and not. `docs/THEOREMS.md` names the theorem and the premise of each.

use self::Asked::{Allowed, OddParts, Perfect, Tight};
use super::made::{made, set_of};
use graph_core::MultiGraph;
use plain_graph::{
    HEXAGON, K4, PATH, PRISM, TRIANGLE_IN_K33, TWO_K4, has_perfect, is_allowed, is_small, is_tight,
    odd_component_count,
};
use std::alloc::Global;
use std::test::Fail;

// The star with five leaves, whose centre is 1.
const STAR_OF_FIVE: [(u32, u32); 5] = [(1, 2), (1, 3), (1, 4), (1, 5), (1, 6)];

// The ladder with three rungs.
const LADDER: [(u32, u32); 7] = [(1, 2), (2, 3), (4, 5), (5, 6), (1, 4), (2, 5), (3, 6)];

// A cubic graph with a bridge, which is the edge 9.
const BRIDGED: [(u32, u32); 9] = [
    (1, 2),
    (1, 3),
    (2, 3),
    (2, 3),
    (4, 5),
    (4, 6),
    (5, 6),
    (5, 6),
    (1, 4),
];

// What is asked of a graph.
enum Asked {
    // Whether the set is a tight shore.
    Tight(&'static [u32]),
    // Whether the graph without these vertices has a perfect matching.
    Perfect(&'static [u32]),
    // Whether the edge is in a perfect matching.
    Allowed(u32),
    // Whether so many odd components are left after these vertices are deleted.
    OddParts(&'static [u32], u32),
}

// A graph, by its order and its edges, what is asked of it, and the answer.
type Row = (u32, &'static [(u32, u32)], Asked, bool);

// The answer of the plain program, and none where it does not take the graph or the edge.
fn answer(alloc: Global, graph: &MultiGraph, asked: &Asked) -> Result<Option<bool>, Fail> {
    if !is_small(graph) {
        return Ok(None);
    }
    match asked {
        Tight(shore) => Ok(Some(is_tight(alloc, graph, set_of(shore))?)),
        Perfect(removed) => Ok(Some(has_perfect(alloc, graph, set_of(removed))?)),
        Allowed(edge) => {
            if *edge < 1 || *edge > graph.size() {
                return Ok(None);
            }
            Ok(Some(is_allowed(alloc, graph, *edge)?))
        }
        OddParts(removed, many) => Ok(Some(odd_component_count(graph, set_of(removed)) == *many)),
    }
}

// Fails at the first row whose answer is another one.
fn all_are_so(alloc: Global, rows: &[Row]) -> Result<(), Fail> {
    for (order, edges, asked, wanted) in rows {
        let graph = made(alloc, *order, edges)?;
        if answer(alloc, &graph, asked)? != Some(*wanted) {
            return Err("a graph that is not as its row says".into());
        }
    }
    Ok(())
}

// Shores that are tight and not; the first three are no premises.
static SHORES: [Row; 10] = [
    (6, &HEXAGON, Tight(&[2, 3, 4]), true),
    (6, &HEXAGON, Tight(&[1, 3, 5]), false),
    (6, &HEXAGON, Tight(&[2, 3]), false),
    (6, &STAR_OF_FIVE, Tight(&[1, 2, 3]), true),
    (6, &STAR_OF_FIVE, Tight(&[2, 3, 4]), true),
    (6, &PRISM, Tight(&[1, 2, 3]), false),
    (6, &HEXAGON, Tight(&[1, 2, 3]), true),
    (6, &LADDER, Tight(&[1, 2, 3]), false),
    (6, &TWO_K4, Tight(&[1, 3, 4]), true),
    (6, &BRIDGED, Tight(&[1, 2, 3]), true),
];

#[test]
fn tight_shores_of_graphs_without_a_premise(rt: HostRuntime) -> Result<(), Fail> {
    all_are_so(rt.alloc(), &SHORES)
}

// Whether the graph without some vertices has a perfect matching.
static RESTS: [Row; 6] = [
    // 1 and 4 are a cut pair of the hexagon, which is not bicritical.
    (6, &HEXAGON, Perfect(&[1, 4]), true),
    (6, &HEXAGON, Perfect(&[1, 3]), false),
    // Two edges of the prism, 1-2 and 5-6, that do not face each other.
    (6, &PRISM, Perfect(&[1, 2, 5, 6]), false),
    (6, &STAR_OF_FIVE, Perfect(&[]), false),
    (6, &TWO_K4, Perfect(&[1, 2]), true),
    (3, &[], Perfect(&[]), false),
];

#[test]
fn perfect_matchings_of_graphs_without_a_premise(rt: HostRuntime) -> Result<(), Fail> {
    all_are_so(rt.alloc(), &RESTS)
}

// Whether an edge is in a perfect matching.
static EDGES: [Row; 4] = [
    (4, &PATH, Allowed(2), false),
    (6, &BRIDGED, Allowed(1), false),
    (6, &BRIDGED, Allowed(9), true),
    (4, &K4, Allowed(1), true),
];

#[test]
fn edges_of_graphs_without_a_premise(rt: HostRuntime) -> Result<(), Fail> {
    all_are_so(rt.alloc(), &EDGES)
}

// How many odd components are left after some vertices are deleted.
static PARTS: [Row; 4] = [
    // Three vertices without an edge have no cut pair, and are not 3-connected.
    (3, &[], OddParts(&[1, 2], 1), true),
    (6, &HEXAGON, OddParts(&[1, 4], 0), true),
    (6, &STAR_OF_FIVE, OddParts(&[1], 5), true),
    (8, &TRIANGLE_IN_K33, OddParts(&[], 0), true),
];

#[test]
fn components_of_graphs_without_a_premise(rt: HostRuntime) -> Result<(), Fail> {
    all_are_so(rt.alloc(), &PARTS)
}
