//! Worked graphs: what their components and sides are, which vertices are adjacent, whether they
//! are simple, and what `add_edge` refuses.

use super::made::{made, set_of};
use graph_core::{AddFault, Ends, MOST_EDGES, MultiGraph, Sides};
use plain_graph::{DOUBLED_SQUARE, HEXAGON, K4, STAR, TRIANGLE, TWO_EDGES};
use std::alloc::Global;
use std::test::Fail;

// A graph, the number of its components, and the side of its least vertices; no side if it is
// not bipartite.
struct Row {
    order: u32,
    edges: &'static [(u32, u32)],
    components: u32,
    left: Option<&'static [u32]>,
}

static ROWS: [Row; 8] = [
    Row {
        order: 4,
        edges: &K4,
        components: 1,
        left: None,
    },
    Row {
        order: 4,
        edges: &TWO_EDGES,
        components: 2,
        left: Some(&[1, 3]),
    },
    Row {
        order: 3,
        edges: &TRIANGLE,
        components: 1,
        left: None,
    },
    Row {
        order: 6,
        edges: &HEXAGON,
        components: 1,
        left: Some(&[1, 3, 5]),
    },
    Row {
        order: 0,
        edges: &[],
        components: 0,
        left: Some(&[]),
    },
    Row {
        order: 4,
        edges: &STAR,
        components: 1,
        left: Some(&[1]),
    },
    // a triangle with a tail, beside an edge
    Row {
        order: 7,
        edges: &[(1, 2), (2, 3), (3, 4), (4, 5), (5, 3), (6, 7)],
        components: 2,
        left: None,
    },
    // the cycle of five
    Row {
        order: 5,
        edges: &[(1, 3), (3, 5), (5, 2), (2, 4), (4, 1)],
        components: 1,
        left: None,
    },
];

// Whether one of these edges has these ends, in one order or the other.
fn are_joined(edges: &[(u32, u32)], a: u32, b: u32) -> bool {
    edges.contains(&(a, b)) || edges.contains(&(b, a))
}

// Whether this is a closed walk of odd length over these edges, whose first vertex is not
// repeated at the end.
fn is_odd_walk(edges: &[(u32, u32)], walk: &[u32]) -> bool {
    if walk.len() % 2 == 0 {
        return false;
    }
    for i in 1..walk.len() {
        if !are_joined(edges, walk[i - 1], walk[i]) {
            return false;
        }
    }
    are_joined(edges, walk[walk.len() - 1], walk[0])
}

fn holds(alloc: Global, row: &Row) -> Result<bool, Fail> {
    let graph = made(alloc, row.order, row.edges)?;
    let sides = match graph.two_sides(alloc)? {
        Sides::Even { left } => row.left == Some(left.as_slice()),
        Sides::Odd { walk } => row.left.is_none() && is_odd_walk(row.edges, walk.as_slice()),
    };
    Ok(sides && graph.components(alloc)? == row.components)
}

#[test]
fn counts_components_and_finds_sides(rt: HostRuntime) -> Result<(), Fail> {
    for row in &ROWS {
        assert!(rt; holds(rt.alloc(), row)?);
    }
    Ok(())
}

// Graphs, and whether they are simple.
static SIMPLE: [(u32, &[(u32, u32)], bool); 7] = [
    (4, &K4, true),
    (4, &STAR, true),
    (6, &HEXAGON, true),
    (0, &[], true),
    (4, &DOUBLED_SQUARE, false),
    (2, &[(1, 2), (2, 1)], false),
    (4, &[(1, 2), (3, 4), (2, 3), (4, 3)], false),
];

// Whether the graph has the ends of these edges, in their order, and two vertices are adjacent
// exactly when one of these joins them.
fn has_edges(alloc: Global, order: u32, edges: &[(u32, u32)]) -> Result<bool, Fail> {
    let graph = made(alloc, order, edges)?;
    let mut many = 0;
    for (a, b) in edges {
        if many >= graph.size() || graph.ends(many + 1) != (Ends { a: *a, b: *b }) {
            return Ok(false);
        }
        many += 1;
    }
    for a in 0..graph.order() {
        for b in 0..graph.order() {
            if graph.adjacent(a + 1, b + 1) != are_joined(edges, a + 1, b + 1) {
                return Ok(false);
            }
        }
    }
    Ok(many == graph.size())
}

#[test]
fn tells_ends_and_neighbours_and_simple_graphs(rt: HostRuntime) -> Result<(), Fail> {
    for (order, edges, simple) in &SIMPLE {
        assert!(rt; has_edges(rt.alloc(), *order, edges)?);
        assert!(rt; made(rt.alloc(), *order, edges)?.simple() == *simple);
    }
    Ok(())
}

#[test]
fn finds_the_components_without_the_centre(rt: HostRuntime) -> Result<(), Fail> {
    let star = made(rt.alloc(), 4, &STAR)?;
    let leaves = star.components_without(rt.alloc(), set_of(&[1]))?;
    let wanted = [set_of(&[2]), set_of(&[3]), set_of(&[4])];
    assert!(rt; leaves.as_slice() == wanted.as_slice());
    Ok(())
}

// The ends of edges that are added to three vertices, one after the other, and what is answered.
static ADDED: [(u32, u32, Result<u32, AddFault>); 7] = [
    (1, 2, Ok(1)),
    (1, 2, Ok(2)),
    (0, 2, Err(AddFault::Range)),
    (2, 4, Err(AddFault::Range)),
    (4, 4, Err(AddFault::Range)),
    (3, 3, Err(AddFault::Loop)),
    (2, 3, Ok(3)),
];

#[test]
fn refuses_wrong_edges(rt: HostRuntime) -> Result<(), Fail> {
    let mut graph = MultiGraph::new(rt.alloc(), 3)?;
    for (a, b, answer) in &ADDED {
        assert!(rt; graph.add_edge(*a, *b) == *answer);
    }
    for _ in 3..MOST_EDGES {
        graph.add_edge(1, 3)?;
    }
    assert!(rt; graph.add_edge(1, 3) == Err(AddFault::TooMany));
    assert!(rt; graph.size() == MOST_EDGES);
    Ok(())
}
