//! Worked graphs: the sizes of their maximum matchings and how many vertices these miss, their
//! Gallai-Edmonds sets, and perfect matchings on request.
ghost use Rattle.std.specs.Prelude.{◌≡◌, true};
ghost use Rattle.tree_check.specs.from_counting.Common.{mem, none};
ghost use Rattle.graph_core.specs.Common.{missed_count};
ghost use Rattle.match_core.specs.Common.{IsOf, edges_of};

use super::made::{made, set_of};
use gallai_edmonds::sets;
use graph_core::vset_core::VSet;
use graph_core::{MultiGraph, Numbers};
use match_core::{FrameSets, Matching, frame, maximum, perfect_with, perfect_without, repair};
use plain_graph::{FLOWER, K4, PATH, PETERSEN, STAR, TRIANGLE, TWO_EDGES};
use std::alloc::Global;
use std::test::Fail;

// A square 3 4 5 6 beside an edge.
const SQUARE: [(u32, u32); 5] = [(1, 2), (3, 4), (4, 5), (5, 6), (3, 6)];

// A graph, by its order and its edges, the size of its maximum matchings, and how many vertices
// each of these misses.
static SIZES: [(u32, &[(u32, u32)], usize, u32); 9] = [
    (4, &STAR, 1, 2),
    (3, &TRIANGLE, 1, 1),
    (4, &PATH, 2, 0),
    (4, &K4, 2, 0),
    (4, &TWO_EDGES, 2, 0),
    (10, &PETERSEN, 5, 0),
    (8, &FLOWER, 4, 0),
    (0, &[], 0, 0),
    (3, &[], 0, 3),
];

// How many vertices of the graph are an end of no edge of the matching.
fn count_missed(graph: &MultiGraph, matching: &Matching) -> u32 {
    graph.keeps_limits();
    let mut missed = VSet::full(graph.order());
    for i in 0..matching.len() {
        let row = matching.row(i);
        missed = missed.minus(set_of(&[row.a, row.b]));
    }
    missed.len()
}

#[test]
fn finds_maximum_matchings(rt: HostRuntime) -> Result<(), Fail> {
    for (order, edges, size, missed) in &SIZES {
        let graph = made(rt.alloc(), *order, edges)?;
        let found = maximum(rt.alloc(), &graph)?;
        assert!(rt; found.matching.len() == *size);
        assert!(rt; count_missed(&graph, &found.matching) == *missed);
    }
    Ok(())
}

// A graph, and its sets D, A and the set that shows that no matching is larger.
static SETS: [(u32, &[(u32, u32)], &[u32], &[u32], &[u32]); 4] = [
    (4, &K4, &[], &[], &[]),
    (4, &STAR, &[2, 3, 4], &[1], &[1]),
    (3, &TRIANGLE, &[1, 2, 3], &[], &[]),
    (4, &PATH, &[], &[], &[]),
];

// Whether the frame of the graph has these sets.
fn has_frame(alloc: Global, graph: &MultiGraph, wanted: [&[u32]; 3]) -> Result<bool, Fail> {
    let [d, a, berge] = wanted;
    let FrameSets {
        found,
        outer,
        inner,
    } = frame(alloc, graph)?;
    let is_split = outer == set_of(d) && inner == set_of(a);
    Ok(is_split && found.berge == set_of(berge))
}

#[test]
fn finds_the_sets_of_gallai_and_edmonds(rt: HostRuntime) -> Result<(), Fail> {
    for (order, edges, outer, inner, berge) in &SETS {
        let graph = made(rt.alloc(), *order, edges)?;
        assert!(rt; has_frame(rt.alloc(), &graph, [*outer, *inner, *berge])?);
    }
    Ok(())
}

// A star and an edge that hangs on its centre by a vertex.
const STAR_AND_EDGE: [(u32, u32); 5] = [(1, 2), (1, 3), (1, 4), (1, 5), (5, 6)];

// A graph, by its order and its edges, and its sets D, A and C.
static THREE_SETS: [(u32, &[(u32, u32)], [&[u32]; 3]); 6] = [
    (4, &K4, [&[], &[], &[1, 2, 3, 4]]),
    (4, &STAR, [&[2, 3, 4], &[1], &[]]),
    (3, &TRIANGLE, [&[1, 2, 3], &[], &[]]),
    (4, &PATH, [&[], &[], &[1, 2, 3, 4]]),
    (6, &STAR_AND_EDGE, [&[2, 3, 4], &[1], &[5, 6]]),
    (3, &[], [&[1, 2, 3], &[], &[]]),
];

#[test]
fn answers_the_three_sets(rt: HostRuntime) -> Result<(), Fail> {
    for (order, edges, [d, a, c]) in &THREE_SETS {
        let graph = made(rt.alloc(), *order, edges)?;
        let three = sets(rt.alloc(), &graph)?;
        assert!(rt; three.d == set_of(d) && three.a == set_of(a) && three.c == set_of(c));
    }
    Ok(())
}

// Whether the matching has these edges, in their order.
fn has_edges(matching: &Matching, want: &[u32]) -> bool {
    if matching.len() != want.len() {
        return false;
    }
    for (i, edge) in want.iter().enumerate() {
        if i < matching.len() && matching.row(i).edge != *edge {
            return false;
        }
    }
    true
}

// Whether the answer is a matching of these edges, or none if none is expected.
fn is_answer(found: &Option<Matching>, want: Option<&[u32]>) -> bool {
    match (found, want) {
        (Some(matching), Some(edges)) => has_edges(matching, edges),
        (None, None) => true,
        _ => false,
    }
}

// Vertices of the path that are left out, and the perfect matching of the rest.
static WITHOUT: [(&[u32], Option<&[u32]>); 3] = [
    (&[], Some(&[1, 3])),
    (&[1, 4], Some(&[2])),
    (&[2, 3], None),
];

#[test]
fn answers_perfect_matchings_on_request(rt: HostRuntime) -> Result<(), Fail> {
    let path = made(rt.alloc(), 4, &PATH)?;
    for (left_out, edges) in &WITHOUT {
        let found = perfect_without(rt.alloc(), &path, set_of(left_out))?;
        assert!(rt; is_answer(&found, *edges));
    }
    Ok(())
}

// A perfect matching of the graph that holds these edges, where they are edges of it.
fn holding(alloc: Global, graph: &MultiGraph, held: &[u32]) -> Result<Option<Matching>, Fail> {
    let mut edges = Numbers::new(alloc);
    for edge in held {
        edges.push(*edge)?;
    }
    let size = graph.size();
    if edges
        .as_slice()
        .iter()
        .all(|edge| 1 <= *edge && *edge <= size)
    {
        return Ok(perfect_with(alloc, graph, &edges)?);
    }
    Ok(None)
}

#[test]
fn holds_given_edges(rt: HostRuntime) -> Result<(), Fail> {
    let k4 = made(rt.alloc(), 4, &K4)?;
    assert!(rt; is_answer(&holding(rt.alloc(), &k4, &[2, 2])?, Some(&[2, 5])));
    assert!(rt; is_answer(&holding(rt.alloc(), &k4, &[2, 2, 1])?, None));
    Ok(())
}

// A body that searches anew gives one answer for both.
#[test]
fn repairs_along_one_path(rt: HostRuntime) -> Result<(), Fail> {
    let square = made(rt.alloc(), 6, &SQUARE)?;
    assert!(rt; is_answer(&repaired_beside(rt.alloc(), &square, 2)?, Some(&[1, 2, 4])));
    assert!(rt; is_answer(&repaired_beside(rt.alloc(), &square, 3)?, Some(&[1, 3, 5])));
    Ok(())
}

#[test]
fn repairs_where_there_is_no_perfect_matching(rt: HostRuntime) -> Result<(), Fail> {
    let star = made(rt.alloc(), 4, &STAR)?;
    let found = maximum(rt.alloc(), &star)?;
    assert!(rt; repaired(rt.alloc(), &star, &found.matching)?.is_none());
    Ok(())
}

// A perfect matching that holds the edge, without its rows at 1 and 2, repaired.
fn repaired_beside(alloc: Global, graph: &MultiGraph, edge: u32) -> Result<Option<Matching>, Fail> {
    let mut edges = Numbers::new(alloc);
    edges.push(edge)?;
    if edge < 1 || edge > graph.size() {
        return Ok(None);
    }
    match perfect_with(alloc, graph, &edges)? {
        None => Ok(None),
        Some(whole) => {
            let rest = whole.cleared(alloc, VSet::one(1).with(2))?;
            repaired(alloc, graph, &rest)
        }
    }
}

// Asks only where two vertices are missed.
fn repaired(alloc: Global, graph: &MultiGraph, m: &Matching) -> Result<Option<Matching>, Fail>
    requires { IsOf graph.now m.now }
{
    m.keeps_matching();
    if !misses_two(graph, m) {
        return Ok(None);
    }
    Ok(repair(alloc, graph, VSet::empty(), m)?)
}

fn misses_two(graph: &MultiGraph, m: &Matching) -> bool
    requires { IsOf graph.now m.now }
    ensures { result ≡ true → missed_count graph.now none (mem (edges_of m.now)) ≡ 2 }
{
    graph.keeps_limits();
    m.keeps_matching();
    m.len() < 64 && m.len() * 2 + 2 == graph.order() as usize
}
