//! Worked graphs: their allowed edges, verdicts and pairs; and small graphs beside the plain
//! program.
ghost use Rattle.tree_check.specs.from_counting.Common.{Within};
ghost use Rattle.plain_graph.specs.Small.{IsSmall};

use super::made::{drawn, made, set_of};
use allowed_edges::{allowed, covered, together};
use graph_core::vset_core::{MOST_VERTICES, VSet};
use graph_core::{MultiGraph, Reason, Verdict};
use match_core::maximum;
use plain_graph::{
    FLOWER, K4, K33, PATH, PRISM, STAR, TRIANGLE, TWO_EDGES, greatest_matching, is_small,
    perfect_matchings,
};
use std::alloc::Global;
use std::test::Fail;

const TWINS: [(u32, u32); 3] = [(1, 2), (2, 1), (1, 2)];

static SMALL_GRAPHS: [(u32, &[(u32, u32)]); 11] = [
    (0, &[]),
    (3, &[]),
    (4, &K4),
    (4, &PATH),
    (4, &STAR),
    (4, &TWO_EDGES),
    (3, &TRIANGLE),
    (2, &TWINS),
    (6, &K33),
    (6, &PRISM),
    (8, &FLOWER),
];

// Further small graphs: the two digits of a number are the ends of an edge.
static DRAWN: [(u32, &[u32]); 4] = [
    // the bow tie
    (5, &[12, 23, 13, 34, 45, 35]),
    // the wheel with five spokes
    (6, &[12, 23, 34, 45, 51, 61, 62, 63, 64, 65]),
    // a square with a diagonal and a tail of two edges
    (6, &[12, 23, 34, 41, 13, 45, 56]),
    // the heptagon with a chord
    (7, &[26, 34, 45, 56, 67, 71, 12, 23]),
];

// A graph, by its order and its edges, and its allowed edges.
static ALLOWED: [(u32, &[(u32, u32)], &[u32]); 5] = [
    (4, &K4, &[1, 2, 3, 4, 5, 6]),
    (4, &PATH, &[1, 3]),
    (4, &STAR, &[]),
    (4, &TWO_EDGES, &[1, 2]),
    (1, &[], &[]),
];

#[test]
fn lists_allowed_edges(rt: HostRuntime) -> Result<(), Fail> {
    for (order, edges, listed) in &ALLOWED {
        let graph = made(rt.alloc(), *order, edges)?;
        assert!(rt; allowed(rt.alloc(), &graph)?.as_slice() == *listed);
    }
    Ok(())
}

// Whether the graph is refused for this reason.
fn is_refused(
    alloc: Global,
    order: u32,
    edges: &[(u32, u32)],
    reason: Reason,
) -> Result<bool, Fail> {
    let graph = made(alloc, order, edges)?;
    Ok(covered(alloc, &graph)? == Verdict::NotCovered(reason))
}

#[test]
fn says_why_not_covered(rt: HostRuntime) -> Result<(), Fail> {
    let alloc = rt.alloc();
    let k4 = made(alloc, 4, &K4)?;
    assert!(rt; covered(alloc, &k4)? == Verdict::Covered);
    assert!(rt; is_refused(alloc, 1, &[], Reason::Small)?);
    assert!(rt; is_refused(alloc, 4, &TWO_EDGES, Reason::Parted { a: 1, b: 3 })?);
    let berge = set_of(&[1]);
    assert!(rt; is_refused(alloc, 4, &STAR, Reason::Unmatched { berge })?);
    assert!(rt; is_refused(alloc, 4, &PATH, Reason::Unallowed { edge: 2 })?);
    Ok(())
}

// A graph, the pairs e < f of its edges that lie together, and the number of matchings that the
// table lists.
static TOGETHER: [(u32, &[(u32, u32)], &[(u32, u32)], usize); 5] = [
    (4, &K4, &[(1, 6), (2, 5), (3, 4)], 3),
    (4, &PATH, &[(1, 3)], 1),
    (4, &TWO_EDGES, &[(1, 2)], 1),
    (4, &STAR, &[], 0),
    (2, &TWINS, &[], 3),
];

#[test]
fn tells_which_edges_lie_together(rt: HostRuntime) -> Result<(), Fail> {
    for (order, edges, pairs, matchings) in &TOGETHER {
        assert!(rt; lie_together(rt.alloc(), *order, edges, pairs, *matchings)?);
    }
    Ok(())
}

// Whether these are the pairs of edges of the graph that lie together, and the table lists so many
// matchings.
fn lie_together(
    alloc: Global,
    order: u32,
    edges: &[(u32, u32)],
    pairs: &[(u32, u32)],
    matchings: usize,
) -> Result<bool, Fail> {
    let graph = made(alloc, order, edges)?;
    pairs_together(alloc, &graph, pairs, matchings)
}

// Whether these are the pairs e < f of edges that lie together, and the table lists so many
// matchings.
fn pairs_together(
    alloc: Global,
    graph: &MultiGraph,
    pairs: &[(u32, u32)],
    matchings: usize,
) -> Result<bool, Fail> {
    let table = together(alloc, graph)?;
    let size = graph.size();
    for e in 1..=size {
        for f in e + 1..=size {
            if table.both(e, f) != pairs.contains(&(e, f)) {
                return Ok(false);
            }
        }
    }
    Ok(table.list().len() == matchings)
}

#[test]
fn agrees_with_the_plain_program_on_small_graphs(rt: HostRuntime) -> Result<(), Fail> {
    for (order, edges) in &SMALL_GRAPHS {
        assert!(rt; agrees(rt.alloc(), &made(rt.alloc(), *order, edges)?)?);
    }
    for (order, edges) in &DRAWN {
        assert!(rt; agrees(rt.alloc(), &drawn(rt.alloc(), *order, edges)?)?);
    }
    Ok(())
}

fn agrees(alloc: Global, graph: &MultiGraph) -> Result<bool, Fail> {
    if !is_small(graph) {
        return Ok(false);
    }
    Ok(agrees_on_pairs(alloc, graph)? && agrees_on_maximum(alloc, graph)?)
}

fn agrees_on_pairs(alloc: Global, graph: &MultiGraph) -> Result<bool, Fail>
    requires { IsSmall graph.now }
{
    let table = together(alloc, graph)?;
    let plain = perfect_matchings(alloc, graph, VSet::empty())?;
    let size = graph.size();
    for e in 1..=size {
        for f in 1..=size {
            if table.both(e, f) != some_holds(plain.as_slice(), e, f) {
                return Ok(false);
            }
        }
    }
    Ok(true)
}

fn some_holds(sets: &[VSet], e: u32, f: u32) -> bool
    requires first { Within MOST_VERTICES e }
    requires second { Within MOST_VERTICES f }
{
    sets.iter().any(|set| set.contains(e) && set.contains(f))
}

fn agrees_on_maximum(alloc: Global, graph: &MultiGraph) -> Result<bool, Fail>
    requires { IsSmall graph.now }
{
    let found = maximum(alloc, graph)?;
    let most = greatest_matching(alloc, graph, VSet::empty())?;
    Ok(found.matching.len() == most as usize)
}
