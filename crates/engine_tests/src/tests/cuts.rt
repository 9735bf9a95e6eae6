//! Worked cuts, and all odd sets of small graphs against the plain program.
ghost use Rattle.std.specs.Prelude.{◌≡◌, length, true};
ghost use Rattle.tree_check.specs.from_counting.Common.{is_odd, IsRisingIn};
ghost use Rattle.plain_graph.specs.Small.{IsSmall};

use super::made::{made, set_of_bits};
use graph_core::MultiGraph;
use graph_core::vset_core::{MOST_VERTICES, VSet};
use plain_graph::{
    CYCLE_OF_8, DOUBLED_SQUARE, HEXAGON, K4, PETERSEN, PRISM, TRIANGLE_IN_K33, TWO_K4,
    edges_in_cut, is_covered, is_perfect, is_small,
};
use std::alloc::Global;
use std::test::Fail;
use tree_check::tight_cuts::{CandidateList, Origin, Tightness, candidates, find_any, is_tight};

const TWO_PARALLEL: [(u32, u32); 2] = [(1, 2), (1, 2)];

// Whether the set has an odd number of vertices of the graph, and nothing else.
fn is_odd_shore(graph: &MultiGraph, set: VSet) -> bool
    ensures rising { result ≡ true → IsRisingIn graph.now.order set }
    ensures odd { result ≡ true → is_odd (length set) ≡ true }
{
    graph.keeps_limits();
    set.rises();
    set.is_subset(VSet::full(graph.order())) && set.len() % 2 == 1
}

// What is answered on the cut of a set; nothing unless it is an odd shore and the graph is covered.
fn answer(alloc: Global, graph: &MultiGraph, set: VSet) -> Result<Option<Tightness>, Fail> {
    if !is_odd_shore(graph, set) {
        return Ok(None);
    }
    if is_covered(alloc, graph)? {
        return Ok(Some(is_tight(alloc, graph, set)?));
    }
    Ok(None)
}

// The edges of the matching that crosses the cut of a set; none if the cut is tight.
fn crossing(alloc: Global, graph: &MultiGraph, set: VSet) -> Result<VSet, Fail> {
    let mut edges = VSet::empty();
    if let Some(Tightness::Crossed { matching }) = answer(alloc, graph, set)? {
        for i in 0..matching.len() {
            let edge = matching.row(i).edge;
            if edge >= 1 && edge <= MOST_VERTICES {
                edges = edges.with(edge);
            }
        }
    }
    Ok(edges)
}

// A graph, a set of an odd number of its vertices, and the matching that crosses its cut; no edges
// if the cut is tight.
static WORKED: [(u32, &[(u32, u32)], u32, u32); 3] = [
    (8, &TRIANGLE_IN_K33, 0b111, 0),
    (6, &PRISM, 0b111, 0b111 << 6),
    (10, &PETERSEN, 0b11111, 0b11111 << 5),
];

#[test]
fn worked_cuts(rt: HostRuntime) -> Result<(), Fail> {
    for (order, edges, set, matching) in &WORKED {
        let graph = made(rt.alloc(), *order, edges)?;
        let set = set_of_bits(*set);
        assert!(rt; answer(rt.alloc(), &graph, set)?.is_some());
        assert!(rt; crossing(rt.alloc(), &graph, set)? == set_of_bits(*matching));
    }
    Ok(())
}

// Whether the answer on the cut of a set is the plain program's; nothing if it is not an odd shore.
fn agrees(alloc: Global, graph: &MultiGraph, set: VSet) -> Result<Option<bool>, Fail>
    requires { IsSmall graph.now }
{
    match answer(alloc, graph, set)? {
        None => Ok(None),
        Some(Tightness::Tight) => Ok(Some(plain_graph::is_tight(alloc, graph, set)?)),
        Some(Tightness::Crossed { matching: _ }) => {
            let crossing = crossing(alloc, graph, set)?;
            let crosses = is_perfect(graph, VSet::empty(), crossing)
                && edges_in_cut(graph, crossing, set) > 1;
            Ok(Some(crosses && !plain_graph::is_tight(alloc, graph, set)?))
        }
    }
}

// The number of the sets of the vertices 1 to 8 with an odd number of vertices of the graph; none
// if an answer is not that of the plain program.
fn odd_sets(alloc: Global, graph: &MultiGraph) -> Result<Option<u32>, Fail>
    requires { IsSmall graph.now }
{
    let mut odd_sets = 0u32;
    for bits in 0..256 {
        match agrees(alloc, graph, set_of_bits(bits))? {
            None => {}
            Some(true) => odd_sets = odd_sets.saturating_add(1),
            Some(false) => return Ok(None),
        }
    }
    Ok(Some(odd_sets))
}

// Graphs, and the number of their sets of an odd number of vertices.
static ODD_SETS: [(u32, &[(u32, u32)], u32); 7] = [
    (2, &TWO_PARALLEL, 2),
    (4, &K4, 8),
    (4, &DOUBLED_SQUARE, 8),
    (6, &HEXAGON, 32),
    (6, &PRISM, 32),
    (6, &TWO_K4, 32),
    (8, &CYCLE_OF_8, 128),
];

#[test]
fn all_odd_sets_of_small_graphs(rt: HostRuntime) -> Result<(), Fail> {
    for (order, edges, many) in &ODD_SETS {
        let graph = made(rt.alloc(), *order, edges)?;
        assert!(rt; is_small(&graph));
        assert!(rt; odd_sets(rt.alloc(), &graph)? == Some(*many));
    }
    Ok(())
}

/// The candidates of a graph; none if it is not matching covered.
pub(crate) fn candidates_if_covered(
    alloc: Global,
    graph: &MultiGraph,
) -> Result<CandidateList, Fail> {
    if is_covered(alloc, graph)? {
        return Ok(candidates(alloc, graph)?);
    }
    Ok(CandidateList::new(alloc))
}

// A graph, and the shores of its candidates, in order, with their origin.
struct Listed {
    order: u32,
    edges: &'static [(u32, u32)],
    shores: &'static [u32],
    origin: Origin,
}

// Bricks and braces, which have no candidate, stand last.
static LISTED: [Listed; 9] = [
    Listed {
        order: 6,
        edges: &HEXAGON,
        shores: &[0b1110, 0b11100, 0b111],
        origin: Origin::Flow,
    },
    Listed {
        order: 8,
        edges: &CYCLE_OF_8,
        shores: &[0b1110, 0b1111100, 0b111, 0b11111, 0b111110],
        origin: Origin::Flow,
    },
    Listed {
        order: 8,
        edges: &TRIANGLE_IN_K33,
        shores: &[0b111],
        origin: Origin::Barrier,
    },
    Listed {
        order: 6,
        edges: &TWO_K4,
        shores: &[0b1101, 0b1110],
        origin: Origin::Separation,
    },
    Listed {
        order: 2,
        edges: &TWO_PARALLEL,
        shores: &[],
        origin: Origin::Flow,
    },
    Listed {
        order: 4,
        edges: &K4,
        shores: &[],
        origin: Origin::Flow,
    },
    Listed {
        order: 4,
        edges: &DOUBLED_SQUARE,
        shores: &[],
        origin: Origin::Flow,
    },
    Listed {
        order: 6,
        edges: &PRISM,
        shores: &[],
        origin: Origin::Flow,
    },
    Listed {
        order: 10,
        edges: &PETERSEN,
        shores: &[],
        origin: Origin::Flow,
    },
];

// Whether the list has these shores of this origin, in their order, each with the number of its
// vertices and with that of the others.
fn has_shores(list: &CandidateList, row: &Listed) -> bool {
    if list.len() != row.shores.len() {
        return false;
    }
    for (i, shore) in row.shores.iter().enumerate() {
        if i < list.len() {
            let candidate = list.get(i);
            let is_shore = candidate.shore == set_of_bits(*shore);
            let inside = shore.count_ones();
            if !is_shore
                || candidate.origin != row.origin
                || candidate.inside != inside
                || candidate.outside != row.order.saturating_sub(inside)
            {
                return false;
            }
        }
    }
    true
}

// Whether the search answers this list, and the search for any cut its first shore.
fn is_listed(alloc: Global, row: &Listed) -> Result<bool, Fail> {
    let graph = made(alloc, row.order, row.edges)?;
    if !is_covered(alloc, &graph)? {
        return Ok(false);
    }
    let list = candidates(alloc, &graph)?;
    let any = find_any(alloc, &graph)?;
    let first = row.shores.first().map(|shore| set_of_bits(*shore));
    Ok(has_shores(&list, row) && any == first)
}

#[test]
fn worked_candidates(rt: HostRuntime) -> Result<(), Fail> {
    for row in &LISTED {
        assert!(rt; is_listed(rt.alloc(), row)?);
    }
    Ok(())
}
