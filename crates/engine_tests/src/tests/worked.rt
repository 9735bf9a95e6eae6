//! Worked graphs: their classes and pairs, the cuts that these give, and the quick tests.
ghost use Rattle.std.specs.Prelude.{IsTrue, IfOk, IfSome};
ghost use Rattle.tree_check.specs.from_counting.Common.{IsRisingIn};
ghost use Rattle.graph_core.specs.Common.{IsBicritical};

use super::made::{made, set_of};
use graph_core::vset_core::VSet;
use graph_core::{Ends, MultiGraph};
use plain_graph::{
    CUBE, FOUR_CYCLE, HEXAGON, K4, K33, PETERSEN, PRISM, TRIANGLE_IN_K33, TWO_K4, is_bipartite,
    is_covered,
};
use quick_kinds::{quick_brace, quick_brick};
use std::alloc::{AllocError as Memory, Global};
use std::test::Fail;
use tree_check::barrier_kit::{barrier_cuts, classes, is_barrier};
use tree_check::separation_kit::{cut_pair, missing_pairs_law, not_bicritical, separation_cuts};

fn is_bicritical(alloc: Global, g: &MultiGraph) -> Result<bool, Memory>
    ensures { IfOk result (λ yes. IsTrue yes → IsBicritical g.now) }
{
    missing_pairs_law();
    match not_bicritical(alloc, g)? {
        None => Ok(true),
        Some(_) => Ok(false),
    }
}

// The set, if it is one of vertices of the graph.
fn vertices(g: &MultiGraph, set: VSet) -> Option<VSet>
    ensures { IfSome result (IsRisingIn g.now.order) }
{
    g.keeps_limits();
    set.rises();
    if set.is_subset(VSet::full(g.order())) {
        return Some(set);
    }
    None
}

// A covered graph, some of its classes by their places, their number, and the cuts of its barriers.
struct Classes {
    edges: &'static [(u32, u32)],
    many: usize,
    some: &'static [(usize, &'static [u32])],
    cuts: &'static [&'static [u32]],
}

static CLASSES: [Classes; 2] = [
    Classes {
        edges: &CUBE,
        many: 2,
        some: &[(0, &[1, 3, 6, 8]), (1, &[2, 4, 5, 7])],
        cuts: &[],
    },
    Classes {
        edges: &TRIANGLE_IN_K33,
        many: 6,
        some: &[(0, &[1]), (3, &[4, 5, 6]), (5, &[8])],
        cuts: &[&[1, 2, 3]],
    },
];

// Whether the list has these sets, in their order.
fn are_sets(list: &[VSet], wanted: &[&[u32]]) -> bool {
    if list.len() != wanted.len() {
        return false;
    }
    for (found, members) in list.iter().zip(wanted) {
        if *found != set_of(members) {
            return false;
        }
    }
    true
}

// Whether the list has these sets at these places.
fn has_sets(list: &[VSet], some: &[(usize, &[u32])]) -> bool {
    for (i, members) in some {
        if list.get(*i).copied() != Some(set_of(members)) {
            return false;
        }
    }
    true
}

// Whether the graph is covered and has the classes of the row.
fn has_classes(alloc: Global, row: &Classes) -> Result<bool, Fail> {
    let graph = made(alloc, 8, row.edges)?;
    if !is_covered(alloc, &graph)? {
        return Ok(false);
    }
    let list = classes(alloc, &graph)?;
    Ok(list.len() == row.many && has_sets(list.as_slice(), row.some))
}

// Whether it is covered and its barriers have the cuts of the row.
fn has_barrier_cuts(alloc: Global, row: &Classes) -> Result<bool, Fail> {
    let graph = made(alloc, 8, row.edges)?;
    if !is_covered(alloc, &graph)? {
        return Ok(false);
    }
    let cuts = barrier_cuts(alloc, &graph)?;
    Ok(are_sets(cuts.as_slice(), row.cuts))
}

#[test]
fn lists_classes_and_the_cuts_of_barriers(rt: HostRuntime) -> Result<(), Fail> {
    for row in &CLASSES {
        assert!(rt; has_classes(rt.alloc(), row)?);
        assert!(rt; has_barrier_cuts(rt.alloc(), row)?);
    }
    Ok(())
}

// Whether the set is a barrier of the graph; nothing if it is not one of vertices of the graph.
fn asked_barrier(alloc: Global, g: &MultiGraph, set: VSet) -> Result<Option<bool>, Memory> {
    match vertices(g, set) {
        Some(found) => Ok(Some(is_barrier(alloc, g, found)?)),
        None => Ok(None),
    }
}

#[test]
fn knows_barriers(rt: HostRuntime) -> Result<(), Fail> {
    let graph = made(rt.alloc(), 8, &TRIANGLE_IN_K33)?;
    assert!(rt; asked_barrier(rt.alloc(), &graph, set_of(&[4, 5, 6]))? == Some(true));
    assert!(rt; asked_barrier(rt.alloc(), &graph, set_of(&[4, 5]))? == Some(false));
    Ok(())
}

// Two vertices, if there are such.
type FoundPair = Option<(u32, u32)>;

// A graph, its first pair that is not bicritical, and its first cut pair.
static PAIRS: [(u32, &[(u32, u32)], FoundPair, FoundPair); 4] = [
    (4, &K4, None, None),
    (8, &CUBE, Some((1, 3)), None),
    (8, &TRIANGLE_IN_K33, Some((4, 5)), None),
    (6, &TWO_K4, None, Some((1, 2))),
];

fn found_pair(pair: Option<Ends>) -> FoundPair {
    match pair {
        Some(pair) => Some((pair.a, pair.b)),
        None => None,
    }
}

#[test]
fn finds_the_first_pairs(rt: HostRuntime) -> Result<(), Fail> {
    for (order, edges, equivalent, cut) in &PAIRS {
        let graph = made(rt.alloc(), *order, edges)?;
        assert!(rt; found_pair(not_bicritical(rt.alloc(), &graph)?) == *equivalent);
        assert!(rt; found_pair(cut_pair(rt.alloc(), &graph)?) == *cut);
    }
    Ok(())
}

// A bicritical graph, and the cuts of its separations.
static SEPARATIONS: [(u32, &[(u32, u32)], &[&[u32]]); 3] = [
    (4, &K4, &[]),
    (6, &TWO_K4, &[&[1, 3, 4], &[2, 3, 4]]),
    (10, &PETERSEN, &[]),
];

// Whether the graph is covered and bicritical, and its separations have these cuts.
fn has_separations(alloc: Global, g: &MultiGraph, shores: &[&[u32]]) -> Result<bool, Memory> {
    if g.order() < 4 || !is_covered(alloc, g)? || !is_bicritical(alloc, g)? {
        return Ok(false);
    }
    let cuts = separation_cuts(alloc, g)?;
    Ok(are_sets(cuts.as_slice(), shores))
}

#[test]
fn lists_the_cuts_of_separations(rt: HostRuntime) -> Result<(), Fail> {
    for (order, edges, shores) in &SEPARATIONS {
        let graph = made(rt.alloc(), *order, edges)?;
        assert!(rt; has_separations(rt.alloc(), &graph, shores)?);
    }
    Ok(())
}

// A bipartite graph, and whether it is a brace.
static BRACES: [(u32, &[(u32, u32)], bool); 4] = [
    (4, &FOUR_CYCLE, true),
    (6, &K33, true),
    (8, &CUBE, true),
    (6, &HEXAGON, false),
];

// What the quick test answers; nothing if the graph is not bipartite and covered.
fn asked_brace(alloc: Global, g: &MultiGraph) -> Result<Option<bool>, Memory> {
    if g.order() < 4 || !is_covered(alloc, g)? || !is_bipartite(alloc, g)? {
        return Ok(None);
    }
    Ok(Some(quick_brace(alloc, g)?))
}

#[test]
fn tells_braces(rt: HostRuntime) -> Result<(), Fail> {
    for (order, edges, brace) in &BRACES {
        let graph = made(rt.alloc(), *order, edges)?;
        assert!(rt; asked_brace(rt.alloc(), &graph)? == Some(*brace));
    }
    Ok(())
}

// A graph that is not bipartite, and the first tight cut that the quick test finds; none of a
// brick.
static BRICKS: [(u32, &[(u32, u32)], Option<&[u32]>); 5] = [
    (4, &K4, None),
    (6, &PRISM, None),
    (10, &PETERSEN, None),
    (8, &TRIANGLE_IN_K33, Some(&[1, 2, 3])),
    (6, &TWO_K4, Some(&[1, 3, 4])),
];

// Whether the graph is covered and not bipartite, and the quick test finds this cut.
fn has_first_cut(alloc: Global, g: &MultiGraph, cut: Option<&[u32]>) -> Result<bool, Memory> {
    if !is_covered(alloc, g)? || is_bipartite(alloc, g)? {
        return Ok(false);
    }
    Ok(quick_brick(alloc, g)? == cut.map(|members| set_of(members)))
}

#[test]
fn tells_bricks_and_their_first_cut(rt: HostRuntime) -> Result<(), Fail> {
    for (order, edges, cut) in &BRICKS {
        let graph = made(rt.alloc(), *order, edges)?;
        assert!(rt; has_first_cut(rt.alloc(), &graph, *cut)?);
    }
    Ok(())
}
