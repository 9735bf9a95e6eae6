//! The worked examples of the definitions, asked of the plain program.
ghost use Rattle.plain_graph.specs.Small.{IsSmall};

use super::made::{made, set_of};
use graph_core::MultiGraph;
use graph_core::vset_core::VSet;
use plain_graph::{
    K4, PATH, PRISM, STAR, TRIANGLE, edges_in_cut, greatest_matching, has_perfect, is_allowed,
    is_matching, is_perfect, is_small, odd_component_count, perfect_matchings,
};
use std::alloc::Global;
use std::test::Fail;

// A graph, by its order and its edges, and its edges in perfect matchings.
static ALLOWED: [(u32, &[(u32, u32)], &[u32]); 4] = [
    (4, &K4, &[1, 2, 3, 4, 5, 6]),
    (4, &PATH, &[1, 3]),
    (3, &TRIANGLE, &[]),
    (4, &STAR, &[]),
];

// Whether these edges of the graph, and no others, are in perfect matchings.
fn allows(alloc: Global, graph: &MultiGraph, edges: &[u32]) -> Result<bool, Fail>
    requires { IsSmall graph.now }
{
    for e in 1..=graph.size() {
        if is_allowed(alloc, graph, e)? != edges.contains(&e) {
            return Ok(false);
        }
    }
    Ok(has_perfect(alloc, graph, VSet::empty())? != edges.is_empty())
}

#[test]
fn edges_in_perfect_matchings(rt: HostRuntime) -> Result<(), Fail> {
    for (order, edges, wanted) in &ALLOWED {
        let graph = made(rt.alloc(), *order, edges)?;
        assert!(rt; is_small(&graph));
        assert!(rt; allows(rt.alloc(), &graph, wanted)?);
    }
    Ok(())
}

// Whether these are the perfect matchings of the graph, in their order.
fn has_matchings(alloc: Global, graph: &MultiGraph, wanted: &[VSet]) -> Result<bool, Fail>
    requires { IsSmall graph.now }
{
    let matchings = perfect_matchings(alloc, graph, VSet::empty())?;
    Ok(matchings.as_slice() == wanted)
}

#[test]
fn the_matchings_of_k4(rt: HostRuntime) -> Result<(), Fail> {
    let graph = made(rt.alloc(), 4, &K4)?;
    assert!(rt; is_small(&graph));
    let wanted = [set_of(&[3, 4]), set_of(&[2, 5]), set_of(&[1, 6])];
    assert!(rt; has_matchings(rt.alloc(), &graph, &wanted)?);
    assert!(rt; is_matching(&graph, VSet::empty(), VSet::one(1)));
    assert!(rt; !is_matching(&graph, VSet::one(1), VSet::one(1)));
    assert!(rt; has_perfect(rt.alloc(), &graph, set_of(&[1, 2]))?);
    Ok(())
}

// A graph, a Berge set, and the number of vertices that a greatest matching misses.
static DEFICIENCIES: [(u32, &[(u32, u32)], &[u32], u64); 3] = [
    (3, &TRIANGLE, &[], 1),
    (4, &STAR, &[1], 2),
    (4, &K4, &[], 0),
];

// Whether so many vertices are missed, as the set shows.
fn is_missed(alloc: Global, graph: &MultiGraph, berge: VSet, many: u64) -> Result<bool, Fail>
    requires { IsSmall graph.now }
{
    let most = u64::from(greatest_matching(alloc, graph, VSet::empty())?);
    let odd = u64::from(odd_component_count(graph, berge));
    let is_most = (2 * most).saturating_add(many) == u64::from(graph.order());
    Ok(is_most && odd == u64::from(berge.len()).saturating_add(many))
}

#[test]
fn the_deficiency_is_that_of_a_berge_set(rt: HostRuntime) -> Result<(), Fail> {
    for (order, edges, berge, deficiency) in &DEFICIENCIES {
        let graph = made(rt.alloc(), *order, edges)?;
        assert!(rt; is_small(&graph));
        assert!(rt; is_missed(rt.alloc(), &graph, set_of(berge), *deficiency)?);
    }
    Ok(())
}

#[test]
fn three_edges_of_a_perfect_matching_cross_the_prism(rt: HostRuntime) -> Result<(), Fail> {
    let prism = made(rt.alloc(), 6, &PRISM)?;
    assert!(rt; is_small(&prism));
    let crossing = set_of(&[7, 8, 9]);
    assert!(rt; is_perfect(&prism, VSet::empty(), crossing));
    assert!(rt; edges_in_cut(&prism, crossing, set_of(&[1, 2, 3])) == 3);
    Ok(())
}
