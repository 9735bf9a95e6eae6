//! The candidates of small graphs, against all sets of their vertices by the plain program.
ghost use Rattle.plain_graph.specs.Small.{IsSmall};

use super::cuts::candidates_if_covered;
use super::made::{made, set_of_bits};
use graph_core::MultiGraph;
use graph_core::vset_core::VSet;
use plain_graph::{CYCLE_OF_8, HEXAGON, K4, PRISM, TRIANGLE_IN_K33, TWO_K4, is_small};
use std::alloc::Global;
use std::test::Fail;
use tree_check::tight_cuts::CandidateList;

// Whether some set with at least three vertices on each side is tight, by the plain program. Only
// sets of the vertices 1 to 8 are tried: no graph of the table has more.
fn has_tight_set(alloc: Global, graph: &MultiGraph) -> Result<bool, Fail>
    requires { IsSmall graph.now }
{
    graph.keeps_limits();
    let all = VSet::full(graph.order());
    for bits in 0..256 {
        let set = set_of_bits(bits);
        let is_nontrivial = set.is_subset(all) && set.len() >= 3 && all.minus(set).len() >= 3;
        if is_nontrivial && plain_graph::is_tight(alloc, graph, set)? {
            return Ok(true);
        }
    }
    Ok(false)
}

// Whether each candidate is tight, by the plain program.
fn are_tight(alloc: Global, graph: &MultiGraph, list: &CandidateList) -> Result<bool, Fail>
    requires { IsSmall graph.now }
{
    for i in 0..list.len() {
        if !plain_graph::is_tight(alloc, graph, list.get(i).shore)? {
            return Ok(false);
        }
    }
    Ok(true)
}

static SMALL_GRAPHS: [(u32, &[(u32, u32)]); 6] = [
    (4, &K4),
    (6, &HEXAGON),
    (6, &PRISM),
    (6, &TWO_K4),
    (8, &CYCLE_OF_8),
    (8, &TRIANGLE_IN_K33),
];

#[test]
fn a_candidate_if_and_only_if_a_set_is_tight(rt: HostRuntime) -> Result<(), Fail> {
    for (order, edges) in &SMALL_GRAPHS {
        let graph = made(rt.alloc(), *order, edges)?;
        assert!(rt; is_small(&graph));
        let list = candidates_if_covered(rt.alloc(), &graph)?;
        assert!(rt; list.is_empty() != has_tight_set(rt.alloc(), &graph)?);
        assert!(rt; are_tight(rt.alloc(), &graph, &list)?);
    }
    Ok(())
}
