//! The search at one edge of a bipartite graph for tight cuts through it, by floods in the
//! digraph of a perfect matching.
ghost use Rattle.std.specs.Prelude.{◌≡◌, ◌+◌, true, Some, None, IfOk};
ghost use Rattle.graph_core.specs.from_counting.Common.{Within, mem};
ghost use Rattle.graph_core.specs.Common.{size, IsSide};
ghost use Rattle.tight_cuts.specs.EdgeDigraphs.{AreFloodsOf, IsDigraphAt};
ghost use Rattle.tight_cuts.specs.EdgeSearch.{IsShoreOfEdge, NoneBefore};

use crate::edge_cuts::EdgeSearch;
use crate::edge_search::first_lacking;
use barrier_kit::allowed_edges::perfect_with_edge;
use barrier_kit::match_core::Matching;
use graph_core::MultiGraph;
use graph_core::vset_core::VSet;
use quick_kinds::matching_digraph::Digraph;
use std::alloc::{AllocError as Memory, Global};
use tree_core::graph_facts::{Bipartite, Covered};

// The side that has the vertex, by one of the two sides.
fn side_with(g: &MultiGraph, side: VSet, a: u32) -> VSet
    requires side { IsSide g.now (mem side) }
    requires vertex { Within g.now.order a }
    ensures side { IsSide g.now (mem result) }
    ensures has { mem result a ≡ true }
{
    g.keeps_limits();
    if side.contains(a) {
        return side;
    }
    VSet::full(g.order()).minus(side)
}

/// The search at the edges of a bipartite covered graph: one of its sides, and a perfect
/// matching. At an edge two floods in the digraph of a perfect matching that holds it say whether
/// any pair is separated, and then one for each vertex finds the first.
#[derive(Drop)]
pub(crate) struct FloodSearch {
    side: VSet,
    kept: Matching,
}

impl FloodSearch {
    /// The search in a covered bipartite graph.
    pub(crate) fn new(alloc: Global, bipartite: &Bipartite) -> Result<FloodSearch, Memory>
        ensures { IfOk result (λ search. AreFloodsOf bipartite.now search.side search.kept) }
    {
        let kept = bipartite.own_matching(alloc)?;
        Ok(FloodSearch {
            side: bipartite.side(),
            kept,
        })
    }
}

// The digraph of a perfect matching that holds edge `e`, with the side of its lesser end.
fn digraph_at(alloc: Global, c: &Covered, search: &FloodSearch, e: u32) -> Result<Digraph, Memory>
    requires edge { Within (size c.now) e }
    requires floods { AreFloodsOf c.now search.now.side search.now.kept }
    ensures { IfOk result (IsDigraphAt c.now e) }
{
    let g = c.graph();
    let ends = g.ends(e);
    let near = side_with(g, search.side, ends.a.min(ends.b));
    match perfect_with_edge(alloc, g, &search.kept, e)? {
        Some(matching) => Digraph::new(alloc, g, near, matching),
        None => unreachable!(),
    }
}

// What the pairs (x, y) give, for one x and all y, if no pair before them is separated.
fn shore_from(c: &Covered, digraph: &Digraph, e: u32, x: u32) -> Option<VSet>
    requires edge { Within (size c.now) e }
    requires digraph { IsDigraphAt c.now e digraph.now }
    requires x { Within c.now.order x }
    requires before { NoneBefore c.now e x 1 }
    ensures some { (s : _) → result ≡ Some s → IsShoreOfEdge c.now e result }
    ensures none { result ≡ None → NoneBefore c.now e (x + 1) 1 }
{
    c.keeps_covered();
    let ends = c.graph().ends(e);
    let a = ends.a.min(ends.b);
    let b = ends.a.max(ends.b);
    if x == a || x == b {
        return None;
    }
    let shore = digraph.shore(c, a, b, x);
    match first_lacking(shore, c.order(), b) {
        Some(_) => Some(shore),
        None => None,
    }
}

// What the pairs give in order.
fn first_shore(c: &Covered, digraph: &Digraph, e: u32) -> Option<VSet>
    requires edge { Within (size c.now) e }
    requires digraph { IsDigraphAt c.now e digraph.now }
    ensures { IsShoreOfEdge c.now e result }
{
    for k in 0..c.order() {
        if let Some(shore) = shore_from(c, digraph, e, k + 1) {
            return Some(shore);
        }
    }
    None
}

impl EdgeSearch for FloodSearch {
    ghost is_of = { λ search g. AreFloodsOf g search.side search.kept };

    fn shore_of_edge(
        &mut self,
        alloc: Global,
        c: &Covered,
        e: u32,
    ) -> Result<Option<VSet>, Memory> {
        c.keeps_covered();
        let digraph = digraph_at(alloc, c, self, e)?;
        let ends = c.graph().ends(e);
        if digraph.is_inseparable(c, ends.a.min(ends.b), ends.a.max(ends.b)) {
            return Ok(None);
        }
        Ok(first_shore(c, &digraph, e))
    }
}
