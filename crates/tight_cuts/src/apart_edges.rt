//! Pairs of edges that are known not to lie together, so that none is asked twice.
ghost use Rattle.std.specs.Prelude.{◌≡◌, ◌<◌, true, length, IfOk};
ghost use Rattle.graph_core.specs.from_counting.Common.{Within};
ghost use Rattle.graph_core.specs.Common.{size, Together};
ghost use Rattle.barrier_kit.specs.from_match_search.Common.{numbers};

use graph_core::MultiGraph;
use std::alloc::{AllocError as Memory, Global};
use std::marker::Model;

/// For each edge of a graph up to two others, or 0, that lie in no perfect matching together with
/// it. Contracts see the graph.
#[derive(Drop)]
pub(crate) struct ApartEdges<'g> {
    graph: &'g MultiGraph,
    first: Vec<u32>,
    second: Vec<u32>,
}

impl<'g> Model for ApartEdges<'g> {
    ghost use Rattle.graph_core.specs.Common.{Graph};
    ghost use Rattle.tight_cuts.specs.QuietEdges.{LieApart};

    ghost Value = { Graph };

    ghost view = { λ apart. apart.graph.now };

    ghost invariant = { λ apart. LieApart apart.graph.now apart.first.items × LieApart apart.graph.now apart.second.items };
}

impl<'g> ApartEdges<'g> {
    /// No pair yet.
    pub(crate) fn new(alloc: Global, g: &'g MultiGraph) -> Result<ApartEdges<'g>, Memory>
        ensures { IfOk result (λ apart. apart ≡ g.now) }
    {
        let long = g.size() as usize + 1;
        Ok(ApartEdges {
            graph: g,
            first: vec![in alloc; 0; long]?,
            second: vec![in alloc; 0; long]?,
        })
    }

    /// Whether two edges are known not to lie together.
    pub(crate) fn has(&self, e: u32, f: u32) -> bool
        requires first { Within (size self.now) e }
        requires second { Within (size self.now) f }
        ensures { result ≡ true → Together self.now e f → ⊥ }
    {
        is_at(&self.first, e, f)
            || is_at(&self.second, e, f)
            || is_at(&self.first, f, e)
            || is_at(&self.second, f, e)
    }

    /// Notes that two edges do not lie together. Of more than two with `e` the last two are kept.
    pub(crate) fn note(&mut self, e: u32, f: u32)
        requires edge { Within (size self.old) f }
        requires apart { Together self.old e f → ⊥ }
        ensures { self.new ≡ self.old }
    {
        let i = e as usize;
        if i < self.first.len() && i < self.second.len() {
            self.second[i] = edge_at(&self.first, i);
            self.first[i] = f;
        }
    }
}

// The edge that the row has at a place.
fn edge_at(row: &[u32], i: usize) -> u32
    requires { i < length row.now }
    ensures { result ≡ numbers row.now i }
{
    row[i]
}

// Whether the row has `f` at `e`.
fn is_at(row: &[u32], e: u32, f: u32) -> bool
    ensures { result ≡ true → numbers row.now e ≡ f }
{
    (e as usize) < row.len() && row[e as usize] == f
}
