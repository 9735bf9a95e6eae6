//! A covered bipartite graph as a type.
ghost use Rattle.std.specs.Prelude.{◌≡◌, ◌↔◌, None, Some, IfOk};
ghost use Rattle.allowed_edges.specs.from_counting.Common.{mem, none};
ghost use Rattle.graph_core.specs.Common.{IsCovered, IsBipartite, IsPerfect, IsSide, IsWithinLimits};
ghost use Rattle.allowed_edges.specs.from_match_core.Common.{IsOf, edges_of};

use crate::covered_graph::Covered;
use allowed_edges::match_core::Matching;
use graph_core::MultiGraph;
use graph_core::vset_core::VSet;
use std::alloc::{AllocError as Memory, Global};
use std::marker::Model;

/// A covered bipartite graph with one of its sides. Contracts see the graph.
#[derive(Drop)]
pub struct Bipartite<'c, 'g> {
    covered: &'c Covered<'g>,
    side: VSet,
}

impl<'c, 'g> Model for Bipartite<'c, 'g> {
    ghost use Rattle.allowed_edges.specs.from_counting.Common.{mem};
    ghost use Rattle.graph_core.specs.Common.{Graph, IsSide};

    ghost Value = { Graph };

    ghost view = { λ b. b.covered.now };

    ghost invariant = { λ b. IsSide b.covered.now (mem b.side) };
}

impl<'c, 'g> Bipartite<'c, 'g> {
    /// The covered graph as a bipartite one; `None` if and only if it is not bipartite. Takes no
    /// memory.
    pub fn of(covered: &'c Covered<'g>) -> Option<Bipartite<'c, 'g>>
        ensures some { (b : _) → result ≡ Some b → b ≡ covered.now }
        ensures none { (result ≡ None) ↔ ¬ (IsBipartite covered.now) }
    {
        match covered.side() {
            Some(side) => Some(Bipartite { covered, side }),
            None => None,
        }
    }

    /// The covered graph.
    pub fn covered(&self) -> &'c Covered<'g>
        ensures { result.now ≡ self.now }
    {
        self.covered
    }

    /// The graph.
    pub fn graph(&self) -> &'c MultiGraph
        ensures same { result.now ≡ self.now }
        ensures covered { IsCovered result.now }
    {
        self.covered.graph()
    }

    /// The law that the graph is covered. It does nothing: a caller states it where it needs it.
    pub fn keeps_covered(&self)
        ensures covered { IsCovered self.now }
        ensures limits { IsWithinLimits self.now }
    {
        self.covered.keeps_covered();
    }

    /// A copy of a perfect matching. Takes O(n) time; the only error is `Memory`.
    pub fn own_matching(&self, alloc: Global) -> Result<Matching, Memory>
        ensures of { IfOk result (IsOf self.now) }
        ensures perfect { IfOk result (λ m. IsPerfect self.now none (mem (edges_of m))) }
    {
        self.covered.own_matching(alloc)
    }

    /// One side.
    pub fn side(&self) -> VSet
        ensures { IsSide self.now (mem result) }
    {
        self.side
    }
}
