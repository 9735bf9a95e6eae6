//! A graph with what the searches find out about it.
ghost use Rattle.std.specs.Prelude.{◌≡◌, ◌↔◌, None, Some, IsTrue, IfSome, IfOk};
ghost use Rattle.allowed_edges.specs.from_counting.Common.{Lists, mem, none};
ghost use Rattle.graph_core.specs.Common.{component_count, IsBipartite, size, Allowed, HasPerfect, IsSide, IsVerdict, IsWithinLimits};
ghost use Rattle.allowed_edges.specs.from_match_core.Common.{ArePartners};
ghost use Rattle.graph_facts.specs.Facts.{IsFrame};

use allowed_edges::match_core::{FrameSets, PartnerTable, frame};
use allowed_edges::{allowed_in, partners_where_perfect, verdict_in};
use graph_core::vset_core::VSet;
use graph_core::{MultiGraph, Numbers, SetList, Verdict, parts_and_side};
use std::alloc::{AllocError as Memory, Global};
use std::marker::Model;

/// A graph with its components, its side, a maximum matching with the Gallai-Edmonds sets, and its
/// table of partners if the matching is perfect. Contracts see the graph.
#[derive(Drop)]
pub struct Facts<'g> {
    pub(crate) graph: &'g MultiGraph,
    parts: SetList,
    pub(crate) side: Option<VSet>,
    pub(crate) frame: FrameSets,
    pub(crate) table: Option<PartnerTable>,
}

impl<'g> Model for Facts<'g> {
    ghost use Rattle.graph_core.specs.Common.{Graph};
    ghost use Rattle.graph_facts.specs.Facts.{AreFacts};

    ghost Value = { Graph };

    ghost view = { λ f. f.graph.now };

    ghost invariant = { λ f. AreFacts f.graph.now f.parts f.side f.frame f.table };
}

impl<'g> Facts<'g> {
    /// The facts of `g`: one search for its components and its side, and one for each other. Takes
    /// one maximum matching and at most n searches, O(n^4 + m) steps on words at most (see `frame`
    /// of `match_core`); the only error is `Memory`.
    ///
    /// Here `hexagon` makes the cycle of the vertices 1 to 6:
    ///
    /// ```
    /// let graph = hexagon(alloc)?;
    /// let facts = Facts::of(alloc, &graph)?;
    /// assert!(rt; facts.components() == 1 && facts.is_bipartite());
    /// assert!(rt; facts.verdict() == Verdict::Covered);
    /// ```
    pub fn of(alloc: Global, g: &'g MultiGraph) -> Result<Facts<'g>, Memory>
        ensures { IfOk result (λ facts. facts ≡ g.now) }
    {
        let (parts, side) = parts_and_side(alloc, g)?;
        let frame = frame(alloc, g)?;
        let table = partners_where_perfect(alloc, g, &frame.found.matching)?;
        Ok(Facts {
            graph: g,
            parts,
            side,
            frame,
            table,
        })
    }

    /// The graph.
    pub fn graph(&self) -> &'g MultiGraph
        ensures same { result.now ≡ self.now }
        ensures limits { IsWithinLimits self.now }
    {
        self.graph.keeps_limits();
        self.graph
    }

    /// The number of vertices.
    pub fn order(&self) -> u32
        ensures is { result ≡ self.now.order }
        ensures limits { IsWithinLimits self.now }
    {
        self.graph.order()
    }

    /// The number of edges.
    pub fn size(&self) -> u32
        ensures is { result ≡ size self.now }
        ensures limits { IsWithinLimits self.now }
    {
        self.graph.keeps_limits();
        self.graph.size()
    }

    /// The number of components.
    pub fn components(&self) -> u32
        ensures { result ≡ component_count self.now none }
    {
        self.graph.keeps_limits();
        self.parts.len() as u32
    }

    /// One side; `None` if and only if the graph is not bipartite.
    pub fn side(&self) -> Option<VSet>
        ensures some { (side : _) → result ≡ Some side → IsSide self.now (mem side) }
        ensures none { (result ≡ None) ↔ ¬ (IsBipartite self.now) }
    {
        self.side
    }

    /// Whether some vertex set has all edges in its cut.
    pub fn is_bipartite(&self) -> bool
        ensures { IsTrue result ↔ IsBipartite self.now }
    {
        self.graph.keeps_limits();
        match self.side {
            Some(_) => true,
            None => false,
        }
    }

    /// A maximum matching with the Gallai-Edmonds sets, as `frame` of `match_core` returns them.
    pub fn frame(&self) -> &FrameSets
        ensures { IsFrame self.now result.now }
    {
        &self.frame
    }

    /// The table of partners; `None` if and only if the graph has no perfect matching.
    pub fn table(&self) -> &Option<PartnerTable>
        ensures table { IfSome result.now (ArePartners self.now none) }
        ensures perfect { (result.now ≡ None) ↔ ¬ (HasPerfect self.now none) }
    {
        &self.table
    }

    /// Whether the graph is matching covered, and if not, the first reason. Takes no memory, and
    /// O(n + m) time.
    pub fn verdict(&self) -> Verdict
        ensures { IsVerdict self.now result }
    {
        verdict_in(self.graph, &self.parts, &self.frame.found, &self.table)
    }

    /// The edges that lie in perfect matchings, in increasing order. Takes O(m) time; the only
    /// error is `Memory`.
    pub fn allowed(&self, alloc: Global) -> Result<Numbers, Memory>
        ensures { IfOk result (λ edges. Lists (size self.now) edges (Allowed self.now)) }
    {
        allowed_in(alloc, self.graph, &self.table)
    }
}
