//! A matching covered graph as a type.
ghost use Rattle.std.specs.Prelude.{◌≡◌, ◌↔◌, ◌≤◌, None, Some, Err, IsTrue, IfOk};
ghost use Rattle.allowed_edges.specs.from_counting.Common.{mem, none};
ghost use Rattle.graph_core.specs.Common.{IsConnected, IsCovered, IsReason, IsBipartite, size, IsPerfect, IsSide, reason_of, IsWithinLimits};
ghost use Rattle.allowed_edges.specs.from_match_core.Common.{IsOf, edges_of, ArePartners};
ghost use Rattle.graph_facts.specs.Facts.{AreCoveredFacts};

use crate::facts::Facts;
use crate::layers::Layers;
use crate::lent::Lent;
use allowed_edges::match_core::{Found, Matching, PartnerTable, maximum};
use allowed_edges::{first_unallowed, partners_where_perfect};
use graph_core::vset_core::VSet;
use graph_core::{MultiGraph, Reason};
use std::alloc::{AllocError as Memory, Global};
use std::marker::Model;

/// A graph that is matching covered: it has at least two vertices and is connected, and each edge
/// lies in a perfect matching (Lovász and Plummer, "Matching Theory", chapter 5). It keeps the
/// graph or borrows it. Contracts see the graph.
#[derive(Drop)]
pub struct Covered<'g> {
    graph: Lent<'g>,
    matching: Matching,
    table: PartnerTable,
    side: Option<VSet>,
}

impl<'g> Model for Covered<'g> {
    ghost use Rattle.graph_core.specs.Common.{Graph};
    ghost use Rattle.graph_facts.specs.Facts.{AreCoveredFacts};
    ghost use Rattle.graph_facts.specs.Lent.{graph_in};

    ghost Value = { Graph };

    ghost view = { λ c. graph_in c.graph };

    ghost invariant = { λ c. AreCoveredFacts (graph_in c.graph) c.matching c.table c.side };
}

// What is known of a covered graph, without the graph.
#[derive(Drop)]
struct Parts {
    matching: Matching,
    table: PartnerTable,
    side: Option<VSet>,
}

// What is known of a graph that is covered.
fn parts_of(alloc: Global, g: &MultiGraph) -> Result<Parts, Memory>
    requires { IsCovered g.now }
    ensures { IfOk result (λ f. AreCoveredFacts g.now f.matching f.table f.side) }
{
    let Covered {
        matching,
        table,
        side,
        ..
    } = Covered::known(alloc, g)?;
    Ok(Parts {
        matching,
        table,
        side,
    })
}

impl<'g> Covered<'g> {
    /// The graph as a covered one, or the first reason why it is not matching covered, in the order
    /// `Small`, `Parted`, `Unmatched`, `Unallowed`. Nothing is computed after the first reason.
    /// Takes one maximum matching and at most n searches, O(n^4 + m) steps on words at most (see
    /// `frame` of `match_core`); the only error is `Memory`. Source: Lovász and Plummer, "Matching
    /// Theory", chapter 5.
    ///
    /// Here `hexagon` makes the cycle of the vertices 1 to 6:
    ///
    /// ```
    /// let graph = hexagon(alloc)?;
    /// let Ok(covered) = Covered::of(alloc, &graph)? else {
    ///     return Err("not matching covered".into());
    /// };
    /// assert!(rt; covered.matching().len() == 3);
    /// ```
    pub fn of(alloc: Global, g: &'g MultiGraph) -> Result<Result<Covered<'g>, Reason>, Memory>
        ensures covered { IfOk result (λ r. IfOk r (λ c. c ≡ g.now)) }
        ensures reason { IfOk result
            (λ r. (why : _) → r ≡ Err why → IsReason g.now (reason_of why)) }
        ensures uncovered { IfOk result (λ r. (why : _) → r ≡ Err why → ¬ (IsCovered g.now)) }
    {
        g.keeps_limits();
        if g.order() < 2 {
            return Ok(Err(Reason::Small));
        }
        let layers = Layers::of(g);
        if let Some(b) = layers.first_apart(g) {
            return Ok(Err(Reason::Parted { a: 1, b }));
        }
        let side = layers.side(g);
        Covered::of_connected(alloc, g, side)
    }

    // The same for a connected graph, with a side if it is bipartite.
    fn of_connected(
        alloc: Global,
        g: &'g MultiGraph,
        side: Option<VSet>,
    ) -> Result<Result<Covered<'g>, Reason>, Memory>
        requires two { 2 ≤ g.now.order }
        requires connected { IsConnected g.now }
        requires side { (s : _) → side ≡ Some s → IsSide g.now (mem s) }
        requires bipartite { (side ≡ None) ↔ ¬ (IsBipartite g.now) }
        ensures covered { IfOk result (λ r. IfOk r (λ c. c ≡ g.now)) }
        ensures reason { IfOk result
            (λ r. (why : _) → r ≡ Err why → IsReason g.now (reason_of why)) }
        ensures uncovered { IfOk result (λ r. (why : _) → r ≡ Err why → ¬ (IsCovered g.now)) }
    {
        g.keeps_limits();
        let Found { matching, berge } = maximum(alloc, g)?;
        match partners_where_perfect(alloc, g, &matching)? {
            None => Ok(Err(Reason::Unmatched { berge })),
            Some(table) => match first_unallowed(g, &table) {
                Some(edge) => Ok(Err(Reason::Unallowed { edge })),
                None => Ok(Ok(Covered {
                    graph: Lent::Of(g),
                    matching,
                    table,
                    side,
                })),
            },
        }
    }

    /// A graph that is known to be covered. Costs what `Covered::of` costs; the only error is
    /// `Memory`.
    pub fn known(alloc: Global, g: &'g MultiGraph) -> Result<Covered<'g>, Memory>
        requires { IsCovered g.now }
        ensures { IfOk result (λ c. c ≡ g.now) }
    {
        match Covered::of(alloc, g)? {
            Ok(covered) => Ok(covered),
            Err(_) => unreachable!(),
        }
    }

    /// A graph that is known to be covered; the value owns it. Costs what `Covered::of` costs; the
    /// only error is `Memory`.
    pub fn kept(alloc: Global, g: MultiGraph) -> Result<Covered<'g>, Memory>
        requires { IsCovered g }
        ensures { IfOk result (λ c. c ≡ g) }
    {
        let Parts {
            matching,
            table,
            side,
        } = parts_of(alloc, &g)?;
        Ok(Covered {
            graph: Lent::Own(g),
            matching,
            table,
            side,
        })
    }

    /// A graph that is known to be covered and whose facts are given. Takes no memory.
    pub fn from_facts(facts: Facts<'g>) -> Covered<'g>
        requires { IsCovered facts }
        ensures { result ≡ facts.entry }
    {
        let _ = facts.graph();
        let Facts {
            graph,
            side,
            frame,
            table,
            ..
        } = facts;
        match table {
            Some(table) => Covered {
                graph: Lent::Of(graph),
                matching: frame.found.matching,
                table,
                side,
            },
            None => unreachable!(),
        }
    }

    /// The graph.
    pub fn graph(&self) -> &MultiGraph
        ensures same { result.now ≡ self.now }
        ensures covered { IsCovered result.now }
    {
        self.graph.graph()
    }

    /// The number of vertices, at least two.
    pub fn order(&self) -> u32
        ensures is { result ≡ self.now.order }
        ensures two { 2 ≤ self.now.order }
        ensures limits { IsWithinLimits self.now }
    {
        self.graph().order()
    }

    /// The number of edges.
    pub fn size(&self) -> u32
        ensures is { result ≡ size self.now }
        ensures limits { IsWithinLimits self.now }
    {
        self.keeps_covered();
        self.graph().size()
    }

    /// The law that the graph is covered. It does nothing: a caller states it where it needs it.
    pub fn keeps_covered(&self)
        ensures covered { IsCovered self.now }
        ensures limits { IsWithinLimits self.now }
    {
        self.graph().keeps_limits();
    }

    /// One side; `None` if and only if the graph is not bipartite.
    pub fn side(&self) -> Option<VSet>
        ensures some { (side : _) → result ≡ Some side → IsSide self.now (mem side) }
        ensures none { (result ≡ None) ↔ ¬ (IsBipartite self.now) }
    {
        self.side
    }

    /// Whether some vertex set has all edges in its cut.
    pub fn is_bipartite(&self) -> bool
        ensures { IsTrue result ↔ IsBipartite self.now }
    {
        self.keeps_covered();
        match self.side() {
            Some(_) => true,
            None => false,
        }
    }

    /// The table of partners: two different vertices are partners if deleting them leaves a graph
    /// with a perfect matching.
    pub fn table(&self) -> &PartnerTable
        ensures { ArePartners self.now none result.now }
    {
        &self.table
    }

    /// A perfect matching.
    pub fn matching(&self) -> &Matching
        ensures of { IsOf self.now result.now }
        ensures perfect { IsPerfect self.now none (mem (edges_of result.now)) }
    {
        &self.matching
    }

    /// A copy of that perfect matching. Takes O(n) time; the only error is `Memory`.
    pub fn own_matching(&self, alloc: Global) -> Result<Matching, Memory>
        ensures of { IfOk result (IsOf self.now) }
        ensures perfect { IfOk result (λ m. IsPerfect self.now none (mem (edges_of m))) }
    {
        let own = self.matching().cleared(alloc, VSet::empty())?;
        Ok(own)
    }
}
