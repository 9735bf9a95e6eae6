//! Multigraphs, and how they grow.
ghost use Rattle.std.specs.Prelude.{◌≡◌, ◌≢◌, ◌≤◌, ◌<◌, ◌-◌, ◌↔◌, [], OnOk, OnErr, IfOk, IsErrOf, length};
ghost use Rattle.vset_core.specs.from_counting.Common.{Within, none, mem};
ghost use Rattle.graph_core.specs.Components.{component_count, components};
ghost use Rattle.graph_core.specs.Graph.{IsBipartite, size, first_end, second_end, with_edge};
ghost use Rattle.graph_core.specs.Sides.{AreSides, IsEven};
ghost use Rattle.graph_core.specs.Walks.{adjacent};
ghost use Rattle.graph_core.specs.Rows.{AreRows};
ghost use Rattle.graph_core.specs.View.{graph_of, IsKept, IsWithinLimits};

use crate::neighbours::join;
use crate::search::{grow_forest, parts_without};
use crate::sides::sides_by_depth;
use crate::{AddFault, Ends, SetList, Sides};
use std::alloc::{AllocError as Memory, Global};
use std::marker::Model;
use vset_core::{MOST_VERTICES, VSet};

/// The most edges that a graph may have.
pub const MOST_EDGES: u32 = 2048;

/// A finite undirected multigraph without loops, with at most `MOST_VERTICES` vertices and
/// `MOST_EDGES` edges. Vertices and edges are numbered from 1; parallel edges are different edges.
/// Contracts see it as its order and its list of ends. It also keeps the set of neighbours of each
/// vertex, which only `push_edge` changes.
#[derive(Drop)]
pub struct MultiGraph {
    order: u32,
    edges: Vec<Ends>,
    rows: Vec<VSet>,
}

impl Model for MultiGraph {
    ghost use Rattle.graph_core.specs.Graph.{Graph};
    ghost use Rattle.graph_core.specs.View.{graph_of, IsKept};

    ghost Value = { Graph };

    ghost view = { λ g. graph_of g.order g.edges.items };

    ghost invariant = { λ g. IsKept (graph_of g.order g.edges.items) g.rows.items };
}

impl MultiGraph {
    ghost use Rattle.graph_core.specs.View.{IsWithinLimits};

    /// The graph of `n` vertices without edges. Takes O(n) time; the only error is `Memory`.
    pub fn new(alloc: Global, n: u32) -> Result<MultiGraph, Memory>
        requires { n ≤ MOST_VERTICES }
        ensures { IfOk result (λ g. g ≡ record { order = n; ends = [] }) }
    {
        let rows = vec![in alloc; VSet::empty(); n as usize]?;
        Ok(MultiGraph {
            order: n,
            edges: Vec::with_capacity(alloc, 2 * n as usize)?,
            rows,
        })
    }

    /// The law that the graph is a multigraph within the limits of size. It does nothing: a
    /// caller states it where it needs it.
    pub fn keeps_limits(&self)
        ensures { IsWithinLimits self.now }
    {
        let _ = &self.order;
    }

    /// The number of vertices. Takes no memory.
    pub fn order(&self) -> u32
        ensures is { result ≡ self.now.order }
        ensures few { result ≤ MOST_VERTICES }
        ensures limits { IsWithinLimits self.now }
    {
        self.order
    }

    /// The number of edges. Takes no memory.
    pub fn size(&self) -> u32
        ensures is { result ≡ size self.now }
        ensures few { result ≤ MOST_EDGES }
    {
        self.edges.len() as u32
    }

    /// The ends of edge `e`, in the order in which they were given. Takes no memory.
    pub fn ends(&self, e: u32) -> Ends
        requires { Within (size self.now) e }
        ensures first { result.a ≡ first_end self.now e }
        ensures second { result.b ≡ second_end self.now e }
        ensures vertices { Within self.now.order result.a × Within self.now.order result.b }
        ensures different { result.a ≢ result.b }
    {
        self.edges[e as usize - 1]
    }

    /// Whether some edge joins `a` and `b`. Takes no memory. Takes constant time.
    pub fn adjacent(&self, a: u32, b: u32) -> bool
        requires first { Within self.now.order a }
        requires second { Within self.now.order b }
        ensures { result ≡ adjacent self.now none a b }
    {
        self.rows[a as usize - 1].contains(b)
    }

    /// The number of components. Takes O(n) steps on words; the only error is `Memory`.
    pub fn components(&self, alloc: Global) -> Result<u32, Memory>
        ensures { IfOk result (λ found. found ≡ component_count self.now none) }
    {
        let parts = parts_without(alloc, &self.rows, VSet::empty())?;
        Ok(parts.len() as u32)
    }

    /// The components of G - `set`, by least vertex. Takes O(n) steps on words; the only error is
    /// `Memory`.
    pub fn components_without(&self, alloc: Global, set: VSet) -> Result<SetList, Memory>
        ensures { IfOk result (λ found. found ≡ components self.now (mem set)) }
    {
        parts_without(alloc, &self.rows, set)
    }

    /// Whether the graph is bipartite, with a certificate: `Even` comes if and only if it is, with
    /// the left side, which contains the least vertex of each component, and `Odd` if and only if
    /// it is not, with a closed walk of odd length (König 1916). Takes O(n + m) time; the only
    /// error is `Memory`.
    pub fn two_sides(&self, alloc: Global) -> Result<Sides, Memory>
        ensures even { IfOk result (λ sides. IsEven sides ↔ IsBipartite self.now) }
        ensures sides { IfOk result (AreSides self.now) }
    {
        let (_, sides) = self.parts_and_sides(alloc)?;
        Ok(sides)
    }

    /// The components, by least vertex, and what `two_sides` returns, from one search.
    pub(crate) fn parts_and_sides(&self, alloc: Global) -> Result<(SetList, Sides), Memory>
        ensures parts { IfOk result (λ found. found.0 ≡ components self.now none) }
        ensures even { IfOk result (λ found. IsEven found.1 ↔ IsBipartite self.now) }
        ensures sides { IfOk result (λ found. AreSides self.now found.1) }
    {
        let forest = grow_forest(alloc, &self.rows, VSet::empty())?;
        let sides = sides_by_depth(alloc, &self.edges, &forest.nodes)?;
        Ok((forest.parts, sides))
    }

    /// The ends of all edges, in the order of their numbers. Takes no memory.
    pub fn edges(&self) -> &[Ends]
        ensures edges { graph_of self.now.order result.now ≡ self.now }
        ensures limits { IsWithinLimits self.now }
    {
        &self.edges
    }

    /// For each vertex, in order, the set of its neighbours: the rows of the adjacency matrix.
    /// Takes no memory.
    pub fn rows(&self) -> &[VSet]
        ensures { AreRows self.now result.now }
    {
        &self.rows
    }

    /// Appends an edge and returns its number. `Range` comes if and only if an end is not a vertex,
    /// `Loop` if and only if both are vertices and equal, `TooMany` if and only if neither holds
    /// and there are `MOST_EDGES` edges. After an error, `Memory` included, the graph is unchanged.
    /// Takes constant time, averaged over the calls.
    pub fn add_edge(&mut self, a: u32, b: u32) -> Result<u32, AddFault>
        ensures ok { IfOk result (λ e. (self.new ≡ with_edge self.old a b) × (e ≡ size self.new)) }
        ensures err { OnErr result (self.new ≡ self.old) }
        ensures range { IsErrOf result AddFault.Range ↔
            ¬ (Within self.old.order a × Within self.old.order b) }
        ensures equal { IsErrOf result AddFault.Loop ↔ (Within self.old.order a × (a ≡ b)) }
        ensures too_many { IsErrOf result AddFault.TooMany ↔
            (Within self.old.order a × Within self.old.order b × (a ≢ b) ×
            (size self.old ≡ MOST_EDGES)) }
    {
        if a == 0 || a > self.order || b == 0 || b > self.order {
            return Err(AddFault::Range);
        }
        if a == b {
            return Err(AddFault::Loop);
        }
        if self.edges.len() >= MOST_EDGES as usize {
            return Err(AddFault::TooMany);
        }
        self.push_edge(Ends { a, b }).map_err(|_| AddFault::Memory)?;
        Ok(self.edges.len() as u32)
    }

    /// Appends an edge between two different vertices of a graph with fewer than `MOST_EDGES`
    /// edges. Takes constant time, averaged over the calls; the only error is `Memory`, and the
    /// graph is then unchanged.
    pub fn push_edge(&mut self, edge: Ends) -> Result<(), Memory>
        requires first { Within self.old.order edge.a }
        requires second { Within self.old.order edge.b }
        requires different { edge.a ≢ edge.b }
        requires room { size self.old < MOST_EDGES }
        ensures ok { OnOk result (self.new ≡ with_edge self.old edge.a edge.b) }
        ensures err { OnErr result (self.new ≡ self.old) }
    {
        self.edges.push(edge)?;
        join(&mut self.rows, edge.a, edge.b);
        Ok(())
    }
}
