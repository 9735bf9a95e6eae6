//! Graphs as lists of pairs of vertices, loops among them, with all their matchings.

use super::sets::{first_numbers, is_part, least, meets, one};
use std::alloc::{AllocError as Memory, Global};

/// An edge: the set of its number, and those of its two ends. Both ends of a loop are the same.
#[derive(Clone, Copy)]
pub struct Edge {
    pub bit: u32,
    pub a: u32,
    pub b: u32,
}

impl Edge {
    pub fn is_loop(self) -> bool {
        self.a == self.b
    }

    pub fn ends(self) -> u32 {
        self.a | self.b
    }

    /// Whether one end is in the shore and the other is not.
    pub fn is_in_cut(self, shore: u32) -> bool {
        meets(self.a, shore) != meets(self.b, shore)
    }

    /// The edge after the vertices of a set are made one of them.
    fn after(self, set: u32, vertex: u32) -> Edge {
        let a = if meets(self.a, set) { vertex } else { self.a };
        let b = if meets(self.b, set) { vertex } else { self.b };
        Edge {
            bit: self.bit,
            a,
            b,
        }
    }
}

/// A matching: its edges, and the vertices that they meet.
#[derive(Clone, Copy)]
pub struct Matching {
    pub edges: u32,
    pub met: u32,
}

/// A graph: all its vertices, as one set, as sets of one vertex each, and all sets of them; its
/// edges; and all its matchings, no loop among them.
#[derive(Drop)]
pub struct PairGraph {
    pub all: u32,
    pub vertices: Vec<u32>,
    pub sets: Vec<u32>,
    pub edges: Vec<Edge>,
    pub matchings: Vec<Matching>,
}

impl PairGraph {
    /// The graph of the vertices 1 to `order` with these edges, numbered in their order; the two
    /// digits of each are its ends.
    pub fn new(alloc: Global, order: u32, pairs: &[u32]) -> Result<PairGraph, Memory> {
        let mut edges = Vec::new(alloc);
        let mut bit = 1u32;
        for ends in pairs {
            edges.push(Edge {
                bit,
                a: one(*ends / 10),
                b: one(*ends % 10),
            })?;
            bit <<= 1;
        }
        PairGraph::of(alloc, first_numbers(order), edges)
    }

    fn of(alloc: Global, all: u32, edges: Vec<Edge>) -> Result<PairGraph, Memory> {
        let mut vertices = Vec::new(alloc);
        let mut sets = Vec::new(alloc);
        for set in 0..=all {
            if is_part(set, all) {
                sets.push(set)?;
                if set.count_ones() == 1 {
                    vertices.push(set)?;
                }
            }
        }
        let matchings = matchings_of(alloc, edges.as_slice())?;
        Ok(PairGraph {
            all,
            vertices,
            sets,
            edges,
            matchings,
        })
    }

    /// The graph with the vertices of a set made one vertex, the least of them. Edges inside the
    /// set become loops.
    pub fn contracted(&self, alloc: Global, set: u32) -> Result<PairGraph, Memory> {
        let vertex = least(set);
        let mut edges = Vec::new(alloc);
        for edge in &self.edges {
            edges.push(edge.after(set, vertex))?;
        }
        PairGraph::of(alloc, self.all & !set | vertex, edges)
    }

    /// The graph of the vertices of a set, with those of some edges that have both ends there.
    pub fn inside(&self, alloc: Global, set: u32, some: u32) -> Result<PairGraph, Memory> {
        let mut edges = Vec::new(alloc);
        for edge in &self.edges {
            if meets(edge.bit, some) && is_part(edge.ends(), set) {
                edges.push(*edge)?;
            }
        }
        PairGraph::of(alloc, set, edges)
    }

    pub fn order(&self) -> u32 {
        self.all.count_ones()
    }

    /// The set of all edges.
    pub fn all_edges(&self) -> u32 {
        let mut set = 0;
        for edge in &self.edges {
            set |= edge.bit;
        }
        set
    }

    /// The vertices that edges of a set meet.
    pub fn met_by(&self, edges: u32) -> u32 {
        let mut met = 0;
        for edge in &self.edges {
            if meets(edge.bit, edges) {
                met |= edge.ends();
            }
        }
        met
    }

    /// How many edges of a set are in the cut of a shore.
    pub fn crossing(&self, edges: u32, shore: u32) -> u32 {
        let mut crossing = 0u32;
        for edge in &self.edges {
            if meets(edge.bit, edges) && edge.is_in_cut(shore) {
                crossing |= edge.bit;
            }
        }
        crossing.count_ones()
    }

    /// How many edges are in the cut of a shore.
    pub fn cut_size(&self, shore: u32) -> u32 {
        self.crossing(self.all_edges(), shore)
    }

    /// How many ends of edges of a set are at a vertex: a loop has two.
    pub fn degree(&self, edges: u32, vertex: u32) -> u32 {
        let mut first = 0u32;
        let mut second = 0u32;
        for edge in &self.edges {
            if meets(edge.bit, edges) && edge.a == vertex {
                first |= edge.bit;
            }
            if meets(edge.bit, edges) && edge.b == vertex {
                second |= edge.bit;
            }
        }
        first.count_ones() + second.count_ones()
    }

    /// The vertices that edges join to a vertex of a set. A loop joins its vertex to itself.
    pub fn neighbours(&self, set: u32) -> u32 {
        let mut found = 0;
        for edge in &self.edges {
            if meets(edge.a, set) {
                found |= edge.b;
            }
            if meets(edge.b, set) {
                found |= edge.a;
            }
        }
        found
    }

    pub fn has_loop(&self) -> bool {
        for edge in &self.edges {
            if edge.is_loop() {
                return true;
            }
        }
        false
    }

    /// The vertices that walks lead to from the vertices of a set, by edges of a set and past
    /// vertices of a set alone.
    pub fn reached(&self, from: u32, edges: u32, past: u32) -> u32 {
        let mut found = from & past;
        for _ in &self.vertices {
            for edge in &self.edges {
                let ends = edge.ends();
                if meets(edge.bit, edges) && is_part(ends, past) && meets(ends, found) {
                    found |= ends;
                }
            }
        }
        found
    }
}

// The matchings with one more edge: those whose vertices it does not meet.
fn with_edge(alloc: Global, found: &[Matching], edge: Edge) -> Result<Vec<Matching>, Memory> {
    let mut more = Vec::new(alloc);
    for before in found {
        if !meets(before.met, edge.ends()) {
            more.push(Matching {
                edges: before.edges | edge.bit,
                met: before.met | edge.ends(),
            })?;
        }
    }
    Ok(more)
}

// All matchings: those without the last edge, and those with it.
fn matchings_of(alloc: Global, edges: &[Edge]) -> Result<Vec<Matching>, Memory> {
    let mut found = Vec::new(alloc);
    found.push(Matching { edges: 0, met: 0 })?;
    for edge in edges {
        if !edge.is_loop() {
            let mut more = with_edge(alloc, found.as_slice(), *edge)?;
            found.append(&mut more)?;
        }
    }
    Ok(found)
}
