//! A graph that grows, piece by piece.
ghost use Rattle.std.specs.Prelude.{◌≡◌, ◌<◌, ◌≤◌, ◌+◌, ◌%◌, IfOk, ℕ, length, slice_index};
ghost use Rattle.graph_core.specs.from_counting.Common.{Within, mem, IsRisingIn};
ghost use Rattle.graph_core.specs.Common.{IsWithinLimits};
ghost use Rattle.grow_gen.specs.Common.{piece_order, first_growth, eligible, next_class, with_piece, MayTake, growth_of};

use crate::pieces::Piece;
use crate::splices;
use graph_core::vset_core::{MOST_VERTICES, VSet};
use graph_core::{Ends, MultiGraph};
use std::alloc::{AllocError as Memory, Global};

/// A growing graph, with the two classes of its skeleton.
#[derive(Drop)]
pub struct Growing {
    order: u32,
    edges: Vec<Ends>,
    in_a: VSet,
    in_b: VSet,
}

impl Growing {
    /// The first piece alone.
    pub fn first(alloc: Global) -> Result<Growing, Memory>
        ensures { IfOk result (λ g. growth_of g ≡ first_growth) }
    {
        let mut edges = Vec::new(alloc);
        for &(a, b) in Piece::K33.ends() {
            edges.push(Ends { a, b })?;
        }
        let in_b = VSet::one(4).with(5).with(6);
        in_b.rises();
        Ok(Growing {
            order: Piece::K33.order(),
            edges,
            in_a: VSet::full(3),
            in_b,
        })
    }

    /// The vertices where the piece may be spliced.
    fn eligible(&self, piece: Piece) -> VSet
        requires { MayTake (growth_of self.now) piece }
        ensures { result ≡ eligible (growth_of self.now) piece }
    {
        if piece.is_bipartite() {
            let both = self.in_a.union(self.in_b);
            both.rises();
            both
        } else {
            self.in_a
        }
    }

    /// The vertex that a draw picks for the piece.
    fn pick(&self, piece: Piece, x: u32) -> u32
        requires { MayTake (growth_of self.now) piece }
        ensures value { let from = eligible (growth_of self.now) piece in result ≡
            slice_index from (x % length from) }
        ensures within { Within self.now.order result }
    {
        let from = self.eligible(piece);
        member_at(from, x % from.len())
    }

    /// The graph with one more piece, given by its two random words. After `Memory` the graph is
    /// dropped.
    pub fn with_piece(mut self, piece: Piece, x: u32, y: u32) -> Result<Growing, Memory>
        requires { MayTake (growth_of self) piece }
        ensures { IfOk result (λ g. growth_of g ≡ with_piece (growth_of self) piece x y) }
    {
        let w = self.pick(piece, x);
        let n = self.order;
        let targets = splices::targets(piece, n, w, y % 6);
        splices::rehang(&mut self.edges, w, &targets);
        splices::append_kept(&mut self.edges, piece, n, w)?;
        Ok(Growing {
            order: n + piece.order() - 2,
            edges: self.edges,
            in_a: next_class(self.in_a, piece, n, w),
            in_b: next_class(self.in_b, piece, n, w),
        })
    }

    /// The graph itself.
    pub fn to_graph(&self, alloc: Global) -> Result<MultiGraph, Memory>
        requires { IsWithinLimits (growth_of self.now).graph }
        ensures { IfOk result (λ g. g ≡ (growth_of self.now).graph) }
    {
        let mut graph = MultiGraph::new(alloc, self.order)?;
        for edge in &self.edges {
            graph.push_edge(*edge)?;
        }
        Ok(graph)
    }
}

/// The member of a set at a place, counted from 0 in increasing order.
fn member_at(set: VSet, place: u32) -> u32
    requires { place < length set }
    ensures { result ≡ slice_index set place }
{
    match set.iter().nth(place as usize) {
        Some(v) => v,
        None => unreachable!(),
    }
}

/// A class without `w` and with the vertices that the piece adds to it: those opposite to its
/// vertex 1 if `w` is in the class, and the others if not.
fn next_class(class: VSet, piece: Piece, n: u32, w: u32) -> VSet
    requires room { n + piece_order piece ≤ MOST_VERTICES + 2 }
    requires rising { IsRisingIn n class }
    requires vertex { Within n w }
    ensures { result ≡ next_class n w piece class (mem class w) }
{
    let mut next = class.without(w);
    for x in piece.side(class.contains(w)) {
        next = next.with(splices::new_number(n, w, *x));
    }
    next.rises();
    next
}
