//! Weights of the edges that are the same on all perfect matchings, and potentials of the vertices.
//! A weight is 1 at the edges of a set and 0 at the others.

use super::pair_graph::PairGraph;
use super::sets::meets;
use std::alloc::{AllocError as Memory, Global};

// What stands for 0 at a vertex, so that no number is negative.
const MIDDLE: u32 = 100;

// The numbers that are tried at a vertex are at most so far from 0. In a component that is not
// bipartite a closed walk of an odd number of edges, at most two for each vertex, gives twice the
// number, as a sum of so many sums of at most 2, added and taken away in turn; in one that is
// bipartite 0 serves if any number does.
const FARTHEST: u32 = 32;

/// What two numbers at the ends of an edge are to add up to: so many times its weight; and the edges
/// of which this is asked.
#[derive(Clone, Copy)]
pub struct Sums {
    pub ones: u32,
    pub times: u32,
    pub asked: u32,
}

impl Sums {
    fn of(&self, edge: u32) -> u32 {
        if meets(edge, self.ones) {
            self.times.saturating_add(2 * MIDDLE)
        } else {
            2 * MIDDLE
        }
    }
}

// A vertex, and its number.
#[derive(Clone, Copy)]
struct Placed {
    vertex: u32,
    number: u32,
}

// The number of a vertex, or 0 if it has none yet.
fn number_at(placed: &[Placed], vertex: u32) -> u32 {
    let mut number = 0;
    for it in placed {
        if it.vertex == vertex {
            number = it.number;
        }
    }
    number
}

impl PairGraph {
    /// Whether all perfect matchings have equally many of these edges.
    pub fn is_flat(&self, ones: u32) -> bool {
        for first in &self.matchings {
            for second in &self.matchings {
                let perfect = first.met == self.all && second.met == self.all;
                let same = (first.edges & ones).count_ones() == (second.edges & ones).count_ones();
                if perfect && !same {
                    return false;
                }
            }
        }
        true
    }

    /// The edges that are in no tight cut, trivial or not.
    pub fn off_cuts(&self) -> u32 {
        let mut off = self.all_edges();
        for set in &self.sets {
            if self.is_tight(*set) {
                for edge in &self.edges {
                    if edge.is_in_cut(*set) {
                        off &= !edge.bit;
                    }
                }
            }
        }
        off
    }

    // The numbers that walks from a vertex give to others, if it has this one.
    fn placed_from(
        &self,
        alloc: Global,
        vertex: u32,
        number: u32,
        sums: &Sums,
    ) -> Result<Vec<Placed>, Memory> {
        let mut placed = Vec::new(alloc);
        placed.push(Placed { vertex, number })?;
        for _ in &self.vertices {
            for edge in &self.edges {
                let a = number_at(placed.as_slice(), edge.a);
                let b = number_at(placed.as_slice(), edge.b);
                if meets(edge.bit, sums.asked) && (a == 0) != (b == 0) {
                    placed.push(Placed {
                        vertex: if a == 0 { edge.a } else { edge.b },
                        number: sums.of(edge.bit).saturating_sub(a.max(b)),
                    })?;
                }
            }
        }
        Ok(placed)
    }

    // Whether each edge of which it is asked has the right sum, if its ends have numbers.
    fn add_up(&self, placed: &[Placed], sums: &Sums) -> bool {
        for edge in &self.edges {
            let a = number_at(placed, edge.a);
            let b = number_at(placed, edge.b);
            let asked = meets(edge.bit, sums.asked) && a != 0 && b != 0;
            if asked && a.saturating_add(b) != sums.of(edge.bit) {
                return false;
            }
        }
        true
    }

    /// Whether some integers at the vertices have these sums. It is enough if each vertex has, for
    /// some number of its own, such integers in its component.
    pub fn has_potential(&self, alloc: Global, sums: &Sums) -> Result<bool, Memory> {
        for v in &self.vertices {
            let mut found = false;
            for number in MIDDLE - FARTHEST..=MIDDLE + FARTHEST {
                let placed = self.placed_from(alloc, *v, number, sums)?;
                found = found || self.add_up(placed.as_slice(), sums);
            }
            if !found {
                return Ok(false);
            }
        }
        Ok(true)
    }
}
