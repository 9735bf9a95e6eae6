//! What the tests ask about: sets by their members, and graphs by their edges.

use graph_core::MultiGraph;
use graph_core::vset_core::{MOST_VERTICES, VSet};
use plain_graph::graph_with;
use std::alloc::Global;
use std::test::Fail;

// The set of those numbers that a set can hold.
pub fn set_of(numbers: &[u32]) -> VSet {
    let mut set = VSet::empty();
    for v in numbers {
        if 1 <= *v && *v <= MOST_VERTICES {
            set = set.with(*v);
        }
    }
    set
}

// The set of the numbers up to 10 whose bit is set, where the bit of 1 is the lowest.
pub fn set_of_bits(bits: u32) -> VSet {
    let mut set = VSet::empty();
    for v in 0..10 {
        if bits >> v & 1 == 1 {
            set = set.with(v + 1);
        }
    }
    set
}

// The graph of these edges. The proofs of the tests need no more of it than that it is one.
pub fn made(alloc: Global, order: u32, edges: &[(u32, u32)]) -> Result<MultiGraph, Fail> {
    if order > MOST_VERTICES {
        return Err("more vertices than a graph has".into());
    }
    Ok(graph_with(alloc, order, edges)?)
}

// The graph of these edges, where the two digits of a number are the ends of an edge.
pub fn drawn(alloc: Global, order: u32, edges: &[u32]) -> Result<MultiGraph, Fail> {
    let mut pairs = Vec::new(alloc);
    for edge in edges {
        pairs.push((*edge / 10, *edge % 10))?;
    }
    made(alloc, order, &pairs)
}
