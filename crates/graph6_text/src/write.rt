//! Writing graph6 texts.
ghost use Rattle.std.specs.Prelude.{◌≡◌, ◌<◌, ◌^◌, ◌++◌, IfOk, OnOk};
ghost use Rattle.graph_core.specs.Common.{IsSimple};
ghost use Rattle.graph6_text.specs.Common.{byte_of, size_of, adjacency_bits, graph6_of, ReadsBack};

use crate::body::LONG;
use crate::checks::MOST_SHORT;
use crate::digits::{BASE, ZERO, push_bytes};
use crate::pairs::to_pairs;
use graph_core::MultiGraph;
use std::alloc::{AllocError as Memory, Global};

/// The graph6 text of a simple graph, without header and line end. Reading it gives a simple graph
/// of the same order with the same adjacent pairs. Takes O(n^2) time, and memory for the text and
/// for one truth value per pair of vertices; the only error is `Memory`.
pub fn write_graph6(alloc: Global, g: &MultiGraph) -> Result<Vec<u8>, Memory>
    requires { IsSimple g.now }
    ensures text { IfOk result (λ text. text.items ≡ graph6_of g.now) }
    ensures reads_back { IfOk result (λ text. ReadsBack text.items g.now) }
{
    g.keeps_limits();
    let mut text = Vec::new(alloc);
    push_graph6(alloc, &mut text, g)?;
    Ok(text)
}

/// Appends the text that `write_graph6` returns. Takes O(n^2) time, and memory for it and for one
/// truth value per pair of vertices; the only error is `Memory`.
#[tactic(auto, unfolding(crate::specs::Writing::graph6_of))]
pub fn push_graph6(alloc: Global, text: &mut Vec<u8>, g: &MultiGraph) -> Result<(), Memory>
    requires { IsSimple g.now }
    ensures { OnOk result (text.new.items ≡ text.old.items ++ graph6_of g.now) }
{
    let bits = to_adjacency_bits(alloc, g)?;
    push_size(text, g.order())?;
    push_bytes(text, &bits)
}

/// One bit for each pair of vertices: whether an edge joins them.
fn to_adjacency_bits(alloc: Global, g: &MultiGraph) -> Result<Vec<bool>, Memory>
    ensures { IfOk result (λ bits. bits.items ≡ adjacency_bits g.now) }
{
    let pairs = to_pairs(alloc, g.order())?;
    let mut bits = Vec::new(alloc);
    for pair in &pairs {
        bits.push(g.adjacent(pair.a, pair.b))?;
    }
    Ok(bits)
}

/// Appends the bytes that write the number of vertices.
#[tactic(auto, unfolding(crate::specs::Writing::size_of))]
fn push_size(text: &mut Vec<u8>, n: u32) -> Result<(), Memory>
    requires { n < 2 ^ 18 }
    ensures { OnOk result (text.new.items ≡ text.old.items ++ size_of n) }
{
    if n <= MOST_SHORT {
        return text.extend_from_slice(&[to_byte(n)]);
    }
    let high = to_byte(n / (BASE * BASE));
    let middle = to_byte(n / BASE % BASE);
    let low = to_byte(n % BASE);
    text.extend_from_slice(&[LONG, high, middle, low])
}

/// The byte that writes a digit.
fn to_byte(digit: u32) -> u8
    requires { digit < BASE }
    ensures { result ≡ byte_of digit }
{
    digit as u8 + ZERO
}
