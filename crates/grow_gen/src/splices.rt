//! Splicing a piece into the edges of a graph.
ghost use Rattle.std.specs.Prelude.{◌≡◌, ◌<◌, ◌≤◌, ◌+◌, ◌-◌, ◌^◌, ◌++◌, ℕ, map, filter, not, length, slice_index, IfOk, OnOk};
ghost use Rattle.graph_core.specs.Common.{pair_of};
ghost use Rattle.grow_gen.specs.Common.{piece_order, piece_ends, piece_graph, edge_with_end, is_at, new_number, permutation, rehung_edges, renumbered_edge, targets_of};

use crate::pieces::Piece;
use graph_core::Ends;
use graph_core::vset_core::MOST_VERTICES;
use std::alloc::AllocError as Memory;

/// The number that vertex `x`, 2 or greater, of a piece gets when it is spliced at `w` into a
/// graph of `n` vertices.
pub fn new_number(n: u32, w: u32, x: u32) -> u32
    requires { n + x < 2 ^ 32 }
    ensures { result ≡ new_number n w x }
{
    if x == 2 { w } else { (n + x).saturating_sub(2) }
}

/// Three items in the order of permutation `i`, counted from 0 in lexicographic order.
pub fn permuted(items: [u32; 3], i: u32) -> [u32; 3]
    requires { i < 6 }
    ensures { result ≡ map (λ p. slice_index items (p - 1)) (permutation i) }
{
    let [a, b, c] = items;
    match i {
        0 => [a, b, c],
        1 => [a, c, b],
        2 => [b, a, c],
        3 => [b, c, a],
        4 => [c, a, b],
        _ => [c, b, a],
    }
}

/// The new ends of the three edges at `w` where the piece is spliced by permutation `i`.
pub fn targets(piece: Piece, n: u32, w: u32, i: u32) -> [u32; 3]
    requires room { n + piece_order piece ≤ MOST_VERTICES + 2 }
    requires order { i < 6 }
    ensures { result ≡ targets_of n w (piece_graph piece) (permutation i) }
{
    let [a, b, c] = permuted(piece.neighbours_of_one(), i);
    [
        new_number(n, w, a),
        new_number(n, w, b),
        new_number(n, w, c),
    ]
}

/// Whether the edge is at `w`.
fn is_at(edge: Ends, w: u32) -> bool
    ensures { result ≡ is_at w (pair_of edge) }
{
    edge.a == w || edge.b == w
}

/// The edge with `t` in the place of its end `w`.
fn with_end(edge: Ends, w: u32, t: u32) -> Ends
    ensures { pair_of result ≡ edge_with_end w t (pair_of edge) }
{
    if edge.a == w {
        Ends { a: t, b: edge.b }
    } else {
        Ends { a: edge.a, b: t }
    }
}

/// Gives the edges at `w` the targets as their new ends, one after the other.
pub fn rehang(edges: &mut Vec<Ends>, w: u32, targets: &[u32])
    ensures { map pair_of edges.new.items ≡
        rehung_edges w targets.now (map pair_of edges.old.items) }
{
    let mut next = 0;
    for edge in edges.iter_mut() {
        if next < targets.len() && is_at(*edge, w) {
            *edge = with_end(*edge, w, targets[next]);
            next += 1;
        }
    }
}

/// Appends the edges of the piece that do not meet its vertex 1, under their new numbers.
pub fn append_kept(edges: &mut Vec<Ends>, piece: Piece, n: u32, w: u32) -> Result<(), Memory>
    requires { n + piece_order piece ≤ MOST_VERTICES + 2 }
    ensures { OnOk result
        (map pair_of edges.new.items ≡ map pair_of edges.old.items ++
        map (renumbered_edge n w) (filter (λ e. not (is_at 1 e)) (piece_ends piece))) }
{
    for &(a, b) in piece.ends() {
        if a != 1 && b != 1 {
            edges.push(Ends {
                a: new_number(n, w, a),
                b: new_number(n, w, b),
            })?;
        }
    }
    Ok(())
}
