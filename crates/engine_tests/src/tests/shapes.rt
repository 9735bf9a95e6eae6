//! Graphs with many tight cuts of one sort, or with none.
ghost use Rattle.std.specs.Prelude.{◌≤◌, ◌<◌};

use graph_core::MultiGraph;
use plain_graph::graph_with;
use std::alloc::{AllocError as Memory, Global};
use std::test::Fail;

/// Two K3,3, each without one vertex, the three loose ends of the one tied to those of the other:
/// 10 vertices, bipartite.
pub const TWO_K33: [(u32, u32); 15] = [
    (1, 4),
    (1, 5),
    (2, 4),
    (2, 5),
    (3, 4),
    (3, 5),
    (1, 6),
    (2, 7),
    (3, 8),
    (6, 9),
    (6, 10),
    (7, 9),
    (7, 10),
    (8, 9),
    (8, 10),
];

/// A cycle of an even number of vertices with a chord from each odd vertex to the one so many, an
/// odd number, further on. It is cubic and bipartite: K3,3 for 6 and 3, the cube for 8 and 3,
/// Heawood's graph for 14 and 5, that of Möbius and Kantor for 16 and 5.
pub fn chordal_ring(alloc: Global, half: u32, jump: u32) -> Result<MultiGraph, Fail>
    requires three { 3 ≤ half }
    requires few { half ≤ 50 }
    requires short { jump ≤ 50 }
{
    let n = half + half;
    let mut edges = Vec::new(alloc);
    for k in 0..half {
        let odd = k + k;
        edges.push((odd + 1, odd + 2))?;
        edges.push((odd + 2, (odd + 2) % n + 1))?;
        edges.push((odd + 1, (odd + jump) % n + 1))?;
    }
    Ok(graph_with(alloc, n, &edges)?)
}

// The edges of the part with the numbers 0, 1 or 2: its vertices 4 + 3k to 6 + 3k are a triangle,
// or each is joined to the two vertices 13 + 2k and 14 + 2k.
fn add_part(edges: &mut Vec<(u32, u32)>, k: u32, is_five: bool) -> Result<(), Memory>
    requires { k < 3 }
{
    let first = 3 * k + 4;
    for j in 0..3 {
        edges.push((j + 1, first + j))?;
        if is_five {
            edges.push((first + j, 2 * k + 13))?;
            edges.push((first + j, 2 * k + 14))?;
        } else {
            edges.push((first + j, first + (j + 1) % 3))?;
        }
    }
    Ok(())
}

/// The barrier 1 2 3 with three odd parts, each joined to each of the three by one edge: so many
/// parts of 5 vertices, the others triangles.
pub fn three_parts(alloc: Global, fives: u32) -> Result<MultiGraph, Fail>
    requires { fives ≤ 3 }
{
    let mut edges = Vec::new(alloc);
    for k in 0..3 {
        add_part(&mut edges, k, k < fives)?;
    }
    Ok(graph_with(alloc, 12 + fives + fives, &edges)?)
}

/// So many K4 on the same two vertices 1 and 2, with or without the edge between these.
pub fn pages(alloc: Global, many: u32, has_spine: bool) -> Result<MultiGraph, Fail>
    requires { many ≤ 50 }
{
    let mut edges = Vec::new(alloc);
    if has_spine {
        edges.push((1, 2))?;
    }
    for k in 0..many {
        let first = k + k + 3;
        edges.push((1, first))?;
        edges.push((1, first + 1))?;
        edges.push((2, first))?;
        edges.push((2, first + 1))?;
        edges.push((first, first + 1))?;
    }
    Ok(graph_with(alloc, many + many + 2, &edges)?)
}
