//! All graphs with a perfect matching on a few vertices, by a number.
ghost use Rattle.std.specs.Prelude.{◌≤◌};

use graph_core::MultiGraph;
use plain_graph::graph_with;
use std::alloc::{AllocError as Memory, Global};
use std::test::Fail;

/// Simple graphs in which 1 and 2 are joined, 3 and 4, 5 and 6, and so on. Each matching covered
/// one is in them, up to the names of its vertices.
#[derive(Clone, Copy)]
pub enum Family {
    /// All of them.
    Any,
    /// Those with the odd vertices on one side and the even ones on the other in which 1 is
    /// joined to 4 and 6 too: each bipartite covered one that has a vertex of degree three or
    /// more, so all but the edge and the cycles.
    Bipartite,
}

impl Family {
    // Whether each graph of the family has the edge.
    fn is_fixed(self, a: u32, b: u32) -> bool
        requires { a ≤ 128 }
    {
        let are_partners = a % 2 == 1 && b == a + 1;
        match self {
            Family::Any => are_partners,
            Family::Bipartite => are_partners || a == 1 && (b == 4 || b == 6),
        }
    }

    // Whether some graph of the family has the edge.
    fn is_possible(self, a: u32, b: u32) -> bool
        requires first { a ≤ 128 }
        requires second { b ≤ 128 }
    {
        match self {
            Family::Any => true,
            Family::Bipartite => (a + b) % 2 == 1,
        }
    }
}

// The edges that all graphs of the family have, and of those that some have the ones whose bit is
// set in the number, the lowest first.
fn edges_of_number(
    alloc: Global,
    order: u32,
    family: Family,
    number: u32,
) -> Result<Vec<(u32, u32)>, Memory>
    requires { order ≤ 128 }
{
    let mut edges = Vec::new(alloc);
    let mut rest = number;
    for i in 0..order {
        for j in i + 1..order {
            if family.is_fixed(i + 1, j + 1) {
                edges.push((i + 1, j + 1))?;
            } else if family.is_possible(i + 1, j + 1) {
                if rest % 2 == 1 {
                    edges.push((i + 1, j + 1))?;
                }
                rest /= 2;
            }
        }
    }
    Ok(edges)
}

/// The graph of the number in the family.
pub fn numbered(alloc: Global, order: u32, family: Family, number: u32) -> Result<MultiGraph, Fail>
    requires { order ≤ 128 }
{
    let edges = edges_of_number(alloc, order, family, number)?;
    Ok(graph_with(alloc, order, &edges)?)
}
