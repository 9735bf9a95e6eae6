//! The underlying simple graph of a graph.
ghost use Rattle.std.specs.Prelude.{◌≡◌, ◌<◌, IfOk, OnOk};
ghost use Rattle.counting.specs.Common.{Within};
ghost use Rattle.graph_core.specs.Common.{first_end, second_end, size};
ghost use Rattle.mcg6_encoder.specs.SimpleGraphs.{IsBeneath, with_new_edge};

use graph_core::MultiGraph;
use std::alloc::{AllocError as Memory, Global};

// Adds edge `e` of a graph, unless an edge joins its ends already.
fn push_new_edge(simple: &mut MultiGraph, g: &MultiGraph, e: u32) -> Result<(), Memory>
    requires within { Within (size g.now) e }
    requires order { simple.old.order ≡ g.now.order }
    requires room { size simple.old < 2048 }
    ensures { OnOk result (simple.new ≡
        with_new_edge simple.old (first_end g.now e) (second_end g.now e)) }
{
    let edge = g.ends(e);
    if simple.adjacent(edge.a, edge.b) {
        return Ok(());
    }
    simple.push_edge(edge)
}

/// The underlying simple graph: the same vertices, and of the edges that join the same two vertices
/// the first, in the order of their numbers.
pub fn simple_beneath(alloc: Global, g: &MultiGraph) -> Result<MultiGraph, Memory>
    ensures { IfOk result (IsBeneath g.now) }
{
    let mut simple = MultiGraph::new(alloc, g.order())?;
    for done in 0..g.size() {
        push_new_edge(&mut simple, g, done + 1)?;
    }
    Ok(simple)
}
