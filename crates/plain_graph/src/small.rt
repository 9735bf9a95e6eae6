//! The graphs that the plain program takes.
ghost use Rattle.std.specs.Prelude.{◌↔◌, IsTrue};
ghost use Rattle.plain_graph.specs.Small.{IsSmall};

use graph_core::MultiGraph;

/// The most vertices of a graph that the plain program takes.
pub const MOST_PLAIN_VERTICES: u32 = 10;

/// The most edges of a graph that the plain program takes: there are 65,536 sets of them.
pub const MOST_PLAIN_EDGES: u32 = 16;

/// Whether the plain program takes the graph.
pub fn is_small(graph: &MultiGraph) -> bool
    ensures { IsTrue result ↔ IsSmall graph.now }
{
    graph.order() <= MOST_PLAIN_VERTICES && graph.size() <= MOST_PLAIN_EDGES
}
