//! A graph with the names of its vertices.
ghost use Rattle.std.specs.Prelude.{◌≡◌, length};
ghost use Rattle.std.specs.Option.{ForSome};

use crate::names::Names;
use graph_core::MultiGraph;

/// A graph, and the names of its vertices if its text has them: then there is one for each vertex.
#[derive(Drop)]
pub struct Named {
    pub graph: MultiGraph,
    pub names: Option<Names>,
    ghost one_each: { ForSome names (λ given. length given ≡ graph.order) },
}
