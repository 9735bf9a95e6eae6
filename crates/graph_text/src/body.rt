//! The part of a graph's text that has been read.
ghost use Rattle.std.specs.Prelude.{◌≤◌};

use crate::names::Names;
use graph_core::MultiGraph;

/// The graph as far as its text has been read, and the number of edges that its header says.
#[derive(Drop)]
pub struct Body {
    pub graph: MultiGraph,
    pub edges: u32,
    ghost within: { edges ≤ 2048 },
}

/// The same for both versions: in version 2 with the names that have been read.
#[derive(Drop)]
pub struct EitherBody {
    pub body: Body,
    pub names: Option<Names>,
}
