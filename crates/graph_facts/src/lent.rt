//! A graph that is owned or borrowed.
ghost use Rattle.std.specs.Prelude.{◌≡◌};
ghost use Rattle.graph_facts.specs.Lent.{graph_in};

use graph_core::MultiGraph;

/// A graph, owned or borrowed.
pub enum Lent<'g> {
    /// The graph is owned.
    Own(MultiGraph),
    /// The graph is borrowed.
    Of(&'g MultiGraph),
}

impl<'g> Drop for Lent<'g> {
    fn drop(self) {
        match self {
            Lent::Own(graph) => drop(graph),
            Lent::Of(_) => {}
        }
    }
}

impl<'g> Lent<'g> {
    /// The graph. Takes no memory.
    pub fn graph(&self) -> &MultiGraph
        ensures { result.now ≡ graph_in self.now }
    {
        match self {
            Lent::Own(graph) => graph,
            Lent::Of(graph) => graph,
        }
    }
}
