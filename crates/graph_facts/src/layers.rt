//! The vertices that walks reach from vertex 1, by the parity of their lengths: one search tells
//! whether a graph is connected and, if it is, whether it is bipartite.
ghost use Rattle.std.specs.Prelude.{◌≡◌, ◌≢◌, ◌≤◌, ◌↔◌, ◌&&◌, ◌||◌, ℕ, Bool, None, Some, true, false, not, IfSome, IfNone};
ghost use Rattle.allowed_edges.specs.from_counting.Common.{Within, mem, none, IsLeastWithout};
ghost use Rattle.graph_core.specs.Common.{IsBipartite, IsConnected, IsSide, Joined};
ghost use Rattle.graph_facts.specs.Layers.{AreLayers};

use graph_core::MultiGraph;
use graph_core::vset_core::{MOST_VERTICES, VSet};

/// The vertices that walks from vertex 1 reach. In a bipartite graph each has one parity.
#[derive(Clone, Copy, Drop)]
pub(crate) struct Layers {
    /// Vertex 1 and the vertices found from an odd one.
    even: VSet,
    /// The vertices found from an even one.
    odd: VSet,
}

impl Layers {
    /// The layers of a nonempty graph. Takes no memory.
    pub(crate) fn of(g: &MultiGraph) -> Layers
        requires { 1 ≤ g.now.order }
        ensures { AreLayers g.now (mem result.even) (mem result.odd) }
    {
        g.keeps_limits();
        let rows = g.rows();
        let mut layers = Layers {
            even: VSet::one(1),
            odd: VSet::empty(),
        };
        let mut open = layers.even;
        'flooding: while let Some(v) = open.first() {
            let near = rows[v as usize - 1];
            let new = near.minus(layers.even).minus(layers.odd);
            layers = layers.after(v, near);
            open = open.without(v).union(new);
        }
        layers
    }

    // The layers with the neighbours of v, which is in one of them.
    fn after(self, v: u32, near: VSet) -> Layers
        requires { Within MOST_VERTICES v }
        ensures even { (w : ℕ) → mem result.even w ≡
            (mem self.even w || (not (mem self.even v) && mem near w)) }
        ensures odd { (w : ℕ) → mem result.odd w ≡
            (mem self.odd w || (mem self.even v && mem near w)) }
    {
        if self.even.contains(v) {
            Layers {
                odd: self.odd.union(near),
                ..self
            }
        } else {
            Layers {
                even: self.even.union(near),
                ..self
            }
        }
    }

    /// The least vertex of a component without vertex 1; `None` if and only if the graph is
    /// connected.
    pub(crate) fn first_apart(&self, g: &MultiGraph) -> Option<u32>
        requires some { 1 ≤ g.now.order }
        requires layers { AreLayers g.now (mem self.now.even) (mem self.now.odd) }
        ensures some { IfSome result (IsLeastWithout g.now.order (Joined g.now none 1)) }
        ensures none { IfNone result (IsConnected g.now) }
    {
        g.keeps_limits();
        VSet::full(g.order())
            .minus(self.even)
            .minus(self.odd)
            .first()
    }

    /// One side of a connected graph; `None` if and only if it is not bipartite.
    pub(crate) fn side(&self, g: &MultiGraph) -> Option<VSet>
        requires connected { IsConnected g.now }
        requires layers { AreLayers g.now (mem self.now.even) (mem self.now.odd) }
        ensures some { (side : _) → result ≡ Some side → IsSide g.now (mem side) }
        ensures none { (result ≡ None) ↔ ¬ (IsBipartite g.now) }
    {
        g.keeps_limits();
        match self.even.meet(self.odd).first() {
            Some(_) => None,
            None => Some(self.even),
        }
    }
}
