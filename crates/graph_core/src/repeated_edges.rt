//! Simple graphs.
ghost use Rattle.std.specs.Prelude.{◌≡◌, ◌-◌, ◌↔◌, IsTrue};
ghost use Rattle.vset_core.specs.from_counting.Common.{Within, some};
ghost use Rattle.graph_core.specs.Common.{size, first_end, second_end, has_ends, IsSimple};

use crate::MultiGraph;

/// Whether `g` is simple: no two edges join the same two vertices. Takes no memory. Takes O(m * m)
/// time.
pub fn simple(g: &MultiGraph) -> bool
    ensures { IsTrue result ↔ IsSimple g.now }
{
    g.simple()
}

impl MultiGraph {
    /// Whether the graph is simple: no two edges join the same two vertices. Takes no memory. Takes
    /// O(m * m) time.
    pub fn simple(&self) -> bool
        ensures { IsTrue result ↔ IsSimple self.now }
    {
        for e in 1..=self.size() {
            if self.repeats(e) {
                return false;
            }
        }
        true
    }

    /// Whether an earlier edge joins the same two vertices as edge `e`.
    fn repeats(&self, e: u32) -> bool
        requires { Within (size self.now) e }
        ensures { result ≡
            some (e - 1) (has_ends self.now (first_end self.now e) (second_end self.now e)) }
    {
        for f in 1..e {
            if self.joins_same(e, f) {
                return true;
            }
        }
        false
    }

    /// Whether edge `f` joins the same two vertices as edge `e`.
    fn joins_same(&self, e: u32, f: u32) -> bool
        requires first { Within (size self.now) e }
        requires second { Within (size self.now) f }
        ensures { result ≡ has_ends self.now (first_end self.now e) (second_end self.now e) f }
    {
        let edge = self.ends(e);
        self.ends(f).are(edge.a, edge.b)
    }
}
