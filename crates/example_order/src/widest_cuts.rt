//! The order: at each node the first candidate whose cut has the most edges.
ghost use Rattle.std.specs.Prelude.{◌≡◌, ◌<◌, ◌≤◌, length};
ghost use Rattle.tree_check.specs.from_counting.Common.{count, mem};
ghost use Rattle.graph_core.specs.Common.{in_cut, size};
ghost use Rattle.example_order.specs.WidestCuts.{IsWidest, PicksWidest};

use decomposer::Order;
use graph_core::vset_core::VSet;
use graph_core::{MultiGraph, is_in_cut};
use tree_check::tight_cuts::Candidate;

/// The number of edges in the cut of a set of vertices. Takes O(m) time.
pub fn cut_width(g: &MultiGraph, shore: VSet) -> u32
    ensures { result ≡ count (size g.now) (in_cut g.now (mem shore)) }
{
    g.keeps_limits();
    let mut width = 0;
    for k in 0..g.size() {
        if is_in_cut(g, shore, k + 1) {
            width += 1;
        }
    }
    width
}

/// The place of the first candidate whose cut has the most edges, in a list of at least one. Takes
/// O(c m) time for c candidates.
pub(crate) fn widest_place(g: &MultiGraph, list: &[Candidate]) -> usize
    requires { 0 < length list.now }
    ensures { IsWidest g.now list.now result }
{
    let mut best = 0;
    for place in 1..list.len() {
        if cut_width(g, list[best].shore) < cut_width(g, list[place].shore) {
            best = place;
        }
    }
    best
}

/// The order of the widest cuts of a graph: at each node it picks the first candidate whose cut has
/// the most edges.
#[derive(Clone, Copy)]
pub struct Widest<'g> {
    pub graph: &'g MultiGraph,
}

impl<'g> Order for Widest<'g> {
    ghost picks = { λ order. PicksWidest order.graph.now };

    fn pick(&self, list: &[Candidate], _cuts: usize) -> usize {
        widest_place(self.graph, list)
    }
}
