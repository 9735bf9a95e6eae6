//! Tight cuts of bipartite graphs without a search.
//!
//! Let a vertex set have one vertex more of one side of the graph than of the other, and let no
//! edge leave it from the latter. A perfect matching joins the vertices of the latter to all but
//! one of the former, so exactly one of its edges leaves the set. In a bipartite covered graph each
//! tight cut is such a cut (Lovász 1987).
ghost use Rattle.std.specs.Prelude.{◌≡◌, ℕ, true, false};
ghost use Rattle.graph_core.specs.from_counting.Common.{Within, complement, mem, IsRisingIn};
ghost use Rattle.graph_core.specs.Common.{connects, size, CutIsTight, IsSide};

use graph_core::MultiGraph;
use graph_core::vset_core::{MOST_VERTICES, VSet};
use tree_core::graph_facts::Covered;

/// Whether the graph is bipartite and the vertex set is such a set. Takes no memory. Takes O(m)
/// steps.
pub(crate) fn is_balanced(c: &Covered, shore: VSet) -> bool
    requires { IsRisingIn c.now.order shore }
    ensures { result ≡ true → CutIsTight c.now (mem shore) }
{
    let Some(side) = c.side() else {
        return false;
    };
    let others = VSet::full(c.order()).minus(side);
    has_surplus(c.graph(), side, shore) || has_surplus(c.graph(), others, shore)
}

// Whether the set has one vertex more of the side than others, and no edge leaves it from these.
fn has_surplus(g: &MultiGraph, side: VSet, shore: VSet) -> bool
    requires side { IsSide g.now (mem side) }
    requires shore { IsRisingIn g.now.order shore }
    ensures { result ≡ true → CutIsTight g.now (mem shore) }
{
    g.keeps_limits();
    let near = shore.meet(side);
    let far = shore.minus(side);
    near.rises();
    far.rises();
    let more = near.len();
    let less = far.len();
    if less >= MOST_VERTICES {
        return false;
    }
    if more != less + 1 {
        return false;
    }
    keeps_edges(g, shore, far)
}

// Whether no edge leaves the set from the vertices of `part`.
fn keeps_edges(g: &MultiGraph, set: VSet, part: VSet) -> bool
    ensures { result ≡ true → (e : ℕ) → Within (size g.now) e →
        connects g.now (mem part) (complement (mem set)) e ≡ false }
{
    for k in 0..g.size() {
        if leaves_from(g, set, part, k + 1) {
            return false;
        }
    }
    true
}

// Whether the edge leaves the set from a vertex of `part`.
fn leaves_from(g: &MultiGraph, set: VSet, part: VSet, e: u32) -> bool
    requires { Within (size g.now) e }
    ensures { result ≡ connects g.now (mem part) (complement (mem set)) e }
{
    g.keeps_limits();
    let ends = g.ends(e);
    (part.contains(ends.a) && !set.contains(ends.b))
        || (!set.contains(ends.a) && part.contains(ends.b))
}
