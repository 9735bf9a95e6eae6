//! The vertices that lead the pieces of an edge.
ghost use Rattle.std.specs.Prelude.{◌≡◌, ℕ, ◌+◌, length, IfOk};
ghost use Rattle.graph_core.specs.from_counting.Common.{Within, pair_set};
ghost use Rattle.graph_core.specs.Common.{components, size};
ghost use Rattle.tight_cuts.specs.Common.{greater_end, lesser_end, AreLeadersAt, AreMatchings, at_place, leader};

use crate::matchings::Matchings;
use crate::pieces::graph_beside;
use barrier_kit::allowed_edges::list_with_edge;
use graph_core::MultiGraph;
use graph_core::vset_core::{MOST_VERTICES, VSet};
use std::alloc::{AllocError as Memory, Global};
use tree_core::graph_facts::Covered;

// The least vertex of the first piece that holds the vertex, and the vertex itself if none does.
fn leader_in(pieces: &[VSet], v: u32) -> u32
    requires { Within MOST_VERTICES v }
    ensures { result ≡ leader pieces.now v }
{
    let mut rest = pieces;
    while let Some((piece, others)) = rest.split_first() {
        if piece.contains(v) {
            return match piece.split_first() {
                Some((least, _)) => least,
                None => v,
            };
        }
        rest = others;
    }
    v
}

// For each vertex the least vertex of its component in `h` without `a` and `b`; these two stand
// for themselves. The row is by vertex number.
fn leaders_of(alloc: Global, h: &MultiGraph, a: u32, b: u32) -> Result<Vec<u32>, Memory>
    requires first { Within h.now.order a }
    requires second { Within h.now.order b }
    ensures long { IfOk result (λ row. length row.items ≡ h.now.order + 1) }
    ensures each { IfOk result
        (λ row. (v : ℕ) → Within h.now.order v →
        at_place row.items v ≡ leader (components h.now (pair_set a b)) v) }
{
    h.keeps_limits();
    let pieces = h.components_without(alloc, VSet::empty().with(a).with(b))?;
    let mut row = Vec::new(alloc);
    row.push(0)?;
    for k in 0..h.order() {
        row.push(leader_in(pieces.as_slice(), k + 1))?;
    }
    Ok(row)
}

/// For each vertex the least vertex of its piece at edge `e`; the ends of `e` stand for
/// themselves. A matching that holds `e` is listed first, unless one is.
pub(crate) fn leaders_at(
    alloc: Global,
    c: &Covered,
    matchings: &mut Matchings<'_>,
    e: u32,
) -> Result<Vec<u32>, Memory>
    requires edge { Within (size c.now) e }
    requires matchings { AreMatchings c.now matchings.old }
    ensures matchings { IfOk result
        (λ _. AreMatchings c.now matchings.new) }
    ensures leaders { IfOk result
        (λ row. AreLeadersAt c.now (lesser_end c.now e) (greater_end c.now e) e row.items) }
{
    let g = c.graph();
    list_with_edge(alloc, g, &matchings.kept, &mut matchings.pairs, e)?;
    let ends = g.ends(e);
    let a = ends.a.min(ends.b);
    let b = ends.a.max(ends.b);
    let beside = graph_beside(alloc, g, &matchings.pairs, e)?;
    leaders_of(alloc, &beside, a, b)
}
