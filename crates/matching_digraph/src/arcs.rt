//! The arcs of the digraph of a matching, as rows of sets.
ghost use Rattle.std.specs.Prelude.{◌≡◌, ◌≤◌, ◌&&◌, ◌||◌, not, ℕ, length, IfOk, All};
ghost use Rattle.std.specs.List.{list_any};
ghost use Rattle.graph_core.specs.from_counting.Common.{Within, item, mem, none};
ghost use Rattle.graph_core.specs.Common.{adjacent};
ghost use Rattle.barrier_kit.specs.from_match_core.Common.{IsOf, edges_of};
ghost use Rattle.matching_digraph.specs.Digraph.{AreArcs};
ghost use Rattle.matching_digraph.specs.MatchedPairs.{row_joins};

use barrier_kit::match_core::Matching;
use graph_core::MultiGraph;
use graph_core::vset_core::{MOST_VERTICES, VSet, add_arc};
use std::alloc::{AllocError as Memory, Global};

// The neighbours of a vertex outside the side; none for a vertex of the side.
fn outer_row(g: &MultiGraph, side: VSet, v: u32) -> VSet
    requires { Within g.now.order v }
    ensures { (w : ℕ) → mem result w ≡ (not (mem side v) && adjacent g.now none v w) }
{
    g.keeps_limits();
    if side.contains(v) {
        return VSet::empty();
    }
    g.rows()[v as usize - 1]
}

// For each vertex outside the side its neighbours; none for each vertex of the side.
fn outer_rows(alloc: Global, g: &MultiGraph, side: VSet) -> Result<Vec<VSet>, Memory>
    ensures long { IfOk result (λ rows. length rows.items ≡ g.now.order) }
    ensures each { IfOk result (λ rows. (v w : ℕ) → Within g.now.order v →
        mem (item rows.items v) w ≡ (not (mem side v) && adjacent g.now none v w)) }
{
    let mut rows = Vec::with_capacity(alloc, g.order() as usize)?;
    for k in 0..g.order() {
        rows.push(outer_row(g, side, k + 1))?;
    }
    Ok(rows)
}

// Adds the arcs between the mates of a matching, both ways.
fn add_mates(rows: &mut [VSet], m: &Matching)
    requires within { All (λ row. Within (length rows.old) row.a × Within (length rows.old) row.b)
        m.now.rows }
    requires few { length rows.old ≤ MOST_VERTICES }
    ensures { (u v : ℕ) → Within (length rows.old) u →
        mem (item rows.new u) v ≡ (mem (item rows.old u) v || list_any (row_joins u v) m.now.rows) }
{
    for i in 0..m.len() {
        let row = m.row(i);
        add_arc(rows, row.a, row.b);
        add_arc(rows, row.b, row.a);
    }
}

/// The arcs of the digraph of a matching: from each vertex of the side to its mates, and from each
/// other vertex to its neighbours.
pub(crate) fn arcs_of(
    alloc: Global,
    g: &MultiGraph,
    side: VSet,
    m: &Matching,
) -> Result<Vec<VSet>, Memory>
    requires { IsOf g.now m.now }
    ensures { IfOk result (λ rows. AreArcs g.now (mem side) (mem (edges_of m.now)) rows.items) }
{
    g.keeps_limits();
    m.keeps_matching();
    let mut rows = outer_rows(alloc, g, side)?;
    add_mates(&mut rows, m);
    Ok(rows)
}
