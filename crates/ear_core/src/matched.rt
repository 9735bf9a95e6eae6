//! The mates of a matching of a stage, from which the partners of one vertex are one search away.
ghost use Rattle.std.specs.Prelude.{◌≡◌, ◌≢◌, ◌+◌, ◌<◌, ◌≤◌, ℕ, false, true, length, All, IfOk};
ghost use Rattle.graph_core.specs.from_counting.Common.{Within, mem};
ghost use Rattle.graph_core.specs.Common.{size};
ghost use Rattle.two_ears.specs.from_match_search.Common.{marks};
ghost use Rattle.two_ears.specs.from_match_core.Common.{are_partners, edges_of};
ghost use Rattle.ear_core.specs.Common.{IsPerfectRows, NamesMatching, NamesPart};

use graph_core::vset_core::VSet;
use graph_core::{MOST_EDGES, MultiGraph};
use std::alloc::{AllocError as Memory, Global};
use two_ears::match_core::Matching;
use two_ears::match_search::{Best, find_best, instance_of, mates_of, missable_beside};

/// The mates by the edges of a matching that are on the stage of the marked edges.
pub fn mates_on(
    alloc: Global,
    g: &MultiGraph,
    mark: &[bool],
    m: &Matching,
) -> Result<Vec<u32>, Memory>
    requires long { length mark.now ≡ size g.now + 1 }
    requires matching { IsPerfectRows g.now m.now }
    ensures long { IfOk result (λ mate. length mate.items ≡ g.now.order + 1) }
    ensures mates { IfOk result
        (λ mate. NamesPart g.now (marks mark.now) mate.items) }
{
    g.keeps_limits();
    let both = marks_on(alloc, mark, m)?;
    let n = g.order();
    let ends = g.edges();
    mates_of(alloc, n, ends, &both)
}

fn write_mark(row: &mut Vec<bool>, e: usize, on: bool)
    requires { e < length row.old.items }
    ensures long { length row.new.items ≡ length row.old.items }
    ensures own { marks row.new.items e ≡ on }
    ensures others { (i : ℕ) → i ≢ e → marks row.new.items i ≡ marks row.old.items i }
{
    row[e] = on;
}

// The marks of the edges of a matching that are marked.
fn marks_on(alloc: Global, mark: &[bool], m: &Matching) -> Result<Vec<bool>, Memory>
    requires few { length mark.now ≤ MOST_EDGES + 1 }
    requires within { All (λ row. row.edge < length mark.now) m.now.rows }
    ensures long { IfOk result (λ both. length both.items ≡ length mark.now) }
    ensures marked { IfOk result
        (λ both. (e : ℕ) → marks both.items e ≡ true → marks mark.now e ≡ true) }
    ensures held { IfOk result
        (λ both. (e : ℕ) → marks both.items e ≡ true → mem (edges_of m.now) e ≡ true) }
{
    let mut both = vec![in alloc; false; mark.len()]?;
    for i in 0..m.len() {
        let e = m.row(i).edge as usize;
        write_mark(&mut both, e, mark[e]);
    }
    Ok(both)
}

/// The partners of `u` in G - removed, from the mates of a matching of it.
pub fn partners_from(
    alloc: Global,
    g: &MultiGraph,
    removed: VSet,
    mate: &[u32],
    u: u32,
) -> Result<VSet, Memory>
    requires mates { NamesMatching g.now (mem removed) mate.now }
    requires vertex { Within g.now.order u }
    requires left { mem removed u ≡ false }
    ensures within { IfOk result (λ row. (v : ℕ) → mem row v ≡ true → Within g.now.order v) }
    ensures row { IfOk result (λ row. (v : ℕ) → Within g.now.order v →
        mem row v ≡ are_partners g.now (mem removed) u v) }
{
    g.keeps_limits();
    let mut instance = instance_of(alloc, g.rows(), removed)?;
    let row = missable_beside(alloc, &mut instance, mate, u)?;
    Ok(row)
}

/// The mates of a maximum matching of G - removed.
pub fn matched_mates(alloc: Global, g: &MultiGraph, removed: VSet) -> Result<Vec<u32>, Memory>
    ensures { IfOk result (λ mate. NamesMatching g.now (mem removed) mate.items) }
{
    let Best { mark, sets: _ } = find_best(alloc, g, removed)?;
    let n = g.order();
    let ends = g.edges();
    mates_of(alloc, n, ends, &mark)
}
