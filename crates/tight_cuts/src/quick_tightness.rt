//! A quick test that shows most tight cuts to be tight.
//!
//! Suppose a perfect matching has two edges in the cut of a vertex set. They leave the set at two
//! vertices, say first u and later v. Turn the edges that join u to the rest of the set: give each
//! of them the ends of one edge that leaves the set at u. The matching is still perfect in the
//! turned graph, so the ends of its edge at v are partners there. Hence one turned graph for each u
//! and one row of partners for each later v show that there is no such matching, however many edges
//! the cut has. If the set is odd, such a matching has a third edge in the cut, so the last two
//! vertices at which edges leave the set need not be asked.
ghost use Rattle.std.specs.Prelude.{◌≡◌, ◌≢◌, ℕ, ◌<◌, [], true, false, IfOk, IfNone, IfSome};
ghost use Rattle.graph_core.specs.from_counting.Common.{Within, count, is_odd, none, mem};
ghost use Rattle.graph_core.specs.Common.{first_end, in_cut, second_end, size, IsEnd, IsPerfect};
ghost use Rattle.barrier_kit.specs.from_match_core.Common.{IsOf, edges_of};
ghost use Rattle.barrier_kit.specs.from_allowed_edges.PairTables.{IsPerfectWith};
ghost use Rattle.tight_cuts.specs.Common.{AreEndsPartners, HasFewLater, IsTurned, Leaves, LeavesAlone, NoTwoTogether};

use barrier_kit::allowed_edges::perfect_with_edge;
use barrier_kit::match_core::{LazyPartners, Matching};
use graph_core::vset_core::VSet;
use graph_core::{Ends, MultiGraph, is_in_cut};
use std::alloc::{AllocError as Memory, Global};

/// Whether the quick test shows that no perfect matching has two edges in the cut of the set. The
/// fewer vertices the set has, the faster it is: at most one augmentation for each of them, and one
/// search for any two of them. An odd set with edges out at two vertices at most takes none.
pub(crate) fn is_uncrossed(
    alloc: Global,
    g: &MultiGraph,
    set: VSet,
    kept: &Matching,
) -> Result<bool, Memory>
    requires of { IsOf g.now kept.now }
    requires perfect { IsPerfect g.now none (mem (edges_of kept.now)) }
    ensures { IfOk result (λ shown. shown ≡ true → NoTwoTogether g.now (mem set)) }
{
    g.keeps_limits();
    let is_odd = is_odd_in(g, set);
    for k in 0..g.order() {
        let is_last = is_odd && has_few_later(g, set, k + 1);
        if !is_last && !leaves_alone(alloc, g, set, kept, k + 1)? {
            return Ok(false);
        }
    }
    Ok(true)
}

// Whether an odd number of vertices of the graph are in the set.
fn is_odd_in(g: &MultiGraph, set: VSet) -> bool
    ensures { result ≡ is_odd (count g.now.order (mem set)) }
{
    let inside = VSet::full(g.order()).meet(set);
    inside.rises();
    inside.len() % 2 == 1
}

// Whether u is in the set, and edges leave the set at no more than one later vertex.
fn has_few_later(g: &MultiGraph, set: VSet, u: u32) -> bool
    requires vertex { Within g.now.order u }
    ensures { result ≡ true → HasFewLater g.now (mem set) u }
{
    g.keeps_limits();
    if !set.contains(u) {
        return false;
    }
    let mut exits = VSet::empty();
    for k in u..g.order() {
        if has_edge_out(g, set, k + 1) {
            exits = exits.with(k + 1);
        }
    }
    exits.len() <= 1
}

// Whether no perfect matching has an edge that leaves the set at u and one that leaves it at a
// later vertex, as far as the quick test shows it.
fn leaves_alone(
    alloc: Global,
    g: &MultiGraph,
    set: VSet,
    kept: &Matching,
    u: u32,
) -> Result<bool, Memory>
    requires vertex { Within g.now.order u }
    requires of { IsOf g.now kept.now }
    requires perfect { IsPerfect g.now none (mem (edges_of kept.now)) }
    ensures { IfOk result (λ alone. alone ≡ true → LeavesAlone g.now (mem set) u) }
{
    g.keeps_limits();
    if !set.contains(u) || !has_later(g, set, u) {
        return Ok(true);
    }
    let Some(e) = edge_out(g, set, u) else {
        return Ok(true);
    };
    // With no neighbour of u in the set nothing is turned, and the ends of each edge of a covered
    // graph are partners.
    if g.rows()[u as usize - 1].meet(set) == VSet::empty() {
        return Ok(false);
    }
    match perfect_with_edge(alloc, g, kept, e)? {
        Some(held) => {
            let turned = turned(alloc, g, set, u, e)?;
            is_alone_in(alloc, g, &turned, set, &held, u)
        }
        None => Ok(false),
    }
}

// Whether some edge leaves the set at a vertex after u.
fn has_later(g: &MultiGraph, set: VSet, u: u32) -> bool
    requires vertex { Within g.now.order u }
    ensures { result ≡ false → (f v : ℕ) → Within (size g.now) f → u < v →
        Leaves g.now (mem set) v f → ⊥ }
{
    for k in u..g.order() {
        if has_edge_out(g, set, k + 1) {
            return true;
        }
    }
    false
}

// Whether some edge leaves the set at v: v is in the set and has a neighbour outside.
fn has_edge_out(g: &MultiGraph, set: VSet, v: u32) -> bool
    requires vertex { Within g.now.order v }
    ensures { result ≡ false → (f : ℕ) → Within (size g.now) f → Leaves g.now (mem set) v f → ⊥ }
{
    g.keeps_limits();
    set.contains(v) && !g.rows()[v as usize - 1].is_subset(set)
}

// The first edge that leaves the set at u.
fn edge_out(g: &MultiGraph, set: VSet, u: u32) -> Option<u32>
    requires vertex { Within g.now.order u }
    ensures some { IfSome result (λ e. Within (size g.now) e × Leaves g.now (mem set) u e) }
    ensures none { IfNone result
        ((e : ℕ) → Within (size g.now) e → Leaves g.now (mem set) u e → ⊥) }
{
    if !has_edge_out(g, set, u) {
        return None;
    }
    for k in 0..g.size() {
        if leaves(g, set, u, k + 1) {
            return Some(k + 1);
        }
    }
    None
}

// Whether edge e leaves the set at u.
fn leaves(g: &MultiGraph, set: VSet, u: u32, e: u32) -> bool
    requires vertex { Within g.now.order u }
    requires edge { Within (size g.now) e }
    ensures yes { result ≡ true → Leaves g.now (mem set) u e }
    ensures no { result ≡ false → Leaves g.now (mem set) u e → ⊥ }
{
    g.keeps_limits();
    let ends = g.ends(e);
    set.contains(u) && (ends.a == u || ends.b == u) && is_in_cut(g, set, e)
}

// The graph in which each edge that joins u to the rest of the set has the ends of edge e.
fn turned(alloc: Global, g: &MultiGraph, set: VSet, u: u32, e: u32) -> Result<MultiGraph, Memory>
    requires edge { Within (size g.now) e }
    ensures { IfOk result (IsTurned g.now (mem set) u) }
{
    let mut turned = MultiGraph::new(alloc, g.order())?;
    for k in 0..g.size() {
        turned.push_edge(turned_ends(g, set, u, e, k + 1))?;
    }
    Ok(turned)
}

// The ends of edge d there.
fn turned_ends(g: &MultiGraph, set: VSet, u: u32, e: u32, d: u32) -> Ends
    requires edge { Within (size g.now) e }
    requires turned { Within (size g.now) d }
    ensures vertices { Within g.now.order result.a × Within g.now.order result.b }
    ensures different { result.a ≢ result.b }
    ensures same { (IsEnd g.now d u → in_cut g.now (mem set) d ≡ true) →
        (result.a ≡ first_end g.now d) × (result.b ≡ second_end g.now d) }
{
    let ends = g.ends(d);
    if (ends.a == u || ends.b == u) && !is_in_cut(g, set, d) {
        return g.ends(e);
    }
    ends
}

// The answer from the turned graph and a perfect matching of `g` with an edge that leaves the set
// at u.
fn is_alone_in(
    alloc: Global,
    g: &MultiGraph,
    turned: &MultiGraph,
    set: VSet,
    held: &Matching,
    u: u32,
) -> Result<bool, Memory>
    requires turned { IsTurned g.now (mem set) u turned.now }
    requires held { (e : ℕ) × Within (size g.now) e × Leaves g.now (mem set) u e ×
        IsPerfectWith g.now e held.now }
    ensures { IfOk result (λ alone. alone ≡ true → LeavesAlone g.now (mem set) u) }
{
    g.keeps_limits();
    turned.keeps_limits();
    let mut rows = LazyPartners::new(alloc, turned, VSet::empty(), held)?;
    for k in u..g.order() {
        if has_partner_out(alloc, g, set, &mut rows, k + 1)? {
            return Ok(false);
        }
    }
    Ok(true)
}

// Whether v is in the set and a neighbour of it outside is a partner of it in the turned graph, to
// which the rows belong.
fn has_partner_out(
    alloc: Global,
    g: &MultiGraph,
    set: VSet,
    rows: &mut LazyPartners<'_>,
    v: u32,
) -> Result<bool, Memory>
    requires vertex { Within g.now.order v }
    requires turned { (u : ℕ) × IsTurned g.now (mem set) u rows.old.graph }
    requires whole { rows.old.removed ≡ [] }
    ensures none { IfOk result
        (λ has. has ≡ false → (f : ℕ) → Within (size g.now) f → Leaves g.now (mem set) v f →
        ¬ (AreEndsPartners rows.old.graph none f)) }
    ensures same { rows.new ≡ rows.old }
{
    g.keeps_limits();
    if !has_edge_out(g, set, v) {
        return Ok(false);
    }
    let row = rows.of(alloc, v)?;
    let near = g.rows()[v as usize - 1].meet(row);
    Ok(!near.is_subset(set))
}
