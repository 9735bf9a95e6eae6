//! Whether a graph is matching covered.
ghost use Rattle.std.specs.Prelude.{◌≡◌, ◌↔◌, ℕ, ◌≤◌, None, IfSome, IfNone, IfOk};
ghost use Rattle.graph_core.specs.from_counting.Common.{Within, mem, IsRisingIn, none, IsLeastWithout};
ghost use Rattle.graph_core.specs.Common.{Attains, IsConnected, components, size, Allowed, HasPerfect, IsMaximum, Joined, IsVerdict};
ghost use Rattle.match_core.specs.Common.{edges_of, ArePartners};

use crate::edges::is_allowed_in;
use crate::perfect::partners_where_perfect;
use graph_core::vset_core::VSet;
use graph_core::{MultiGraph, Reason, SetList, Verdict};
use match_core::{Found, PartnerTable, maximum};
use std::alloc::{AllocError as Memory, Global};

/// Whether `g` is matching covered, and if not, the first reason, in the order `Small`, `Parted`,
/// `Unmatched`, `Unallowed`. Takes one maximum matching, at most n searches and O(n + m) further
/// steps, O(n^4 + m) steps on words at most; the only error is `Memory`.
pub fn covered(alloc: Global, g: &MultiGraph) -> Result<Verdict, Memory>
    ensures { IfOk result (IsVerdict g.now) }
{
    let parts = g.components_without(alloc, VSet::empty())?;
    let found = maximum(alloc, g)?;
    let table = partners_where_perfect(alloc, g, &found.matching)?;
    Ok(verdict_in(g, &parts, &found, &table))
}

/// The verdict that `covered` returns, from the components of `g`, a maximum matching with its
/// Berge set, and the table of partners if the matching is perfect. Takes no memory. Takes at most
/// O(m) time.
pub fn verdict_in(
    g: &MultiGraph,
    parts: &SetList,
    found: &Found,
    table: &Option<PartnerTable>,
) -> Verdict
    requires parts { parts.now ≡ components g.now none }
    requires maximum { IsMaximum g.now none (mem (edges_of found.now.matching)) }
    requires berge { IsRisingIn g.now.order found.now.berge }
    requires attains { Attains g.now none (mem found.now.berge)
        (mem (edges_of found.now.matching)) }
    requires table { IfSome table.now (ArePartners g.now none) }
    requires perfect { (table.now ≡ None) ↔ ¬ (HasPerfect g.now none) }
    ensures { IsVerdict g.now result }
{
    if g.order() < 2 {
        return Verdict::NotCovered(Reason::Small);
    }
    match first_apart(g, parts) {
        Some(b) => Verdict::NotCovered(Reason::Parted { a: 1, b }),
        None => matched(g, found, table),
    }
}

// The least vertex of a component without vertex 1, if there is one.
fn first_apart(g: &MultiGraph, parts: &SetList) -> Option<u32>
    requires some { 1 ≤ g.now.order }
    requires parts { parts.now ≡ components g.now none }
    ensures some { IfSome result (IsLeastWithout g.now.order (Joined g.now none 1)) }
    ensures none { IfNone result (IsConnected g.now) }
{
    let others = VSet::full(g.order()).minus(parts.get(0));
    others.first()
}

// The verdict on a connected graph of at least two vertices.
fn matched(g: &MultiGraph, found: &Found, table: &Option<PartnerTable>) -> Verdict
    requires two { 2 ≤ g.now.order }
    requires connected { IsConnected g.now }
    requires maximum { IsMaximum g.now none (mem (edges_of found.now.matching)) }
    requires berge { IsRisingIn g.now.order found.now.berge }
    requires attains { Attains g.now none (mem found.now.berge)
        (mem (edges_of found.now.matching)) }
    requires table { IfSome table.now (ArePartners g.now none) }
    requires perfect { (table.now ≡ None) ↔ ¬ (HasPerfect g.now none) }
    ensures { IsVerdict g.now result }
{
    match table {
        None => Verdict::NotCovered(Reason::Unmatched { berge: found.berge }),
        Some(table) => match first_unallowed(g, table) {
            Some(edge) => Verdict::NotCovered(Reason::Unallowed { edge }),
            None => Verdict::Covered,
        },
    }
}

/// The least edge that lies in no perfect matching. Takes no memory. Takes O(m) time.
pub fn first_unallowed(g: &MultiGraph, table: &PartnerTable) -> Option<u32>
    requires { ArePartners g.now none table.now }
    ensures some { IfSome result (IsLeastWithout (size g.now) (Allowed g.now)) }
    ensures none { IfNone result ((e : ℕ) → Within (size g.now) e → Allowed g.now e) }
{
    for e in 1..=g.size() {
        if !is_allowed_in(g, table, e) {
            return Some(e);
        }
    }
    None
}
