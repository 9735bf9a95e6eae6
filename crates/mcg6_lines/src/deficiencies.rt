//! The deficiency of a graph that is not matching covered: how many vertices a maximum matching
//! misses.
ghost use Rattle.std.specs.Prelude.{◌≡◌, ◌==◌, ◌%◌, IfOk, length, count_by};
ghost use Rattle.mcg6_lines.specs.Standings.{IsDeficiency, IsFirstReason};

use allowed_edges::match_core::maximum;
use graph_core::vset_core::VSet;
use graph_core::{MultiGraph, Reason};
use std::alloc::{AllocError as Memory, Global};

/// The deficiency of a graph that is not covered for this reason. A matching is sought only if the
/// graph has two vertices and is not connected.
pub fn deficiency(alloc: Global, g: &MultiGraph, reason: &Reason) -> Result<u32, Memory>
    requires { IsFirstReason g.now reason.now }
    ensures { IfOk result (IsDeficiency g.now) }
{
    g.keeps_limits();
    match reason {
        Reason::Small => Ok(g.order()),
        Reason::Parted { .. } => missed_by_maximum(alloc, g),
        Reason::Unmatched { berge } => missed_beside(alloc, g, *berge),
        Reason::Unallowed { .. } => Ok(0),
    }
}

// How many vertices a maximum matching misses.
fn missed_by_maximum(alloc: Global, g: &MultiGraph) -> Result<u32, Memory>
    ensures { IfOk result (IsDeficiency g.now) }
{
    g.keeps_limits();
    let found = maximum(alloc, g)?;
    found.matching.keeps_matching();
    let edges = found.matching.len() as u32;
    Ok(g.order() - 2 * edges)
}

// The deficiency by a Berge set S of a graph without a perfect matching: o(S) - |S|.
fn missed_beside(alloc: Global, g: &MultiGraph, berge: VSet) -> Result<u32, Memory>
    requires { IsFirstReason g.now (Reason.Unmatched berge) }
    ensures { IfOk result (IsDeficiency g.now) }
{
    g.keeps_limits();
    let parts = g.components_without(alloc, berge)?;
    let missed = count_odd(parts.as_slice()) - berge.len() as usize;
    Ok(missed as u32)
}

// How many of the sets have an odd number of members.
fn count_odd(sets: &[VSet]) -> usize
    ensures { result ≡ count_by (λ set. length set % 2 == 1) sets.now }
{
    sets.iter().filter(|set| set.len() % 2 == 1).count()
}
