//! Perfect matchings that contain one edge or two, each from a given perfect matching by at most
//! one augmentation.
ghost use Rattle.std.specs.Prelude.{◌≡◌, ◌||◌, ◌==◌, ◌⊎◌, ℕ, true, ◌↔◌, IfOk, Some, None};
ghost use Rattle.graph_core.specs.from_counting.Common.{Within, none, mem};
ghost use Rattle.graph_core.specs.Common.{size, first_end, second_end, Allowed, HasPerfect, IsPerfect, Together, missed_count};
ghost use Rattle.match_core.specs.Common.{IsOf, edges_of};
ghost use Rattle.allowed_edges.specs.Leaving.{IsMatchingOff, LeavesFew, ShareNone};

use crate::short_paths::completed;
use graph_core::MultiGraph;
use graph_core::vset_core::VSet;
use match_core::{Matching, repair};
use std::alloc::{AllocError as Memory, Global};

/// A perfect matching that contains `e`, from a perfect matching; `None` if and only if there is
/// none. Takes at most one augmentation, O(n^3 + m) steps on words; the only error is `Memory`.
pub fn perfect_with_edge(
    alloc: Global,
    g: &MultiGraph,
    kept: &Matching,
    e: u32,
) -> Result<Option<Matching>, Memory>
    requires edge { Within (size g.now) e }
    requires of { IsOf g.now kept.now }
    requires perfect { IsPerfect g.now none (mem (edges_of kept.now)) }
    ensures of { IfOk result (λ o. (m : _) → o ≡ Some m → IsOf g.now m) }
    ensures perfect { IfOk result
        (λ o. (m : _) → o ≡ Some m → IsPerfect g.now none (mem (edges_of m))) }
    ensures holds { IfOk result (λ o. (m : _) → o ≡ Some m → mem (edges_of m) e ≡ true) }
    ensures none { IfOk result (λ o. (o ≡ None) ↔ (Allowed g.now e → ⊥)) }
{
    g.keeps_limits();
    let met = with_ends(g, VSet::empty(), e);
    match perfect_off(alloc, g, kept, met)? {
        Some(rest) => Ok(Some(rest.joined(alloc, g, e)?)),
        None => Ok(None),
    }
}

/// A perfect matching that contains `e` and `f`, which share no end, from a perfect matching that
/// contains `e`; `None` if and only if there is none. Takes at most one augmentation, O(n^3 + m)
/// steps on words; the only error is `Memory`.
pub fn perfect_with_pair(
    alloc: Global,
    g: &MultiGraph,
    kept: &Matching,
    e: u32,
    f: u32,
) -> Result<Option<Matching>, Memory>
    requires first { Within (size g.now) e }
    requires second { Within (size g.now) f }
    requires apart { ShareNone g.now e f }
    requires of { IsOf g.now kept.now }
    requires perfect { IsPerfect g.now none (mem (edges_of kept.now)) }
    requires held { mem (edges_of kept.now) e ≡ true }
    ensures of { IfOk result (λ o. (m : _) → o ≡ Some m → IsOf g.now m) }
    ensures perfect { IfOk result
        (λ o. (m : _) → o ≡ Some m → IsPerfect g.now none (mem (edges_of m))) }
    ensures holds { IfOk result
        (λ o. (m : _) → o ≡ Some m → (mem (edges_of m) e ≡ true) × (mem (edges_of m) f ≡ true)) }
    ensures none { IfOk result (λ o. (o ≡ None) ↔ (Together g.now e f → ⊥)) }
{
    g.keeps_limits();
    let met = with_ends(g, with_ends(g, VSet::empty(), e), f);
    match perfect_off(alloc, g, kept, met)? {
        Some(rest) => {
            let one = rest.joined(alloc, g, e)?;
            Ok(Some(one.joined(alloc, g, f)?))
        }
        None => Ok(None),
    }
}

/// A perfect matching of G - met, from a perfect matching of G whose edges without an end in `met`
/// miss at most two of the other vertices; `None` if and only if G - met has none.
fn perfect_off(
    alloc: Global,
    g: &MultiGraph,
    kept: &Matching,
    met: VSet,
) -> Result<Option<Matching>, Memory>
    requires of { IsOf g.now kept.now }
    requires within { (v : ℕ) → mem met v ≡ true → Within g.now.order v }
    requires few { LeavesFew g.now (mem met) (mem (edges_of kept.now)) }
    ensures of { IfOk result (λ o. (m : _) → o ≡ Some m → IsOf g.now m) }
    ensures perfect { IfOk result
        (λ o. (m : _) → o ≡ Some m → IsPerfect g.now (mem met) (mem (edges_of m))) }
    ensures none { IfOk result (λ o. (o ≡ None) ↔ (HasPerfect g.now (mem met) → ⊥)) }
{
    let rest = kept.cleared(alloc, met)?;
    if misses_none(g, &rest, met) {
        return Ok(Some(rest));
    }
    match completed(alloc, g, met, &rest)? {
        Some(found) => Ok(Some(found)),
        None => repair(alloc, g, met, &rest),
    }
}

/// Whether a matching of G - met misses no other vertex.
pub fn misses_none(g: &MultiGraph, m: &Matching, met: VSet) -> bool
    requires { IsMatchingOff g.now met m.now }
    ensures { result ≡ (missed_count g.now (mem met) (mem (edges_of m.now)) == 0) }
{
    g.keeps_limits();
    m.keeps_matching();
    met.rises();
    m.len() * 2 + met.len() as usize == g.order() as usize
}

/// The set with the ends of an edge.
fn with_ends(g: &MultiGraph, set: VSet, e: u32) -> VSet
    requires { Within (size g.now) e }
    ensures { (v : ℕ) → mem result v ≡
        ((mem set v || (first_end g.now e == v)) || (second_end g.now e == v)) }
{
    g.keeps_limits();
    let ends = g.ends(e);
    set.with(ends.a).with(ends.b)
}
