//! Perfect matchings under conditions.
ghost use Rattle.std.specs.Prelude.{◌≡◌, ◌+◌, length, ◌↔◌, IfOk, Some, None, All};
ghost use Rattle.graph_core.specs.from_counting.Common.{Within, none, mem};
ghost use Rattle.graph_core.specs.Common.{size, IsPerfect, HasPerfect};
ghost use Rattle.match_search.specs.Common.{marks, HoldsAll, HasPerfectWith, MeetOnce};
ghost use Rattle.match_core.specs.Common.{IsOf, edges_of};

use crate::matching::{Matching, matching_of};
use graph_core::vset_core::VSet;
use graph_core::{MultiGraph, Numbers};
use match_search::{Best, falses, find_best, is_addable, is_marked, mark_place, mark_places};
use std::alloc::{AllocError as Memory, Global};

/// A perfect matching of G - removed, as a matching of `g`; `None` if and only if G - removed has
/// none. Takes one maximum matching, O(n^4 + m) steps on words at most (see `frame`); the only
/// error is `Memory`.
pub fn perfect_without(
    alloc: Global,
    g: &MultiGraph,
    removed: VSet,
) -> Result<Option<Matching>, Memory>
    ensures of { IfOk result (λ o. (m : _) → o ≡ Some m → IsOf g.now m) }
    ensures perfect { IfOk result
        (λ o. (m : _) → o ≡ Some m → IsPerfect g.now (mem removed) (mem (edges_of m))) }
    ensures none { IfOk result (λ o. (o ≡ None) ↔ (HasPerfect g.now (mem removed) → ⊥)) }
{
    match perfect_marks(alloc, g, removed)? {
        Some(mark) => Ok(Some(matching_of(alloc, g, &mark)?)),
        None => Ok(None),
    }
}

/// A perfect matching of `g` that contains all the edges; `None` if and only if there is none.
/// Takes one maximum matching, O(n^4 + m) steps on words at most (see `frame`); the only error is
/// `Memory`.
pub fn perfect_with(
    alloc: Global,
    g: &MultiGraph,
    edges: &Numbers,
) -> Result<Option<Matching>, Memory>
    requires { All (Within (size g.now)) edges.now }
    ensures of { IfOk result (λ o. (m : _) → o ≡ Some m → IsOf g.now m) }
    ensures perfect { IfOk result
        (λ o. (m : _) → o ≡ Some m → IsPerfect g.now none (mem (edges_of m))) }
    ensures holds { IfOk result
        (λ o. (m : _) → o ≡ Some m → HoldsAll edges.now (mem (edges_of m))) }
    ensures none { IfOk result (λ o. (o ≡ None) ↔ (HasPerfectWith g.now edges.now → ⊥)) }
{
    match marks_with(alloc, g, edges.as_slice())? {
        Some(mark) => Ok(Some(matching_of(alloc, g, &mark)?)),
        None => Ok(None),
    }
}

// The marks of a perfect matching that contains the edges, if there is one.
fn marks_with(alloc: Global, g: &MultiGraph, edges: &[u32]) -> Result<Option<Vec<bool>>, Memory>
    requires { All (Within (size g.now)) edges.now }
    ensures long { IfOk result
        (λ o. (mark : _) → o ≡ Some mark → length mark.items ≡ size g.now + 1) }
    ensures perfect { IfOk result
        (λ o. (mark : _) → o ≡ Some mark → IsPerfect g.now none (marks mark.items)) }
    ensures holds { IfOk result
        (λ o. (mark : _) → o ≡ Some mark → HoldsAll edges.now (marks mark.items)) }
    ensures none { IfOk result (λ o. (o ≡ None) ↔ (HasPerfectWith g.now edges.now → ⊥)) }
{
    g.keeps_limits();
    match ends_met(alloc, g, edges)? {
        None => Ok(None),
        Some(met) => match perfect_marks(alloc, g, met)? {
            None => Ok(None),
            Some(mut mark) => {
                mark_places(&mut mark, edges);
                Ok(Some(mark))
            }
        },
    }
}

// The ends of the edges, if no two edges share an end.
fn ends_met(alloc: Global, g: &MultiGraph, edges: &[u32]) -> Result<Option<VSet>, Memory>
    requires { All (Within (size g.now)) edges.now }
    ensures once { IfOk result
        (λ o. (met : _) → o ≡ Some met → MeetOnce g.now (mem edges.now) (mem met)) }
    ensures none { IfOk result (λ o. o ≡ None → HasPerfectWith g.now edges.now → ⊥) }
{
    let ends = g.edges();
    let mut mark = falses(alloc, ends.len() + 1)?;
    let mut met = VSet::empty();
    for edge in edges {
        if !is_marked(&mark, *edge) {
            let e = ends[*edge as usize - 1];
            if !is_addable(e, met) {
                return Ok(None);
            }
            mark_place(&mut mark, *edge as usize);
            met = met.with(e.a).with(e.b);
        }
    }
    Ok(Some(met))
}

// The marks of a perfect matching of G - removed, if there is one.
fn perfect_marks(alloc: Global, g: &MultiGraph, removed: VSet) -> Result<Option<Vec<bool>>, Memory>
    ensures long { IfOk result
        (λ o. (mark : _) → o ≡ Some mark → length mark.items ≡ size g.now + 1) }
    ensures perfect { IfOk result
        (λ o. (mark : _) → o ≡ Some mark → IsPerfect g.now (mem removed) (marks mark.items)) }
    ensures none { IfOk result (λ o. (o ≡ None) ↔ (HasPerfect g.now (mem removed) → ⊥)) }
{
    g.keeps_limits();
    let Best { mark, sets } = find_best(alloc, g, removed)?;
    if sets.outer.len() == 0 {
        return Ok(Some(mark));
    }
    Ok(None)
}
