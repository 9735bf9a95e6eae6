//! The tests of an ear on a stage, by a row of marks.
ghost use Rattle.std.specs.Prelude.{◌≡◌, ◌+◌, ◌<◌, ◌||◌, ◌&&◌, ◌==◌, ℕ, true, false, not, length, All, Some, None, IfOk, IfErr, List};
ghost use Rattle.std.specs.List.{find};
ghost use Rattle.graph_core.specs.from_counting.Common.{Within, is_odd, mem};
ghost use Rattle.graph_core.specs.Common.{size};
ghost use Rattle.two_ears.specs.from_match_search.Common.{marks};
ghost use Rattle.ear_core.specs.Common.{IsMarked, ear_fault, inner_vertices, has_new_edges, no_member, why_of};

use crate::ears::Ear;
use crate::judgement::EarWhy;
use crate::marked::Marked;
use crate::paths::{EarPath, path_of};
use graph_core::MultiGraph;
use graph_core::vset_core::{MOST_VERTICES, VSet};

// Whether `n` is among the numbers.
fn holds(numbers: &[u32], n: u32) -> bool
    ensures { result ≡ mem numbers.now n }
{
    let mut rest = numbers;
    'numbers: while let Some((v, behind)) = rest.split_first() {
        if *v == n {
            return true;
        }
        rest = behind;
    }
    false
}

/// The first edge that is marked or among the used ones.
pub fn first_used(mark: &[bool], used: &[u32], edges: &[u32]) -> Option<u32>
    requires { All (λ e. e < length mark.now) edges.now }
    ensures { result ≡ find (λ e. marks mark.now e || mem used.now e) edges.now }
{
    let mut rest = edges;
    'edges: while let Some((e, others)) = rest.split_first() {
        if mark[*e as usize] || holds(used, *e) {
            return Some(*e);
        }
        rest = others;
    }
    None
}

// Whether no edge is marked or among the used ones.
fn are_new(mark: &[bool], used: &[u32], edges: &[u32]) -> bool
    requires { All (λ e. e < length mark.now) edges.now }
    ensures { result ≡ has_new_edges (marks mark.now) used.now edges.now }
{
    first_used(mark, used, edges).is_none()
}

// Whether two ends are in the set and differ.
fn are_good_ends(met: VSet, from: u32, last: u32) -> bool
    requires from { Within MOST_VERTICES from }
    requires last { Within MOST_VERTICES last }
    ensures { result ≡ (mem met from && (mem met last && not (from == last))) }
{
    met.contains(from) && met.contains(last) && from != last
}

// Whether no vertex is in both sets.
fn is_free(inner: VSet, taken: VSet) -> bool
    ensures { result ≡ no_member (mem taken) inner }
{
    inner.meet(taken).len() == 0
}

// Whether a number is odd.
fn is_odd(n: usize) -> bool
    ensures { result ≡ is_odd n }
{
    n % 2 == 1
}

/// The path that an ear is, or the first test that it fails on the stage that is marked, beside the
/// inner vertices and the edges of the first ear of its step.
pub fn tested(
    g: &MultiGraph,
    marked: &Marked,
    inner: VSet,
    used: &[u32],
    ear: &Ear,
) -> Result<EarPath, EarWhy>
    requires marked { IsMarked g.now marked.now }
    requires begin { Within g.now.order ear.now.from }
    requires edges { All (Within (size g.now)) ear.now.edges }
    ensures fault { IfErr result (λ why. ear_fault g.now (marks marked.now.mark.items) inner
        used.now ear.now.from ear.now.edges ≡ Some (why_of why)) }
    ensures passes { IfOk result (λ p. ear_fault g.now (marks marked.now.mark.items) inner
        used.now ear.now.from ear.now.edges ≡ None) }
    ensures inner { IfOk result
        (λ p. (w : ℕ) → mem p.inner w ≡ mem (inner_vertices g.now ear.now.from ear.now.edges) w) }
{
    g.keeps_limits();
    let Ok(path) = path_of(g, ear) else {
        return Err(EarWhy::NotPath);
    };
    if !is_odd(ear.edges.len()) {
        return Err(EarWhy::EvenLength);
    }
    if !are_good_ends(marked.met, ear.from, path.last) {
        return Err(EarWhy::BadEnds);
    }
    if !is_free(path.inner, marked.met.union(inner)) {
        return Err(EarWhy::InnerOnStage);
    }
    if !are_new(&marked.mark, used, ear.edges.as_slice()) {
        return Err(EarWhy::EdgeUsed);
    }
    Ok(path)
}
