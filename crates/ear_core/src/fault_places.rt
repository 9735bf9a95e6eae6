//! Where the fault of a step shows.
ghost use Rattle.std.specs.Prelude.{◌≡◌, ℕ, true, map, None, is_some, IfErr, IfOk};
ghost use Rattle.std.specs.List.{AllByRecursion};
ghost use Rattle.graph_core.specs.from_counting.Common.{Set, Within, mem};
ghost use Rattle.graph_core.specs.Common.{Graph, size};
ghost use Rattle.two_ears.specs.from_match_search.Common.{marks};
ghost use Rattle.ear_core.specs.Common.{FitsEar, FitsEars, FitsStep, IsMarked, ear_fault, ear_of, ears_of, edge_of_fault, entering, fault_edge, fault_place, inner_vertices, is_met, nowhere, place_from, place_in_step, place_of_two, step_of, why_of, wrong_end};

use crate::ears::{Ear, EarList, Step};
use crate::faults::{first_used, tested};
use crate::judgement::EarWhy;
use crate::marked::Marked;
use crate::paths::{EarPath, path_of};
use crate::tracing::across;
use graph_core::MultiGraph;
use graph_core::vset_core::{MOST_VERTICES, VSet};
use refusals::{EarOfTwo, EarPlace};
use std::alloc::{AllocError as Memory, Global};

/// Where the fault of a step of `list` shows: at which of its two ears, and at which edge of that
/// ear first. Steps are counted from 1. If no ear of the step is at fault, the place names neither.
/// No matching is made: takes O(m + k) time for k edges in the steps up to this one. The only error
/// is `Memory`, for the marks of the edges.
pub fn fault_place(
    alloc: Global,
    g: &MultiGraph,
    list: &EarList,
    step: u32,
) -> Result<EarPlace, Memory>
    requires { FitsEars g.now.order (size g.now) (ears_of list.now) }
    ensures { IfOk result (λ place. place ≡ fault_place g.now (ears_of list.now) step) }
{
    let mut marked = Marked::one(alloc, g, list.start)?;
    let place = place_from(g, &mut marked, list.steps.as_slice(), step);
    Ok(place)
}

// The place in the step with a number, of steps from the stage that is marked on.
fn place_from(g: &MultiGraph, marked: &mut Marked, steps: &[Step], number: u32) -> EarPlace
    requires marked { IsMarked g.now marked.old }
    requires fits { AllByRecursion (FitsStep g.now.order (size g.now)) (map step_of steps.now) }
    ensures { result ≡
        place_from g.now (marks marked.old.mark.items) (map step_of steps.now) number }
{
    let mut left = number;
    let mut rest = steps;
    'steps: while let Some((step, others)) = rest.split_first() {
        if left == 1 {
            return place_in_step(g, marked, step);
        }
        marked.add(g, step);
        left = left.saturating_sub(1);
        rest = others;
    }
    nowhere()
}

// No place.
fn nowhere() -> EarPlace
    ensures { result ≡ nowhere }
{
    EarPlace {
        ear: None,
        edge: None,
    }
}

// The place in a step on the stage that is marked.
fn place_in_step(g: &MultiGraph, marked: &Marked, step: &Step) -> EarPlace
    requires marked { IsMarked g.now marked.now }
    requires fits { FitsStep g.now.order (size g.now) (step_of step.now) }
    ensures { result ≡ place_in_step g.now (marks marked.now.mark.items) (step_of step.now) }
{
    match &step.second {
        Some(second) => place_of_two(g, marked, &step.first, second),
        None => match passed(g, marked, VSet::empty(), &[], &step.first) {
            Ok(_) => nowhere(),
            Err(edge) => EarPlace { ear: None, edge },
        },
    }
}

// The place in a step of two ears on the stage that is marked.
fn place_of_two(g: &MultiGraph, marked: &Marked, first: &Ear, second: &Ear) -> EarPlace
    requires marked { IsMarked g.now marked.now }
    requires first { FitsEar g.now.order (size g.now) (ear_of first.now) }
    requires second { FitsEar g.now.order (size g.now) (ear_of second.now) }
    ensures { result ≡ place_of_two g.now (marks marked.now.mark.items) (ear_of first.now)
        (ear_of second.now) }
{
    let path = match passed(g, marked, VSet::empty(), &[], first) {
        Ok(path) => path,
        Err(edge) => {
            let ear = Some(EarOfTwo::First);
            return EarPlace { ear, edge };
        }
    };
    match passed(g, marked, path.inner, first.edges.as_slice(), second) {
        Ok(_) => nowhere(),
        Err(edge) => {
            let ear = Some(EarOfTwo::Second);
            EarPlace { ear, edge }
        }
    }
}

// The path that an ear is, or the edge at which it first shows that it fails a test of `tested`.
fn passed(
    g: &MultiGraph,
    marked: &Marked,
    inner: VSet,
    used: &[u32],
    ear: &Ear,
) -> Result<EarPath, Option<u32>>
    requires marked { IsMarked g.now marked.now }
    requires fits { FitsEar g.now.order (size g.now) (ear_of ear.now) }
    ensures fault { IfErr result
        (λ edge. is_some (ear_fault g.now (marks marked.now.mark.items) inner used.now ear.now.from
        ear.now.edges) ≡ true) }
    ensures edge { IfErr result (λ edge. edge ≡ fault_edge g.now (marks marked.now.mark.items)
        inner used.now ear.now.from ear.now.edges) }
    ensures passes { IfOk result (λ p. ear_fault g.now (marks marked.now.mark.items) inner
        used.now ear.now.from ear.now.edges ≡ None) }
    ensures inner { IfOk result
        (λ p. (w : ℕ) → mem p.inner w ≡ mem (inner_vertices g.now ear.now.from ear.now.edges) w) }
{
    match tested(g, marked, inner, used, ear) {
        Ok(path) => Ok(path),
        Err(why) => Err(edge_of_fault(g, marked, inner, used, ear, why)),
    }
}

// The edge at which an ear first shows that it fails a test.
fn edge_of_fault(
    g: &MultiGraph,
    marked: &Marked,
    inner: VSet,
    used: &[u32],
    ear: &Ear,
    why: EarWhy,
) -> Option<u32>
    requires marked { IsMarked g.now marked.now }
    requires fits { FitsEar g.now.order (size g.now) (ear_of ear.now) }
    ensures { result ≡ edge_of_fault g.now (marks marked.now.mark.items) inner used.now
        ear.now.from ear.now.edges (why_of why) }
{
    g.keeps_limits();
    match why {
        EarWhy::NotPath => match path_of(g, ear) {
            Ok(_) => None,
            Err(edge) => edge,
        },
        EarWhy::BadEnds => wrong_end(marked.met, ear),
        EarWhy::InnerOnStage => entering(g, marked.met.union(inner), ear),
        EarWhy::EdgeUsed => first_used(&marked.mark, used, ear.edges.as_slice()),
        EarWhy::EvenLength | EarWhy::StageNotCovered { .. } | EarWhy::EndsEarly { .. } => None,
    }
}

// The edge at the end that is wrong, of an ear one of whose ends is.
fn wrong_end(met: VSet, ear: &Ear) -> Option<u32>
    requires { Within MOST_VERTICES ear.now.from }
    ensures { (g : Graph) (f : Set) → ((v : ℕ) → mem met v ≡ is_met g f v) →
        result ≡ wrong_end g f ear.now.from ear.now.edges }
{
    let edges = ear.edges.as_slice();
    if met.contains(ear.from) {
        edges.last().copied()
    } else {
        edges.first().copied()
    }
}

// The first edge of an ear that leads to an inner vertex in `taken`.
fn entering(g: &MultiGraph, taken: VSet, ear: &Ear) -> Option<u32>
    requires { FitsEar g.now.order (size g.now) (ear_of ear.now) }
    ensures { result ≡ entering g.now (mem taken) ear.now.from ear.now.edges }
{
    g.keeps_limits();
    let mut at = ear.from;
    let mut rest = ear.edges.as_slice();
    'edges: while let Some((e, others)) = rest.split_first() {
        at = across(g, *e, at);
        if taken.contains(at) && !others.is_empty() {
            return Some(*e);
        }
        rest = others;
    }
    None
}
