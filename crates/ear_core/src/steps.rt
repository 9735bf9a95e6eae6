//! A step of an ear list, taken on the marks of a stage.
ghost use Rattle.std.specs.Prelude.{◌≡◌, ℕ, true, All, Some, None, IfOk, IfSome, IfNone};
ghost use Rattle.graph_core.specs.from_counting.Common.{Set, Within, none};
ghost use Rattle.graph_core.specs.Common.{IsCovered, size};
ghost use Rattle.two_ears.specs.from_match_search.Common.{marks};
ghost use Rattle.ear_core.specs.Common.{FitsStep, IsAsked, IsAskedBefore, IsMarked, IsStep, next_stage, step_fault, Settled, IsStage, IsTaken, step_of, why_of};

use crate::choosing::last_of;
use crate::ears::Step;
use crate::faults::tested;
use crate::judgement::EarWhy;
use crate::marked::Marked;
use crate::stage::Stage;
use crate::stages::least_refused;
use graph_core::MultiGraph;
use graph_core::vset_core::VSet;
use std::alloc::{AllocError as Memory, Global};

// The first test that a step fails on a stage.
fn fault_of(g: &MultiGraph, marked: &Marked, step: &Step) -> Option<EarWhy>
    requires marked { IsMarked g.now marked.now }
    requires fits { FitsStep g.now.order (size g.now) (step_of step.now) }
    ensures some { IfSome result (λ why. step_fault g.now (marks marked.now.mark.items)
        (step_of step.now) ≡ Some (why_of why)) }
    ensures none { IfNone result
        (step_fault g.now (marks marked.now.mark.items) (step_of step.now) ≡ None) }
{
    let first = match tested(g, marked, VSet::empty(), &[], &step.first) {
        Ok(path) => path,
        Err(why) => return Some(why),
    };
    match &step.second {
        None => None,
        Some(second) => {
            let used = step.first.edges.as_slice();
            match tested(g, marked, first.inner, used, second) {
                Ok(_) => None,
                Err(why) => Some(why),
            }
        }
    }
}

// The least edge of a step in no perfect matching of a stage that holds it.
fn refused_edge(
    alloc: Global,
    g: &MultiGraph,
    mark: &[bool],
    stage: &mut Stage,
    step: &Step,
) -> Result<Option<u32>, Memory>
    requires asked { IsAsked g.now (marks mark.now) stage.old }
    requires first { All (Within (size g.now)) step.now.first.edges }
    requires second { IfSome step.now.second (λ ear. All (Within (size g.now)) ear.edges) }
    requires marked_first { All (λ e. marks mark.now e ≡ true) step.now.first.edges }
    requires marked_second { IfSome step.now.second
        (λ ear. All (λ e. marks mark.now e ≡ true) ear.edges) }
    ensures same { stage.new ≡ stage.old }
    ensures settled { IfOk result
        (Settled g.now (marks mark.now) (next_stage none (step_of step.now))) }
{
    let least = least_refused(alloc, g, stage, None, step.first.edges.as_slice())?;
    match &step.second {
        None => Ok(least),
        Some(second) => least_refused(alloc, g, stage, least, second.edges.as_slice()),
    }
}

// Whether the step adds one ear, whose ends are known to be partners on the stage before it: they
// are partners on an earlier one.
fn joins_partners(
    alloc: Global,
    g: &MultiGraph,
    stage: &mut Stage,
    step: &Step,
) -> Result<bool, Memory>
    requires fits { FitsStep g.now.order (size g.now) (step_of step.now) }
    requires order { stage.old.stage.order ≡ g.now.order }
    ensures same { stage.new ≡ stage.old }
    ensures known { IfOk result (λ b. b ≡ true → (f : Set) → IsAskedBefore g.now f stage.old →
        IsStage g.now f → IsStep g.now f (step_of step.now) →
        IsStage g.now (next_stage f (step_of step.now))) }
{
    g.keeps_limits();
    match &step.second {
        Some(_) => Ok(false),
        None => {
            let row = stage.partners(alloc, step.first.from)?;
            Ok(row.contains(last_of(g, &step.first)))
        }
    }
}

// Whether every edge of a covered graph is marked. Of another graph this is not asked.
fn is_whole(g: &MultiGraph, covered: bool, marked: &Marked) -> bool
    requires { IsMarked g.now marked.now }
    ensures covered { result ≡ true → covered ≡ true }
    ensures edges { result ≡ true → (e : ℕ) → Within (size g.now) e →
        marks marked.now.mark.items e ≡ true }
{
    covered && marked.least_left(g).is_none()
}

// Whether it is known without a matching that the stage after a step is covered: the step adds one
// ear between partners on an earlier stage, or the stage is a graph that is known to be covered.
fn is_known(
    alloc: Global,
    g: &MultiGraph,
    covered: bool,
    marked: &Marked,
    stage: &mut Stage,
    step: &Step,
) -> Result<bool, Memory>
    requires covered { covered ≡ true → IsCovered g.now }
    requires marked { IsMarked g.now marked.now }
    requires fits { FitsStep g.now.order (size g.now) (step_of step.now) }
    requires order { stage.old.stage.order ≡ g.now.order }
    ensures same { stage.new ≡ stage.old }
    ensures known { IfOk result (λ b. b ≡ true → (f : Set) → IsAskedBefore g.now f stage.old →
        IsStage g.now f → IsStep g.now f (step_of step.now) →
        ((i : ℕ) → marks marked.now.mark.items i ≡ next_stage f (step_of step.now) i) →
        IsStage g.now (next_stage f (step_of step.now))) }
{
    g.keeps_limits();
    if is_whole(g, covered, marked) {
        return Ok(true);
    }
    let joins = joins_partners(alloc, g, stage, step)?;
    Ok(joins)
}

/// Takes a step on the stage that is marked: then its edges are marked too, or it is refused, with
/// the reason. A single ear between partners on an earlier stage is not asked further, nor is the
/// stage of all edges of a graph that is known to be covered. Any other stage after the step is
/// asked edge by edge, and is the one that is known from then on.
pub fn take_step(
    alloc: Global,
    g: &MultiGraph,
    covered: bool,
    marked: &mut Marked,
    stage: &mut Stage,
    step: &Step,
) -> Result<Option<EarWhy>, Memory>
    requires covered { covered ≡ true → IsCovered g.now }
    requires marked { IsMarked g.now marked.old }
    requires fits { FitsStep g.now.order (size g.now) (step_of step.now) }
    requires stage { IsStage g.now (marks marked.old.mark.items) }
    requires asked { IsAskedBefore g.now (marks marked.old.mark.items) stage.old }
    ensures marked { IsMarked g.now marked.new }
    ensures taken { IfOk result (IsTaken g.now (marks marked.old.mark.items) (step_of step.now)
        (marks marked.new.mark.items)) }
    ensures asked { IfOk result
        (λ why. IfNone why (IsAskedBefore g.now (marks marked.new.mark.items) stage.new)) }
{
    g.keeps_limits();
    if let Some(why) = fault_of(g, marked, step) {
        return Ok(Some(why));
    }
    marked.add(g, step);
    let known = is_known(alloc, g, covered, marked, stage, step)?;
    if known {
        return Ok(None);
    }
    *stage = Stage::of(alloc, g, &marked.mark, marked.met)?;
    match refused_edge(alloc, g, &marked.mark, stage, step)? {
        Some(edge) => Ok(Some(EarWhy::StageNotCovered { edge })),
        None => Ok(None),
    }
}
