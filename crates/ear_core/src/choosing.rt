//! The choice of a step among ears that two perfect matchings make.
ghost use Rattle.std.specs.Prelude.{◌≡◌, ℕ, map, IfOk, IfSome, IfNone};
ghost use Rattle.std.specs.List.{AllByRecursion};
ghost use Rattle.graph_core.specs.from_counting.Common.{Within, mem, Set};
ghost use Rattle.graph_core.specs.Common.{size, IsBipartite};
ghost use Rattle.two_ears.specs.from_match_search.Common.{marks};
ghost use Rattle.ear_core.specs.Common.{ends_of_ear, AreCandidates, AreEars, IsChosen, IsAsked, FindsAlone, FindsBeside, FindsTwo, NoneServes, NoneServesBeside, NoTwoServe, next_stage, IsStep, IsSingle, IsNeeded, FitsEar, IsStage, ear_of, last_vertex, step_of};

use crate::asking::{Asked, serves};
use crate::ears::{Ear, Step};
use crate::stage::Stage;
use crate::tracing::across;
use graph_core::vset_core::VSet;
use graph_core::{MultiGraph, Numbers};
use std::alloc::{AllocError as Memory, Global};

// A copy of an ear.
fn copy_of(alloc: Global, ear: &Ear) -> Result<Ear, Memory>
    ensures { IfOk result (λ copy. ear_of copy ≡ ear_of ear.now) }
{
    let mut edges = Numbers::new(alloc);
    let mut rest = ear.edges.as_slice();
    'edges: while let Some((e, others)) = rest.split_first() {
        edges.push(*e)?;
        rest = others;
    }
    Ok(Ear {
        from: ear.from,
        edges,
    })
}

/// The last vertex of an ear.
pub fn last_of(g: &MultiGraph, ear: &Ear) -> u32
    requires { FitsEar g.now.order (size g.now) (ear_of ear.now) }
    ensures last { result ≡ last_vertex g.now ear.now.from ear.now.edges }
    ensures within { Within g.now.order result }
{
    g.keeps_limits();
    let mut last = ear.from;
    let mut rest = ear.edges.as_slice();
    'edges: while let Some((e, others)) = rest.split_first() {
        last = across(g, *e, last);
        rest = others;
    }
    last
}

// The two ends of an ear.
fn ends_of(g: &MultiGraph, ear: &Ear) -> VSet
    requires { FitsEar g.now.order (size g.now) (ear_of ear.now) }
    ensures { (w : ℕ) → mem result w ≡ ends_of_ear g.now (ear_of ear.now) w }
{
    g.keeps_limits();
    VSet::one(ear.from).with(last_of(g, ear))
}

// A copy of the first ear that serves alone: its ends are partners on the stage.
fn first_alone(
    alloc: Global,
    g: &MultiGraph,
    stage: &mut Stage,
    ears: &[Ear],
) -> Result<Option<Ear>, Memory>
    requires fits { AllByRecursion (FitsEar g.now.order (size g.now)) (map ear_of ears.now) }
    requires order { stage.old.stage.order ≡ g.now.order }
    ensures same { stage.new ≡ stage.old }
    ensures some { (f : Set) → IsAsked g.now f stage.old →
        AreEars g.now f (map ear_of ears.now) → IfOk result
        (λ o. IfSome o (λ ear. FindsAlone g.now f (map ear_of ears.now) (ear_of ear))) }
    ensures none { (f : Set) → IsAsked g.now f stage.old →
        AreEars g.now f (map ear_of ears.now) →
        IfOk result (λ o. IfNone o (NoneServes g.now f (map ear_of ears.now))) }
{
    g.keeps_limits();
    let Some((ear, others)) = ears.split_first() else {
        return Ok(None);
    };
    let row = stage.partners(alloc, ear.from)?;
    if row.contains(last_of(g, ear)) {
        let found = copy_of(alloc, ear)?;
        return Ok(Some(found));
    }
    first_alone(alloc, g, stage, others)
}

// A copy of the first ear whose ends serve together with the vertices `beside`.
fn first_serving(
    alloc: Global,
    g: &MultiGraph,
    asked: &Asked,
    beside: VSet,
    ears: &[Ear],
) -> Result<Option<Ear>, Memory>
    requires { AllByRecursion (FitsEar g.now.order (size g.now)) (map ear_of ears.now) }
    ensures some { (f x : Set) → IsAsked g.now f asked.now → ((v : ℕ) → mem beside v ≡ x v) →
        IfOk result (λ o. IfSome o
        (λ ear. FindsBeside g.now f x (map ear_of ears.now) (ear_of ear))) }
    ensures none { (f x : Set) → IsAsked g.now f asked.now → ((v : ℕ) → mem beside v ≡ x v) →
        IfOk result (λ o. IfNone o (NoneServesBeside g.now f x (map ear_of ears.now))) }
{
    let Some((ear, others)) = ears.split_first() else {
        return Ok(None);
    };
    if serves(alloc, asked, beside.union(ends_of(g, ear)))? {
        let found = copy_of(alloc, ear)?;
        return Ok(Some(found));
    }
    first_serving(alloc, g, asked, beside, others)
}

// The step of the first two ears, in lexicographic order, that serve together.
fn double_step(
    alloc: Global,
    g: &MultiGraph,
    asked: &Asked,
    ears: &[Ear],
) -> Result<Option<Step>, Memory>
    requires { AllByRecursion (FitsEar g.now.order (size g.now)) (map ear_of ears.now) }
    ensures some { (f : Set) → IsAsked g.now f asked.now →
        IfOk result (λ o. IfSome o
        (λ step. FindsTwo g.now f (map ear_of ears.now) (step_of step))) }
    ensures none { (f : Set) → IsAsked g.now f asked.now →
        IfOk result (λ o. IfNone o (NoTwoServe g.now f (map ear_of ears.now))) }
{
    let Some((ear, others)) = ears.split_first() else {
        return Ok(None);
    };
    if let Some(second) = first_serving(alloc, g, asked, ends_of(g, ear), others)? {
        let first = copy_of(alloc, ear)?;
        let second = Some(second);
        return Ok(Some(Step { first, second }));
    }
    double_step(alloc, g, asked, others)
}

/// A step of candidates on the stage of the marked edges: the first ear that serves alone, else the
/// first two that serve together, neither of which then keeps the stage matching covered alone. One
/// or two do, by the two-ear theorem.
pub fn choose(
    alloc: Global,
    g: &MultiGraph,
    mark: &[bool],
    stage: &mut Stage,
    ears: &[Ear],
) -> Result<Step, Memory>
    requires asked { IsAsked g.now (marks mark.now) stage.old }
    requires stage { IsStage g.now (marks mark.now) }
    requires candidates { AreCandidates g.now (marks mark.now) (map ear_of ears.now) }
    ensures same { stage.new ≡ stage.old }
    ensures chosen { IfOk result (λ step. IsChosen (map ear_of ears.now) (step_of step)) }
    ensures step { IfOk result (λ step. IsStep g.now (marks mark.now) (step_of step)) }
    ensures stage { IfOk result
        (λ step. IsStage g.now (next_stage (marks mark.now) (step_of step))) }
    ensures needed { IfOk result (λ step. IsNeeded g.now (marks mark.now) (step_of step)) }
    ensures single { IfOk result (λ step. IsBipartite g.now → IsSingle (step_of step)) }
{
    g.keeps_limits();
    if let Some(first) = first_alone(alloc, g, stage, ears)? {
        let second = None;
        return Ok(Step { first, second });
    }
    match double_step(alloc, g, stage.asked(), ears)? {
        Some(step) => Ok(step),
        None => unreachable!(),
    }
}
