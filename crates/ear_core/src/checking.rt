//! The check of an ear list, step by step on the marks of a stage.
ghost use Rattle.std.specs.Prelude.{◌≡◌, map, [], true, IfOk};
ghost use Rattle.std.specs.List.{AllByRecursion};
ghost use Rattle.graph_core.specs.Common.{IsCovered, size};
ghost use Rattle.two_ears.specs.from_match_search.Common.{marks};
ghost use Rattle.ear_core.specs.Common.{FitsEars, FitsStep, AcceptsList, IsAskedBefore, IsJudged, IsMarked, IsStage, RefusesList, ears_of, refusal_of, step_of};

use crate::ears::{EarList, Step};
use crate::judgement::{EarJudgement, EarWhy};
use crate::marked::Marked;
use crate::stage::Stage;
use crate::steps::take_step;
use graph_core::MultiGraph;
use std::alloc::{AllocError as Memory, Global};
use two_ears::graph_facts::Covered;

/// Whether `list` is an ear list of `g`, and if it is not one, its first refusal: steps are
/// numbered from 1, and at a step its first ear is tested by 1 to 5 of `EarWhy` in order, then its
/// second ear likewise, then its new stage. Its numbers are a vertex and edges of `g`. Takes O(m
/// (n^4 + m)) steps on words at most: a maximum matching and n searches for each step that adds two
/// ears or joins no two partners. The only error is `Memory`. The ear lists of a matching covered
/// graph are those of Lovász and Plummer.
///
/// Here `hexagon` makes the cycle of the vertices 1 to 6:
///
/// ```
/// let graph = hexagon(alloc)?;
/// let Ok(covered) = Covered::of(alloc, &graph)? else {
///     return Err("not matching covered".into());
/// };
/// covered.keeps_covered();
/// let list = build_ears(alloc, &graph)?;
/// assert!(rt; matches!(check_ears(alloc, &graph, &list)?, EarJudgement::Accepted));
/// ```
pub fn check_ears(alloc: Global, g: &MultiGraph, list: &EarList) -> Result<EarJudgement, Memory>
    requires { FitsEars g.now.order (size g.now) (ears_of list.now) }
    ensures accepted { IfOk result (λ j. AcceptsList g.now (ears_of list.now) (refusal_of j)) }
    ensures refused { IfOk result (λ j. RefusesList g.now (ears_of list.now) (refusal_of j)) }
{
    check_list(alloc, g, false, list)
}

/// What `check_ears` returns for a list of a covered graph. The stage of all its edges is known to
/// be covered, so that no edge of that stage is asked and no matching of it is made. Costs what
/// `check_ears` costs at most; the only error is `Memory`.
pub fn check_ears_of(alloc: Global, c: &Covered, list: &EarList) -> Result<EarJudgement, Memory>
    requires { FitsEars c.now.order (size c.now) (ears_of list.now) }
    ensures accepted { IfOk result (λ j. AcceptsList c.now (ears_of list.now) (refusal_of j)) }
    ensures refused { IfOk result (λ j. RefusesList c.now (ears_of list.now) (refusal_of j)) }
{
    check_list(alloc, c.graph(), true, list)
}

// What is returned for a list of ears of a graph that may be known to be covered.
fn check_list(
    alloc: Global,
    g: &MultiGraph,
    covered: bool,
    list: &EarList,
) -> Result<EarJudgement, Memory>
    requires covered { covered ≡ true → IsCovered g.now }
    requires fits { FitsEars g.now.order (size g.now) (ears_of list.now) }
    ensures accepted { IfOk result (λ j. AcceptsList g.now (ears_of list.now) (refusal_of j)) }
    ensures refused { IfOk result (λ j. RefusesList g.now (ears_of list.now) (refusal_of j)) }
{
    g.keeps_limits();
    let mut marked = Marked::one(alloc, g, list.start)?;
    let mut stage = Stage::of(alloc, g, &marked.mark, marked.met)?;
    let steps = list.steps.as_slice();
    check_steps(alloc, g, covered, &mut marked, &mut stage, steps)
}

// What is returned for steps from the stage that is marked.
fn check_steps(
    alloc: Global,
    g: &MultiGraph,
    covered: bool,
    marked: &mut Marked,
    stage: &mut Stage,
    steps: &[Step],
) -> Result<EarJudgement, Memory>
    requires covered { covered ≡ true → IsCovered g.now }
    requires marked { IsMarked g.now marked.old }
    requires stage { IsStage g.now (marks marked.old.mark.items) }
    requires asked { IsAskedBefore g.now (marks marked.old.mark.items) stage.old }
    requires fits { AllByRecursion (FitsStep g.now.order (size g.now)) (map step_of steps.now) }
    ensures { IfOk result (λ judgement. IsJudged g.now (marks marked.old.mark.items) 0
        (map step_of steps.now) (refusal_of judgement)) }
{
    g.keeps_limits();
    let mut number = 0;
    let mut rest = steps;
    'steps: while let Some((step, others)) = rest.split_first() {
        number += 1;
        if let Some(why) = take_step(alloc, g, covered, marked, stage, step)? {
            return Ok(EarJudgement::Refused { step: number, why });
        }
        rest = others;
    }
    Ok(judge_end(g, marked, number))
}

// What is returned after the last step, from the stage that is marked.
fn judge_end(g: &MultiGraph, marked: &Marked, number: u32) -> EarJudgement
    requires { IsMarked g.now marked.now }
    ensures { IsJudged g.now (marks marked.now.mark.items) number [] (refusal_of result) }
{
    let Some(edge) = marked.least_left(g) else {
        return EarJudgement::Accepted;
    };
    let why = EarWhy::EndsEarly { edge };
    EarJudgement::Refused { step: number, why }
}
