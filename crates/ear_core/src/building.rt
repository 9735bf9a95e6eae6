//! The builder of ear lists.
ghost use Rattle.std.specs.Prelude.{◌≡◌, ◌+◌, ◌≤◌, ◌&&◌, ◌||◌, ℕ, true, false, not, length, map, IfOk, IfSome, IfNone, OnOk};
ghost use Rattle.std.specs.List.{AllByRecursion};
ghost use Rattle.graph_core.specs.from_counting.Common.{Set, Within, complement, count, mem};
ghost use Rattle.graph_core.specs.Common.{IsCovered, size, first_end, second_end, IsBipartite};
ghost use Rattle.two_ears.specs.from_match_core.Common.{edges_of};
ghost use Rattle.two_ears.specs.from_match_search.Common.{marks};
ghost use Rattle.ear_core.specs.Common.{IsPerfectRows, KeepsMates, row_edge, AreForced, AreNeeded, AreSteps, IsAsked, IsBuilt, IsEarList, IsForced, IsMarked, IsNeeded, IsSingle, IsStep, IsUnrefinable, next_stage, FitsEars, FitsStep, HasEdges, TakesSingles, LeadsAtTwo, is_met, IsStage, ears_of, step_of};

use crate::built::Built;
use crate::choosing::choose;
use crate::ears::{EarList, Step, Steps};
use crate::lone_ears::lone_matching;
use crate::marked::Marked;
use crate::outer_table::OuterTable;
use crate::stage::Stage;
use crate::tracing::collect;
use graph_core::MultiGraph;
use graph_core::vset_core::VSet;
use std::alloc::{AllocError as Memory, Global};
use two_ears::allowed_edges::perfect_with_edge;
use two_ears::graph_facts::Covered;
use two_ears::match_core::Matching;

/// An ear list of a matching covered graph, from its edge 1. Two ears are added at once only at a
/// stage from which no ear list goes on by a single ear; neither of the two alone keeps the stage
/// matching covered, so no step can be refined. If the graph is bipartite, each step has one ear.
/// One perfect matching is kept. At each stage the edges between two partners on it, which are
/// vertices without which it has a perfect matching, are added as single ears. If there is none,
/// another perfect matching that holds an edge leading out of the stage makes ears together with
/// the kept one, and the first of these that keeps the stage matching covered is added. If no ear
/// does, a perfect matching is sought that leads out of the stage at two vertices alone: it makes a
/// single ear. Only where there is no such matching are the first two ears added that keep the
/// stage matching covered together. The numbers of the list are in range and no ear is empty
/// (`fits` and `filled`, which follow from `list`, are for calls of `check_ears` and `write_ears`
/// with the result). There are at most m stages. Each takes at most n searches for partners and two
/// augmentations, O(n^3 + m) steps on words; one where no ear does takes one maximum matching more,
/// and so does any two of at most n/2 ears that are tried together. The only error is `Memory`.
/// Source: Lovász and Plummer, "Matching Theory", section 5.4.
///
/// Here `hexagon` makes the cycle of the vertices 1 to 6:
///
/// ```
/// let graph = hexagon(alloc)?;
/// let Ok(covered) = Covered::of(alloc, &graph)? else {
///     return Err("not matching covered".into());
/// };
/// covered.keeps_covered();
/// let list = build_ears(alloc, &graph)?;
/// assert!(rt; list.start == 1 && list.steps.len() == 1);
/// ```
pub fn build_ears(alloc: Global, g: &MultiGraph) -> Result<EarList, Memory>
    requires { IsCovered g.now }
    ensures list { IfOk result (λ list. IsEarList g.now (ears_of list)) }
    ensures start { IfOk result (λ list. list.start ≡ 1) }
    ensures fits { IfOk result (λ list. FitsEars g.now.order (size g.now) (ears_of list)) }
    ensures filled { IfOk result (λ list. AllByRecursion HasEdges (ears_of list).steps) }
    ensures unrefinable { IfOk result (λ list. IsUnrefinable g.now (ears_of list)) }
    ensures singles { IfOk result (λ list. TakesSingles g.now (ears_of list)) }
    ensures single { IfOk result
        (λ list. IsBipartite g.now → AllByRecursion IsSingle (ears_of list).steps) }
{
    build_ears_of(alloc, &Covered::known(alloc, g)?)
}

/// The ear list that `build_ears` returns, of a graph that is known to be covered. It begins from
/// the perfect matching that is known. Costs what `build_ears` costs, less `Covered::of`; the only
/// error is `Memory`.
pub fn build_ears_of(alloc: Global, c: &Covered) -> Result<EarList, Memory>
    ensures list { IfOk result (λ list. IsEarList c.now (ears_of list)) }
    ensures start { IfOk result (λ list. list.start ≡ 1) }
    ensures fits { IfOk result (λ list. FitsEars c.now.order (size c.now) (ears_of list)) }
    ensures filled { IfOk result (λ list. AllByRecursion HasEdges (ears_of list).steps) }
    ensures unrefinable { IfOk result (λ list. IsUnrefinable c.now (ears_of list)) }
    ensures singles { IfOk result (λ list. TakesSingles c.now (ears_of list)) }
    ensures single { IfOk result
        (λ list. IsBipartite c.now → AllByRecursion IsSingle (ears_of list).steps) }
{
    c.keeps_covered();
    let kept = matching_with_first(alloc, c)?;
    let marked = Marked::one(alloc, c.graph(), 1)?;
    let steps = steps_from(alloc, c, marked, &kept)?;
    Ok(EarList { start: 1, steps })
}

// Steps from the stage that is marked to all edges. The stage holds the mates of its vertices by
// the kept matching.
fn steps_from(alloc: Global, c: &Covered, marked: Marked, kept: &Matching) -> Result<Steps, Memory>
    requires marked { IsMarked c.now marked }
    requires stage { IsStage c.now (marks marked.mark.items) }
    requires kept { IsPerfectRows c.now kept.now }
    requires mates { KeepsMates c.now (row_edge kept.now.rows)
        (is_met c.now (marks marked.mark.items)) }
    ensures steps { IfOk result
        (λ steps. AreSteps c.now (marks marked.mark.items) (map step_of steps)) }
    ensures needed { IfOk result
        (λ steps. AreNeeded c.now (marks marked.mark.items) (map step_of steps)) }
    ensures forced { IfOk result
        (λ steps. AreForced c.now (marks marked.mark.items) (map step_of steps)) }
    ensures single { IfOk result
        (λ steps. IsBipartite c.now → AllByRecursion IsSingle (map step_of steps)) }
{
    c.keeps_covered();
    let steps = Steps::new(alloc);
    let mut built = Built { marked, steps };
    let mut last = OuterTable::none(c.graph());
    'stages: while let Some(edge) = leaving_edge(c.graph(), &built.marked) {
        go_on(alloc, c, &mut built, kept, &mut last, edge)?;
    }
    Ok(built.steps)
}

// Goes on from a stage: by each edge off it that joins two partners on it, and where there is none
// by one step. Edge `edge` leads out of it.
fn go_on(
    alloc: Global,
    c: &Covered,
    built: &mut Built,
    kept: &Matching,
    last: &mut OuterTable,
    edge: u32,
) -> Result<(), Memory>
    requires built { (first : Set) × IsBuilt c.now (row_edge kept.now.rows) first built.old }
    requires kept { IsPerfectRows c.now kept.now }
    requires last { last.old ≡ c.now }
    requires edge { Within (size c.now) edge }
    requires off { marks built.old.marked.mark.items edge ≡ false }
    requires leads { (is_met c.now (marks built.old.marked.mark.items) (first_end c.now edge) ||
        is_met c.now (marks built.old.marked.mark.items) (second_end c.now edge)) ≡ true }
    ensures last { last.new ≡ last.old }
    ensures built { OnOk result ((first : Set) →
        IsBuilt c.now (row_edge kept.now.rows) first built.old →
        IsBuilt c.now (row_edge kept.now.rows) first built.new) }
    ensures fewer { OnOk result
        (count (size c.now) (complement (marks built.new.marked.mark.items)) + 1 ≤
        count (size c.now) (complement (marks built.old.marked.mark.items))) }
{
    let g = c.graph();
    let met = built.marked.met;
    let mut stage = Stage::by(alloc, g, &built.marked.mark, met, kept)?;
    match built.first_between(alloc, g, &mut stage)? {
        Some(e) => built.add_between(alloc, g, &mut stage, e),
        None => {
            let step = next_step(
                alloc,
                c,
                &built.marked.mark,
                met,
                kept,
                last,
                &mut stage,
                edge,
            )?;
            built.add(g, step)
        }
    }
}

// A perfect matching that holds edge 1.
fn matching_with_first(alloc: Global, c: &Covered) -> Result<Matching, Memory>
    ensures edge { IfOk result (λ m. Within (size c.now) 1) }
    ensures perfect { IfOk result (IsPerfectRows c.now) }
    ensures holds { IfOk result (λ m. mem (edges_of m) 1 ≡ true) }
{
    c.keeps_covered();
    match perfect_with_edge(alloc, c.graph(), c.matching(), 1)? {
        Some(m) => Ok(m),
        None => unreachable!(),
    }
}

// The least edge off the stage that is marked, with an end on it.
fn leaving_edge(g: &MultiGraph, marked: &Marked) -> Option<u32>
    requires { IsMarked g.now marked.now }
    ensures some { IfSome result
        (λ e. Within (size g.now) e × (marks marked.now.mark.items e ≡ false)
        × ((is_met g.now (marks marked.now.mark.items) (first_end g.now e) ||
        is_met g.now (marks marked.now.mark.items) (second_end g.now e)) ≡ true)) }
    ensures none { IfNone result ((e : ℕ) → Within (size g.now) e
        → (not (marks marked.now.mark.items e) &&
        (is_met g.now (marks marked.now.mark.items) (first_end g.now e) ||
        is_met g.now (marks marked.now.mark.items) (second_end g.now e))) ≡ false) }
{
    g.keeps_limits();
    for k in 0..g.size() {
        let e = k + 1;
        let ends = g.ends(e);
        if !marked.mark[e as usize]
            && (marked.met.contains(ends.a) || marked.met.contains(ends.b))
        {
            return Some(e);
        }
    }
    None
}

// A step from the stage of the marked edges, which meets the vertices `met` and holds their mates
// by the kept matching. An edge leads out of it.
fn next_step(
    alloc: Global,
    c: &Covered,
    mark: &[bool],
    met: VSet,
    kept: &Matching,
    last: &mut OuterTable,
    stage: &mut Stage,
    edge: u32,
) -> Result<Step, Memory>
    requires long { length mark.now ≡ size c.now + 1 }
    requires met { (v : ℕ) → mem met v ≡ is_met c.now (marks mark.now) v }
    requires asked { IsAsked c.now (marks mark.now) stage.old }
    requires stage { IsStage c.now (marks mark.now) }
    requires kept { IsPerfectRows c.now kept.now }
    requires mates { KeepsMates c.now (row_edge kept.now.rows) (is_met c.now (marks mark.now)) }
    requires last { last.old ≡ c.now }
    requires edge { Within (size c.now) edge }
    requires off { marks mark.now edge ≡ false }
    requires leads { (is_met c.now (marks mark.now) (first_end c.now edge) ||
        is_met c.now (marks mark.now) (second_end c.now edge)) ≡ true }
    ensures last { last.new ≡ last.old }
    ensures fits { IfOk result (λ step. FitsStep c.now.order (size c.now) (step_of step)) }
    ensures step { IfOk result (λ step. IsStep c.now (marks mark.now) (step_of step)) }
    ensures stage { IfOk result
        (λ step. IsStage c.now (next_stage (marks mark.now) (step_of step))) }
    ensures mates { IfOk result
        (λ step. KeepsMates c.now (row_edge kept.now.rows)
        (is_met c.now (next_stage (marks mark.now) (step_of step)))) }
    ensures needed { IfOk result (λ step. IsNeeded c.now (marks mark.now) (step_of step)) }
    ensures forced { IfOk result (λ step. IsForced c.now (marks mark.now) (step_of step)) }
    ensures single { IfOk result (λ step. IsBipartite c.now → IsSingle (step_of step)) }
{
    c.keeps_covered();
    let g = c.graph();
    let Some(leading) = perfect_with_edge(alloc, g, kept, edge)? else {
        unreachable!()
    };
    let step = step_by(alloc, g, mark, met, kept, stage, &leading)?;
    if is_single(&step) {
        return Ok(step);
    }
    match lone_matching(alloc, g, mark, met, stage, kept, last)? {
        Some(lone) => step_by(alloc, g, mark, met, kept, stage, &lone),
        None => Ok(step),
    }
}

// Whether a step adds one ear.
fn is_single(step: &Step) -> bool
    ensures { result ≡ true → IsSingle (step_of step.now) }
{
    match step.second {
        None => true,
        Some(_) => false,
    }
}

// The step that the ears of the kept matching and of `leading` allow, which leads out of the
// stage. The stage meets the vertices `met`.
fn step_by(
    alloc: Global,
    g: &MultiGraph,
    mark: &[bool],
    met: VSet,
    kept: &Matching,
    stage: &mut Stage,
    leading: &Matching,
) -> Result<Step, Memory>
    requires long { length mark.now ≡ size g.now + 1 }
    requires met { (v : ℕ) → mem met v ≡ is_met g.now (marks mark.now) v }
    requires asked { IsAsked g.now (marks mark.now) stage.old }
    requires stage { IsStage g.now (marks mark.now) }
    requires kept { IsPerfectRows g.now kept.now }
    requires mates { KeepsMates g.now (row_edge kept.now.rows) (is_met g.now (marks mark.now)) }
    requires leading { IsPerfectRows g.now leading.now }
    requires leads { (v : ℕ) × Within g.now.order v × (is_met g.now (marks mark.now) v ≡ true) ×
        (marks mark.now (row_edge leading.now.rows v) ≡ false) }
    ensures same { stage.new ≡ stage.old }
    ensures fits { IfOk result (λ step. FitsStep g.now.order (size g.now) (step_of step)) }
    ensures step { IfOk result (λ step. IsStep g.now (marks mark.now) (step_of step)) }
    ensures stage { IfOk result
        (λ step. IsStage g.now (next_stage (marks mark.now) (step_of step))) }
    ensures mates { IfOk result
        (λ step. KeepsMates g.now (row_edge kept.now.rows)
        (is_met g.now (next_stage (marks mark.now) (step_of step)))) }
    ensures needed { IfOk result (λ step. IsNeeded g.now (marks mark.now) (step_of step)) }
    ensures single { IfOk result (λ step. IsBipartite g.now → IsSingle (step_of step)) }
    ensures lone { LeadsAtTwo g.now (marks mark.now) (mem (edges_of leading.now)) →
        IfOk result (λ step. IsSingle (step_of step)) }
{
    g.keeps_limits();
    let mut ears = Vec::new(alloc);
    collect(alloc, g, mark, met, leading, kept, VSet::empty(), &mut ears)?;
    choose(alloc, g, mark, stage, &ears)
}
