//! What a command makes of its inputs.
ghost use Rattle.std.specs.Prelude.{◌≡◌, IfOk};
ghost use Rattle.graph_text.specs.Common.{named_graph};
ghost use Rattle.bench_outcomes.specs.from_bench_tasks.Common.{given_trees, simple_graph_in, on_trees, task_of};
ghost use Rattle.bench_outcomes.specs.from_bench_tasks.Tasks.{OnGraph};
ghost use Rattle.bench_outcomes.specs.Common.{HasMaximum, IsAnalysis, Analysed, Converted, Analysed6, IsOfGraph, IsPlaced, IsReported, ResultOf, TaskMayRefuse};

use crate::checking::check_report;
use crate::comparing::{compare_report, derivations, moves_script_report};
use crate::decomposing::{decompose_by_report, decompose_report};
use crate::ear_checking::{built_ears_report, checkears_report};
use crate::growing::grow_report;
use crate::naming::{given_or_plain, with_given_names};
use crate::replaying::replay_report;
use crate::structures::structure_where_covered;
use bench_outcomes::bench_tasks::{
    EarsVerb, GivenMoves, GivenTrees, GraphVerb, MovesVerb, NumbersVerb, PicksVerb, SimpleGraph,
    SimpleGraphVerb, Task, TreeVerb, TreesVerb,
};
use bench_outcomes::report_text::{AnalysisLines, analysis, graph6_line};
use bench_outcomes::{Report, Status};
use gallai_edmonds::graph_facts::Facts;
use gallai_edmonds::sets_of;
use graph_core::{MultiGraph, ThreeSets};
use graph_text::{Named, write_named};
use graph6_text::write_graph6;
use std::alloc::{AllocError as Memory, Global};

// How many edges a maximum matching has, and how many vertices it misses.
fn maximum_sizes(facts: &Facts) -> (u32, u32)
    ensures { HasMaximum facts.now result.0 result.1 }
{
    let n = facts.order();
    let frame = facts.frame();
    frame.found.matching.keeps_matching();
    let edges = frame.found.matching.len() as u32;
    (edges, n - 2 * edges)
}

// What `analyse` reports on the graph: each of its facts is made once.
fn analysis_lines(alloc: Global, g: &MultiGraph) -> Result<AnalysisLines, Memory>
    ensures { IfOk result (λ lines. IsAnalysis g.now lines) }
{
    let facts = Facts::of(alloc, g)?;
    lines_of(alloc, facts)
}

// What `analyse` reports on a graph whose facts are known.
fn lines_of(alloc: Global, facts: Facts) -> Result<AnalysisLines, Memory>
    ensures { IfOk result (λ lines. IsAnalysis facts.entry lines) }
{
    let (matching, deficiency) = maximum_sizes(&facts);
    let ThreeSets { d, a, c } = sets_of(&facts);
    let allowed = facts.allowed(alloc)?;
    let verdict = facts.verdict();
    let order = facts.order();
    let size = facts.size();
    let components = facts.components();
    let bipartite = facts.is_bipartite();
    let structure = structure_where_covered(alloc, facts, &verdict)?;
    Ok(AnalysisLines {
        order,
        size,
        components,
        bipartite,
        matching,
        deficiency,
        d,
        a,
        c,
        allowed,
        verdict,
        structure,
    })
}

// The report of `analyse`.
fn analyse_report(alloc: Global, named: &Named) -> Result<Report, Memory>
    ensures gives { IfOk result
        (λ report. Analysed (named_graph named.now) report.status report.bytes.items) }
    ensures placed { IfOk result (λ report. IsOfGraph report.refusal) }
{
    let lines = analysis_lines(alloc, &named.graph)?;
    let text = analysis(alloc, &lines)?;
    let bytes = with_given_names(alloc, text, &named.names, false)?;
    Ok(Report {
        status: Status::Done,
        bytes,
        refusal: None,
    })
}

// The report of `convert`.
fn convert_report(alloc: Global, named: Named) -> Result<Report, Memory>
    ensures gives { IfOk result
        (λ report. Converted (named_graph named) report.status report.bytes.items) }
    ensures placed { IfOk result (λ report. IsOfGraph report.refusal) }
{
    let Named { graph, names } = named;
    let names = given_or_plain(alloc, &graph, names)?;
    Ok(Report {
        status: Status::Done,
        bytes: write_named(alloc, &graph, &names)?,
        refusal: None,
    })
}

// The report of `analyse6`.
fn analyse6_report(alloc: Global, simple: SimpleGraph) -> Result<Report, Memory>
    ensures gives { IfOk result (λ report. Analysed6 (simple_graph_in simple) report.status report.bytes.items) }
    ensures placed { IfOk result (λ report. IsOfGraph report.refusal) }
{
    let SimpleGraph { graph } = simple;
    let lines = analysis_lines(alloc, &graph)?;
    let text = analysis(alloc, &lines)?;
    let graph6 = write_graph6(alloc, &graph)?;
    Ok(Report {
        status: Status::Done,
        bytes: graph6_line(alloc, &text, &graph6)?,
        refusal: None,
    })
}

// What a task on a graph gives, by its verb.
fn graph_report(alloc: Global, verb: GraphVerb, named: Named) -> Result<Report, Memory>
    ensures gives { IfOk result
        (λ report. ResultOf (OnGraph verb (named_graph named)) report.status report.bytes.items) }
    ensures placed { IfOk result (λ report. IsOfGraph report.refusal) }
{
    match verb {
        GraphVerb::Analyse => analyse_report(alloc, &named),
        GraphVerb::Convert => convert_report(alloc, named),
        GraphVerb::Decompose { order } => decompose_report(alloc, &named, &order),
        GraphVerb::Ears => built_ears_report(alloc, &named.graph),
    }
}

// What a task on a graph and two trees gives, by its verb.
fn trees_report(alloc: Global, verb: TreesVerb, given: &GivenTrees) -> Result<Report, Memory>
    ensures gives { IfOk result
        (λ report. ResultOf (on_trees verb (given_trees given.now)) report.status
        report.bytes.items) }
    ensures placed { IfOk result
        (λ report. IsPlaced (on_trees verb (given_trees given.now)) report.refusal) }
{
    match derivations(alloc, given)? {
        Err(report) => Ok(report),
        Ok(covered) => match verb {
            TreesVerb::Compare => compare_report(alloc, &covered, given),
            TreesVerb::Script => moves_script_report(alloc, &covered, given),
        },
    }
}

// What a task gives, by its files and its verb.
fn report_of(alloc: Global, task: Task) -> Result<Report, Memory>
    ensures gives { IfOk result
        (λ report. ResultOf (task_of task) report.status report.bytes.items) }
    ensures placed { IfOk result (λ report. IsPlaced (task_of task) report.refusal) }
{
    match task {
        Task::OnGraph { verb, named } => graph_report(alloc, verb, named),
        Task::OnSimpleGraph {
            verb: SimpleGraphVerb::Analyse6,
            simple,
        } => analyse6_report(alloc, simple),
        Task::OnTree {
            verb: TreeVerb::Check,
            given,
        } => check_report(alloc, &given.named.graph, &given.tree),
        Task::OnPicks {
            verb: PicksVerb::DecomposeBy,
            given,
        } => decompose_by_report(alloc, &given.named, &given.picks),
        Task::OnEars {
            verb: EarsVerb::CheckEars,
            given,
        } => checkears_report(alloc, &given.named.graph, &given.list),
        Task::OnMoves {
            verb: MovesVerb::Replay,
            given,
        } => {
            let GivenMoves { named, tree, moves } = given;
            replay_report(alloc, &named.graph, tree, &moves)
        }
        Task::OnTrees { verb, given } => trees_report(alloc, verb, &given),
        Task::OnNumbers {
            verb: NumbersVerb::Grow,
            growth,
        } => grow_report(alloc, growth),
    }
}

/// The status and the whole report of a task, made in memory. Neither a shelf nor a sink is asked.
/// A refusal names the place of its fault.
pub fn judge(alloc: Global, task: Task) -> Result<Report, Memory>
    ensures result { IfOk result
        (λ report. ResultOf (task_of task) report.status report.bytes.items) }
    ensures reported { IfOk result (λ report. IsReported report.status) }
    ensures refuses { IfOk result
        (λ report. report.status ≡ Status.Negative → TaskMayRefuse (task_of task)) }
    ensures never_bad { IfOk result (λ report. report.status ≡ Status.BadInput → ⊥) }
    ensures placed { IfOk result (λ report. IsPlaced (task_of task) report.refusal) }
{
    report_of(alloc, task)
}
