//! The decomposition of a graph by tight cuts, as `decompose` reports it.
ghost use Rattle.std.specs.Prelude.{◌≡◌, ◌<◌, ◌≤◌, IfOk, length, map};
ghost use Rattle.graph_text.specs.Common.{named_graph};
ghost use Rattle.tree_core.specs.Common.{IsDerivation, leaves, place_of, shape_of};
ghost use Rattle.bench_outcomes.specs.from_decomposer.Common.{ScriptPicks, IsPicked};
ghost use Rattle.bench_outcomes.specs.Common.{DecomposeGives, IsOfGraph, TellsDerivation};

use crate::naming::with_given_names;
use crate::uncovered::uncovered_report;
use bench_outcomes::decomposer::{Decomposition, Order, Scripted, decompose_places};
use bench_outcomes::report_text::derivation_at;
use bench_outcomes::{Report, Status};
use gallai_edmonds::graph_facts::Covered;
use graph_core::Numbers;
use graph_text::Named;
use move_text::tree_text::write_tree;
use std::alloc::{AllocError as Memory, Global};

// The text of a derivation, and then its leaves and the names as comments.
fn derivation_report(alloc: Global, named: &Named, found: &Decomposition) -> Result<Report, Memory>
    requires derivation { IsDerivation named.now.graph (shape_of found.now.tree) }
    requires leaves { found.now.leaves.items
        ≡ map (place_of named.now.graph) (leaves named.now.graph.order (shape_of found.now.tree)) }
    ensures gives { IfOk result
        (λ report. TellsDerivation (named_graph named.now) (shape_of found.now.tree) report.status
        report.bytes.items) }
    ensures placed { IfOk result (λ report. IsOfGraph report.refusal) }
{
    let g = &named.graph;
    g.keeps_limits();
    let n = g.order();
    let text = write_tree(alloc, &found.tree, n)?;
    let report = derivation_at(alloc, &text, &found.leaves)?;
    Ok(Report {
        status: Status::Done,
        bytes: with_given_names(alloc, report, &named.names, true)?,
        refusal: None,
    })
}

// The report of the decomposition of a covered graph in an order.
fn covered_report<O: Order>(
    alloc: Global,
    named: &Named,
    c: &Covered,
    order: &O,
) -> Result<Report, Memory>
    requires { c.now ≡ named.now.graph }
    ensures gives { IfOk result
        (λ report. DecomposeGives (O.picks order.now) (named_graph named.now) report.status
        report.bytes.items) }
    ensures placed { IfOk result (λ report. IsOfGraph report.refusal) }
{
    let found = decompose_places(alloc, c, order)?;
    derivation_report(alloc, named, &found)
}

/// The report of a decomposition in an order.
pub fn decompose_report<O: Order>(alloc: Global, named: &Named, order: &O) -> Result<Report, Memory>
    ensures gives { IfOk result
        (λ report. DecomposeGives (O.picks order.now) (named_graph named.now) report.status
        report.bytes.items) }
    ensures placed { IfOk result (λ report. IsOfGraph report.refusal) }
{
    named.graph.keeps_limits();
    match Covered::of(alloc, &named.graph)? {
        Ok(c) => covered_report(alloc, named, &c, order),
        Err(reason) => uncovered_report(alloc, &named.graph, reason),
    }
}

/// The report of a decomposition in the order of a list of picks.
pub fn decompose_by_report(alloc: Global, named: &Named, picks: &Numbers) -> Result<Report, Memory>
    ensures gives { IfOk result
        (λ report. DecomposeGives (ScriptPicks picks.now) (named_graph named.now) report.status
        report.bytes.items) }
    ensures placed { IfOk result (λ report. IsOfGraph report.refusal) }
{
    let order = Scripted {
        picks: picks.as_slice(),
    };
    decompose_report(alloc, named, &order)
}
