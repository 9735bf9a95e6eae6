//! Whether a tree is a derivation of a graph, as `check` reports it.
ghost use Rattle.std.specs.Prelude.{◌≡◌, ◌∷◌, [], List, IfOk, IfSome, Some};
ghost use Rattle.graph_core.specs.Common.{Graph};
ghost use Rattle.tree_core.specs.Common.{IsDerivation, IsTally, Fits, Shape, leaves, shape_of};
ghost use Rattle.bench_outcomes.specs.from_tree_check.Common.{why_of, why_number, IsRefused};
ghost use Rattle.bench_outcomes.specs.Common.{AcceptedTree, CheckGives, IsInTrees, IsOfGraph, RefusedTree, RefusesIfAny, node_fault_of, shown_of, tree_numbered};

use crate::node_places::node_place;
use crate::uncovered::uncovered_report;
use bench_outcomes::report_text::{Shown, TreeLine, judgement};
use bench_outcomes::tree_check::{KnownPlaces, Scanned, Why, scan_covered, scan_known};
use bench_outcomes::{Report, Status};
use gallai_edmonds::graph_facts::Covered;
use graph_core::MultiGraph;
use refusals::{NodeFault, Refusal};
use std::alloc::{AllocError as Memory, Global};
use tree_core::{Tally, Tree};

/// The number of a reason.
pub fn number_of(why: &Why) -> u32
    ensures { result ≡ why_number (why_of why.now) }
{
    match why {
        Why::NotBlocks => 1,
        Why::Even => 2,
        Why::Trivial => 3,
        Why::NotTight { .. } => 4,
        Why::NotLeaf { .. } => 5,
    }
}

/// The fault of a node that is refused for this reason.
pub fn node_fault_of(why: &Why) -> NodeFault
    ensures { result ≡ node_fault_of (why_of why.now) }
{
    match why {
        Why::NotBlocks => NodeFault::NotBlocks,
        Why::Even => NodeFault::Even,
        Why::Trivial => NodeFault::Trivial,
        Why::NotTight { .. } => NodeFault::NotTight,
        Why::NotLeaf { .. } => NodeFault::NotLeaf,
    }
}

/// What is shown of a reason.
pub fn shown_by(why: Why) -> Shown
    ensures { result ≡ shown_of (why_of why) }
{
    match why {
        Why::NotBlocks | Why::Even | Why::Trivial => Shown::Nothing,
        Why::NotTight { matching } => Shown::Matching { edges: matching },
        Why::NotLeaf { cut } => Shown::Cut { shore: cut },
    }
}

// The line of a refusal of the tree with this number.
fn refused_report(
    alloc: Global,
    g: &MultiGraph,
    tree: &Tree,
    number: u32,
    node: u32,
    why: Why,
) -> Result<Report, Memory>
    requires { IsRefused g.now (shape_of tree.now) node (why_of why) }
    ensures gives { IfOk result
        (λ report. RefusedTree g.now (shape_of tree.now) number report.status report.bytes.items) }
    ensures placed { (trees : List Shape) → tree_numbered trees number ≡ Some (shape_of tree.now) →
        IfOk result (λ report. IsInTrees trees report.refusal) }
{
    let refusal = Refusal::Tree {
        tree: number,
        node,
        place: node_place(tree, node),
        fault: node_fault_of(&why),
    };
    let line = TreeLine::Refused {
        tree: number,
        node,
        why: number_of(&why),
        shown: shown_by(why),
    };
    Ok(Report {
        status: Status::Negative,
        bytes: judgement(alloc, &line)?,
        refusal: Some(refusal),
    })
}

/// The report that refuses the tree with this number among those that are named, counted from 1, of
/// a covered graph. None if the tree is a derivation. What its judgement finds is known afterwards.
pub fn refusal_where_covered(
    alloc: Global,
    known: &mut KnownPlaces,
    tree: &Tree,
    number: u32,
) -> Result<Option<Report>, Memory>
    requires { Fits known.old.order (shape_of tree.now) }
    ensures refuses { IfOk result (RefusesIfAny known.old (shape_of tree.now) number) }
    ensures placed { (trees : List Shape) → tree_numbered trees number ≡ Some (shape_of tree.now) →
        IfOk result (λ r. IfSome r (λ report. IsInTrees trees report.refusal)) }
    ensures same { known.new ≡ known.old }
{
    match scan_known(alloc, known, tree)? {
        Scanned::Passed { .. } => Ok(None),
        Scanned::Refused { node, why } => {
            let g = known.covered().graph();
            let report = refused_report(alloc, g, tree, number, node, why)?;
            Ok(Some(report))
        }
    }
}

// The line of a derivation with so many leaves.
fn accepted_report(alloc: Global, tally: Tally) -> Result<Report, Memory>
    ensures gives { (g : Graph) (t : Shape) → IsDerivation g t → IsTally g (leaves g.order t) tally →
        IfOk result (λ report. AcceptedTree g t report.status report.bytes.items) }
    ensures placed { IfOk result (λ report. IsOfGraph report.refusal) }
{
    Ok(Report {
        status: Status::Done,
        bytes: judgement(alloc, &TreeLine::Accepted { tally })?,
        refusal: None,
    })
}

// The report on a tree of a covered graph. Its judgement counts the leaves.
fn judged_report(alloc: Global, c: &Covered, tree: &Tree) -> Result<Report, Memory>
    requires { Fits c.now.order (shape_of tree.now) }
    ensures gives { IfOk result
        (λ report. CheckGives c.now (shape_of tree.now) report.status report.bytes.items) }
    ensures placed { IfOk result (λ report. IsInTrees (shape_of tree.now ∷ []) report.refusal) }
{
    match scan_covered(alloc, c, tree)? {
        Scanned::Passed { tally } => accepted_report(alloc, tally),
        Scanned::Refused { node, why } => refused_report(alloc, c.graph(), tree, 1, node, why),
    }
}

/// The report on a tree: how many leaves it has, or where and why it is refused, or that the
/// graph is not covered.
pub fn check_report(alloc: Global, g: &MultiGraph, tree: &Tree) -> Result<Report, Memory>
    requires { Fits g.now.order (shape_of tree.now) }
    ensures gives { IfOk result
        (λ report. CheckGives g.now (shape_of tree.now) report.status report.bytes.items) }
    ensures placed { IfOk result (λ report. IsInTrees (shape_of tree.now ∷ []) report.refusal) }
{
    match Covered::of(alloc, g)? {
        Ok(covered) => judged_report(alloc, &covered, tree),
        Err(reason) => uncovered_report(alloc, g, reason),
    }
}
