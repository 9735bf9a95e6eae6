//! What a script of moves makes of a derivation, as `replay` reports it.
ghost use Rattle.std.specs.Prelude.{◌≡◌, ◌≤◌, ◌<◌, IfOk, Some, length};
ghost use Rattle.std.specs.Option.{option_map};
ghost use Rattle.tree_core.specs.Common.{IsDerivation, moves_of, Fits, Shape, node_count, shape_of};
ghost use Rattle.bench_outcomes.specs.from_tree_check.Common.{why_of, why_number};
ghost use Rattle.move_text.specs.Common.{most_moves};
ghost use Rattle.move_text.specs.from_tree_text.Common.{tree_text};
ghost use Rattle.bench_outcomes.specs.from_report_text.Common.{refused_move_text, replayed_text, stuck_text};
ghost use Rattle.bench_outcomes.specs.Common.{HasNoResult, IsInMoves, IsNextMove, IsNodePlace, IsOfGraph, IsStuckBy, MovesGive, ReplayGives, made_by, node_fault_of, shown_of};

use crate::checking::{node_fault_of, number_of, refusal_where_covered, shown_by};
use crate::node_places::node_place;
use crate::stuck_moves::stuck_fault;
use crate::uncovered::uncovered_report;
use bench_outcomes::report_text::{replay_refused, replay_stuck, replayed};
use bench_outcomes::tree_check::{KnownPlaces, Replayed, Why, replay_covered};
use bench_outcomes::{Report, Status};
use gallai_edmonds::graph_facts::Covered;
use graph_core::MultiGraph;
use move_text::tree_text::write_tree;
use refusals::{NodePlace, Refusal, StuckFault};
use std::alloc::{AllocError as Memory, Global};
use tree_core::{Moves, Tree, apply, copy};

// The text of the last tree, and then the number of moves.
fn last_tree_report(
    alloc: Global,
    g: &MultiGraph,
    tree: &Tree,
    moves: usize,
) -> Result<Report, Memory>
    requires derivation { IsDerivation g.now (shape_of tree.now) }
    requires few { moves ≤ most_moves }
    ensures done { IfOk result (λ report. report.status ≡ Status.Done) }
    ensures text { IfOk result
        (λ report. report.bytes.items ≡
        replayed_text (tree_text g.now.order (shape_of tree.now)) moves) }
    ensures placed { IfOk result (λ report. IsOfGraph report.refusal) }
{
    g.keeps_limits();
    let n = g.order();
    let text = write_tree(alloc, tree, n)?;
    Ok(Report {
        status: Status::Done,
        bytes: replayed(alloc, &text, moves as u32)?,
        refusal: None,
    })
}

// The line of a move without a result, for this reason.
fn stuck_report(alloc: Global, at: u32, fault: StuckFault) -> Result<Report, Memory>
    ensures negative { IfOk result (λ report. report.status ≡ Status.Negative) }
    ensures text { IfOk result (λ report. report.bytes.items ≡ stuck_text at) }
    ensures refusal { IfOk result (λ report. report.refusal ≡ Some (Refusal.Stuck at fault)) }
{
    Ok(Report {
        status: Status::Negative,
        bytes: replay_stuck(alloc, at)?,
        refusal: Some(Refusal::Stuck { step: at, fault }),
    })
}

// The tree that the first moves make, so many of them. `None` if one of them has no result, or if
// there are fewer. Takes no memory.
fn made_by(tree: Tree, n: u32, moves: &Moves, count: u32) -> Option<Tree>
    requires { Fits n (shape_of tree) }
    ensures { option_map shape_of result ≡ made_by n (shape_of tree) (moves_of moves.now) count }
{
    let mut made = tree;
    for i in 0..count as usize {
        if i >= moves.len() {
            return None;
        }
        match apply(made, n, moves.get(i)) {
            Ok(next) => made = next,
            Err(_) => return None,
        }
    }
    Some(made)
}

// Why the move with this number has no result on the tree that those before it make.
fn fault_of_move(n: u32, tree: Tree, moves: &Moves, at: u32) -> StuckFault
    requires fits { Fits n (shape_of tree) }
    requires stuck { (reached : Shape) × (move : _) ×
        IsNextMove n (shape_of tree) (moves_of moves.now) at reached move ×
        HasNoResult n reached move }
    ensures { (reached : Shape) × (move : _) ×
        IsNextMove n (shape_of tree) (moves_of moves.now) at reached move ×
        IsStuckBy n reached move result }
{
    let before = at - 1;
    match made_by(tree, n, moves, before) {
        Some(reached) => stuck_fault(&reached, moves.get(before as usize)),
        None => StuckFault::NoCut,
    }
}

// The place of the node with this number in the tree that the refused move makes.
fn place_behind(n: u32, tree: Tree, moves: &Moves, at: u32, node: u32) -> Option<NodePlace>
    requires fits { Fits n (shape_of tree) }
    requires node { (made : Shape) ×
        (made_by n (shape_of tree) (moves_of moves.now) at ≡ Some made) ×
        (0 < node) × (node ≤ node_count made) }
    ensures { (made : Shape) ×
        (made_by n (shape_of tree) (moves_of moves.now) at ≡ Some made) ×
        IsNodePlace made node result }
{
    let made = made_by(tree, n, moves, at)?;
    node_place(&made, node)
}

// The line of a move whose result is not a derivation.
fn refused_move_report(
    alloc: Global,
    at: u32,
    node: u32,
    place: Option<NodePlace>,
    why: Why,
) -> Result<Report, Memory>
    ensures negative { IfOk result (λ report. report.status ≡ Status.Negative) }
    ensures text { IfOk result
        (λ report. report.bytes.items ≡
        refused_move_text at node (why_number (why_of why)) (shown_of (why_of why))) }
    ensures refusal { IfOk result
        (λ report. report.refusal ≡ Some (Refusal.Move at node place (node_fault_of (why_of why)))) }
{
    let number = number_of(&why);
    let fault = node_fault_of(&why);
    let shown = shown_by(why);
    Ok(Report {
        status: Status::Negative,
        bytes: replay_refused(alloc, at, node, number, &shown)?,
        refusal: Some(Refusal::Move {
            step: at,
            node,
            place,
            fault,
        }),
    })
}

// The report on moves on a derivation.
fn moves_report(alloc: Global, c: &Covered, tree: Tree, moves: &Moves) -> Result<Report, Memory>
    requires derivation { IsDerivation c.now (shape_of tree) }
    requires few { length moves.now ≤ most_moves }
    ensures gives { IfOk result
        (λ report. MovesGive c.now (shape_of tree) (moves_of moves.now) report.status
        report.bytes.items) }
    ensures placed { IfOk result (λ report.
        IsInMoves c.now.order (shape_of tree) (moves_of moves.now) report.refusal) }
{
    let first = copy(alloc, &tree)?;
    let answer = replay_covered(alloc, c, tree, moves)?;
    match answer {
        Replayed::Done { tree } => last_tree_report(alloc, c.graph(), &tree, moves.len()),
        Replayed::Stuck { at } => {
            let fault = fault_of_move(c.order(), first, moves, at);
            stuck_report(alloc, at, fault)
        }
        Replayed::Refused { at, node, why } => {
            let place = place_behind(c.order(), first, moves, at, node);
            refused_move_report(alloc, at, node, place, why)
        }
    }
}

/// The report on moves on a tree: the last tree that they make if each on the way is a
/// derivation of the graph, or the first move that fails; or why the tree is refused, or that the
/// graph is not covered. What is known of the graph is sought once.
pub fn replay_report(
    alloc: Global,
    g: &MultiGraph,
    tree: Tree,
    moves: &Moves,
) -> Result<Report, Memory>
    requires fits { Fits g.now.order (shape_of tree) }
    requires few { length moves.now ≤ most_moves }
    ensures gives { IfOk result
        (λ report. ReplayGives g.now (shape_of tree) (moves_of moves.now) report.status
        report.bytes.items) }
    ensures placed { IfOk result (λ report.
        IsInMoves g.now.order (shape_of tree) (moves_of moves.now) report.refusal) }
{
    let covered = match Covered::of(alloc, g)? {
        Ok(covered) => covered,
        Err(reason) => return uncovered_report(alloc, g, reason),
    };
    let mut known = KnownPlaces::none(alloc, &covered);
    match refusal_where_covered(alloc, &mut known, &tree, 1)? {
        Some(report) => Ok(report),
        None => moves_report(alloc, &covered, tree, moves),
    }
}
