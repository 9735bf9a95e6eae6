//! The comparison of two derivations of a graph, as `compare` and `script` report it.
ghost use Rattle.std.specs.Prelude.{◌≡◌, ◌≤◌, ◌<◌, ◌+◌, ◌^◌, ◌∷◌, [], Err, IfOk, IfSome, length, map};
ghost use Rattle.tree_core.specs.Common.{IsDerivation, moves_of, Fits, leaf_count, shape_of};
ghost use Rattle.uncross.specs.Common.{map_of, maps_of};
ghost use Rattle.bench_outcomes.specs.Common.{Compared, IsInTrees, IsOfGraph, RefusesPair, RefusesPairIfAny, Scripted, line_of, map_lines_of};

use crate::checking::refusal_where_covered;
use crate::uncovered::uncovered_report;
use bench_outcomes::bench_tasks::GivenTrees;
use bench_outcomes::report_text::{MapLine, MapLines, block_names, pairing};
use bench_outcomes::tree_check::KnownPlaces;
use bench_outcomes::{Report, Status};
use contraction::Partition;
use gallai_edmonds::graph_facts::Covered;
use move_text::write_moves;
use std::alloc::{AllocError as Memory, Global};
use tree_core::{Partitions, Tree, leaves, nodes};
use uncross::{LeafMap, LeafMaps, compare_covered, moves_between_covered};

// The report that refuses one of two trees of a covered graph: the first tree is not a derivation
// of it, or the second is not one. None if both are derivations.
fn refusal_of_covered(
    alloc: Global,
    c: &Covered,
    first: &Tree,
    second: &Tree,
) -> Result<Option<Report>, Memory>
    requires first { Fits c.now.order (shape_of first.now) }
    requires second { Fits c.now.order (shape_of second.now) }
    ensures refuses { IfOk result
        (RefusesPairIfAny c.now (shape_of first.now) (shape_of second.now)) }
    ensures placed { IfOk result (λ r. IfSome r (λ report.
        IsInTrees (shape_of first.now ∷ shape_of second.now ∷ []) report.refusal)) }
{
    let mut known = KnownPlaces::none(alloc, c);
    match refusal_where_covered(alloc, &mut known, first, 1)? {
        Some(report) => Ok(Some(report)),
        None => refusal_where_covered(alloc, &mut known, second, 2),
    }
}

/// The graph as a covered one, if it is one and both trees are derivations of it; else the report
/// that it is not covered or which tree is refused and why. What is known of the graph is sought
/// once, and so is what is known of a partition that both trees have.
pub fn derivations<'g>(
    alloc: Global,
    given: &'g GivenTrees,
) -> Result<Result<Covered<'g>, Report>, Memory>
    ensures covered { IfOk result (λ r. IfOk r (λ c. c ≡ given.now.named.graph)) }
    ensures derivations { IfOk result (λ r. IfOk r (λ c. IsDerivation c (shape_of given.now.first) ×
        IsDerivation c (shape_of given.now.second))) }
    ensures refused { IfOk result (λ r. (report : _) → r ≡ Err report →
        RefusesPair given.now.named.graph (shape_of given.now.first) (shape_of given.now.second)
        report.status report.bytes.items) }
    ensures placed { IfOk result (λ r. (report : _) → r ≡ Err report →
        IsInTrees (shape_of given.now.first ∷ shape_of given.now.second ∷ []) report.refusal) }
{
    let g = &given.named.graph;
    let covered = match Covered::of(alloc, g)? {
        Ok(covered) => covered,
        Err(reason) => return Ok(Err(uncovered_report(alloc, g, reason)?)),
    };
    match refusal_of_covered(alloc, &covered, &given.first, &given.second)? {
        Some(report) => Ok(Err(report)),
        None => Ok(Ok(covered)),
    }
}

// The line of a leaf of this number, with the names of its blocks and of their images.
fn line_of(alloc: Global, number: u32, p: &Partition, map: LeafMap) -> Result<MapLine, Memory>
    ensures { IfOk result (λ line. line ≡ line_of number p.now.blocks (map_of map)) }
{
    let LeafMap { to, images } = map;
    Ok(MapLine {
        leaf: number,
        partner: to,
        names: block_names(alloc, p)?,
        images,
    })
}

// The lines of the leaves, each with its map.
fn lines_of(alloc: Global, found: &Partitions, maps: LeafMaps) -> Result<MapLines, Memory>
    requires one_each { length maps ≡ length found.now }
    requires few { length found.now < 2 ^ 32 }
    ensures { IfOk result
        (λ lines. lines ≡ map_lines_of 0 (map (λ p. p.blocks) found.now) (maps_of maps)) }
{
    let mut lines = MapLines::new(alloc);
    let mut rest = maps.into_items().into_iter();
    let mut i = 0usize;
    'lines: while let Some(map) = rest.next() {
        lines.push(line_of(alloc, i as u32 + 1, found.get(i), map)?)?;
        i += 1;
    }
    Ok(lines)
}

/// The report on two derivations: the moves that turn the first into the second, and how their
/// leaves are paired.
pub fn compare_report(alloc: Global, c: &Covered, given: &GivenTrees) -> Result<Report, Memory>
    requires first { IsDerivation c.now (shape_of given.now.first) }
    requires second { IsDerivation c.now (shape_of given.now.second) }
    ensures gives { IfOk result
        (λ report. Compared c.now (shape_of given.now.first) (shape_of given.now.second) report.status
        report.bytes.items) }
    ensures placed { IfOk result (λ report. IsOfGraph report.refusal) }
{
    c.keeps_covered();
    let n = c.order();
    let found = leaves(alloc, &given.first, n)?;
    let pairs = compare_covered(alloc, c, &given.first, &given.second)?;
    let lines = lines_of(alloc, &found, pairs.maps)?;
    Ok(Report {
        status: Status::Done,
        bytes: pairing(alloc, &pairs.moves, &lines)?,
        refusal: None,
    })
}

/// The text of a script that turns the first of two derivations into the second, and then the
/// numbers of leaves and of moves.
pub fn moves_script_report(alloc: Global, c: &Covered, given: &GivenTrees) -> Result<Report, Memory>
    requires first { IsDerivation c.now (shape_of given.now.first) }
    requires second { IsDerivation c.now (shape_of given.now.second) }
    ensures gives { IfOk result
        (λ report. Scripted c.now (shape_of given.now.first) (shape_of given.now.second) report.status
        report.bytes.items) }
    ensures placed { IfOk result (λ report. IsOfGraph report.refusal) }
{
    c.keeps_covered();
    let moves = moves_between_covered(alloc, c, &given.first, &given.second)?;
    let n = c.order();
    let text = write_moves(alloc, &moves, n)?;
    let leaves = nodes(&given.first) / 2 + 1;
    Ok(Report {
        status: Status::Done,
        bytes: bench_outcomes::report_text::script_report(
            alloc,
            &text,
            leaves as u32,
            moves.len() as u32,
        )?,
        refusal: None,
    })
}
