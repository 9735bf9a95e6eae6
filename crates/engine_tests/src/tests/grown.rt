//! Generated graphs: the quick test for bricks beside the complete search, their ear lists, and
//! the table of pairs of a large one.
ghost use Rattle.tree_core.specs.Common.{IsDerivation, shape_of};

use super::choices::{FIRST, derived};
use super::made::set_of;
use allowed_edges::together;
use contraction::quotient_graph;
use ear_core::{EarJudgement, build_ears, check_ears};
use graph_core::MultiGraph;
use grow_gen::grow;
use match_core::perfect_without;
use plain_graph::{is_bipartite, is_covered};
use quick_kinds::quick_brick;
use std::alloc::{AllocError as Memory, Global};
use std::test::Fail;
use tree_check::tight_cuts::find_any;
use tree_core::laws::derivation_stands_law;
use tree_core::{Tree, leaves};

// How many graphs were asked about, and how many of them are bricks.
type Asked = (u32, u32);

// What is asked about a graph: nothing if it is bipartite. It is a mistake if the quick test and
// the complete search do not find the same cut, or none both.
fn asked(alloc: Global, g: &MultiGraph) -> Result<Asked, Fail> {
    if !is_covered(alloc, g)? || is_bipartite(alloc, g)? {
        return Ok((0, 0));
    }
    let cut = quick_brick(alloc, g)?;
    if cut != find_any(alloc, g)? {
        return Err("quick_brick and find_any differ".into());
    }
    Ok((1, if cut.is_none() { 1 } else { 0 }))
}

// What is asked about the quotients at the leaves of a derivation.
fn asked_of_leaves(alloc: Global, g: &MultiGraph, tree: &Tree) -> Result<Asked, Fail>
    requires { IsDerivation g.now (shape_of tree.now) }
{
    derivation_stands_law();
    let partitions = leaves(alloc, tree, g.order())?;
    let mut graphs = 0u32;
    let mut bricks = 0u32;
    for i in 0..partitions.len() {
        let leaf = partitions.get(i);
        if leaf.order() == g.order() {
            let quotient = quotient_graph(alloc, g, leaf)?;
            let (one, brick) = asked(alloc, &quotient)?;
            graphs = graphs.saturating_add(one);
            bricks = bricks.saturating_add(brick);
        }
    }
    Ok((graphs, bricks))
}

// Whether the graph is no brick, and three of its leaves are bricks.
fn has_three_bricks(alloc: Global, g: &MultiGraph) -> Result<bool, Fail> {
    match derived(alloc, g, FIRST)? {
        Some(tree) => {
            Ok(asked(alloc, g)? == (1, 0) && asked_of_leaves(alloc, g, &tree)? == (3, 3))
        }
        None => Ok(false),
    }
}

#[test]
fn quick_brick_and_find_any_agree_on_grown_graphs(rt: HostRuntime) -> Result<(), Fail> {
    for number in 1..21u64 {
        let g = grow(rt.alloc(), number, 6)?;
        assert!(rt; has_three_bricks(rt.alloc(), &g)?);
    }
    Ok(())
}

// Whether the ear list that is built of a grown graph is accepted.
fn ears_are_accepted(alloc: Global, number: u64) -> Result<bool, Memory> {
    let g = grow(alloc, number, 6)?;
    let list = build_ears(alloc, &g)?;
    match check_ears(alloc, &g, &list)? {
        EarJudgement::Accepted => Ok(true),
        EarJudgement::Refused { .. } => Ok(false),
    }
}

#[test]
fn ear_lists_of_grown_graphs_are_accepted(rt: HostRuntime) -> Result<(), Memory> {
    let mut accepted = true;
    for number in 1..11u64 {
        accepted = accepted && ears_are_accepted(rt.alloc(), number)?;
    }
    assert!(rt; accepted);
    Ok(())
}

// Whether some perfect matching has both edges, by a matching of the graph without their ends;
// two edges with a common end are in none.
fn are_matched(alloc: Global, g: &MultiGraph, e: u32, f: u32) -> Result<bool, Memory> {
    if e < 1 || e > g.size() || f < 1 || f > g.size() {
        return Ok(false);
    }
    let first = g.ends(e);
    let second = g.ends(f);
    let ends = set_of(&[first.a, first.b, second.a, second.b]);
    if e != f && ends.len() < 4 {
        return Ok(false);
    }
    Ok(perfect_without(alloc, g, ends)?.is_some())
}

// Whether the table is right about each of these edges with each other edge: those of a perfect
// matching lie together with it, and none that has a common end with it.
fn is_right_about(alloc: Global, g: &MultiGraph, some: &[u32]) -> Result<bool, Memory> {
    let table = together(alloc, g)?;
    for e in some {
        let mut many = 0u32;
        for f in 1..=g.size() {
            if *e < 1 || *e > g.size() || table.both(*e, f) != are_matched(alloc, g, *e, f)? {
                return Ok(false);
            }
            if table.both(f, *e) {
                many = many.saturating_add(1);
            }
        }
        if many < g.order() / 2 || many > g.size().saturating_sub(4) {
            return Ok(false);
        }
    }
    Ok(table.list().len() > 0)
}

#[test]
fn table_of_pairs_of_a_large_graph(rt: HostRuntime) -> Result<(), Memory> {
    let g = grow(rt.alloc(), 7, 16)?;
    assert!(rt; g.order() == 64 && g.size() == 96);
    assert!(rt; is_right_about(rt.alloc(), &g, &[1, 30, 60, 96])?);
    Ok(())
}
