//! Tight cut decompositions: how many bricks and braces one ends in; and laminar families.

use super::pair_graph::PairGraph;
use super::sets::{greatest, is_part, meets};
use std::alloc::{AllocError as Memory, Global};

/// How many bricks and how many braces there are.
pub type Tally = (u32, u32);

// The most graphs that a decomposition is asked to end in.
const MOST_LEAVES: u32 = 64;

// Puts both contractions at a cut on the list.
fn contract(
    alloc: Global,
    g: &PairGraph,
    shore: u32,
    open: &mut Vec<PairGraph>,
) -> Result<(), Memory> {
    open.push(g.contracted(alloc, shore)?)?;
    open.push(g.contracted(alloc, g.all & !shore)?)?;
    Ok(())
}

// Counts a leaf: a brace if it is bipartite after its loops are deleted, and otherwise a brick.
fn count(g: &PairGraph, tally: &mut Tally) {
    if g.has_side() {
        tally.1 = tally.1.saturating_add(1);
    } else {
        tally.0 = tally.0.saturating_add(1);
    }
}

// Puts the contractions at a nontrivial tight cut on the list, or counts the graph if it has none.
fn go_on(
    alloc: Global,
    g: &PairGraph,
    open: &mut Vec<PairGraph>,
    tally: &mut Tally,
) -> Result<(), Memory> {
    match g.tight_shores(alloc)?.pop() {
        Some(shore) => contract(alloc, g, shore, open),
        None => {
            count(g, tally);
            Ok(())
        }
    }
}

/// What the decomposition counts that contracts the shores of a nontrivial tight cut in turn, and
/// goes on with both contractions; nothing if a graph is not matching covered.
pub fn count_leaves(alloc: Global, g: PairGraph) -> Result<Option<Tally>, Memory> {
    let mut tally = (0, 0);
    let mut open = Vec::new(alloc);
    open.push(g)?;
    for _ in 0..MOST_LEAVES {
        if let Some(part) = open.pop() {
            if !part.is_covered() {
                return Ok(None);
            }
            go_on(alloc, &part, &mut open, &mut tally)?;
        }
    }
    Ok(Some(tally))
}

/// The sums of what the two contractions at a cut count.
pub fn count_both(alloc: Global, g: &PairGraph, shore: u32) -> Result<Option<Tally>, Memory> {
    let merged = count_leaves(alloc, g.contracted(alloc, shore)?)?;
    let kept = count_leaves(alloc, g.contracted(alloc, g.all & !shore)?)?;
    match (merged, kept) {
        (Some((bricks, braces)), Some((others, further))) => Ok(Some((
            bricks.saturating_add(others),
            braces.saturating_add(further),
        ))),
        _ => Ok(None),
    }
}

// Whether each of the four corners of the cut and some cut of the family has a vertex.
fn crosses_some(g: &PairGraph, family: &[u32], x: u32) -> bool {
    for y in family {
        if meets(x, *y) && !is_part(x, *y) && !is_part(*y, x) && !is_part(g.all, x | *y) {
            return true;
        }
    }
    false
}

/// Whether the shores are those of a maximal family of nontrivial tight cuts of which no two
/// cross, each the shore without the greatest vertex.
pub fn is_maximal_laminar(g: &PairGraph, family: &[u32]) -> bool {
    for x in family {
        if meets(*x, greatest(g.all)) || !g.is_tight_cut(*x) {
            return false;
        }
    }
    for set in &g.sets {
        let is_cut = !meets(*set, greatest(g.all)) && g.is_tight_cut(*set);
        if is_cut && family.contains(set) == crosses_some(g, family, *set) {
            return false;
        }
    }
    true
}
