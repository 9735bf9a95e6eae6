//! A row of a table: premises of theorems, a graph without them, and what the graph shows.

use super::claims::Claim;
use super::graphs::Given;
use super::pair_graph::PairGraph;
use std::alloc::{AllocError as Memory, Global};
use std::test::Fail;

/// Premises of theorems, as `docs/THEOREMS.md` words them after the theorem's name; the same by
/// their names in the contracts, `LAW.CLAUSE: PREMISE`, where a premise is named by its definition
/// or by a part of its formula; a graph without them, as those rows of the book name it, what they
/// say of single sets aside; claims that hold of the graph, and claims that do not. The first that
/// fails is each of the premises; if the premises are two, the first two. The others of both kinds
/// are the further premises and the two sides of the sentences, which do not agree.
pub struct Row {
    pub premises: &'static [&'static str],
    pub without: &'static [&'static str],
    pub graph: &'static str,
    pub given: Given,
    pub holds: &'static [Claim],
    pub fails: &'static [Claim],
}

// Whether each of the claims holds of the graph, or each fails.
fn are_all(alloc: Global, g: &PairGraph, claims: &[Claim], wanted: bool) -> Result<bool, Memory> {
    for claim in claims {
        if !claim.is_so(alloc, g, wanted)? {
            return Ok(false);
        }
    }
    Ok(true)
}

// Whether the graph is as the row says.
fn is_so(alloc: Global, row: &Row) -> Result<bool, Memory> {
    let (order, edges) = row.given;
    let g = PairGraph::new(alloc, order, edges)?;
    if row.fails.is_empty() || !are_all(alloc, &g, row.holds, true)? {
        return Ok(false);
    }
    are_all(alloc, &g, row.fails, false)
}

/// Fails at the first row whose graph is not as the row says, with the name of that graph.
pub fn all_are_so(alloc: Global, rows: &[Row]) -> Result<(), Fail> {
    for row in rows {
        if !is_so(alloc, row)? {
            return Err(Fail::new(row.graph));
        }
    }
    Ok(())
}
