//! What the search at an edge stands on: how often the listed matchings hold each edge, and the
//! graph of the edges that they hold together with one edge.
ghost use Rattle.std.specs.Prelude.{◌≡◌, ℕ, ◌+◌, ◌<◌, ◌≤◌, ◌-◌, ◌^◌, ◌↔◌, true, All, IfOk, length, map};
ghost use Rattle.graph_core.specs.from_counting.Common.{Within, bit, mem};
ghost use Rattle.graph_core.specs.Common.{size};
ghost use Rattle.barrier_kit.specs.from_match_core.Common.{edges_of};
ghost use Rattle.barrier_kit.specs.from_allowed_edges.PairTables.{SettlesEdges, edge_lists, holds_both};
ghost use Rattle.tight_cuts.specs.Common.{AreWeights, at_place, weight, IsBeside};

use barrier_kit::allowed_edges::PairTable;
use barrier_kit::match_core::Matching;
use graph_core::MultiGraph;
use std::alloc::{AllocError as Memory, Global};

/// How many matchings of a list hold each edge, by edge number, and how many matchings it has.
#[derive(Drop)]
pub(crate) struct Weights {
    pub(crate) row: Vec<u64>,
    pub(crate) matchings: u64,
}

// Counts the edges of one matching more.
fn count_edges(row: &mut Vec<u64>, m: &Matching)
    requires within { All (λ r. r.edge < length row.old.items) m.now.rows }
    requires room { (e : ℕ) → at_place row.old.items e < 2 ^ 64 - 1 }
    ensures long { length row.new.items ≡ length row.old.items }
    ensures each { (e : ℕ) →
        at_place row.new.items e ≡ at_place row.old.items e + bit (mem (edges_of m.now) e) }
{
    m.keeps_matching();
    for i in 0..m.len() {
        let edge = m.row(i).edge as usize;
        row[edge] += 1;
    }
}

/// How many of the listed matchings hold each edge of `g`.
pub(crate) fn weights_of(
    alloc: Global,
    g: &MultiGraph,
    pairs: &PairTable,
) -> Result<Weights, Memory>
    requires { SettlesEdges g.now 1 pairs.now }
    ensures { IfOk result
        (λ weights. AreWeights g.now (edge_lists pairs.now) weights.row.items
        weights.matchings) }
{
    g.keeps_limits();
    let mut row = vec![in alloc; 0; g.size() as usize + 1]?;
    let list = pairs.list();
    let matchings = list.len();
    for i in 0..matchings {
        count_edges(&mut row, &list[i]);
    }
    Ok(Weights {
        row,
        matchings: matchings as u64,
    })
}

/// The graph with the vertices of `g` and, for edges, those that a listed matching holds together
/// with edge `e`, without `e` itself. Some listed matching holds `e`.
pub(crate) fn graph_beside(
    alloc: Global,
    g: &MultiGraph,
    pairs: &PairTable,
    e: u32,
) -> Result<MultiGraph, Memory>
    requires edge { Within (size g.now) e }
    requires listed { SettlesEdges g.now 1 pairs.now }
    requires held { holds_both (edge_lists pairs.now) e e ≡ true }
    ensures { IfOk result (IsBeside g.now e) }
{
    let mut beside = MultiGraph::new(alloc, g.order())?;
    for k in 0..g.size() {
        let f = k + 1;
        if f != e && pairs.both(e, f) {
            let ends = g.ends(f);
            beside.push_edge(ends)?;
        }
    }
    Ok(beside)
}
