//! What the search at the edges of a graph that is not bipartite stands on: perfect matchings, and
//! what is known of pairs of edges.
ghost use Rattle.std.specs.Prelude.{IfOk};
ghost use Rattle.tight_cuts.specs.Common.{AreMatchings};

use crate::apart_edges::ApartEdges;
use crate::kept_rows::KeptRows;
use barrier_kit::allowed_edges::{PairTable, no_pairs};
use barrier_kit::match_core::Matching;
use std::alloc::{AllocError as Memory, Global};
use tree_core::graph_facts::Covered;

/// A perfect matching, a table in which perfect matchings are listed as they are needed, pairs of
/// edges that no perfect matching contains, and the rows of partners that were asked for.
#[derive(Drop)]
pub(crate) struct Matchings<'g> {
    pub(crate) kept: Matching,
    pub(crate) pairs: PairTable,
    pub(crate) apart: ApartEdges<'g>,
    pub(crate) rows: KeptRows<'g>,
}

impl<'g> Matchings<'g> {
    /// The matching of a covered graph, and nothing listed.
    pub(crate) fn new(alloc: Global, c: &'g Covered) -> Result<Matchings<'g>, Memory>
        ensures { IfOk result (AreMatchings c.now) }
    {
        let kept = c.own_matching(alloc)?;
        let pairs = no_pairs(alloc, c.graph())?;
        let apart = ApartEdges::new(alloc, c.graph())?;
        let rows = KeptRows::new(alloc, c.graph());
        Ok(Matchings {
            kept,
            pairs,
            apart,
            rows,
        })
    }
}
