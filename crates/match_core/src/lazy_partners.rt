//! The partners of single vertices, one row at a time.
//!
//! If only some rows of the table of partners are read, each is computed when it is first read, and
//! kept.
ghost use Rattle.std.specs.Prelude.{◌≡◌, ℕ, ◌+◌, length, IfOk};
ghost use Rattle.graph_core.specs.from_counting.Common.{Within, Set, mem};
ghost use Rattle.match_core.specs.MatchingRows.{IsOf};
ghost use Rattle.match_core.specs.Partners.{are_partners};
ghost use Rattle.match_search.specs.Common.{HasMates, numbers};

use crate::matching::Matching;
use crate::mates::mates_off;
use crate::partner_table::partners_of;
use graph_core::MultiGraph;
use graph_core::vset_core::VSet;
use match_search::{RowSpace, instance_of};
use std::alloc::{AllocError as Memory, Global};
use std::marker::Model;

/// The partners of the vertices of G - removed (see `partners`), one row at a time. Contracts see
/// the graph and the removed vertices.
#[derive(Drop)]
pub struct LazyPartners<'g> {
    graph: &'g MultiGraph,
    removed: VSet,
    mate: Vec<u32>,
    known: VSet,
    rows: Vec<VSet>,
}

impl<'g> Model for LazyPartners<'g> {
    ghost use Rattle.match_core.specs.PartnersOnDemand.{RowsValue, AreKnownRows};

    ghost Value = { RowsValue };

    ghost view = { λ p. record { graph = p.graph.now; removed = p.removed } };

    ghost invariant = { λ p. AreKnownRows p.graph.now p.removed p.mate.items p.known p.rows.items };
}

impl<'g> LazyPartners<'g> {
    /// No row yet. Each search starts from the edges of `m`, a matching of `g`, that meet no vertex
    /// of `removed`; the fewer vertices of G - removed they miss, the faster the search ends. Takes
    /// O(n) time; the only error is `Memory`.
    pub fn new(
        alloc: Global,
        g: &'g MultiGraph,
        removed: VSet,
        m: &Matching,
    ) -> Result<LazyPartners<'g>, Memory>
        requires { IsOf g.now m.now }
        ensures graph { IfOk result (λ p. p.graph ≡ g.now) }
        ensures removed { IfOk result (λ p. p.removed ≡ removed) }
    {
        let mate = mates_off(alloc, g, removed, m)?;
        let rows = vec![in alloc; VSet::empty(); g.order() as usize]?;
        Ok(LazyPartners {
            graph: g,
            removed,
            mate,
            known: VSet::empty(),
            rows,
        })
    }

    /// The partners of `u`. The first call for a vertex takes one search, O(n^2) steps on words, if
    /// the matching is perfect in G - removed, and otherwise augmentations too, O(n^4) at most;
    /// later calls take constant time. The only error is `Memory`.
    pub fn of(&mut self, alloc: Global, u: u32) -> Result<VSet, Memory>
        requires { Within self.old.graph.order u }
        ensures row { IfOk result
            (λ row. (v : ℕ) → Within self.old.graph.order v →
            mem row v ≡ are_partners self.old.graph (mem self.old.removed) u v) }
        ensures same { self.new ≡ self.old }
    {
        self.graph.keeps_limits();
        if self.known.contains(u) {
            return Ok(self.rows[u as usize - 1]);
        }
        let row = searched(alloc, self.graph, self.removed, &self.mate, u)?;
        self.rows[u as usize - 1] = row;
        self.known = self.known.with(u);
        Ok(row)
    }
}

// One row, by one search.
#[tactic(auto, using(crate::proofs::HeldMates::first_mates))]
fn searched(
    alloc: Global,
    g: &MultiGraph,
    removed: VSet,
    mate: &[u32],
    u: u32,
) -> Result<VSet, Memory>
    requires long { length mate.now ≡ g.now.order + 1 }
    requires mates { (f : Set) × HasMates g.now (mem removed) f (numbers mate.now) }
    requires vertex { Within g.now.order u }
    ensures { IfOk result
        (λ row. (v : ℕ) → Within g.now.order v → mem row v ≡ are_partners g.now (mem removed) u v) }
{
    g.keeps_limits();
    let mut instance = instance_of(alloc, g.rows(), removed)?;
    let mut space = RowSpace::new(alloc, instance.left, mate)?;
    partners_of(alloc, g, &mut instance, &mut space, removed, mate, u)
}
