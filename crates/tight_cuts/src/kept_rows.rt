//! Rows of partners without the ends of an edge, kept from one shore to the next.
ghost use Rattle.std.specs.Prelude.{◌≡◌, ◌<◌, ℕ, true, Some, IfOk, length, slice_get};
ghost use Rattle.graph_core.specs.from_counting.Common.{Within, mem};
ghost use Rattle.barrier_kit.specs.from_match_core.Common.{IsOf, are_partners};

use barrier_kit::match_core::{LazyPartners, Matching};
use graph_core::MultiGraph;
use graph_core::vset_core::VSet;
use std::alloc::{AllocError as Memory, Global};
use std::marker::Model;

/// For so many sets rows are kept; then they make room for others.
const MOST_KEPT: usize = 128;

// The rows without the vertices of one set.
#[derive(Drop)]
struct RowsWithout<'g> {
    met: VSet,
    rows: LazyPartners<'g>,
}

/// The partners of the vertices of a graph without a set, one row at a time, for the sets that were
/// asked last. Contracts see the graph.
#[derive(Drop)]
pub(crate) struct KeptRows<'g> {
    graph: &'g MultiGraph,
    kept: Vec<RowsWithout<'g>>,
}

impl<'g> Model for KeptRows<'g> {
    ghost use Rattle.std.specs.Prelude.{◌≡◌, All};
    ghost use Rattle.graph_core.specs.Common.{Graph};

    ghost Value = { Graph };

    ghost view = { λ rows. rows.graph.now };

    ghost invariant = { λ rows. All (λ k. (k.rows.graph ≡ rows.graph.now) × (k.rows.removed ≡ k.met)) rows.kept.items };
}

impl<'g> KeptRows<'g> {
    /// No row yet. Takes no memory.
    pub(crate) fn new(alloc: Global, g: &'g MultiGraph) -> KeptRows<'g>
        ensures { result ≡ g.now }
    {
        KeptRows {
            graph: g,
            kept: Vec::new(alloc),
        }
    }

    /// The partners of `u` in the graph without the vertices of `met`: kept ones, or those that one
    /// search gives, which starts from the edges of `held`.
    pub(crate) fn of(
        &mut self,
        alloc: Global,
        met: VSet,
        held: &Matching,
        u: u32,
    ) -> Result<VSet, Memory>
        requires held { IsOf self.old held.now }
        requires vertex { Within self.old.order u }
        ensures row { IfOk result
            (λ row. (v : ℕ) → Within self.old.order v →
            mem row v ≡ are_partners self.old (mem met) u v) }
        ensures same { self.new ≡ self.old }
    {
        if let Some(i) = place_of(&self.kept, met) {
            return self.kept[i].rows.of(alloc, u);
        }
        let mut rows = LazyPartners::new(alloc, self.graph, met, held)?;
        let row = rows.of(alloc, u)?;
        if self.kept.len() >= MOST_KEPT {
            self.kept.clear();
        }
        self.kept.push(RowsWithout { met, rows })?;
        Ok(row)
    }
}

// The last place of rows without the vertices of the set.
fn place_of(kept: &[RowsWithout<'_>], met: VSet) -> Option<usize>
    ensures within { (i : ℕ) → result ≡ Some i → i < length kept.now }
    ensures met { (i : ℕ) (k : _) → result ≡ Some i → slice_get kept.now i ≡ Some k → k.met ≡ met }
{
    let many = kept.len();
    for k in 0..many {
        let i = many - 1 - k;
        if is_same(kept[i].met, met) {
            return Some(i);
        }
    }
    None
}

// Whether two sets are the same.
fn is_same(first: VSet, second: VSet) -> bool
    ensures { result ≡ true → first ≡ second }
{
    first == second
}
