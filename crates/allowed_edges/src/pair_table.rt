//! The table of the pairs of edges that lie together.
ghost use Rattle.std.specs.Prelude.{◌≡◌, ◌++◌, ◌∷◌, [], true, All, IfOk, OnOk};
ghost use Rattle.graph_core.specs.from_counting.Common.{Within, mem};
ghost use Rattle.graph_core.specs.Common.{size};
ghost use Rattle.match_core.specs.Common.{edges_of};
ghost use Rattle.allowed_edges.specs.PairTables.{IsPerfectWith, edge_lists, holds_both};

use crate::exchanges::Joins;
use crate::table::EdgeTable;
use crate::varied::varied;
use graph_core::MultiGraph;
use match_core::Matching;
use std::alloc::{AllocError as Memory, Global};
use std::marker::Model;

/// Perfect matchings of a graph, and for any two edges whether one of the matchings contains both.
/// Contracts see the number of edges of the graph and the list of the matchings.
#[derive(Drop)]
pub struct PairTable {
    size: u32,
    table: EdgeTable,
    list: Vec<Matching>,
    joins: Joins,
}

impl Model for PairTable {
    ghost use Rattle.std.specs.Prelude.{map};
    ghost use Rattle.allowed_edges.specs.PairTables.{PairsValue, holds_both};
    ghost use Rattle.allowed_edges.specs.EdgeTables.{MarksPairs};
    ghost use Rattle.match_core.specs.MatchingRows.{edges_of};

    ghost Value = { PairsValue };

    ghost view = { λ pairs. record { size = pairs.size; list = pairs.list.items } };

    ghost invariant = { λ pairs. MarksPairs pairs.size (holds_both (map edges_of pairs.list.items)) pairs.table };
}

impl PairTable {
    /// Whether some listed matching contains both `e` and `f`; for e = f, whether one contains e.
    /// Takes no memory. Takes O(k) time for k blocks of 128 listed matchings.
    pub fn both(&self, e: u32, f: u32) -> bool
        requires first { Within self.now.size e }
        requires second { Within self.now.size f }
        ensures { result ≡ holds_both (edge_lists self.now) e f }
    {
        self.table.has_both(e, f)
    }

    /// The matchings. Takes no memory.
    pub fn list(&self) -> &[Matching]
        ensures { result.now ≡ self.now.list }
    {
        &self.list
    }

    /// No matching yet.
    pub(crate) fn new(alloc: Global, g: &MultiGraph) -> Result<PairTable, Memory>
        ensures size { IfOk result (λ pairs. pairs.size ≡ size g.now) }
        ensures list { IfOk result (λ pairs. pairs.list ≡ []) }
    {
        let size = g.size();
        Ok(PairTable {
            size,
            table: EdgeTable::new(alloc, size),
            list: Vec::new(alloc),
            joins: Joins::new(alloc, g)?,
        })
    }

    /// A perfect matching that contains `e` and `f`, made from a given one and varied so that it
    /// contains pairs with `e` or `f` that no listed one contains.
    pub(crate) fn varied(
        &self,
        alloc: Global,
        g: &MultiGraph,
        found: Matching,
        e: u32,
        f: u32,
    ) -> Result<Matching, Memory>
        requires size { self.now.size ≡ size g.now }
        requires edge { Within (size g.now) e }
        requires other { Within (size g.now) f }
        requires found { IsPerfectWith g.now e found }
        requires held { mem (edges_of found) f ≡ true }
        ensures perfect { IfOk result (IsPerfectWith g.now e) }
        ensures held { IfOk result (λ m. mem (edges_of m) f ≡ true) }
    {
        varied(alloc, g, &self.joins, &self.table, found, e, f)
    }

    /// Lists one more matching, and marks all pairs of its edges.
    pub(crate) fn add(&mut self, alloc: Global, found: Matching) -> Result<(), Memory>
        requires { All (λ row. Within self.old.size row.edge) found.rows }
        ensures size { OnOk result (self.new.size ≡ self.old.size) }
        ensures list { OnOk result (self.new.list ≡ self.old.list ++ found ∷ []) }
    {
        self.table.make_room(alloc)?;
        let place = self.list.len();
        self.list.push(found)?;
        self.table.add(&self.list[place]);
        Ok(())
    }
}
