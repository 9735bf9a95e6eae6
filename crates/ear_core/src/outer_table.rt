//! The partners in what is left of a graph off the vertices of a stage, for the next stages too.
ghost use Rattle.std.specs.Prelude.{◌≡◌, IfOk};
ghost use Rattle.graph_core.specs.from_counting.Common.{mem};
ghost use Rattle.two_ears.specs.from_match_core.Common.{ArePartners, IsOf};

use graph_core::MultiGraph;
use graph_core::vset_core::VSet;
use std::alloc::{AllocError as Memory, Global};
use std::marker::Model;
use two_ears::match_core::{Matching, PartnerTable, partners};

/// The last table of partners in G - X, for a set X of vertices, if one was made: successive stages
/// often have the same vertices. Contracts see the graph.
#[derive(Drop)]
pub struct OuterTable<'g> {
    graph: &'g MultiGraph,
    removed: VSet,
    table: Option<PartnerTable>,
}

impl<'g> Model for OuterTable<'g> {
    ghost use Rattle.std.specs.Prelude.{IfSome};
    ghost use Rattle.graph_core.specs.from_counting.Common.{mem};
    ghost use Rattle.graph_core.specs.Common.{Graph};
    ghost use Rattle.two_ears.specs.from_match_core.Common.{ArePartners};

    ghost Value = { Graph };

    ghost view = { λ o. o.graph.now };

    ghost invariant = { λ o. IfSome o.table (ArePartners o.graph.now (mem o.removed)) };
}

impl<'g> OuterTable<'g> {
    /// No table yet.
    pub fn none(g: &'g MultiGraph) -> OuterTable<'g>
        ensures { result ≡ g.now }
    {
        OuterTable {
            graph: g,
            removed: VSet::empty(),
            table: None,
        }
    }

    /// The table of partners in G - removed: the one that is kept, if it is that of this set, else
    /// one that is made from a matching.
    pub fn take(
        &mut self,
        alloc: Global,
        removed: VSet,
        m: &Matching,
    ) -> Result<PartnerTable, Memory>
        requires { IsOf self.old m.now }
        ensures same { self.new ≡ self.old }
        ensures table { IfOk result (ArePartners self.old (mem removed)) }
    {
        if self.removed == removed {
            if let Some(table) = self.table.take() {
                return Ok(table);
            }
        }
        let table = partners(alloc, self.graph, removed, m)?;
        Ok(table)
    }

    /// Keeps the table of partners in G - removed.
    pub fn keep(&mut self, removed: VSet, table: PartnerTable)
        requires { ArePartners self.old (mem removed) table }
        ensures { self.new ≡ self.old }
    {
        self.removed = removed;
        self.table = Some(table);
    }
}
