//! Places in a derivation, each with what is known of its quotient.
ghost use Rattle.std.specs.Prelude.{◌≡◌, ◌↔◌, ◌+◌, ◌≤◌, ◌≢◌, None, length, IfOk, IfSome};
ghost use Rattle.graph_core.specs.from_counting.Common.{count, mem, complement};
ghost use Rattle.graph_core.specs.Common.{IsCovered, IsPartition, IsWithinLimits, singles, quotient, blocks_in};
ghost use Rattle.graph_facts.specs.Lent.{graph_in};
ghost use Rattle.tree_core.specs.Derivations.{IsCutAt, kept_at, merged_at};
ghost use Rattle.tree_core.specs.Places.{seen_at};
ghost use Rattle.tree_core.specs.Tallies.{IsLeafKind};

use crate::place::Place;
use crate::tallies::{LeafKind, kind_by_side};
use contraction::quotient_graph;
use graph_core::vset_core::{MOST_VERTICES, VSet};
use graph_facts::{Covered, Lent};
use std::alloc::{AllocError as Memory, Global};
use std::marker::Model;

/// A place in a derivation with what is known of the quotient there: at single vertices what is
/// known of the graph itself, and elsewhere the quotient as a covered graph. Contracts see the
/// graph and the blocks.
#[derive(Drop)]
pub struct KnownPlace<'g> {
    place: Place<'g>,
    below: Option<Covered<'g>>,
}

impl<'g> Model for KnownPlace<'g> {
    ghost use Rattle.tree_core.specs.Places.{IsSeen, PlaceValue};

    ghost Value = { PlaceValue };

    ghost view = { λ p. p.place };

    ghost invariant = { λ p. IsSeen p.place.graph p.place.blocks p.below };
}

impl<'g> KnownPlace<'g> {
    /// A place, with what is known of the quotient there. At single vertices nothing is sought.
    /// Elsewhere the quotient is made, in O(n^2 + m) time, and its facts are found, at the cost of
    /// `Covered::of`; the only error is `Memory`.
    pub fn of(alloc: Global, place: Place<'g>) -> Result<KnownPlace<'g>, Memory>
        ensures { IfOk result (λ p. p ≡ place.entry) }
    {
        if place.partition().len() == place.graph().order() as usize {
            return Ok(KnownPlace { place, below: None });
        }
        let q = quotient_graph(alloc, place.graph(), place.partition())?;
        let below = Covered::kept(alloc, q)?;
        Ok(KnownPlace {
            place,
            below: Some(below),
        })
    }

    /// The place at the root: the single vertices of a covered graph. Nothing is sought. Takes O(n)
    /// time; the only error is `Memory`.
    pub fn root(alloc: Global, c: &'g Covered<'g>) -> Result<KnownPlace<'g>, Memory>
        ensures graph { IfOk result (λ p. p.graph ≡ c.now) }
        ensures blocks { IfOk result (λ p. p.blocks ≡ singles c.now.order) }
    {
        let place = Place::root(alloc, c)?;
        let found = KnownPlace::of(alloc, place)?;
        Ok(found)
    }

    /// The place below a cut where the shore is kept: its complement becomes one block. Costs what
    /// `KnownPlace::of` costs; the only error is `Memory`.
    pub fn kept(&self, alloc: Global, shore: VSet) -> Result<KnownPlace<'g>, Memory>
        requires { IsCutAt self.now.graph self.now.blocks shore }
        ensures graph { IfOk result (λ p. p.graph ≡ self.now.graph) }
        ensures blocks { IfOk result
            (λ p. p.blocks ≡ kept_at self.now.graph.order self.now.blocks shore) }
        ensures length { IfOk result
            (λ p. length p.blocks + count (length self.now.blocks)
            (complement (blocks_in self.now.blocks (mem shore))) ≡ length self.now.blocks + 1) }
    {
        let place = self.place.kept(alloc, shore)?;
        let found = KnownPlace::of(alloc, place)?;
        Ok(found)
    }

    /// The place below a cut where the shore is merged: it becomes one block. Costs what
    /// `KnownPlace::of` costs; the only error is `Memory`.
    pub fn merged(&self, alloc: Global, shore: VSet) -> Result<KnownPlace<'g>, Memory>
        requires { IsCutAt self.now.graph self.now.blocks shore }
        ensures graph { IfOk result (λ p. p.graph ≡ self.now.graph) }
        ensures blocks { IfOk result
            (λ p. p.blocks ≡ merged_at self.now.graph.order self.now.blocks shore) }
        ensures length { IfOk result
            (λ p. length p.blocks + count (length self.now.blocks)
            (blocks_in self.now.blocks (mem shore)) ≡ length self.now.blocks + 1) }
    {
        let place = self.place.merged(alloc, shore)?;
        let found = KnownPlace::of(alloc, place)?;
        Ok(found)
    }

    /// The law of a place: the blocks are a partition of the vertices, and the quotient at it is
    /// matching covered. It does nothing: a caller states it where it needs it.
    pub fn keeps_place(&self)
        ensures covered { IsCovered (quotient self.now.graph self.now.blocks) }
        ensures partition { IsPartition self.now.graph.order self.now.blocks }
        ensures limits { IsWithinLimits self.now.graph }
        ensures few { length self.now.blocks ≤ MOST_VERTICES }
    {
        self.place.keeps_place();
    }

    /// The place alone.
    pub fn place(&self) -> &Place<'g>
        ensures { result.now ≡ self.now }
    {
        &self.place
    }

    /// The covered graph at the place: at single vertices the graph itself, else the quotient.
    pub fn covered(&self) -> &Covered<'g>
        ensures { result.now ≡ seen_at self.now.graph self.now.blocks }
    {
        match &self.below {
            Some(q) => q,
            None => self.place.root_graph(),
        }
    }

    /// The quotient as a covered graph; `None` exactly at single vertices.
    pub fn below(&self) -> Option<&Covered<'g>>
        ensures some { IfSome result (λ q. q.now ≡ quotient self.now.graph self.now.blocks) }
        ensures none { (result ≡ None) ↔ (length self.now.blocks ≡ self.now.graph.order) }
    {
        match &self.below {
            Some(q) => Some(q),
            None => None,
        }
    }

    /// The quotient graph, which is made only at single vertices. There it takes O(n^2 + m) time,
    /// elsewhere constant time; the only error is `Memory`.
    pub fn quotient(&self, alloc: Global) -> Result<Lent<'_>, Memory>
        ensures { IfOk result (λ q. graph_in q ≡ quotient self.now.graph self.now.blocks) }
    {
        match self.below() {
            Some(q) => Ok(Lent::Of(q.graph())),
            None => {
                let q = quotient_graph(alloc, self.place.graph(), self.place.partition())?;
                Ok(Lent::Own(q))
            }
        }
    }

    /// The kind that a leaf at the place has. Takes no memory.
    pub fn kind(&self) -> LeafKind
        ensures { IsLeafKind self.now.graph self.now.blocks result }
    {
        self.keeps_place();
        kind_by_side(self.covered().is_bipartite())
    }
}
