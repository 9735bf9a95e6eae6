//! Places in a derivation.
ghost use Rattle.std.specs.Prelude.{◌≡◌, ◌+◌, ◌≤◌, ◌≢◌, length, IfNone, IfOk, IfSome};
ghost use Rattle.graph_core.specs.from_counting.Common.{count, mem, complement};
ghost use Rattle.graph_core.specs.Common.{IsCovered, IsPartition, IsWithinLimits, singles, quotient, blocks_in};
ghost use Rattle.tree_core.specs.Derivations.{IsCutAt, kept_at, merged_at};

use crate::leaf_partitions::complement_in;
use contraction::Partition;
use graph_core::MultiGraph;
use graph_core::vset_core::{MOST_VERTICES, VSet};
use graph_facts::Covered;
use std::alloc::{AllocError as Memory, Global};
use std::marker::Model;

/// A place in a derivation: a graph with a partition of its vertices whose quotient is matching
/// covered. Contracts see the graph and the blocks. A derivation starts at `root`, and each cut
/// leads to the places `kept` and `merged` (Lovász 1987).
#[derive(Drop)]
pub struct Place<'g> {
    root: &'g Covered<'g>,
    partition: Partition,
}

impl<'g> Model for Place<'g> {
    ghost use Rattle.std.specs.Prelude.{◌≡◌};
    ghost use Rattle.graph_core.specs.Common.{IsCovered, quotient};
    ghost use Rattle.tree_core.specs.Places.{PlaceValue};

    ghost Value = { PlaceValue };

    ghost view = { λ p. record { graph = p.root.now; blocks = p.partition.blocks } };

    ghost invariant = { λ p. (p.partition.order ≡ p.root.now.order) × IsCovered (quotient p.root.now p.partition.blocks) };
}

impl<'g> Place<'g> {
    /// The place at the root: the single vertices of a covered graph. The quotient at it is the
    /// graph itself up to parallel edges. Takes O(n) time; the only error is `Memory`.
    pub fn root(alloc: Global, c: &'g Covered<'g>) -> Result<Place<'g>, Memory>
        ensures graph { IfOk result (λ p. p.graph ≡ c.now) }
        ensures blocks { IfOk result (λ p. p.blocks ≡ singles c.now.order) }
    {
        c.keeps_covered();
        let partition = Partition::singles(alloc, c.order())?;
        Ok(Place { root: c, partition })
    }

    /// The place below a cut where the shore is kept: its complement becomes one block. The
    /// quotient at it is matching covered again. Takes O(n) steps on words; the only error is
    /// `Memory`.
    pub fn kept(&self, alloc: Global, shore: VSet) -> Result<Place<'g>, Memory>
        requires { IsCutAt self.now.graph self.now.blocks shore }
        ensures graph { IfOk result (λ p. p.graph ≡ self.now.graph) }
        ensures blocks { IfOk result
            (λ p. p.blocks ≡ kept_at self.now.graph.order self.now.blocks shore) }
        ensures length { IfOk result
            (λ p. length p.blocks + count (length self.now.blocks)
            (complement (blocks_in self.now.blocks (mem shore))) ≡ length self.now.blocks + 1) }
    {
        self.keeps_place();
        let complement = complement_in(&self.partition, shore);
        let partition = self.partition.merge(alloc, complement)?;
        Ok(Place {
            root: self.root,
            partition,
        })
    }

    /// The place below a cut where the shore is merged: it becomes one block. The quotient at it is
    /// matching covered again. Takes O(n) steps on words; the only error is `Memory`.
    pub fn merged(&self, alloc: Global, shore: VSet) -> Result<Place<'g>, Memory>
        requires { IsCutAt self.now.graph self.now.blocks shore }
        ensures graph { IfOk result (λ p. p.graph ≡ self.now.graph) }
        ensures blocks { IfOk result
            (λ p. p.blocks ≡ merged_at self.now.graph.order self.now.blocks shore) }
        ensures length { IfOk result
            (λ p. length p.blocks + count (length self.now.blocks)
            (blocks_in self.now.blocks (mem shore)) ≡ length self.now.blocks + 1) }
    {
        self.keeps_place();
        let partition = self.partition.merge(alloc, shore)?;
        Ok(Place {
            root: self.root,
            partition,
        })
    }

    /// A copy. Takes O(n) time; the only error is `Memory`.
    pub fn copy(&self, alloc: Global) -> Result<Place<'g>, Memory>
        ensures { IfOk result (λ p. p ≡ self.now) }
    {
        let partition = self.partition.copy(alloc)?;
        Ok(Place {
            root: self.root,
            partition,
        })
    }

    /// The law of a place: the blocks are a partition of the vertices, and the quotient at it is
    /// matching covered. It does nothing: a caller states it where it needs it.
    pub fn keeps_place(&self)
        ensures covered { IsCovered (quotient self.now.graph self.now.blocks) }
        ensures partition { IsPartition self.now.graph.order self.now.blocks }
        ensures limits { IsWithinLimits self.now.graph }
        ensures few { length self.now.blocks ≤ MOST_VERTICES }
    {
        self.root.keeps_covered();
        self.partition.keeps_partition();
    }

    /// The covered graph at whose derivations the place is.
    pub(crate) fn root_graph(&self) -> &'g Covered<'g>
        ensures { result.now ≡ self.now.graph }
    {
        self.root
    }

    /// What is known of the graph; `None` if and only if the place is not at single vertices.
    pub fn known(&self) -> Option<&'g Covered<'g>>
        ensures graph { IfSome result (λ c. c.now ≡ self.now.graph) }
        ensures single { IfSome result (λ _. length self.now.blocks ≡ self.now.graph.order) }
        ensures none { IfNone result (length self.now.blocks ≢ self.now.graph.order) }
    {
        if self.partition.len() == self.root.order() as usize {
            return Some(self.root);
        }
        None
    }

    /// The graph.
    pub fn graph(&self) -> &'g MultiGraph
        ensures { result.now ≡ self.now.graph }
    {
        self.root.graph()
    }

    /// The partition.
    pub fn partition(&self) -> &Partition
        ensures order { result.now.order ≡ self.now.graph.order }
        ensures blocks { result.now.blocks ≡ self.now.blocks }
        ensures covered { IsCovered (quotient self.now.graph result.now.blocks) }
    {
        &self.partition
    }
}
