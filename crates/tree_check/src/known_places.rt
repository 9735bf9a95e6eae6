//! What is known of the nodes of trees of cuts, so that nothing is sought twice.
ghost use Rattle.std.specs.Prelude.{◌≡◌, true, IfSome};
ghost use Rattle.tree_core.specs.Common.{IsCutAt, IsLeafAt, place_of};
ghost use Rattle.tree_check.specs.KnownPlaces.{IsLeafOf};

use graph_core::vset_core::VSet;
use move_laws::contraction::Partition;
use move_laws::graph_facts::Covered;
use std::alloc::{AllocError as Memory, Global};
use std::marker::Model;
use tree_core::KnownPlace;

// A canonical nontrivial shore, and a partition at which it is tight.
#[derive(Drop)]
struct KnownCut {
    partition: Partition,
    shore: VSet,
}

/// A covered graph with what the judgement of its trees has found: the cuts that are tight where
/// they stand, and the leaves that are bricks or braces. Contracts see the graph.
#[derive(Drop)]
pub struct KnownPlaces<'c, 'g> {
    covered: &'c Covered<'g>,
    cuts: Vec<KnownCut>,
    leaves: Vec<KnownPlace<'c>>,
}

impl<'c, 'g> Model for KnownPlaces<'c, 'g> {
    ghost use Rattle.graph_core.specs.Common.{Graph};
    ghost use Rattle.std.specs.Prelude.{All};
    ghost use Rattle.tree_core.specs.Common.{IsCutAt};
    ghost use Rattle.tree_check.specs.KnownPlaces.{IsLeafOf};

    ghost Value = { Graph };

    ghost view = { λ k. k.covered.now };

    ghost invariant = { λ k.
        All (λ cut. IsCutAt k.covered.now cut.partition.blocks cut.shore) k.cuts.items ×
        All (IsLeafOf k.covered.now) k.leaves.items };
}

impl<'c, 'g> KnownPlaces<'c, 'g> {
    /// A covered graph of which no place is known yet. Takes no memory.
    pub fn none(alloc: Global, covered: &'c Covered<'g>) -> KnownPlaces<'c, 'g>
        ensures { result ≡ covered.now }
    {
        KnownPlaces {
            covered,
            cuts: Vec::new(alloc),
            leaves: Vec::new(alloc),
        }
    }

    /// What is known of the graph.
    pub fn covered(&self) -> &'c Covered<'g>
        ensures { result.now ≡ self.now }
    {
        self.covered
    }

    /// Whether the shore is known to be that of a cut at the partition.
    pub(crate) fn has_cut(&self, p: &Partition, shore: VSet) -> bool
        ensures { result ≡ true → IsCutAt self.now p.now.blocks shore }
    {
        for cut in &self.cuts {
            if cut.shore == shore && cut.partition.has_blocks_of(p) {
                return true;
            }
        }
        false
    }

    /// The cut of the shore at the partition is known from now on.
    pub(crate) fn add_cut(&mut self, partition: Partition, shore: VSet) -> Result<(), Memory>
        requires { IsCutAt self.old partition.blocks shore }
        ensures { self.new ≡ self.old }
    {
        self.cuts.push(KnownCut { partition, shore })?;
        Ok(())
    }

    /// The leaf at the partition, if it is known.
    pub(crate) fn leaf_at(&self, p: &Partition) -> Option<&KnownPlace<'c>>
        ensures { IfSome result
            (λ q. (q.now ≡ place_of self.now p.now.blocks) × IsLeafAt self.now p.now.blocks) }
    {
        for leaf in &self.leaves {
            if leaf.place().partition().has_blocks_of(p) {
                return Some(leaf);
            }
        }
        None
    }

    /// The leaf is known from now on.
    pub(crate) fn add_leaf(&mut self, place: KnownPlace<'c>) -> Result<(), Memory>
        requires { IsLeafOf self.old place }
        ensures { self.new ≡ self.old }
    {
        self.leaves.push(place)?;
        Ok(())
    }
}
