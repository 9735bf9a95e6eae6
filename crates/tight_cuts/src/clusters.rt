//! Vertices in clusters: no nontrivial tight cut separates two vertices of one cluster.
//!
//! If the search at an edge finds no tight cut, then none separates the ends of the edge. And if
//! none separates u from v, and none v from w, then none separates u from w. So an edge with both
//! ends in one cluster gives nothing, and the search goes to at most n - 1 edges that give nothing.
//!
//! Clusters at a place of a derivation have vertices of the whole graph. A shore that is tight at
//! a place below was tight there, and a nontrivial one was nontrivial. So clusters stay clusters.
ghost use Rattle.std.specs.Prelude.{◌≡◌, ℕ, ◌+◌, ◌<◌, ◌≤◌, List, cond, true, length, IfOk};
ghost use Rattle.graph_core.specs.from_counting.Common.{Within, item, last_of, mem};
ghost use Rattle.graph_core.specs.Common.{Graph, block, first_end, place, quotient, second_end, size, union_of_blocks};
ghost use Rattle.tree_core.specs.Common.{IsCutAt, kept_at, merged_at};
ghost use Rattle.tight_cuts.specs.Common.{AreClusters, AreClustersAt, AreUnparted, IsOneSided};

use graph_core::MultiGraph;
use graph_core::vset_core::{MOST_VERTICES, VSet};
use std::alloc::{AllocError as Memory, Global};
use std::marker::Model;
use tree_core::KnownPlace;
use tree_core::contraction::{Partition, name_of};

/// Clusters of vertices that no nontrivial tight cut separates, by the cluster of each vertex; a
/// vertex alone may have an empty set. Contracts see the row of sets.
#[derive(Drop)]
pub struct Clusters {
    sets: Vec<VSet>,
}

impl Model for Clusters {
    ghost use Rattle.std.specs.Prelude.{List, ℕ};

    ghost Value = { List (List ℕ) };

    ghost view = { λ clusters. clusters.sets.items };
}

impl Clusters {
    /// Each vertex alone. Takes O(n) time; the only error is `Memory`.
    pub fn new(alloc: Global, g: &MultiGraph) -> Result<Clusters, Memory>
        ensures graph { IfOk result (AreClusters g.now) }
        ensures places { (p : List (List ℕ)) → IfOk result (AreClustersAt g.now p) }
    {
        let sets = vec![in alloc; VSet::empty(); g.order() as usize]?;
        Ok(Clusters { sets })
    }

    /// A copy. Takes O(n) time; the only error is `Memory`.
    pub fn copy(&self, alloc: Global) -> Result<Clusters, Memory>
        ensures { IfOk result (λ clusters. clusters ≡ self.now) }
    {
        Ok(Clusters {
            sets: Vec::from_slice(alloc, &self.sets)?,
        })
    }

    /// The law that clusters at a place are clusters at both places below a cut there. It does
    /// nothing: a caller states it where it needs it.
    #[tactic(auto, using(crate::proofs::ClustersAtPlaces::clusters_kept, crate::proofs::ClustersAtPlaces::clusters_merged))]
    pub fn stay_below(&self, place: &KnownPlace, shore: VSet)
        requires cut { IsCutAt place.now.graph place.now.blocks shore }
        requires clusters { AreClustersAt place.now.graph place.now.blocks self.now }
        ensures kept { AreClustersAt place.now.graph
            (kept_at place.now.graph.order place.now.blocks shore) self.now }
        ensures merged { AreClustersAt place.now.graph
            (merged_at place.now.graph.order place.now.blocks shore) self.now }
    {
        place.keeps_place();
    }

    /// The clusters of the quotient at a place, from those at the place.
    pub(crate) fn of_blocks(&self, alloc: Global, place: &KnownPlace) -> Result<Clusters, Memory>
        requires { AreClustersAt place.now.graph place.now.blocks self.now }
        ensures { IfOk result (AreClusters (quotient place.now.graph place.now.blocks)) }
    {
        place.keeps_place();
        let p = place.place().partition();
        let mut sets = Vec::new(alloc);
        for i in 0..p.len() {
            sets.push(self.of_block(p, i))?;
        }
        Ok(Clusters { sets })
    }

    // The blocks whose names are in the cluster of the name of block `i`.
    fn of_block(&self, p: &Partition, i: usize) -> VSet
        requires rows { length self.now ≡ p.now.order }
        requires block { i < length p.now.blocks }
        ensures { (j : ℕ) → mem result j ≡ true → Within (length p.now.blocks) j
            × (mem (item self.now (last_of (block p.now.blocks (i + 1))))
            (last_of (block p.now.blocks j)) ≡ true) }
    {
        p.keeps_partition();
        let name = name_of(p.block(i));
        named_in(p, self.sets[name as usize - 1])
    }

    /// The clusters at a place, from those of the quotient there.
    pub(crate) fn of_vertices(&self, alloc: Global, place: &KnownPlace) -> Result<Clusters, Memory>
        requires { AreClusters (quotient place.now.graph place.now.blocks) self.now }
        ensures { IfOk result (AreClustersAt place.now.graph place.now.blocks) }
    {
        place.keeps_place();
        let p = place.place().partition();
        let mut sets = Vec::new(alloc);
        for k in 0..p.order() {
            sets.push(self.of_vertex(p, k + 1))?;
        }
        Ok(Clusters { sets })
    }

    // The vertices in the blocks of the cluster of the block that holds `v`.
    fn of_vertex(&self, p: &Partition, v: u32) -> VSet
        requires rows { length self.now ≡ length p.now.blocks }
        requires vertex { Within p.now.order v }
        ensures { (g : Graph) → g.order ≡ p.now.order → result
            ≡ union_of_blocks g p.now.blocks (mem (item self.now (place p.now.blocks v))) }
    {
        p.keeps_partition();
        let place = p.place(v);
        p.lift_set(self.sets[place as usize - 1])
    }

    /// Whether both ends of an edge are in one cluster.
    pub(crate) fn has_both(&self, g: &MultiGraph, e: u32) -> bool
        requires edge { Within (size g.now) e }
        requires clusters { AreClusters g.now self.now }
        ensures { result ≡ true → AreUnparted g.now (first_end g.now e) (second_end g.now e) }
    {
        g.keeps_limits();
        let ends = g.ends(e);
        self.sets[ends.a as usize - 1].contains(ends.b)
    }

    /// Joins the clusters of the ends of an edge.
    pub(crate) fn join(&mut self, g: &MultiGraph, e: u32)
        requires edge { Within (size g.now) e }
        requires clusters { AreClusters g.now self.old }
        requires unparted { AreUnparted g.now (first_end g.now e) (second_end g.now e) }
        ensures { AreClusters g.now self.new }
    {
        g.keeps_limits();
        let ends = g.ends(e);
        let near = self.sets[ends.a as usize - 1];
        let far = self.sets[ends.b as usize - 1];
        let joined = near.union(far).with(ends.a).with(ends.b);
        put_at_members(&mut self.sets, joined);
    }

    /// A set with the clusters of its vertices. What holds all of the set or nothing of it does so
    /// with the wider set.
    pub(crate) fn widened(&self, g: &MultiGraph, e: u32, set: VSet) -> VSet
        requires clusters { AreClusters g.now self.now }
        requires set { IsOneSided g.now e (mem set) }
        ensures { IsOneSided g.now e (mem result) }
    {
        let mut wide = set;
        for k in 0..g.order() {
            if set.contains(k + 1) {
                wide = wide.union(self.sets[k as usize]);
            }
        }
        wide
    }
}

// The places of the blocks whose names are in the set.
fn named_in(p: &Partition, set: VSet) -> VSet
    ensures { (j : ℕ) → mem result j ≡ true → Within (length p.now.blocks) j
        × (mem set (last_of (block p.now.blocks j)) ≡ true) }
{
    p.keeps_partition();
    let mut places = VSet::empty();
    for i in 0..p.len() {
        if set.contains(name_of(p.block(i))) {
            places = places.with(i as u32 + 1);
        }
    }
    places
}

// Puts the set at the place of each of its members.
fn put_at_members(sets: &mut Vec<VSet>, set: VSet)
    requires { length sets.old.items ≤ MOST_VERTICES }
    ensures long { length sets.new.items ≡ length sets.old.items }
    ensures each { (v : ℕ) → Within (length sets.old.items) v →
        item sets.new.items v ≡ cond (mem set v) set (item sets.old.items v) }
{
    for i in 0..sets.len() {
        if set.contains(i as u32 + 1) {
            sets[i] = set;
        }
    }
}
