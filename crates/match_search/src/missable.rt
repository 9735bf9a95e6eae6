//! Which vertices can a maximum matching of G - u miss?
//!
//! A vertex u is deleted from a graph with a matching by mates, and its mate is exposed. The last
//! frame of G - u says which vertices some maximum matching of G - u misses.
ghost use Rattle.std.specs.Prelude.{◌≡◌, ℕ, ◌+◌, ◌-◌, ◌<◌, ◌≤◌, ◌==◌, ◌&&◌, true, length, IfOk, OnOk, Some, ◌∷◌, []};
ghost use Rattle.graph_core.specs.from_counting.Common.{count, mem, Set, singleton, union};
ghost use Rattle.graph_core.specs.Common.{Graph};
ghost use Rattle.match_search.specs.Common.{HoldsMatching, IsMissableRow, IsSized, MayBeExposed, ServesRows, numbers, AreAlike};

use crate::alternating::{AlternatingForest, exposed_in};
use crate::best::last_frame;
use crate::instance::Instance;
use crate::outer::outer_from;
use crate::row_space::RowSpace;
use graph_core::vset_core::{MOST_VERTICES, VSet};
use std::alloc::{AllocError as Memory, Global};

// How many vertices of a set are exposed.
fn exposed_count(left: VSet, mate: &[u32]) -> usize
    requires some { 1 ≤ length mate.now }
    requires few { length mate.now ≤ MOST_VERTICES + 1 }
    ensures { result ≡ count (length mate.now - 1) (λ v. mem left v && (numbers mate.now v == 0)) }
{
    let mut found = 0;
    for v in 1..mate.len() {
        if left.contains(v as u32) && mate[v] == 0 {
            found += 1;
        }
    }
    found
}

// The only member of a set that has one member.
fn only_member(set: VSet) -> Option<u32>
    ensures { (v : ℕ) → result ≡ Some v → set ≡ v ∷ [] }
{
    let (v, others) = set.split_first()?;
    match others.first() {
        None => Some(v),
        Some(_) => None,
    }
}

// The outer vertices of the last frame if a maximum matching misses one vertex, otherwise none. If
// this matching misses one, it cannot be augmented; otherwise it is made maximum first. The exposed
// vertices are among the candidates.
fn outer_of_one(
    alloc: Global,
    instance: &mut Instance,
    forest: &mut AlternatingForest,
    candidates: VSet,
    mate: &mut [u32],
) -> Result<VSet, Memory>
    requires holds { (g : Graph) × (r : Set) × (f : Set) ×
        HoldsMatching g r f instance.old mate.old }
    requires sized { IsSized (length instance.old.rows.items) forest.old }
    requires candidates { MayBeExposed instance.old.left mate.old candidates }
    ensures row { IfOk result (λ row. (g : Graph) (r f : Set) →
        HoldsMatching g r f instance.old mate.old → IsMissableRow g r row) }
    ensures sized { OnOk result (IsSized (length instance.old.rows.items) forest.new) }
    ensures restored { OnOk result (AreAlike instance.old instance.new) }
{
    let left = instance.left;
    if let Some(root) = only_member(exposed_in(candidates, left, mate)) {
        return Ok(outer_from(instance, forest, root, mate));
    }
    let sets = last_frame(alloc, instance, candidates, mate)?;
    if exposed_count(left, mate) == 1 {
        Ok(sets.outer)
    } else {
        Ok(VSet::empty())
    }
}

/// The vertices that a matching of G - `u` can miss alone: the outer vertices of the frame if a
/// maximum matching misses one vertex, and none if it misses another number. The mates are those of
/// a matching of the graph. The instance is restored at the end.
pub fn missable_beside(
    alloc: Global,
    instance: &mut Instance,
    mate: &[u32],
    u: u32,
) -> Result<VSet, Memory>
    requires holds { (g : Graph) × (r : Set) × (f : Set) ×
        HoldsMatching g r f instance.old mate.now }
    requires left { mem instance.old.left u ≡ true }
    ensures row { IfOk result (λ row. (g : Graph) (r f : Set) →
        HoldsMatching g r f instance.old mate.now → IsMissableRow g (union r (singleton u)) row) }
    ensures restored { OnOk result (AreAlike instance.old instance.new) }
{
    let mut space = RowSpace::new(alloc, instance.left, mate)?;
    missable_in(alloc, instance, &mut space, mate, u)
}

/// The same in a space that the rows of a table share. It takes memory only if the matching misses
/// another number of vertices of G - `u` than one.
pub fn missable_in(
    alloc: Global,
    instance: &mut Instance,
    space: &mut RowSpace,
    mate: &[u32],
    u: u32,
) -> Result<VSet, Memory>
    requires holds { (g : Graph) × (r : Set) × (f : Set) ×
        HoldsMatching g r f instance.old mate.now }
    requires left { mem instance.old.left u ≡ true }
    requires space { ServesRows instance.old.left mate.now space.old }
    ensures row { IfOk result (λ row. (g : Graph) (r f : Set) →
        HoldsMatching g r f instance.old mate.now → IsMissableRow g (union r (singleton u)) row) }
    ensures restored { OnOk result (AreAlike instance.old instance.new) }
    ensures space { OnOk result (ServesRows instance.old.left mate.now space.new) }
{
    let left = instance.left;
    let candidates = space.begin_row(mate, u);
    instance.left = left.without(u);
    let row = outer_of_one(
        alloc,
        instance,
        &mut space.forest,
        candidates,
        &mut space.own,
    )?;
    instance.left = left;
    Ok(row)
}
