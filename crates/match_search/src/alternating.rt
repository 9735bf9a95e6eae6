//! Alternating forests by parents.
//!
//! A vertex is outer if an alternating path of even length leads to it from an exposed vertex, and
//! inner if it comes just before an outer vertex on such a path. An outer vertex is exposed, a
//! root, or the child of its mate, which is inner; an inner vertex is the child of its parent, an
//! outer neighbour.
ghost use Rattle.std.specs.Prelude.{◌≡◌, ℕ, ◌+◌, ◌<◌, ◌≤◌, ◌==◌, ◌&&◌, true, false, length, IfOk};
ghost use Rattle.graph_core.specs.from_counting.Common.{Within, mem};
ghost use Rattle.match_search.specs.Common.{AreExposed, HasBranched, HasContracted, HasRestarted, IsSized, MayBeExposed, numbers, shrunk_vertex};

use graph_core::vset_core::{MOST_VERTICES, VSet};
use std::alloc::{AllocError as Memory, Global};

/// An alternating forest: its outer and its inner vertices, and for each inner vertex its parent.
///
/// The active vertices are the outer ones that the search has yet to grow from, and `latest` is the
/// one that became outer last. Each neighbour of an outer vertex that is not active is inner or
/// active.
#[derive(Drop)]
pub struct AlternatingForest {
    pub outer: VSet,
    pub inner: VSet,
    pub active: VSet,
    pub latest: VSet,
    pub parent: Vec<u32>,
}

/// The exposed vertices of those that are left, if the candidates contain all of them.
pub fn exposed_in(candidates: VSet, left: VSet, mate: &[u32]) -> VSet
    requires vertices { (v : ℕ) → mem left v ≡ true → v < length mate.now }
    requires candidates { MayBeExposed left mate.now candidates }
    ensures { AreExposed left mate.now result }
{
    let mut exposed = VSet::empty();
    let mut rest = candidates.meet(left);
    'looking: while let Some((v, others)) = rest.split_first() {
        rest = others;
        if mate[v as usize] == 0 {
            exposed = exposed.with(v);
        }
    }
    exposed
}

// Writes the base in place of each parent that is one of the members, for the vertices of a set.
fn replace_parents(parent: &mut [u32], set: VSet, members: VSet, base: u32)
    requires within { (v : ℕ) → mem set v ≡ true → v < length parent.old }
    requires parents { (v : ℕ) → mem set v ≡ true →
        Within MOST_VERTICES (numbers parent.old v) }
    requires base { Within MOST_VERTICES base }
    ensures { (v : ℕ) → mem set v ≡ true →
        numbers parent.new v ≡ shrunk_vertex (mem members) base (numbers parent.old v) }
{
    let mut rest = set;
    'replacing: while let Some((v, others)) = rest.split_first() {
        rest = others;
        if members.contains(parent[v as usize]) {
            parent[v as usize] = base;
        }
    }
}

impl AlternatingForest {
    /// The empty forest on 1 to `n`.
    pub fn empty(alloc: Global, n: u32) -> Result<AlternatingForest, Memory>
        requires { n ≤ MOST_VERTICES }
        ensures { IfOk result (IsSized n) }
    {
        Ok(AlternatingForest {
            outer: VSet::empty(),
            inner: VSet::empty(),
            active: VSet::empty(),
            latest: VSet::empty(),
            parent: vec![in alloc; 0; n as usize + 1]?,
        })
    }

    /// Makes the vertices of a set the roots, and drops all other vertices.
    pub fn restart(&mut self, roots: VSet)
        ensures { HasRestarted self.old self.new roots }
    {
        self.outer = roots;
        self.inner = VSet::empty();
        self.active = roots;
        self.latest = VSet::empty();
    }

    /// Makes the vertex `y`, which becomes inner, a child of the outer vertex `x`, and its mate
    /// `z`, which becomes outer, a child of `y`.
    pub fn branch(&mut self, x: u32, y: u32, z: u32)
        requires y_in { y < length self.old.parent.items }
        requires y_vertex { Within MOST_VERTICES y }
        requires z_vertex { Within MOST_VERTICES z }
        ensures { HasBranched self.old self.new x y z }
    {
        self.parent[y as usize] = x;
        self.outer = self.outer.with(z);
        self.inner = self.inner.with(y);
        self.active = self.active.with(z);
        self.latest = VSet::one(z);
    }

    /// Takes the members of a blossom out, which are shrunk to the base: the base is an outer
    /// vertex, and the parent of each vertex that had a member as its parent.
    pub fn contract(&mut self, members: VSet, base: u32)
        requires inner { (v : ℕ) → mem self.old.inner v ≡ true → v < length self.old.parent.items }
        requires parents { (v : ℕ) → mem self.old.inner v ≡ true →
            Within MOST_VERTICES (numbers self.old.parent.items v) }
        requires base { Within MOST_VERTICES base }
        ensures { HasContracted self.old self.new (mem members) base }
    {
        self.inner = self.inner.minus(members);
        replace_parents(&mut self.parent, self.inner, members, base);
        self.outer = self.outer.minus(members).with(base);
        self.active = self.active.minus(members).with(base);
        self.latest = VSet::one(base);
    }
}
