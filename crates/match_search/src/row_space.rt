//! What the rows of one table of partners share: the memory of their searches, and the vertices
//! that are exposed before any row is searched. So a row takes no memory, and looks for its exposed
//! vertices among few.
ghost use Rattle.std.specs.Prelude.{◌≡◌, ◌≢◌, ℕ, ◌+◌, ◌<◌, ◌≤◌, true, length, IfOk};
ghost use Rattle.graph_core.specs.from_counting.Common.{mem};
ghost use Rattle.match_search.specs.Common.{ServesRows, numbers, with_mate};

use crate::alternating::{AlternatingForest, exposed_in};
use crate::mates::expose;
use graph_core::vset_core::{MOST_VERTICES, VSet};
use std::alloc::{AllocError as Memory, Global};

/// A forest and a row of mates, whose contents are ignored, and a set that contains the exposed
/// vertices.
#[derive(Drop)]
pub struct RowSpace {
    pub forest: AlternatingForest,
    pub own: Vec<u32>,
    pub exposed: VSet,
}

impl RowSpace {
    /// The space for the rows of the vertices that are left, of which these are the mates.
    pub fn new(alloc: Global, left: VSet, mate: &[u32]) -> Result<RowSpace, Memory>
        requires some { 1 ≤ length mate.now }
        requires few { length mate.now ≤ MOST_VERTICES + 1 }
        requires vertices { (v : ℕ) → mem left v ≡ true → v < length mate.now }
        ensures { IfOk result (ServesRows left mate.now) }
    {
        let forest = AlternatingForest::empty(alloc, mate.len() as u32 - 1)?;
        let own = mate.to_vec(alloc)?;
        let exposed = exposed_in(left, left, mate);
        Ok(RowSpace {
            forest,
            own,
            exposed,
        })
    }

    /// Writes the mates after `u` and its mate are exposed, and returns a set that contains all
    /// vertices that are exposed then: those that were before, and the mate.
    pub fn begin_row(&mut self, mate: &[u32], u: u32) -> VSet
        requires long { length self.old.own.items ≡ length mate.now }
        requires few { length mate.now ≤ MOST_VERTICES + 1 }
        requires vertex { u < length mate.now }
        requires mate { numbers mate.now u < length mate.now }
        ensures long { length self.new.own.items ≡ length mate.now }
        ensures own { (v : ℕ) → numbers self.new.own.items v ≡
            with_mate (with_mate (numbers mate.now) (numbers mate.now u) 0) u 0 v }
        ensures before { (v : ℕ) → mem self.old.exposed v ≡ true → mem result v ≡ true }
        ensures mate { numbers mate.now u ≢ 0 → mem result (numbers mate.now u) ≡ true }
        ensures forest { self.new.forest ≡ self.old.forest }
        ensures exposed { self.new.exposed ≡ self.old.exposed }
    {
        let v = mate[u as usize];
        self.own.copy_from_slice(mate);
        expose(&mut self.own, v);
        expose(&mut self.own, u);
        if v == 0 {
            self.exposed
        } else {
            self.exposed.with(v)
        }
    }
}
