//! G - R as the search reads it, and the shrinking of a blossom to its base.
//!
//! A vertex that is left has members: at first only itself, and after a shrinking all vertices that
//! were merged into it. Its row keeps the neighbours that its members had before any shrinking. So
//! two vertices are adjacent if the row of one has a member of the other (`Touches`), and a
//! shrinking writes only the row and the members of the base, each as the union over the blossom.
//! The rows of the neighbours stay as they are, and a shrinking is undone by putting back what was
//! there.
ghost use Rattle.std.specs.Prelude.{◌≡◌, ◌≢◌, ℕ, ◌+◌, ◌-◌, ◌<◌, ◌≤◌, true, false, length, IfOk, ◌∷◌, [], ◌↔◌};
ghost use Rattle.graph_core.specs.from_counting.Common.{Within, Set, mem, item};
ghost use Rattle.graph_core.specs.Common.{Graph, IsGraph, AreRows};
ghost use Rattle.match_search.specs.Common.{AreNear, IsInstance, IsGathered, IsPutBack, IsShrinking, IsUnionOf, IsUnshrunk};

use graph_core::vset_core::{MOST_VERTICES, VSet};
use std::alloc::{AllocError as Memory, Global};

/// The graph: for each vertex its members, which are the vertices that were merged into it by
/// shrinkings, and the neighbours that these had before any shrinking; the vertices to which
/// blossoms were shrunk; and the vertices that are left. The rows of removed vertices, and removed
/// vertices in other rows, are meaningless.
#[derive(Drop)]
pub struct Instance {
    pub rows: Vec<VSet>,
    pub members: Vec<VSet>,
    pub blossoms: VSet,
    pub left: VSet,
}

/// G - `removed`, where G has these rows of neighbours.
pub fn instance_of(alloc: Global, rows: &[VSet], removed: VSet) -> Result<Instance, Memory>
    requires { length rows.now ≤ MOST_VERTICES }
    ensures { IfOk result (λ s. (g : Graph) → IsGraph g → AreRows g rows.now →
        IsInstance g (mem removed) s) }
{
    let n = rows.len() as u32;
    let rows = rows.to_vec(alloc)?;
    let members = singles(alloc, n)?;
    Ok(Instance {
        rows,
        members,
        blossoms: VSet::empty(),
        left: VSet::full(n).minus(removed),
    })
}

// For each vertex the set of it alone.
fn singles(alloc: Global, n: u32) -> Result<Vec<VSet>, Memory>
    requires { n ≤ MOST_VERTICES }
    ensures one_each { IfOk result (λ rows. length rows.items ≡ n) }
    ensures single { IfOk result (λ rows. (v : ℕ) → Within n v → item rows.items v ≡ v ∷ []) }
{
    let mut rows = vec![in alloc; VSet::empty(); n as usize]?;
    for i in 0..n {
        rows[i as usize] = VSet::one(i + 1);
    }
    Ok(rows)
}

// Whether two sets have a common member.
fn is_met(row: VSet, set: VSet) -> bool
    ensures yes { result ≡ true → (w : ℕ) × (mem row w ≡ true) × (mem set w ≡ true) }
    ensures no { result ≡ false → (w : ℕ) → mem row w ≡ true → mem set w ≡ false }
{
    match row.meet(set).first() {
        Some(_) => true,
        None => false,
    }
}

impl Instance {
    /// The vertices that are left and adjacent to `v`, possibly with `v` itself.
    pub fn near(&self, v: u32) -> VSet
        requires vertex { Within (length self.now.rows.items) v }
        requires instance { (g : Graph) × (r : Set) × IsInstance g r self.now }
        ensures { AreNear self.now v result }
    {
        let row = self.rows[v as usize - 1];
        let mut near = row;
        let mut rest = self.blossoms;
        'blossoms: while let Some((b, others)) = rest.split_first() {
            rest = others;
            if is_met(row, self.members[b as usize - 1]) {
                near = near.with(b);
            }
        }
        near.meet(self.left)
    }
}

fn write_row(rows: &mut [VSet], v: u32, row: VSet)
    requires { Within (length rows.old) v }
    ensures own { item rows.new v ≡ row }
    ensures others { (u : ℕ) → Within (length rows.old) u → v ≢ u →
        item rows.new u ≡ item rows.old u }
{
    rows[v as usize - 1] = row;
}

// Writes a row, and returns its old value.
fn replace_row(rows: &mut [VSet], v: u32, row: VSet) -> VSet
    requires { Within (length rows.old) v }
    ensures gathered { (x : Set) → IsUnionOf rows.old x row → IsGathered rows.old x v rows.new }
    ensures before { result ≡ item rows.old v }
{
    let before = rows[v as usize - 1];
    write_row(rows, v, row);
    before
}

// The unions of the rows and of the members of the vertices of a set.
fn unions_of(rows: &[VSet], members: &[VSet], set: VSet) -> (VSet, VSet)
    requires one_each { length members.now ≡ length rows.now }
    requires vertices { (v : ℕ) → mem set v ≡ true → Within (length rows.now) v }
    ensures rows { IsUnionOf rows.now (mem set) result.0 }
    ensures members { IsUnionOf members.now (mem set) result.1 }
{
    let mut all_rows = VSet::empty();
    let mut all_members = VSet::empty();
    let mut rest = set;
    'uniting: while let Some((v, others)) = rest.split_first() {
        rest = others;
        all_rows = all_rows.union(rows[v as usize - 1]);
        all_members = all_members.union(members[v as usize - 1]);
    }
    (all_rows, all_members)
}

/// The values of an instance that a shrinking overwrites: the row and the members of the base, and
/// the sets of blossoms and of vertices left.
#[derive(Clone, Copy, Drop)]
pub struct Unshrunk {
    pub row: VSet,
    pub members: VSet,
    pub blossoms: VSet,
    pub left: VSet,
}

impl Instance {
    /// Shrinks a cycle of vertices to its base: afterwards the base has the neighbours and the
    /// members of the cycle, and the other vertices of the cycle are removed. Takes no memory, and
    /// returns what `unshrink` puts back.
    pub fn shrink(&mut self, cycle: VSet, base: u32) -> Unshrunk
        requires few { length self.old.rows.items ≤ MOST_VERTICES }
        requires one_each { length self.old.members.items ≡ length self.old.rows.items }
        requires vertices { (v : ℕ) → mem cycle v ≡ true → Within (length self.old.rows.items) v }
        requires base { Within (length self.old.rows.items) base }
        ensures shrunk { IsShrinking self.old (mem cycle) base self.new }
        ensures before { IsUnshrunk self.old base result }
    {
        let blossoms = self.blossoms;
        let left = self.left;
        let (all_rows, all_members) = unions_of(&self.rows, &self.members, cycle);
        let row = replace_row(&mut self.rows, base, all_rows);
        let members = replace_row(&mut self.members, base, all_members);
        self.blossoms = blossoms.minus(cycle).with(base);
        self.left = left.minus(cycle.without(base));
        Unshrunk {
            row,
            members,
            blossoms,
            left,
        }
    }

    /// Undoes a shrinking to the base.
    pub fn unshrink(&mut self, base: u32, before: Unshrunk)
        requires one_each { length self.old.members.items ≡ length self.old.rows.items }
        requires base { Within (length self.old.rows.items) base }
        ensures { IsPutBack self.old base before self.new }
    {
        write_row(&mut self.rows, base, before.row);
        write_row(&mut self.members, base, before.members);
        self.blossoms = before.blossoms;
        self.left = before.left;
    }
}
