//! Two tables of partners that tell at which two vertices alone a perfect matching can lead out of
//! a stage.
//!
//! Such a matching is a perfect matching of the stage without the two, and off the stage either an
//! edge that joins them with a perfect matching of the rest, or an edge at each of them with a
//! perfect matching of the rest without the other ends of these edges. So the partners on the
//! stage and those in the rest tell it for every pair.
ghost use Rattle.std.specs.Prelude.{◌≡◌, ◌≢◌, ◌↔◌, ◌+◌, ◌≤◌, ◌&&◌, ◌||◌, ◌==◌, ℕ, length, not, true, IfOk};
ghost use Rattle.graph_core.specs.from_counting.Common.{Within, mem, Set, complement, item};
ghost use Rattle.graph_core.specs.Common.{Graph, IsGraph, size};
ghost use Rattle.two_ears.specs.from_match_search.Common.{marks};
ghost use Rattle.ear_core.specs.Common.{AreTables, ArePartnersOn, IsAsked, IsPerfectBy, IsPerfectRows, KeepsMates, adjacent_by, in_rows, is_met, is_open, reached, row_edge};

use crate::outer_table::OuterTable;
use crate::stage::{Stage, row_of};
use graph_core::vset_core::{MOST_VERTICES, VSet};
use graph_core::{Ends, MultiGraph};
use std::alloc::{AllocError as Memory, Global};
use two_ears::match_core::{Matching, PartnerTable};

/// The partners in what is left of a graph off a stage, and for each vertex its neighbours by
/// edges off the stage.
#[derive(Drop)]
pub struct Tables {
    pub outer: PartnerTable,
    pub near: Vec<VSet>,
}

/// The tables of the stage of the marked edges, which meets the vertices `met` and holds their
/// mates by the kept matching. The first is the last one that was made, if that is the same.
pub fn tables_of(
    alloc: Global,
    g: &MultiGraph,
    mark: &[bool],
    met: VSet,
    kept: &Matching,
    last: &mut OuterTable,
) -> Result<Tables, Memory>
    requires long { length mark.now ≡ size g.now + 1 }
    requires met { (v : ℕ) → mem met v ≡ is_met g.now (marks mark.now) v }
    requires kept { IsPerfectRows g.now kept.now }
    requires mates { KeepsMates g.now (row_edge kept.now.rows) (is_met g.now (marks mark.now)) }
    requires last { last.old ≡ g.now }
    ensures last { last.new ≡ last.old }
    ensures tables { IfOk result (AreTables g.now (marks mark.now)) }
{
    g.keeps_limits();
    let outer = last.take(alloc, met, kept)?;
    let near = near_rows(alloc, g, mark)?;
    Ok(Tables { outer, near })
}

// For each vertex its neighbours by edges off the stage of the marked edges.
fn near_rows(alloc: Global, g: &MultiGraph, mark: &[bool]) -> Result<Vec<VSet>, Memory>
    requires { length mark.now ≡ size g.now + 1 }
    ensures long { IfOk result (λ rows. length rows.items ≡ g.now.order) }
    ensures each { IfOk result (λ rows. (u v : ℕ) → Within g.now.order u →
        mem (item rows.items u) v ≡ adjacent_by g.now (complement (marks mark.now)) u v) }
{
    let mut rows = vec![in alloc; VSet::empty(); g.order() as usize]?;
    for k in 0..g.size() {
        join_off(&mut rows, mark[k as usize + 1], g.ends(k + 1));
    }
    Ok(rows)
}

// Makes the two ends neighbours, unless the edge is on the stage.
fn join_off(rows: &mut Vec<VSet>, on: bool, ends: Ends)
    requires few { length rows.old.items ≤ MOST_VERTICES }
    requires first { Within (length rows.old.items) ends.a }
    requires second { Within (length rows.old.items) ends.b }
    ensures long { length rows.new.items ≡ length rows.old.items }
    ensures each { (u v : ℕ) → Within (length rows.old.items) u →
        mem (item rows.new.items u) v ≡ (mem (item rows.old.items u) v || (not on &&
        ((ends.a == u && ends.b == v) || (ends.a == v && ends.b == u)))) }
{
    if !on {
        add_neighbour(rows, ends.a, ends.b);
        add_neighbour(rows, ends.b, ends.a);
    }
}

// Adds `w` to the neighbours of `v`.
fn add_neighbour(rows: &mut Vec<VSet>, v: u32, w: u32)
    requires first { Within (length rows.old.items) v }
    requires second { Within MOST_VERTICES w }
    ensures long { length rows.new.items ≡ length rows.old.items }
    ensures each { (u x : ℕ) → Within (length rows.old.items) u →
        mem (item rows.new.items u) x ≡ (mem (item rows.old.items u) x || (v == u && w == x)) }
{
    let i = v as usize - 1;
    rows[i] = rows[i].with(w);
}

// The partners of those of `x`.
fn partners_among(table: &PartnerTable, n: u32, x: VSet) -> VSet
    requires long { length table.now ≡ n }
    requires few { n ≤ MOST_VERTICES }
    ensures { (w : ℕ) → mem result w ≡ in_rows table.now n (mem x) w }
{
    let mut found = VSet::empty();
    for k in 0..n {
        if x.contains(k + 1) {
            found = found.union(table.of(k + 1));
        }
    }
    found
}

// The neighbours of those of `x`.
fn neighbours_of(near: &[VSet], n: u32, x: VSet) -> VSet
    requires long { length near.now ≡ n }
    requires few { n ≤ MOST_VERTICES }
    ensures { (w : ℕ) → mem result w ≡ in_rows near.now n (mem x) w }
{
    let mut found = VSet::empty();
    for k in 0..n {
        if x.contains(k + 1) {
            found = found.union(row_of(near, k + 1));
        }
    }
    found
}

// The vertices that are reached from `u` off the stage.
fn reached_from(g: &MultiGraph, tables: &Tables, u: u32) -> VSet
    requires tables { (f : Set) × AreTables g.now f tables.now }
    requires vertex { Within g.now.order u }
    ensures { (v : ℕ) → mem result v ≡ reached g.now tables.now u v }
{
    let near = row_of(&tables.near, u);
    let far = partners_among(&tables.outer, g.order(), near);
    neighbours_of(&tables.near, g.order(), far).union(near)
}

/// The vertices `v` of the stage of the marked edges such that a perfect matching leads out of it
/// at `u` and `v` alone.
pub fn lone_with(
    alloc: Global,
    g: &MultiGraph,
    mark: &[bool],
    stage: &mut Stage,
    tables: &Tables,
    u: u32,
) -> Result<VSet, Memory>
    requires stage { IsAsked g.now (marks mark.now) stage.old }
    requires tables { AreTables g.now (marks mark.now) tables.now }
    requires vertex { Within g.now.order u }
    ensures same { stage.new ≡ stage.old }
    ensures sound { IfOk result (λ row. (v : ℕ) → mem row v ≡ true → (u ≢ v) ×
        (is_met g.now (marks mark.now) u ≡ true) × (is_met g.now (marks mark.now) v ≡ true) ×
        ((m : Set) × IsPerfectBy g.now (is_open g.now (marks mark.now) u v) m)) }
    ensures complete { IfOk result
        (λ row. (v : ℕ) → u ≢ v → is_met g.now (marks mark.now) u ≡ true →
        is_met g.now (marks mark.now) v ≡ true → (m : Set) →
        IsPerfectBy g.now (is_open g.now (marks mark.now) u v) m → mem row v ≡ true) }
{
    g.keeps_limits();
    let row = partners_of(alloc, stage, u, reached_from(g, tables, u))?;
    Ok(row)
}

// The partners of `u` in a set. They are searched for only where it has a vertex of the stage other
// than `u`.
fn partners_of(alloc: Global, stage: &mut Stage, u: u32, set: VSet) -> Result<VSet, Memory>
    requires { Within stage.old.stage.order u }
    ensures same { stage.new ≡ stage.old }
    ensures row { IfOk result (λ row. (g : Graph) (f : Set) → IsGraph g → IsAsked g f stage.old →
        (v : ℕ) → (mem row v ≡ true) ↔ (ArePartnersOn g f u v × (mem set v ≡ true))) }
{
    stage.asked().stage.keeps_limits();
    let others = set.minus(stage.asked().outside.with(u));
    match others.first() {
        None => Ok(VSet::empty()),
        Some(_) => {
            let row = stage.partners(alloc, u)?;
            Ok(row.meet(set))
        }
    }
}
