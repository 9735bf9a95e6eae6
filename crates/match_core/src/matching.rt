//! Matchings as lists of rows.
ghost use Rattle.std.specs.Prelude.{◌≡◌, ℕ, ◌+◌, ◌<◌, ◌≤◌, ◌==◌, ◌||◌, length, map, filter, slice_get, Some, IfOk, All};
ghost use Rattle.graph_core.specs.from_counting.Common.{Within, Set, none, mem, rising_list};
ghost use Rattle.graph_core.specs.Common.{Graph, size, degree, first_end, second_end, graph_of, IsMatching};
ghost use Rattle.match_search.specs.Common.{HasMates, marks, numbers, IsGraphRow};
ghost use Rattle.match_core.specs.HeldMates.{ArePairs};
ghost use Rattle.match_core.specs.MatchingRows.{KeepsMatching, IsOf, edges_of, inserted, is_clear, left_over, row_at};

use graph_core::vset_core::{MOST_VERTICES, VSet};
use graph_core::{Ends, MOST_EDGES, MultiGraph};
use match_search::{falses, is_addable, mark_place};
use std::alloc::{AllocError as Memory, Global};
use std::marker::Model;

/// An edge of a matching with its two ends.
#[derive(Clone, Copy, Debug, PartialEq, Eq, Drop)]
pub struct MatchRow {
    pub edge: u32,
    pub a: u32,
    pub b: u32,
}

/// A matching: an order and rows with increasing edge numbers, whose ends are from 1 to the order;
/// no vertex occurs twice. It is "of g" if its order is that of g and each row is an edge of g with
/// its ends. Contracts see the order and the list of rows.
#[derive(Drop)]
pub struct Matching {
    order: u32,
    rows: Vec<MatchRow>,
}

impl Model for Matching {
    ghost use Rattle.match_core.specs.MatchingRows.{MatchingValue, KeepsMatching};

    ghost Value = { MatchingValue };

    ghost view = { λ m. record { order = m.order; rows = m.rows.items } };

    ghost invariant = { λ m. KeepsMatching (record { order = m.order; rows = m.rows.items }) };
}

impl Matching {
    /// The number of rows. Takes no memory.
    pub fn len(&self) -> usize
        ensures { result ≡ length self.now.rows }
    {
        self.rows.len()
    }

    /// The row at place `i`, counted from 0. Takes no memory.
    pub fn row(&self, i: usize) -> MatchRow
        requires { i < length self.now.rows }
        ensures { slice_get self.now.rows i ≡ Some result }
    {
        self.rows[i]
    }

    /// The law that the edge numbers are increasing, that the ends are from 1 to the order, and
    /// that no vertex occurs twice. It does nothing: a caller states it where it needs it.
    pub fn keeps_matching(&self)
        ensures { KeepsMatching self.now }
    {
        let _ = &self.rows;
    }

    /// The matching with the same order and the rows that meet no vertex of `removed`. If it is a
    /// matching of a graph G, the new one is a matching of G - removed. Takes O(n) time; the only
    /// error is `Memory`.
    pub fn cleared(&self, alloc: Global, removed: VSet) -> Result<Matching, Memory>
        ensures order { IfOk result (λ m. m.order ≡ self.now.order) }
        ensures rows { IfOk result (λ m. m.rows ≡ filter (is_clear (mem removed)) self.now.rows) }
        ensures of { IfOk result (λ m. (g : Graph) → IsOf g self.now → IsOf g m) }
        ensures matching { IfOk result
            (λ m. (g : Graph) → IsOf g self.now → IsMatching g (mem removed) (mem (edges_of m))) }
        ensures edges { IfOk result
            (λ m. (g : Graph) → IsOf g self.now → (i : ℕ) →
            mem (edges_of m) i ≡ left_over g (mem removed) (mem (edges_of self.now)) i) }
    {
        self.keeps_matching();
        Ok(Matching {
            order: self.order,
            rows: clear_rows(alloc, &self.rows, removed)?,
        })
    }

    /// The matching of `g` with the same edges and also edge `e`, whose ends it does not meet.
    /// Takes O(n) time; the only error is `Memory`.
    pub fn joined(&self, alloc: Global, g: &MultiGraph, e: u32) -> Result<Matching, Memory>
        requires of { IsOf g.now self.now }
        requires edge { Within (size g.now) e }
        requires first { degree g.now (mem (edges_of self.now)) (first_end g.now e) ≡ 0 }
        requires second { degree g.now (mem (edges_of self.now)) (second_end g.now e) ≡ 0 }
        ensures of { IfOk result (λ m. IsOf g.now m) }
        ensures edges { IfOk result
            (λ m. (i : ℕ) → mem (edges_of m) i ≡ (mem (edges_of self.now) i || (e == i))) }
    {
        g.keeps_limits();
        self.keeps_matching();
        let Ends { a, b } = g.ends(e);
        let row = MatchRow { edge: e, a, b };
        Ok(Matching {
            order: self.order,
            rows: rows_with(alloc, &self.rows, row)?,
        })
    }

    /// The edges as marks on 1 to `size`.
    pub(crate) fn marks(&self, alloc: Global, size: usize) -> Result<Vec<bool>, Memory>
        requires few { size ≤ MOST_EDGES }
        requires within { All (λ row. Within size row.edge) self.now.rows }
        ensures long { IfOk result (λ mark. length mark.items ≡ size + 1) }
        ensures each { IfOk result
            (λ mark. (i : ℕ) → marks mark.items i ≡ mem (edges_of self.now) i) }
    {
        let mut mark = falses(alloc, size + 1)?;
        mark_rows(&mut mark, &self.rows);
        Ok(mark)
    }
}

// The rows with one more between those of lower and those of higher edges.
fn rows_with(alloc: Global, rows: &[MatchRow], new: MatchRow) -> Result<Vec<MatchRow>, Memory>
    ensures { IfOk result (λ all. all.items ≡ inserted rows.now new) }
{
    let mut all = Vec::with_capacity(alloc, rows.len() + 1)?;
    'lower: for row in rows {
        if row.edge < new.edge {
            all.push(*row)?;
        }
    }
    all.push(new)?;
    'higher: for row in rows {
        if new.edge < row.edge {
            all.push(*row)?;
        }
    }
    Ok(all)
}

// Marks the edges of the rows.
fn mark_rows(mark: &mut Vec<bool>, rows: &[MatchRow])
    requires { All (λ row. row.edge < length mark.old.items) rows.now }
    ensures length { length mark.new.items ≡ length mark.old.items }
    ensures each { (i : ℕ) →
        marks mark.new.items i ≡ (marks mark.old.items i ||
        mem (map (λ row. row.edge) rows.now) i) }
{
    for row in rows {
        mark_place(mark, row.edge as usize);
    }
}

// The rows that meet no vertex of the set.
fn clear_rows(alloc: Global, rows: &[MatchRow], removed: VSet) -> Result<Vec<MatchRow>, Memory>
    requires { All (λ row. Within MOST_VERTICES row.a × Within MOST_VERTICES row.b) rows.now }
    ensures { IfOk result (λ kept. kept.items ≡ filter (is_clear (mem removed)) rows.now) }
{
    let mut kept = Vec::with_capacity(alloc, rows.len())?;
    for row in rows {
        if !removed.contains(row.a) && !removed.contains(row.b) {
            kept.push(*row)?;
        }
    }
    Ok(kept)
}

/// The matching of `g` whose edges are the marked ones. Takes O(n + m) time; the only error is
/// `Memory`.
pub fn matching_of(alloc: Global, g: &MultiGraph, mark: &[bool]) -> Result<Matching, Memory>
    requires long { length mark.now ≡ size g.now + 1 }
    requires matching { IsMatching g.now none (marks mark.now) }
    ensures of { IfOk result (λ m. IsOf g.now m) }
    ensures edges { IfOk result (λ m. edges_of m ≡ rising_list (size g.now) (marks mark.now)) }
{
    let n = g.order();
    let ends = g.edges();
    Ok(Matching {
        order: n,
        rows: marked_rows(alloc, n, ends, mark)?,
    })
}

// The marked edges as rows.
fn marked_rows(alloc: Global, n: u32, ends: &[Ends], mark: &[bool]) -> Result<Vec<MatchRow>, Memory>
    requires row { IsGraphRow n ends.now }
    requires mark_long { length mark.now ≡ length ends.now + 1 }
    ensures { IfOk result
        (λ rows. rows.items ≡ map (row_at (graph_of n ends.now))
        (rising_list (length ends.now) (marks mark.now))) }
{
    let mut rows = Vec::with_capacity(alloc, n as usize / 2)?;
    for (k, e) in ends.iter().enumerate() {
        if mark[k + 1] {
            rows.push(MatchRow {
                edge: k as u32 + 1,
                a: e.a,
                b: e.b,
            })?;
        }
    }
    Ok(rows)
}

/// The matching of `g` with these mates: for each pair the least edge that joins it.
pub(crate) fn matching_by(alloc: Global, g: &MultiGraph, mate: &[u32]) -> Result<Matching, Memory>
    requires { length mate.now ≡ g.now.order + 1 }
    ensures of { IfOk result (λ m. IsOf g.now m) }
    ensures mates { IfOk result (λ m. (r f : Set) → HasMates g.now r f (numbers mate.now) →
        HasMates g.now r (mem (edges_of m)) (numbers mate.now)) }
{
    let n = g.order();
    let ends = g.edges();
    Ok(Matching {
        order: n,
        rows: paired_rows(alloc, n, ends, mate)?,
    })
}

// For each pair of mates the least edge that joins it, as a row.
fn paired_rows(alloc: Global, n: u32, ends: &[Ends], mate: &[u32]) -> Result<Vec<MatchRow>, Memory>
    requires row { IsGraphRow n ends.now }
    requires long { length mate.now ≡ n + 1 }
    ensures { IfOk result (λ rows. ArePairs (graph_of n ends.now) mate.now rows.items) }
{
    let mut rows = Vec::with_capacity(alloc, n as usize / 2)?;
    let mut seen = VSet::empty();
    for (k, e) in ends.iter().enumerate() {
        if mate[e.a as usize] == e.b {
            if is_addable(*e, seen) {
                rows.push(MatchRow {
                    edge: k as u32 + 1,
                    a: e.a,
                    b: e.b,
                })?;
                seen = seen.with(e.a).with(e.b);
            }
        }
    }
    Ok(rows)
}
