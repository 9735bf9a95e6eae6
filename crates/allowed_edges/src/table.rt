//! Tables that say which of the listed matchings hold an edge, and so which two edges lie together
//! in one of them.
ghost use Rattle.std.specs.Prelude.{◌≡◌, ◌≢◌, ℕ, ◌+◌, ◌<◌, ◌≤◌, ◌==◌, ◌&&◌, ◌||◌, false, length, IfOk, OnOk, All};
ghost use Rattle.graph_core.specs.from_counting.Common.{Within, mem};
ghost use Rattle.match_core.specs.Common.{edges_of};
ghost use Rattle.allowed_edges.specs.EdgeTables.{are_held, numbers_at, share};

use graph_core::vset_core::{MOST_VERTICES, VSet};
use match_core::Matching;
use std::alloc::{AllocError as Memory, Global};
use std::marker::Model;

/// Matchings by numbers from 1 to `MOST_VERTICES`, in blocks: each block has for each edge the
/// numbers of those that hold it, and the last has `count` matchings. Contracts see the number of
/// edges, the blocks, and `count`.
#[derive(Drop)]
pub struct EdgeTable {
    size: u32,
    blocks: Vec<Vec<VSet>>,
    count: u32,
}

impl Model for EdgeTable {
    ghost use Rattle.allowed_edges.specs.EdgeTables.{IsTable, TableValue};

    ghost Value = { TableValue };

    ghost view = { λ table. record { size = table.size; blocks = table.blocks.items; count = table.count } };

    ghost invariant = { λ table. IsTable (record { size = table.size; blocks = table.blocks.items; count = table.count }) };
}

impl EdgeTable {
    /// The table of no matching, for the edges 1 to `size`. Takes no memory.
    pub fn new(alloc: Global, size: u32) -> EdgeTable
        ensures size { result.size ≡ size }
        ensures empty { (e f : ℕ) → are_held result e f ≡ false }
    {
        EdgeTable {
            size,
            blocks: Vec::new(alloc),
            count: MOST_VERTICES,
        }
    }

    /// The number of edges.
    pub fn size(&self) -> u32
        ensures { result ≡ self.now.size }
    {
        self.size
    }

    /// Whether some matching holds both `e` and `f`.
    pub fn has_both(&self, e: u32, f: u32) -> bool
        requires first { e ≤ self.now.size }
        requires second { f ≤ self.now.size }
        ensures { result ≡ are_held self.now e f }
    {
        for i in 0..self.blocks.len() {
            if has_common(&self.blocks[i], e, f) {
                return true;
            }
        }
        false
    }

    /// Makes room for one more matching, if there is none. The table holds what it held.
    pub fn make_room(&mut self, alloc: Global) -> Result<(), Memory>
        ensures size { self.new.size ≡ self.old.size }
        ensures held { (e f : ℕ) → are_held self.new e f ≡ are_held self.old e f }
        ensures room { OnOk result (self.new.count < MOST_VERTICES) }
    {
        if self.count == MOST_VERTICES {
            let block = vec![in alloc; VSet::empty(); self.size as usize + 1]?;
            self.blocks.push(block)?;
            self.count = 0;
        }
        Ok(())
    }

    /// Takes one more matching, for which there is room.
    pub fn add(&mut self, m: &Matching)
        requires room { self.old.count < MOST_VERTICES }
        requires places { All (λ row. row.edge ≤ self.old.size) m.now.rows }
        ensures size { self.new.size ≡ self.old.size }
        ensures held { (e f : ℕ) →
            are_held self.new e f ≡
            (are_held self.old e f || (mem (edges_of m.now) e && mem (edges_of m.now) f)) }
    {
        let last = self.blocks.len() - 1;
        put_number(&mut self.blocks[last], m, self.count + 1);
        self.count += 1;
    }
}

// Whether some matching of a block holds both `e` and `f`.
fn has_common(block: &Vec<VSet>, e: u32, f: u32) -> bool
    requires first { e < length block.now.items }
    requires second { f < length block.now.items }
    ensures { result ≡ share e f block.now }
{
    block[e as usize].meet(block[f as usize]).len() != 0
}

// Puts a number at each edge of a matching.
fn put_number(block: &mut Vec<VSet>, m: &Matching, number: u32)
    requires number { Within MOST_VERTICES number }
    requires places { All (λ row. row.edge < length block.old.items) m.now.rows }
    ensures length { length block.new.items ≡ length block.old.items }
    ensures each { (e v : ℕ) →
        mem (numbers_at block.new e) v ≡
        (mem (numbers_at block.old e) v || (mem (edges_of m.now) e && number == v)) }
{
    for i in 0..m.len() {
        let edge = m.row(i).edge as usize;
        block[edge] = block[edge].with(number);
    }
}
