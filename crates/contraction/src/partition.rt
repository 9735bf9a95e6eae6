//! Partitions of the vertices into blocks.
ghost use Rattle.std.specs.Prelude.{◌≡◌, ℕ, ◌&&◌, ◌<◌, ◌≤◌, ◌+◌, ◌↔◌, ◌==◌, ◌||◌, not, length, slice_get, Some, IfOk, IsTrue, filter, insert, count_by, nat_lt, position};
ghost use Rattle.itertools.specs.Consumer.{find_at};
ghost use Rattle.std.specs.List.{list_all, position_or_len};
ghost use Rattle.graph_core.specs.from_counting.Common.{Within, mem, some, last_of, is_subset, is_apart};
ghost use Rattle.graph_core.specs.Common.{Graph, insert_block, merged, place, singles, block, block_count, union_of_blocks};
ghost use Rattle.contraction.specs.Partition.{IsUnionAt, KeepsPartition};

use graph_core::vset_core::{MOST_VERTICES, VSet};
use itertools::Itertools;
use std::alloc::{AllocError as Memory, Global};
use std::marker::Model;

/// A partition of the vertices 1 to n into blocks. The name of a block is its highest-numbered
/// vertex, and blocks are in increasing order of their names. Contracts see it as n and the list of
/// the blocks.
#[derive(Drop)]
pub struct Partition {
    order: u32,
    pub(crate) blocks: Vec<VSet>,
}

impl Model for Partition {
    ghost use Rattle.contraction.specs.Partition.{PartitionValue, KeepsPartition};

    ghost Value = { PartitionValue };

    ghost view = { λ p. record { order = p.order; blocks = p.blocks.items } };

    ghost invariant = { λ p. KeepsPartition (record { order = p.order; blocks = p.blocks.items }) };
}

impl Partition {
    /// The partition of 1 to `n` into single vertices. Takes O(n) time; the only error is `Memory`.
    pub fn singles(alloc: Global, n: u32) -> Result<Partition, Memory>
        requires { n ≤ MOST_VERTICES }
        ensures order { IfOk result (λ p. p.order ≡ n) }
        ensures blocks { IfOk result (λ p. p.blocks ≡ singles n) }
    {
        Ok(Partition {
            order: n,
            blocks: single_vertices(alloc, n)?,
        })
    }

    /// The law that the blocks are a partition: each of 1 to n is in exactly one, none is empty,
    /// and the names are increasing. It does nothing: a caller states it where it needs it.
    pub fn keeps_partition(&self)
        ensures { KeepsPartition self.now }
    {
        let _ = &self.blocks;
    }

    /// The number of vertices. Takes no memory.
    pub fn order(&self) -> u32
        ensures { result ≡ self.now.order }
    {
        self.order
    }

    /// The number of blocks. Takes no memory.
    pub fn len(&self) -> usize
        ensures { result ≡ length self.now.blocks }
    {
        self.blocks.len()
    }

    /// Whether there is no block. Takes no memory.
    pub fn is_empty(&self) -> bool
        ensures { result ≡ (length self.now.blocks == 0) }
    {
        self.blocks.is_empty()
    }

    /// The block at place `i`, counted from 0. Takes no memory.
    pub fn block(&self, i: usize) -> VSet
        requires { i < length self.now.blocks }
        ensures { slice_get self.now.blocks i ≡ Some result }
    {
        self.blocks[i]
    }

    /// Whether two partitions have the same blocks. Takes no memory.
    pub fn has_blocks_of(&self, other: &Partition) -> bool
        ensures { IsTrue result ↔ (self.now.blocks ≡ other.now.blocks) }
    {
        self.blocks == other.blocks
    }

    /// Whether `set` is a union of blocks; false if it has a vertex beyond n. Takes no memory, and
    /// O(k) steps on words for k blocks.
    pub fn is_union(&self, set: VSet) -> bool
        ensures { IsTrue result ↔ IsUnionAt self.now set }
    {
        set.rises();
        set.is_subset(VSet::full(self.order)) && each_in_or_apart(&self.blocks, set)
    }

    /// How many blocks are in `set`, which is a union of blocks. Takes no memory, and O(k) steps on
    /// words for k blocks.
    pub fn blocks_in(&self, set: VSet) -> u32
        ensures { result ≡ block_count self.now.blocks (mem set) }
    {
        count_inside(&self.blocks, set) as u32
    }

    /// The union of the blocks at the places in `s`. Takes no memory, and O(k) steps on words for k
    /// blocks.
    pub fn lift_set(&self, s: VSet) -> VSet
        ensures { (g : Graph) → g.order ≡ self.now.order →
            result ≡ union_of_blocks g self.now.blocks (mem s) }
    {
        self.keeps_partition();
        let union = union_at(&self.blocks, s);
        union.rises();
        union
    }

    /// The partition after all blocks in `shore`, a nonempty union of blocks, are merged into one.
    /// Takes O(k) steps on words for k blocks; the only error is `Memory`.
    pub fn merge(&self, alloc: Global, shore: VSet) -> Result<Partition, Memory>
        requires union { IsUnionAt self.now shore }
        requires nonempty { 0 < length shore }
        ensures order { IfOk result (λ p. p.order ≡ self.now.order) }
        ensures blocks { IfOk result (λ p. p.blocks ≡ merged self.now.blocks shore) }
    {
        let mut blocks = blocks_outside(alloc, &self.blocks, shore)?;
        insert_by_name(&mut blocks, shore)?;
        Ok(Partition {
            order: self.order,
            blocks,
        })
    }

    /// A copy. Takes O(k) time for k blocks; the only error is `Memory`.
    pub fn copy(&self, alloc: Global) -> Result<Partition, Memory>
        ensures order { IfOk result (λ p. p.order ≡ self.now.order) }
        ensures blocks { IfOk result (λ p. p.blocks ≡ self.now.blocks) }
    {
        Ok(Partition {
            order: self.order,
            blocks: self.copy_blocks(alloc)?,
        })
    }

    /// The blocks, copied.
    pub(crate) fn copy_blocks(&self, alloc: Global) -> Result<Vec<VSet>, Memory>
        ensures { IfOk result (λ blocks. blocks.items ≡ self.now.blocks) }
    {
        Vec::from_slice(alloc, &self.blocks)
    }

    /// The place of the block that contains `v`, counted from 1, or one past the end if none does.
    /// Takes no memory, and O(k) steps on words for k blocks.
    pub fn place(&self, v: u32) -> u32
        requires { Within MOST_VERTICES v }
        ensures { result ≡ place self.now.blocks v }
    {
        place_of(&self.blocks, v) as u32
    }
}

/// The union of the blocks at the places in the set. Takes no memory.
pub(crate) fn union_at(blocks: &[VSet], s: VSet) -> VSet
    requires { length blocks.now ≤ MOST_VERTICES }
    ensures { (v : ℕ) → mem result v ≡
        some (length blocks.now) (λ i. mem s i && mem (block blocks.now i) v) }
{
    let mut union = VSet::empty();
    for (i, block) in blocks.iter().enumerate() {
        if s.contains(i as u32 + 1) {
            union = union.union(*block);
        }
    }
    union
}

// The place of the block that contains v, counted from 1, or one past the end if none does.
fn place_of(blocks: &[VSet], v: u32) -> usize
    requires { Within MOST_VERTICES v }
    ensures { result ≡ place blocks.now v }
{
    match first_holding(blocks, v) {
        Some(found) => found.0 + 1,
        None => blocks.len() + 1,
    }
}

// The first block that contains v, with its place, counted from 0.
fn first_holding(blocks: &[VSet], v: u32) -> Option<(usize, VSet)>
    requires { Within MOST_VERTICES v }
    ensures { result ≡ find_at (λ block. mem block v) 0 blocks.now }
{
    let mut items = blocks.iter().copied();
    items.find_position(|block| block.contains(v))
}

// The single vertices 1 to n.
fn single_vertices(alloc: Global, n: u32) -> Result<Vec<VSet>, Memory>
    requires { n ≤ MOST_VERTICES }
    ensures { IfOk result (λ blocks. blocks.items ≡ singles n) }
{
    let mut blocks = Vec::new(alloc);
    for v in 0..n {
        blocks.push(VSet::one(v + 1))?;
    }
    Ok(blocks)
}

// Whether the set contains all of the block, or none of it.
fn in_or_apart(block: VSet, set: VSet) -> bool
    ensures { result ≡ (is_subset block set || is_apart block set) }
{
    block.is_subset(set) || block.meet(set).len() == 0
}

// Whether the set contains all of each block, or none of it.
fn each_in_or_apart(blocks: &[VSet], set: VSet) -> bool
    ensures { result ≡ list_all (λ block. is_subset block set || is_apart block set) blocks.now }
{
    blocks.iter().all(|block| in_or_apart(*block, set))
}

// How many of the blocks are in the set.
fn count_inside(blocks: &[VSet], set: VSet) -> usize
    ensures { result ≡ count_by (λ block. is_subset block set) blocks.now }
{
    blocks.iter().filter(|block| block.is_subset(set)).count()
}

/// The name of a block: its highest-numbered vertex, or 0 if it is empty. Takes no memory.
pub fn name_of(block: VSet) -> u32
    ensures { result ≡ last_of block }
{
    block.rises();
    block.last().unwrap_or(0)
}

// The blocks that are not in the set, with room for one more.
fn blocks_outside(alloc: Global, blocks: &[VSet], set: VSet) -> Result<Vec<VSet>, Memory>
    ensures { IfOk result
        (λ kept. kept.items ≡ filter (λ block. not (is_subset block set)) blocks.now) }
{
    let mut kept = Vec::with_capacity(alloc, blocks.len() + 1)?;
    for block in blocks {
        if !block.is_subset(set) {
            kept.push(*block)?;
        }
    }
    Ok(kept)
}

// The place of the first block with a larger name, counted from 0.
fn first_above(blocks: &[VSet], name: u32) -> Option<usize>
    ensures { result ≡ position (λ block. nat_lt name (last_of block)) blocks.now }
{
    blocks.iter().position(|block| name < name_of(*block))
}

// How many blocks come before the first with a larger name.
fn place_by_name(blocks: &[VSet], name: u32) -> usize
    ensures { result ≡ position_or_len (λ block. nat_lt name (last_of block)) blocks.now }
{
    first_above(blocks, name).unwrap_or(blocks.len())
}

// Inserts the block at the place of its name.
fn insert_by_name(blocks: &mut Vec<VSet>, block: VSet) -> Result<(), Memory>
    ensures { IfOk result (λ _. blocks.new.items ≡ insert_block block blocks.old.items) }
{
    let place = place_by_name(blocks, name_of(block));
    blocks.insert(place, block)?;
    Ok(())
}
