//! Rows of numbers and of marks: parts of a row copied to another, the place of a number,
//! and marked places.
ghost use Rattle.std.specs.Prelude.{◌≡◌, ◌≢◌, ℕ, ◌+◌, ◌-◌, ◌<◌, ◌≤◌, length, slice_index, IfOk, Some, None, All, ◌||◌, false, true};
ghost use Rattle.graph_core.specs.from_counting.Common.{mem, put};
ghost use Rattle.match_search.specs.Common.{marks};

use std::alloc::{AllocError as Memory, Global};

/// Copies `count` numbers of another row, starting at a place, to the row, from the place `at` on.
pub fn write_part(row: &mut [u32], at: usize, of: &[u32], from: usize, count: usize)
    requires within { from + count ≤ length of.now }
    requires room { at + count ≤ length row.old }
    ensures kept { (j : ℕ) → j < at → slice_index row.new j ≡ slice_index row.old j }
    ensures written { (j : ℕ) → j < count →
        slice_index row.new (at + j) ≡ slice_index of.now (from + j) }
{
    for i in 0..count {
        row[at + i] = of[from + i];
    }
}

/// The same backwards: the last of the `count` numbers comes first.
pub fn write_part_back(row: &mut [u32], at: usize, of: &[u32], from: usize, count: usize)
    requires within { from + count ≤ length of.now }
    requires room { at + count ≤ length row.old }
    ensures kept { (j : ℕ) → j < at → slice_index row.new j ≡ slice_index row.old j }
    ensures written { (j : ℕ) → j < count →
        slice_index row.new (at + j) ≡ slice_index of.now (from + (count - 1 - j)) }
{
    for i in 0..count {
        row[at + i] = of[from + (count - 1 - i)];
    }
}

/// The first place of `v` among `count` numbers of a row, counted from the place `from`.
pub fn find_in(row: &[u32], from: usize, count: usize, v: u32) -> Option<usize>
    requires within { from + count ≤ length row.now }
    ensures none { result ≡ None → (j : ℕ) → j < count → slice_index row.now (from + j) ≢ v }
    ensures some { (j : ℕ) → result ≡ Some j → (j < count) × (slice_index row.now (from + j) ≡ v) }
{
    for j in 0..count {
        if row[from + j] == v {
            return Some(j);
        }
    }
    None
}

/// A row of `n` truth values, each false.
pub fn falses(alloc: Global, n: usize) -> Result<Vec<bool>, Memory>
    ensures length { IfOk result (λ xs. length xs.items ≡ n) }
    ensures each { IfOk result (λ xs. (v : ℕ) → marks xs.items v ≡ false) }
{
    vec![in alloc; false; n]
}

/// Marks one place.
pub fn mark_place(mark: &mut Vec<bool>, place: usize)
    requires { place < length mark.old.items }
    ensures length { length mark.new.items ≡ length mark.old.items }
    ensures each { (i : ℕ) → marks mark.new.items i ≡ put (marks mark.old.items) place true i }
{
    mark[place] = true;
}

/// Marks all places of a list.
pub fn mark_places(mark: &mut Vec<bool>, places: &[u32])
    requires { All (λ place. place < length mark.old.items) places.now }
    ensures length { length mark.new.items ≡ length mark.old.items }
    ensures each { (i : ℕ) → marks mark.new.items i ≡ (marks mark.old.items i || mem places.now i) }
{
    for place in places {
        mark_place(mark, *place as usize);
    }
}

/// Whether a place is marked.
pub fn is_marked(mark: &[bool], place: u32) -> bool
    requires { place < length mark.now }
    ensures { result ≡ marks mark.now place }
{
    mark[place as usize]
}
