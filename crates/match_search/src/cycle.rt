//! The odd cycle that an edge between two outer vertices closes with their paths, which meet.
ghost use Rattle.std.specs.Prelude.{◌≡◌, ◌≢◌, ℕ, ◌+◌, ◌-◌, ◌<◌, ◌≤◌, length, slice_index, IfOk, Some, None};
ghost use Rattle.graph_core.specs.from_counting.Common.{Within, is_odd, mem};
ghost use Rattle.match_search.specs.Common.{every_other, listed, numbers, IsLastMeeting};

use crate::rows::{find_in, write_part, write_part_back};
use graph_core::vset_core::{MOST_VERTICES, VSet};
use std::alloc::{AllocError as Memory, Global};

/// A place of one part of a row and a place of another.
#[derive(Clone, Copy, Debug, PartialEq, Eq, Drop)]
pub struct Meeting {
    pub i: usize,
    pub j: usize,
}

/// The last place of one part of a row whose number is in another, with its place there.
pub fn last_meeting(
    row: &[u32],
    p: usize,
    p_count: usize,
    q: usize,
    q_count: usize,
) -> Option<Meeting>
    requires p_within { p + p_count ≤ length row.now }
    requires q_within { q + q_count ≤ length row.now }
    ensures none { result ≡ None → (i j : ℕ) → i < p_count → j < q_count →
        slice_index row.now (p + i) ≢ slice_index row.now (q + j) }
    ensures some { (m : Meeting) → result ≡ Some m → IsLastMeeting row.now p p_count q q_count m }
{
    let mut i = p_count;
    while i > 0 {
        i -= 1;
        if let Some(j) = find_in(row, q, q_count, row[p + i]) {
            return Some(Meeting { i, j });
        }
    }
    None
}

/// The vertices of a cycle from place 1 on: a part of a row, and another part backwards. There is a
/// 0 at place 0.
pub fn cycle_vertices(
    alloc: Global,
    row: &[u32],
    from: usize,
    m: usize,
    back_from: usize,
    x: usize,
) -> Result<Vec<u32>, Memory>
    requires within { from + m < length row.now }
    requires back_within { back_from + x ≤ length row.now }
    ensures length { IfOk result (λ cs. length cs.items ≡ m + x + 2) }
    ensures low { IfOk result
        (λ cs. (y : ℕ) → y ≤ m → slice_index cs.items (1 + y) ≡ slice_index row.now (from + y)) }
    ensures high { IfOk result
        (λ cs. (y : ℕ) → y < x → slice_index cs.items (m + 2 + y) ≡
        slice_index row.now (back_from + (x - 1 - y))) }
{
    let mut cs = vec![in alloc; 0; m + x + 2]?;
    write_part(&mut cs, 1, row, from, m + 1);
    write_part_back(&mut cs, m + 2, row, back_from, x);
    Ok(cs)
}

/// The set of the numbers of a row from place 1 on.
pub fn members_of(row: &[u32]) -> VSet
    requires some { 1 ≤ length row.now }
    requires within { (i : ℕ) → Within (length row.now - 1) i →
        Within MOST_VERTICES (numbers row.now i) }
    ensures { (v : ℕ) → mem result v ≡ listed (length row.now - 1) (numbers row.now) v }
{
    let mut members = VSet::empty();
    for i in 0..row.len() - 1 {
        members = members.with(row[i + 1]);
    }
    members
}

#[tactic(auto, using(graph_core::proofs::Parity::is_odd_remainder))]
fn is_odd_place(i: usize) -> bool
    ensures { result ≡ is_odd i }
{
    i % 2 == 1
}

/// Whether place i is an odd number of steps after place t, going round an odd cycle.
pub fn is_every_other(t: usize, i: usize) -> bool
    ensures { result ≡ every_other t i }
{
    if i < t {
        is_odd_place(i) == is_odd_place(t)
    } else {
        t < i && is_odd_place(i) != is_odd_place(t)
    }
}
