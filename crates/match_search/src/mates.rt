//! Matchings by mates: for each vertex the other end of its edge, or 0 if it is exposed.
ghost use Rattle.std.specs.Prelude.{◌≡◌, ℕ, ◌+◌, ◌-◌, ◌^◌, ◌<◌, ◌≤◌, cond, length, IfOk};
ghost use Rattle.graph_core.specs.from_counting.Common.{Within, Set};
ghost use Rattle.graph_core.specs.Common.{IsMatching, graph_of};
ghost use Rattle.match_search.specs.Common.{AreEnds, IsGraphRow, every_other, next, HasMates, NamesMates, with_mate, with_pair, flipped_mates, cleared_mates, paired_round, marks, numbers, part};

use crate::cycle::is_every_other;
use graph_core::Ends;
use std::alloc::{AllocError as Memory, Global};

/// Makes a vertex exposed. The entry of its mate, if it has one, is not changed.
pub fn expose(mate: &mut [u32], v: u32)
    requires within { v < length mate.old }
    ensures { (u : ℕ) → numbers mate.new u ≡ with_mate (numbers mate.old) v 0 u }
{
    mate[v as usize] = 0;
}

/// Makes two vertices a pair.
pub fn join(mate: &mut [u32], v: u32, w: u32)
    requires v_in { v < length mate.old }
    requires w_in { w < length mate.old }
    ensures { (u : ℕ) → numbers mate.new u ≡ with_pair (numbers mate.old) v w u }
{
    mate[v as usize] = w;
    mate[w as usize] = v;
}

/// Exchanges the pairs along a path, whose vertices are a part of a row: the first two become a
/// pair, the next two, and so on, and the last vertex is exposed.
pub fn flip(mate: &mut [u32], path: &[u32], from: usize, pairs: usize)
    requires long { from + (pairs + pairs) < length path.now }
    requires in_mates { (j : ℕ) → j ≤ pairs + pairs →
        numbers path.now (from + j) < length mate.old }
    ensures { (u : ℕ) →
        numbers mate.new u ≡ flipped_mates (numbers mate.old) (part path.now from) pairs u }
{
    for i in 0..pairs {
        join(mate, path[from + (i + i)], path[from + (i + i + 1)]);
        expose(mate, path[from + (i + i + 2)]);
    }
}

/// Exposes the vertices of a cycle, which are in a row from place 1 on.
pub fn clear(mate: &mut [u32], cycle: &[u32])
    requires some { 1 ≤ length cycle.now }
    requires in_mates { (i : ℕ) → Within (length cycle.now - 1) i →
        numbers cycle.now i < length mate.old }
    ensures { (u : ℕ) →
        numbers mate.new u ≡ cleared_mates (numbers mate.old) (length cycle.now - 1)
        (numbers cycle.now) u }
{
    for i in 0..cycle.len() - 1 {
        expose(mate, cycle[i + 1]);
    }
}

fn place_after(places: usize, place: usize) -> usize
    requires within { place ≤ places }
    requires few { places < 2 ^ 32 }
    ensures { result ≡ next places place }
{
    if place == places { 1 } else { place + 1 }
}

// Pairs the vertex at a place of a cycle with the next, if the place is an odd number of steps
// after the tip.
fn pair_place(mate: &mut [u32], cycle: &[u32], tip: usize, place: usize)
    requires within { Within (length cycle.now - 1) place }
    requires few { length cycle.now ≤ 2 ^ 32 }
    requires in_mates { (i : ℕ) → Within (length cycle.now - 1) i →
        numbers cycle.now i < length mate.old }
    ensures { (u : ℕ) → numbers mate.new u ≡
        cond (every_other tip place)
        (with_pair (numbers mate.old) (numbers cycle.now place)
        (numbers cycle.now (next (length cycle.now - 1) place)) u) (numbers mate.old u) }
{
    if is_every_other(tip, place) {
        join(
            mate,
            cycle[place],
            cycle[place_after(cycle.len() - 1, place)],
        );
    }
}

/// Pairs the vertices of an odd cycle round from one of them, which is left out. They are in a row
/// from place 1 on.
pub fn pair_round(mate: &mut [u32], cycle: &[u32], tip: usize)
    requires some { 1 ≤ length cycle.now }
    requires few { length cycle.now ≤ 2 ^ 32 }
    requires in_mates { (i : ℕ) → Within (length cycle.now - 1) i →
        numbers cycle.now i < length mate.old }
    ensures { (u : ℕ) →
        numbers mate.new u ≡ paired_round (numbers mate.old) (length cycle.now - 1)
        (numbers cycle.now) tip (length cycle.now - 1) u }
{
    for i in 0..cycle.len() - 1 {
        pair_place(mate, cycle, tip, i + 1);
    }
}

/// The mates of a matching, which is given by marks on a row of edges.
pub fn mates_of(alloc: Global, n: u32, ends: &[Ends], mark: &[bool]) -> Result<Vec<u32>, Memory>
    requires row { IsGraphRow n ends.now }
    requires long { length mark.now ≡ length ends.now + 1 }
    ensures long { IfOk result (λ mate. length mate.items ≡ n + 1) }
    ensures mates { IfOk result (λ mate. (r : Set) →
        IsMatching (graph_of n ends.now) r (marks mark.now) →
        HasMates (graph_of n ends.now) r (marks mark.now) (numbers mate.items)) }
{
    let mut mate = vec![in alloc; 0; n as usize + 1]?;
    write_mates(&mut mate, ends, mark);
    Ok(mate)
}

// Writes the mates into a row of zeros.
fn write_mates(mate: &mut [u32], ends: &[Ends], mark: &[bool])
    requires row { AreEnds (length mate.old - 1) ends.now }
    requires long { length mark.now ≡ length ends.now + 1 }
    requires zeros { (v : ℕ) → numbers mate.old v ≡ 0 }
    ensures { NamesMates ends.now (marks mark.now) mate.new (length ends.now) }
{
    for (k, e) in ends.iter().enumerate() {
        if mark[k + 1] {
            join(mate, e.a, e.b);
        }
    }
}
