//! Blossoms: if the paths to two adjacent outer vertices meet, they close an odd cycle. The first
//! vertex of the cycle, where the paths last meet, is the base. The cycle minus any one vertex has
//! a perfect matching, so the blossom may be shrunk to its base: a matching of the smaller graph
//! meets it at one vertex, and is completed round the cycle from there.
ghost use Rattle.std.specs.Prelude.{◌≡◌, ◌≢◌, ℕ, ◌+◌, ◌-◌, ◌<◌, ◌≤◌, true, length, suc, IfOk, Some};
ghost use Rattle.graph_core.specs.from_counting.Common.{Within, Set, mem};
ghost use Rattle.graph_core.specs.Common.{Graph};
ghost use Rattle.match_search.specs.Common.{AreClosingPaths, ExposesOnly, HoldsBlossom, IsCompleted, MayOpen, IsAugmented, IsClosed, second_start, IsLastMeeting, numbers, part};

use crate::cycle::{Meeting, cycle_vertices, last_meeting, members_of};
use crate::instance::Instance;
use crate::mates::{clear, expose, flip, join, pair_round};
use crate::paths::Paths;
use graph_core::vset_core::{MOST_VERTICES, VSet};
use std::alloc::{AllocError as Memory, Global};

/// A blossom: the vertices of an odd cycle in order, from place 1 on, with the base first, and
/// their set. Place 0 is unused.
#[derive(Drop)]
pub struct Blossom {
    pub cycle: Vec<u32>,
    pub members: VSet,
}

/// The blossom of two paths that meet. The pairs along the path to the base are exchanged, and the
/// vertices of the blossom are exposed.
pub fn blossom_of(
    alloc: Global,
    paths: &Paths,
    meeting: Meeting,
    mate: &mut [u32],
) -> Result<Blossom, Memory>
    requires paths { (g : Graph) × (r : Set) × (f : Set) ×
        AreClosingPaths g r f mate.old paths.now }
    requires last { IsLastMeeting paths.now.row.items 0 (suc (paths.now.first + paths.now.first))
        (second_start paths.now) (suc (paths.now.second + paths.now.second)) meeting }
    ensures holds { IfOk result (λ b. (g : Graph) (r f : Set) →
        AreClosingPaths g r f mate.old paths.now → HoldsBlossom g r f mate.new b) }
    ensures exposed { IfOk result (ExposesOnly mate.old mate.new) }
{
    let start = paths.first + paths.first + 1;
    let forth = paths.second + paths.second - meeting.j;
    let back = paths.first + paths.first - meeting.i;
    let cycle = cycle_vertices(
        alloc,
        &paths.row,
        start + meeting.j,
        forth,
        meeting.i + 1,
        back,
    )?;
    let members = members_of(&cycle);
    flip(mate, &paths.row, start, meeting.j / 2);
    clear(mate, &cycle);
    Ok(Blossom { cycle, members })
}

// Exchanges the pairs along two paths that do not meet, and makes their last vertices a pair.
fn augment(paths: &Paths, mate: &mut [u32])
    requires paths { (g : Graph) × (r : Set) × (f : Set) ×
        AreClosingPaths g r f mate.old paths.now }
    requires apart { (i j : ℕ) → i < suc (paths.now.first + paths.now.first) →
        j < suc (paths.now.second + paths.now.second) →
        part paths.now.row.items 0 i ≢ part paths.now.row.items (second_start paths.now) j }
    ensures { (g : Graph) (r f : Set) → AreClosingPaths g r f mate.old paths.now →
        IsAugmented g r f mate.new }
{
    let last = paths.first + paths.first;
    let start = last + 1;
    flip(mate, &paths.row, 0, paths.first);
    flip(mate, &paths.row, start, paths.second);
    join(
        mate,
        paths.row[last],
        paths.row[start + (paths.second + paths.second)],
    );
}

/// Closes two paths: the matching is augmented along them, or, if they meet, a blossom is returned
/// and its vertices are exposed.
pub fn close(alloc: Global, paths: &Paths, mate: &mut [u32]) -> Result<Option<Blossom>, Memory>
    requires { (g : Graph) × (r : Set) × (f : Set) × AreClosingPaths g r f mate.old paths.now }
    ensures closed { IfOk result (λ b. (g : Graph) (r f : Set) →
        AreClosingPaths g r f mate.old paths.now → IsClosed g r f mate.new b) }
    ensures exposed { IfOk result (λ o. (b : _) → o ≡ Some b → ExposesOnly mate.old mate.new b) }
{
    let first = paths.first + paths.first + 1;
    let second = paths.second + paths.second + 1;
    match last_meeting(&paths.row, 0, first, first, second) {
        None => {
            augment(paths, mate);
            Ok(None)
        }
        Some(meeting) => Ok(Some(blossom_of(alloc, paths, meeting, mate)?)),
    }
}

// The place of the first vertex of the cycle that is in a row.
fn place_in(row: VSet, cycle: &[u32]) -> usize
    requires some { 1 ≤ length cycle.now }
    requires within { (i : ℕ) → Within (length cycle.now - 1) i →
        Within MOST_VERTICES (numbers cycle.now i) }
    requires member { (i : ℕ) × Within (length cycle.now - 1) i ×
        (mem row (numbers cycle.now i) ≡ true) }
    ensures within { Within (length cycle.now - 1) result }
    ensures member { mem row (numbers cycle.now result) ≡ true }
{
    for i in 0..cycle.len() - 1 {
        if row.contains(cycle[i + 1]) {
            return i + 1;
        }
    }
    1
}

/// Expands a blossom that was shrunk: if the base has a mate, that mate is matched to a neighbour
/// in the cycle, and the other vertices of the cycle are paired round from there; otherwise they
/// are paired round from the base.
pub fn open(instance: &Instance, blossom: &Blossom, mate: &mut [u32])
    requires { (g : Graph) × (r : Set) × (f : Set) × (m : Set) × (n : Set) ×
        MayOpen g r f m n instance.now mate.old blossom.now }
    ensures { (g : Graph) (r f m n : Set) → MayOpen g r f m n instance.now mate.old blossom.now →
        IsCompleted g r f m n mate.new }
{
    let base = blossom.cycle[1];
    let outside = mate[base as usize];
    if outside == 0 {
        pair_round(mate, &blossom.cycle, 1);
        return;
    }
    let tip = place_in(instance.near(outside), &blossom.cycle);
    expose(mate, base);
    join(mate, outside, blossom.cycle[tip]);
    pair_round(mate, &blossom.cycle, tip);
}
