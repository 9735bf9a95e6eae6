//! The plan for exposing a shore: what is exposed first in the two subtrees of the root.
ghost use Rattle.std.specs.Prelude.{◌≡◌, ◌≤◌};
ghost use Rattle.graph_core.specs.from_counting.Common.{is_odd, IsRisingIn, mem, meet};
ghost use Rattle.graph_core.specs.Common.{complement_of, block_count};
ghost use Rattle.tree_core.specs.Common.{meet_list};
ghost use Rattle.move_laws.specs.Common.{outer_of, outer_shore, partner};
ghost use Rattle.uncross.specs.Common.{plan_of, IsPlan, first_kept_shore, if_big, second_shore};

use graph_core::vset_core::{MOST_VERTICES, VSet};
use move_laws::contraction::Partition;
use tree_core::are_apart;

/// How a shore y is exposed in a tree with the root shore x.
#[derive(Drop)]
pub enum Plan {
    /// It is x.
    Here,
    /// It is exposed in `kept` first.
    InKept,
    /// It is exposed in `merged` first.
    InMerged,
    /// The two cross. The corners with at least three blocks are exposed first.
    Crossing {
        /// The inner corner.
        u: VSet,
        /// The outer corner.
        v: VSet,
        /// What is exposed in `kept`.
        inner: Option<VSet>,
        /// What is exposed in `merged`.
        outer: Option<VSet>,
    },
}

// Whether two shores have an odd number of blocks in common.
fn share_odd(p: &Partition, x: VSet, y: VSet) -> bool
    ensures { result ≡ is_odd (block_count p.now.blocks (meet (mem x) (mem y))) }
{
    p.blocks_in(x.meet(y)) % 2 == 1
}

// The intersection of two sets.
fn met(x: VSet, y: VSet, n: u32) -> VSet
    requires first { IsRisingIn n x }
    ensures { result ≡ meet_list n x y }
{
    let both = x.meet(y);
    both.rises();
    both
}

// The complement of the union of two sets.
fn around(x: VSet, y: VSet, n: u32) -> VSet
    requires { n ≤ MOST_VERTICES }
    ensures { result ≡ outer_of n x y }
{
    let outside = VSet::full(n).minus(x.union(y));
    outside.rises();
    outside
}

/// The complement of a shore.
pub(crate) fn complement(x: VSet, n: u32) -> VSet
    requires { n ≤ MOST_VERTICES }
    ensures list { result ≡ complement_of n x }
    ensures rising { IsRisingIn n result }
{
    let outside = VSet::full(n).minus(x);
    outside.rises();
    outside
}

// The one of y and its complement that has an odd number of blocks in common with x.
fn partner_of(p: &Partition, x: VSet, y: VSet) -> VSet
    requires { p.now.order ≤ MOST_VERTICES }
    ensures { result ≡ partner p.now.order p.now.blocks x y }
{
    if share_odd(p, x, y) {
        y
    } else {
        complement(y, p.order())
    }
}

// A shore, if u has at least three blocks.
fn shore_if_big(p: &Partition, u: VSet, shore: VSet) -> Option<VSet>
    ensures { result ≡ if_big p.now.blocks u shore }
{
    if p.blocks_in(u) < 3 {
        None
    } else {
        Some(shore)
    }
}

// The canonical shore of the outer corner.
fn outer_shore_of(v: VSet, n: u32) -> VSet
    requires few { n ≤ MOST_VERTICES }
    requires some { 1 ≤ n }
    ensures { result ≡ outer_shore n v }
{
    if v.contains(n) { complement(v, n) } else { v }
}

/// The plan for the shore y in a tree with the root shore x at p.
pub fn plan_at(p: &Partition, x: VSet, y: VSet) -> Plan
    requires some { 1 ≤ p.now.order }
    requires root { IsRisingIn p.now.order x }
    requires shore { IsRisingIn p.now.order y }
    ensures { IsPlan p.now.order p.now.blocks x y (plan_of result) }
{
    p.keeps_partition();
    if y.is_subset(x) {
        if x.is_subset(y) {
            return Plan::Here;
        }
        return Plan::InKept;
    }
    if x.is_subset(y) {
        return Plan::InMerged;
    }
    if are_apart(x, y) {
        return Plan::InMerged;
    }
    let n = p.order();
    let z = partner_of(p, x, y);
    let u = met(x, z, n);
    let v = around(x, z, n);
    let inner = shore_if_big(p, u, u);
    let outer = shore_if_big(p, v, outer_shore_of(v, n));
    Plan::Crossing { u, v, inner, outer }
}

impl Plan {
    /// What is exposed in `kept` first.
    pub fn first(&self, y: VSet) -> Option<VSet>
        ensures { result ≡ first_kept_shore y (plan_of self.now) }
    {
        match self {
            Plan::InKept => Some(y),
            Plan::Crossing { inner, .. } => *inner,
            Plan::Here | Plan::InMerged => None,
        }
    }

    /// What is exposed in `merged` first.
    pub fn second(&self, y: VSet) -> Option<VSet>
        ensures { result ≡ second_shore y (plan_of self.now) }
    {
        match self {
            Plan::InMerged => Some(y),
            Plan::Crossing { outer, .. } => *outer,
            Plan::Here | Plan::InKept => None,
        }
    }
}
