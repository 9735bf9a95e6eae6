//! The shores that a Switch makes.
ghost use Rattle.std.specs.Prelude.{◌≡◌, ◌-◌, ◌&&◌, ℕ, true, not, min, All};
ghost use Rattle.graph_core.specs.from_counting.Common.{Within, mem, is_subset, rising_list, IsRisingIn, everything};
ghost use Rattle.graph_core.specs.Common.{complement_of};
ghost use Rattle.tree_core.specs.Common.{is_proper, list_if, minus_list, outer_rest, union_list};

use graph_core::vset_core::{MOST_VERTICES, VSet};

/// The union of two sets.
pub(crate) fn union_of(x: VSet, y: VSet, n: u32) -> VSet
    requires first { All (Within n) x }
    requires second { All (Within n) y }
    ensures list { result ≡ union_list n x y }
    ensures within { All (Within n) result }
{
    x.rises();
    y.rises();
    let all = x.union(y);
    all.rises();
    all
}

/// What of a set is not in another.
pub(crate) fn minus_of(x: VSet, y: VSet, n: u32) -> VSet
    requires { All (Within n) x }
    ensures list { result ≡ minus_list n x y }
    ensures within { All (Within n) result }
{
    x.rises();
    let left = x.minus(y);
    left.rises();
    left
}

/// A set where a test holds, and the empty set else.
pub(crate) fn set_if(test: bool, x: VSet, n: u32) -> VSet
    requires { All (Within n) x }
    ensures list { result ≡ list_if test x }
    ensures within { All (Within n) result }
{
    if test { x } else { VSet::empty() }
}

/// Whether the greatest vertex of 1 to `n` is in the set. Takes no memory.
pub fn holds_greatest(v: VSet, n: u32) -> bool
    ensures { result ≡ mem v n }
{
    v.rises();
    if n < 1 {
        return false;
    }
    if n > MOST_VERTICES {
        return false;
    }
    v.contains(n)
}

// The vertices of 1 to n outside the shore that a set can hold.
fn outside_within(x: VSet, n: u32) -> VSet
    ensures members { (w : ℕ) →
        mem result w ≡ (mem (rising_list (min n 128) everything) w && not (mem x w)) }
    ensures rising { IsRisingIn 128 result }
{
    let outside = VSet::full(n.min(MOST_VERTICES)).minus(x);
    outside.rises();
    outside
}

// Whether the set lies in the complement of the shore.
fn is_outside(v: VSet, x: VSet, n: u32) -> bool
    ensures { result ≡ is_subset v (complement_of n x) }
{
    v.rises();
    v.is_subset(outside_within(x, n))
}

// Whether the complement of the shore lies in the set.
fn covers_outside(v: VSet, x: VSet, n: u32) -> bool
    requires { All (Within (n - 1)) x }
    ensures { result ≡ is_subset (complement_of n x) v }
{
    v.rises();
    x.rises();
    if n > MOST_VERTICES {
        return false;
    }
    outside_within(x, n).is_subset(v)
}

/// Whether `u` is a nonempty proper subset of `x`.
pub(crate) fn is_proper_part(u: VSet, x: VSet) -> bool
    ensures { result ≡ is_proper u x }
{
    !u.is_subset(VSet::empty()) && u.is_subset(x) && !x.is_subset(u)
}

/// Whether `v` is a nonempty proper subset of the complement of `x`.
pub(crate) fn is_proper_outside(v: VSet, x: VSet, n: u32) -> bool
    requires { All (Within (n - 1)) x }
    ensures { result ≡ is_proper v (complement_of n x) }
{
    !v.is_subset(VSet::empty()) && is_outside(v, x, n) && !covers_outside(v, x, n)
}

/// What of the complement of `x` is not in `v`, where `v` holds the greatest vertex.
pub(crate) fn outer_rest_of(x: VSet, v: VSet, n: u32) -> VSet
    requires { mem v n ≡ true }
    ensures list { result ≡ outer_rest n x v }
    ensures within { All (Within n) result }
{
    v.rises();
    let rest = outside_within(x, n).minus(v);
    rest.rises();
    rest
}
