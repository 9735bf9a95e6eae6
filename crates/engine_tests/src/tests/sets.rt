//! The operations on sets of vertices: shores of a hexagon, and both ends of the range.

use super::made::set_of;
use graph_core::vset_core::VSet;
use std::test::Fail;

#[test]
fn two_shores(rt: HostRuntime) {
    let shore = set_of(&[1, 2, 3]);
    let other = set_of(&[5, 3, 4]);
    assert!(rt; shore.union(other) == VSet::full(5));
    assert!(rt; shore.meet(other) == VSet::one(3));
    assert!(rt; shore.minus(other) == set_of(&[1, 2]));
    assert!(rt; VSet::full(6).minus(set_of(&[2, 3, 4])) == set_of(&[1, 5, 6]));
    assert!(rt; shore.is_subset(VSet::full(6)) && !shore.is_subset(other));
    assert!(rt; shore.without(2) == set_of(&[1, 3]));
    assert!(rt; shore.contains(3) && !shore.contains(4));
}

// What comes after a number, in a set that spans both words.
static AFTER: [(u32, Option<u32>); 5] = [
    (0, Some(1)),
    (7, Some(64)),
    (64, Some(65)),
    (66, Some(128)),
    (128, None),
];

#[test]
fn the_ends_of_a_set(rt: HostRuntime) {
    let set = set_of(&[128, 7, 64, 65, 1]);
    for (v, next) in &AFTER {
        assert!(rt; set.next_after(*v) == *next);
    }
    assert!(rt; set.len() == 5 && VSet::full(128).len() == 128 && VSet::full(0).len() == 0);
    assert!(rt; set.first() == Some(1) && set.last() == Some(128));
    assert!(rt; set.split_first() == Some((1, set_of(&[7, 64, 65, 128]))));
    let none = VSet::empty();
    assert!(rt; none.first().is_none() && none.last().is_none() && none.split_first().is_none());
}

#[test]
fn the_members_in_order(rt: HostRuntime) -> Result<(), Fail> {
    let mut members = Vec::new(rt.alloc());
    for v in set_of(&[128, 7, 64, 65, 1]).iter() {
        members.push(v)?;
    }
    assert!(rt; members.as_slice() == [1, 7, 64, 65, 128].as_slice());
    Ok(())
}

#[test]
fn a_set_in_text(rt: HostRuntime) -> Result<(), Fail> {
    let set = set_of(&[128, 7, 64]);
    let text = format!(in rt.alloc(); "{set:?}")?;
    assert!(rt; text.as_str() == "{7, 64, 128}");
    Ok(())
}
