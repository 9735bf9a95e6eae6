//! Cuts and flows of small nets, against the values of all sets of nodes.
ghost use Rattle.std.specs.Prelude.{◌≡◌, ◌≢◌, ◌↔◌, IfOk, IsTrue};
ghost use Rattle.tree_check.specs.from_counting.Common.{Within};

use flow_core::{CutAnswer, Net, SignedList, min_cut};
use graph_core::vset_core::VSet;
use std::alloc::{AllocError as Memory, Global};

/// An arc of a table: its ends and its capacity.
type Row = (u32, u32, u64);

// The net of five nodes with these arcs; an arc that is out of order is left out.
fn net_of(alloc: Global, rows: &[Row]) -> Result<Net, Memory>
    ensures { IfOk result (λ net. net.nodes ≡ 5) }
{
    let mut net = Net::new(alloc, 5)?;
    for (a, b, capacity) in rows {
        if in_range(*a) && in_range(*b) && *a != *b && *capacity < (1 << 63) - net.total() {
            net.add(*a, *b, *capacity)?;
        }
    }
    Ok(net)
}

// Whether v is one of five nodes.
fn in_range(v: u32) -> bool
    ensures { IsTrue result ↔ Within 5 v }
{
    v >= 1 && v <= 5
}

// Whether v is in the set that the bits of `mask` stand for.
fn holds(mask: u32, v: u32) -> bool {
    mask >> (v % 32) & 1 == 1
}

// The value of that set.
fn value_of(mask: u32, rows: &[Row]) -> u64 {
    let mut value = 0u64;
    for (a, b, capacity) in rows {
        if holds(mask, *a) != holds(mask, *b) {
            value = value.wrapping_add(*capacity);
        }
    }
    value
}

// The least value of all sets of nodes 1 to 5 with the source and without the sink, and what is
// in each set of that value.
fn least_of(rows: &[Row], source: u32, sink: u32) -> (u64, u32) {
    let mut least = u64::MAX;
    let mut common = 0u32;
    for mask in 0..64u32 {
        if !holds(mask, source) || holds(mask, sink) {
            continue;
        }
        let value = value_of(mask, rows);
        if value < least {
            least = value;
            common = mask;
        } else if value == least {
            common &= mask;
        }
    }
    (least, common)
}

// The set that the bits of `mask` stand for.
fn set_of_bits(mask: u32) -> VSet {
    let mut set = VSet::empty();
    for v in 1..6u32 {
        if holds(mask, v) {
            set = set.with(v);
        }
    }
    set
}

// The answer as a set and its value; the set is empty if a flow is above the bound.
fn cut_of(
    alloc: Global,
    rows: &[Row],
    source: u32,
    sink: u32,
    above: u64,
) -> Result<(VSet, u64), Memory>
    requires source { Within 5 source }
    requires sink { Within 5 sink }
    requires differ { source ≢ sink }
{
    let net = net_of(alloc, rows)?;
    match min_cut(alloc, &net, source, sink, above)? {
        CutAnswer::Cut { set, value } => Ok((set, value)),
        CutAnswer::Exceeds { flow } => Ok((VSet::empty(), flow.value)),
    }
}

// Whether the answer is a flow of this value, with these amounts on the arcs.
fn is_flow(answer: &CutAnswer, value: u64, on: &[i64]) -> bool {
    match answer {
        CutAnswer::Cut { .. } => false,
        CutAnswer::Exceeds { flow } => flow.value == value && flow.on.as_slice() == on,
    }
}

// The net with arcs 1-2 of capacity 2 and 2-3 of capacity 1.
#[test]
fn two_arcs(rt: HostRuntime) -> Result<(), Memory> {
    let mut net = Net::new(rt.alloc(), 3)?;
    net.add(1, 2, 2)?;
    net.add(2, 3, 1)?;
    assert!(rt; net.total() == 3);
    match min_cut(rt.alloc(), &net, 1, 3, 5)? {
        CutAnswer::Cut { set, value } => assert!(rt; set == set_of_bits(0b110) && value == 1),
        CutAnswer::Exceeds { flow: _ } => assert!(rt; false),
    }
    assert!(rt; is_flow(&min_cut(rt.alloc(), &net, 1, 3, 0)?, 1, &[1, 1]));
    Ok(())
}

// Two arcs between the same nodes, given in both directions.
#[test]
fn parallel_arcs(rt: HostRuntime) -> Result<(), Memory> {
    let mut net = Net::new(rt.alloc(), 2)?;
    net.add(1, 2, 1)?;
    net.add(2, 1, 2)?;
    assert!(rt; is_flow(&min_cut(rt.alloc(), &net, 1, 2, 2)?, 3, &[1, -2]));
    Ok(())
}

#[test]
fn amounts(rt: HostRuntime) -> Result<(), Memory> {
    let mut list = SignedList::new(rt.alloc());
    assert!(rt; list.is_empty());
    list.push(-5)?;
    list.push(7)?;
    assert!(rt; list.len() == 2 && list.get(0) == -5 && list.get(1) == 7);
    Ok(())
}

// Parallel arcs, an isolated sink, no arcs, a capacity of 0, capacities near 2^62 and a flow that
// has to turn back.
static NETS: [&[Row]; 7] = [
    &[(1, 2, 2), (2, 3, 1)],
    &[(1, 2, 1), (2, 1, 2), (2, 5, 3), (5, 2, 1)],
    &[(1, 2, 7), (2, 3, 7), (1, 3, 7)],
    &[],
    &[(1, 2, 1), (2, 3, 0), (1, 4, 1), (4, 3, 1), (3, 5, 2)],
    &[(1, 2, 1 << 62), (2, 3, (1 << 62) - 3), (1, 3, 2)],
    &[
        (1, 2, 1),
        (2, 5, 1),
        (1, 3, 1),
        (3, 4, 1),
        (4, 5, 1),
        (2, 4, 1),
        (3, 2, 1),
    ],
];

// Whether the cut of the net between two nodes is the least of all sets, with the bound at its
// value and just below it.
fn is_least(alloc: Global, rows: &[Row], source: u32, sink: u32) -> Result<bool, Memory>
    requires source { Within 5 source }
    requires sink { Within 5 sink }
    requires differ { source ≢ sink }
{
    let (least, common) = least_of(rows, source, sink);
    if cut_of(alloc, rows, source, sink, least)? != (set_of_bits(common), least) {
        return Ok(false);
    }
    Ok(least == 0 || cut_of(alloc, rows, source, sink, least - 1)? == (VSet::empty(), least))
}

// Each net, each source and sink, against the values of all sets.
#[test]
fn all_sets(rt: HostRuntime) -> Result<(), Memory> {
    for rows in &NETS {
        for source in 1..6u32 {
            for sink in 1..6u32 {
                if source != sink {
                    assert!(rt; is_least(rt.alloc(), rows, source, sink)?);
                }
            }
        }
    }
    Ok(())
}
