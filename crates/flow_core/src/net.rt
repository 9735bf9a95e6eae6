//! Nets, and how they grow.
ghost use Rattle.std.specs.Prelude.{◌≡◌, ◌≢◌, ◌+◌, ◌≤◌, ◌<◌, ◌≤ℤ◌, ◌^◌, [], IfOk, OnOk, OnErr, length, pos};
ghost use Rattle.vset_core.specs.from_counting.Common.{Within};
ghost use Rattle.flow_core.specs.Nets.{IsBounded, with_arc, total_capacity};
ghost use Rattle.flow_core.specs.Flows.{FitsCapacities};
ghost use Rattle.flow_core.specs.Incidence.{HasEnd};
ghost use Rattle.flow_core.specs.Residual.{Joins, amount_at, arc_at, room_from, sent_amount};
ghost use Rattle.flow_core.specs.View.{arc_of};

use crate::arc::Arc;
use crate::signed_list::SignedList;
use std::alloc::{AllocError as Memory, Global};
use std::marker::Model;
use vset_core::MOST_VERTICES;

/// A network with nodes 1 to k, k at most `MOST_VERTICES`, and undirected arcs with capacities,
/// whose sum is below 2^63. Parallel arcs and capacities of 0 are allowed. Contracts see it as
/// its number of nodes and its list of arcs, in the order in which they were added; the value of
/// a set of nodes is the sum of the capacities of the arcs with exactly one node in it
/// (`cut_value`).
#[derive(Drop)]
pub struct Net {
    nodes: u32,
    arcs: Vec<Arc>,
    total: u64,
}

impl Model for Net {
    ghost use Rattle.std.specs.Prelude.{◌≡◌, ◌≤◌};
    ghost use Rattle.flow_core.specs.Nets.{Net};
    ghost use Rattle.flow_core.specs.View.{net_of, HasTotal};

    ghost Value = { Net };

    ghost view = { λ net. net_of net.nodes net.arcs.items };

    ghost invariant = { λ net. HasTotal (net_of net.nodes net.arcs.items) net.total };
}

impl Net {
    /// The net of the nodes 1 to `k` without arcs. Takes constant time and no memory; the only
    /// error is `Memory`.
    pub fn new(alloc: Global, k: u32) -> Result<Net, Memory>
        requires { k ≤ MOST_VERTICES }
        ensures { IfOk result (λ net. net ≡ record { nodes = k; arcs = [] }) }
    {
        Ok(Net {
            nodes: k,
            arcs: Vec::new(alloc),
            total: 0,
        })
    }

    /// The sum of the capacities. Takes no memory.
    pub fn total(&self) -> u64
        ensures sum { result ≡ total_capacity self.now }
        ensures below { result < 2 ^ 63 }
    {
        self.total
    }

    /// Appends one arc between `a` and `b` with this capacity. Takes constant time, averaged over
    /// the calls; the only error is `Memory`, and the net is then unchanged.
    pub fn add(&mut self, a: u32, b: u32, capacity: u64) -> Result<(), Memory>
        requires from_a { Within self.old.nodes a }
        requires to_b { Within self.old.nodes b }
        requires differ { a ≢ b }
        requires below { total_capacity self.old + capacity < 2 ^ 63 }
        ensures ok { OnOk result (self.new ≡ with_arc self.old a b capacity) }
        ensures err { OnErr result (self.new ≡ self.old) }
    {
        self.arcs.push(Arc { a, b, capacity })?;
        self.total += capacity;
        Ok(())
    }

    /// The number of nodes.
    pub(crate) fn nodes(&self) -> u32
        ensures nodes { result ≡ self.now.nodes }
        ensures bounded { IsBounded self.now }
    {
        self.nodes
    }

    /// The number of arcs.
    pub(crate) fn size(&self) -> usize
        ensures { result ≡ length self.now.arcs }
    {
        self.arcs.len()
    }

    /// The arc at place `i`, counted from 0.
    pub(crate) fn arc(&self, i: usize) -> Arc
        requires { i < length self.now.arcs }
        ensures { arc_of result ≡ arc_at self.now.arcs i }
    {
        self.arcs[i]
    }

    /// The end of arc `i` that is not the given node, which is its other end.
    pub(crate) fn end_over(&self, node: u32, i: usize) -> u32
        requires bounded { IsBounded self.now }
        requires arc { i < length self.now.arcs }
        requires at { HasEnd (arc_at self.now.arcs i) node }
        ensures joins { Joins (arc_at self.now.arcs i) node result }
        ensures within { Within self.now.nodes result }
        ensures few { Within MOST_VERTICES result }
    {
        self.arc(i).far_end(node)
    }

    /// The residual capacity of arc `i` out of the node, one of its ends, with these amounts.
    pub(crate) fn room_over(&self, amounts: &SignedList, node: u32, i: usize) -> u64
        requires bounded { IsBounded self.now }
        requires fits { FitsCapacities self.now.arcs amounts.now }
        requires arc { i < length self.now.arcs }
        ensures { pos result ≡ room_from node (arc_at self.now.arcs i) (amount_at amounts.now i) }
    {
        self.arc(i).room(node, amounts.get(i))
    }

    /// The amount on arc `i` after `more` is sent over it out of the node, one of its ends.
    pub(crate) fn sent_over(&self, amounts: &SignedList, node: u32, i: usize, more: u64) -> i64
        requires bounded { IsBounded self.now }
        requires fits { FitsCapacities self.now.arcs amounts.now }
        requires arc { i < length self.now.arcs }
        requires room { pos more ≤ℤ
            room_from node (arc_at self.now.arcs i) (amount_at amounts.now i) }
        requires small { more < 2 ^ 63 }
        ensures { result ≡
            sent_amount (arc_at self.now.arcs i) node (amount_at amounts.now i) more }
    {
        self.arc(i).sent(node, amounts.get(i), more)
    }
}
