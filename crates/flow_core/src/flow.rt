//! Flows, and how they grow along an augmenting path.
ghost use Rattle.std.specs.Prelude.{◌≡◌, ◌≢◌, ℕ, ◌<◌, IfOk};
ghost use Rattle.flow_core.specs.Common.{IsBounded, IsFlow, IsTree, first_node, last_node};

use crate::net::Net;
use crate::search::Visit;
use crate::signed_list::{SignedList, zeros};
use std::alloc::{AllocError as Memory, Global};

/// A flow from a source to a sink of a net: one amount for each arc, in the order of the arcs and
/// positive from `a` to `b`. No amount exceeds its arc's capacity in either direction, and at each
/// node other than source and sink as much flows in as out. Its value is the amount out of the
/// source less the amount into it.
#[derive(Drop)]
pub struct Flow {
    pub on: SignedList,
    pub value: u64,
}

impl Flow {
    /// The flow that is 0 on each arc.
    pub(crate) fn zero(alloc: Global, net: &Net) -> Result<Flow, Memory>
        ensures flow { IfOk result
            (λ flow. (source sink : ℕ) → IsFlow net.now source sink flow.on flow.value) }
        ensures value { IfOk result (λ flow. flow.value ≡ 0) }
    {
        Ok(Flow {
            on: zeros(alloc, net.size())?,
            value: 0,
        })
    }

    /// Sends as much as possible from the first visit to the last, over the arcs of the visits
    /// between them.
    pub(crate) fn augment(&mut self, net: &Net, visits: &[Visit])
        requires bounded { IsBounded net.now }
        requires tree { IsTree net.now self.old.on visits.now }
        requires differ { first_node visits.now ≢ last_node visits.now }
        requires flow { IsFlow net.now (first_node visits.now) (last_node visits.now) self.old.on
            self.old.value }
        ensures flow { IsFlow net.now (first_node visits.now) (last_node visits.now) self.new.on
            self.new.value }
        ensures more { self.old.value < self.new.value }
    {
        let last = visits.len() - 1;
        let more = visits[last].room;
        let mut at = last;
        'pushing: while at > 0 {
            let visit = visits[at];
            let from = visits[visit.parent].node;
            let amount = net.sent_over(&self.on, from, visit.arc, more);
            self.on.set(visit.arc, amount);
            at = visit.parent;
        }
        self.value += more;
    }
}
