//! Breadth-first search for a shortest path over arcs with residual capacity.
ghost use Rattle.std.specs.Prelude.{◌≡◌, ℕ, ◌+◌, ◌<◌, ◌≢◌, ◌||◌, ◌==◌, [], ◌∷◌, ◌++◌, length, IfOk, OnOk, MatchBool, ℤ, List};
ghost use Rattle.vset_core.specs.from_counting.Common.{Within, mem};
ghost use Rattle.flow_core.specs.Common.{IsBounded, FitsCapacities, IsIncidence, first_node, last_node, IsTree, IsSetOfVisited, IsSearch, IsOutcome};

use crate::incidence::Incidence;
use crate::net::Net;
use crate::signed_list::SignedList;
use std::alloc::{AllocError as Memory, Global};
use vset_core::{MOST_VERTICES, VSet};

/// A node that the search has reached: from which earlier visit, over which arc, and how much can
/// be sent there from the root.
#[derive(Clone, Copy)]
pub struct Visit {
    pub node: u32,
    pub parent: usize,
    pub arc: usize,
    pub room: u64,
}

/// The visits in the order in which the nodes were reached, and the set of these nodes.
#[derive(Drop)]
pub struct Reached {
    pub visits: Vec<Visit>,
    pub seen: VSet,
}

/// The result of a search: its visits, the last of which is at the sink, or all nodes that it has
/// reached, without the sink.
#[derive(Drop)]
pub enum SearchOutcome {
    Path(Vec<Visit>),
    Closed(VSet),
}

impl Reached {
    /// The search that has reached only the source.
    fn from_source(alloc: Global, net: &Net, source: u32) -> Result<Reached, Memory>
        requires bounded { IsBounded net.now }
        requires source { Within net.now.nodes source }
        ensures tree { IfOk result
            (λ reached. (amounts : List ℤ) → IsTree net.now amounts reached.visits.items) }
        ensures seen { IfOk result (λ reached. IsSetOfVisited net.now reached.visits.items reached.seen) }
        ensures source { IfOk result (λ reached. first_node reached.visits.items ≡ source) }
        ensures only { IfOk result (λ reached. (v : ℕ) → mem reached.seen v ≡ (source == v)) }
    {
        let mut visits = Vec::new(alloc);
        visits.push(Visit {
            node: source,
            parent: 0,
            arc: 0,
            room: i64::MAX as u64,
        })?;
        Ok(Reached {
            visits,
            seen: VSet::empty().with(source),
        })
    }

    /// Adds the visit.
    fn push(&mut self, visit: Visit) -> Result<(), Memory>
        requires { Within MOST_VERTICES visit.node }
        ensures visits { OnOk result (self.new.visits.items ≡ self.old.visits.items ++ visit ∷ []) }
        ensures seen { OnOk result
            ((v : ℕ) → mem self.new.seen v ≡ (mem self.old.seen v || visit.node == v)) }
    {
        self.visits.push(visit)?;
        self.seen = self.seen.with(visit.node);
        Ok(())
    }
}

/// Scans the arcs at visit `head`: the far end of each arc with residual capacity is visited, if it
/// is new. Stops at the sink and then returns true.
fn scan(
    net: &Net,
    incidence: &Incidence,
    amounts: &SignedList,
    sink: u32,
    head: usize,
    reached: &mut Reached,
) -> Result<bool, Memory>
    requires bounded { IsBounded net.now }
    requires fits { FitsCapacities net.now.arcs amounts.now }
    requires incidence { IsIncidence net.now incidence.now }
    requires search { IsSearch net.now amounts.now sink head reached.old.visits.items
        reached.old.seen }
    requires head { head < length reached.old.visits.items }
    ensures first { OnOk result
        (first_node reached.new.visits.items ≡ first_node reached.old.visits.items) }
    ensures tree { OnOk result (IsTree net.now amounts.now reached.new.visits.items) }
    ensures found { IfOk result (λ found. MatchBool found
        (last_node reached.new.visits.items ≡ sink)
        (IsSearch net.now amounts.now sink (head + 1) reached.new.visits.items reached.new.seen)) }
{
    let from = reached.visits[head];
    for &i in incidence.row(from.node) {
        let node = net.end_over(from.node, i);
        if reached.seen.contains(node) {
            continue;
        }
        let room = net.room_over(amounts, from.node, i);
        if room == 0 {
            continue;
        }
        reached.push(Visit {
            node,
            parent: head,
            arc: i,
            room: room.min(from.room),
        })?;
        if node == sink {
            return Ok(true);
        }
    }
    Ok(false)
}

/// Breadth-first search for a path from the source to the sink over arcs with residual capacity.
pub fn search(
    alloc: Global,
    net: &Net,
    incidence: &Incidence,
    amounts: &SignedList,
    source: u32,
    sink: u32,
) -> Result<SearchOutcome, Memory>
    requires bounded { IsBounded net.now }
    requires fits { FitsCapacities net.now.arcs amounts.now }
    requires incidence { IsIncidence net.now incidence.now }
    requires source { Within net.now.nodes source }
    requires differ { source ≢ sink }
    ensures { IfOk result (IsOutcome net.now amounts.now source sink) }
{
    let mut reached = Reached::from_source(alloc, net, source)?;
    let mut head = 0;
    'scanning: while head < reached.visits.len() {
        if scan(net, incidence, amounts, sink, head, &mut reached)? {
            return Ok(SearchOutcome::Path(reached.visits));
        }
        head += 1;
    }
    reached.seen.rises();
    Ok(SearchOutcome::Closed(reached.seen))
}
