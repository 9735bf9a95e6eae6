//! All shortest paths after one search: paths from each node to one of the next level.
ghost use Rattle.std.specs.Prelude.{◌≡◌, ◌≢◌, ℕ, suc, ◌≤◌, ◌<◌, ◌+◌, ◌-◌, length, IfOk, OnOk, IsTrue, List, ℤ, slice_index, slice_set, take};
ghost use Rattle.flow_core.specs.Common.{IsBounded, FitsCapacities, IsFlow, IsIncidence, first_node, last_node, visited_node, IsTree, HasTree, IsLaid, work_left};
ghost use Rattle.vset_core.specs.from_counting.Common.{row_of};

use crate::flow::Flow;
use crate::incidence::Incidence;
use crate::net::Net;
use crate::search::Visit;
use crate::signed_list::SignedList;
use std::alloc::{AllocError as Memory, Global};

/// The level of a node that the search has not reached.
const FAR: u8 = u8::MAX;

/// The levels of a search, and a path that goes from level to level. Each node has a place in its
/// row: the arcs before it are dead ends.
#[derive(Drop)]
pub struct Layers {
    levels: Vec<u8>,
    places: Vec<usize>,
    path: Vec<Visit>,
}

// The distance of each node from the first visit, in steps of the search.
fn levels_of(alloc: Global, net: &Net, visits: &[Visit]) -> Result<Vec<u8>, Memory>
    requires bounded { IsBounded net.now }
    requires tree { HasTree net.now visits.now }
    ensures all { IfOk result (λ levels. length levels.items ≡ suc net.now.nodes) }
    ensures first { IfOk result (λ levels. slice_index levels.items (first_node visits.now) ≡ 0) }
{
    let mut levels = vec![in alloc; FAR; net.nodes() as usize + 1]?;
    levels[visits[0].node as usize] = 0;
    for j in 1..visits.len() {
        let before = levels[visits[visits[j].parent].node as usize];
        levels[visits[j].node as usize] = before.saturating_add(1);
    }
    Ok(levels)
}

impl Layers {
    /// The levels of a search, with the path that consists of the first visit.
    pub fn new(alloc: Global, net: &Net, visits: &[Visit]) -> Result<Layers, Memory>
        requires bounded { IsBounded net.now }
        requires tree { HasTree net.now visits.now }
        ensures laid { IfOk result
            (λ layers. (rows : List (List ℕ)) (amounts : List ℤ) →
            IsLaid net.now rows amounts layers.levels.items layers.places.items
            layers.path.items) }
        ensures first { IfOk result
            (λ layers. first_node layers.path.items ≡ first_node visits.now) }
    {
        let mut path = Vec::new(alloc);
        path.push(visits[0])?;
        Ok(Layers {
            levels: levels_of(alloc, net, visits)?,
            places: vec![in alloc; 0; net.nodes() as usize + 1]?,
            path,
        })
    }

    /// Takes the path one step back from visit `last`, which is its last one, and skips the arc by
    /// which it came.
    fn go_back(&mut self, incidence: &Incidence, last: usize)
        requires last { length self.old.path.items ≡ last + 1 }
        requires some { 0 < last }
        requires place { slice_index self.old.places.items
            (visited_node self.old.path.items (last - 1)) <
            length (row_of incidence.now (visited_node self.old.path.items (last - 1))) }
        requires row { visited_node self.old.path.items (last - 1) < length incidence.now }
        requires all { length self.old.places.items ≡ length incidence.now }
        ensures path { self.new.path.items ≡ take last self.old.path.items }
        ensures levels { self.new.levels.items ≡ self.old.levels.items }
        ensures places { let v = visited_node self.old.path.items (last - 1) in self.new.places.items ≡
            slice_set self.old.places.items v (slice_index self.old.places.items v + 1) }
    {
        self.path.truncate(last);
        let from = self.path[last - 1].node;
        let more = incidence.row(from).len();
        let place = self.places[from as usize];
        prove!(place < more);
        self.places[from as usize] = place + 1;
    }

    /// Takes the next arc at the last node of the path: follows it if it has residual capacity and
    /// leads to the next level, and skips it otherwise. If no arc is left, goes one step back;
    /// returns false if there is no step to go back.
    fn go_on(
        &mut self,
        net: &Net,
        incidence: &Incidence,
        amounts: &SignedList,
    ) -> Result<bool, Memory>
        requires bounded { IsBounded net.now }
        requires fits { FitsCapacities net.now.arcs amounts.now }
        requires incidence { IsIncidence net.now incidence.now }
        requires laid { IsLaid net.now incidence.now amounts.now self.old.levels.items
            self.old.places.items self.old.path.items }
        ensures laid { OnOk result
            (IsLaid net.now incidence.now amounts.now self.new.levels.items self.new.places.items
            self.new.path.items) }
        ensures first { OnOk result
            (first_node self.new.path.items ≡ first_node self.old.path.items) }
        ensures less { IfOk result (λ more. IsTrue more
            → work_left net.now.nodes incidence.now self.new.places.items self.new.path.items
            < work_left net.now.nodes incidence.now self.old.places.items self.old.path.items) }
    {
        let last = self.path.len() - 1;
        let from = self.path[last];
        let row = incidence.row(from.node);
        let place = self.places[from.node as usize];
        if place >= row.len() {
            if last == 0 {
                return Ok(false);
            }
            self.go_back(incidence, last);
            return Ok(true);
        }
        let i = row[place];
        let node = net.end_over(from.node, i);
        if usize::from(self.levels[node as usize]) == last + 1 {
            let room = net.room_over(amounts, from.node, i);
            if room > 0 {
                self.path.push(Visit {
                    node,
                    parent: last,
                    arc: i,
                    room: room.min(from.room),
                })?;
                return Ok(true);
            }
        }
        self.places[from.node as usize] = place + 1;
        Ok(true)
    }

    /// Lets the flow grow along paths from level to level until there is none left, or until it is
    /// above the bound. After `Memory` the flow is meaningless.
    pub fn fill(
        &mut self,
        net: &Net,
        incidence: &Incidence,
        flow: &mut Flow,
        sink: u32,
        above: u64,
    ) -> Result<(), Memory>
        requires bounded { IsBounded net.now }
        requires incidence { IsIncidence net.now incidence.now }
        requires laid { IsLaid net.now incidence.now flow.old.on self.old.levels.items
            self.old.places.items self.old.path.items }
        requires flow { IsFlow net.now (first_node self.old.path.items) sink flow.old.on
            flow.old.value }
        requires differ { first_node self.old.path.items ≢ sink }
        ensures flow { OnOk result
            (IsFlow net.now (first_node self.old.path.items) sink flow.new.on flow.new.value) }
        ensures more { OnOk result (flow.old.value ≤ flow.new.value) }
    {
        'filling: while flow.value <= above {
            if !self.go_on(net, incidence, &flow.on)? {
                return Ok(());
            }
            if self.path[self.path.len() - 1].node == sink {
                flow.augment(net, &self.path);
                self.path.truncate(1);
            }
        }
        Ok(())
    }
}

/// Lets the flow grow along the path of a search to its last visit, and then along the other paths
/// of its levels until there is none left, or until it is above the bound. After `Memory` the flow
/// is meaningless.
pub fn grow(
    alloc: Global,
    net: &Net,
    incidence: &Incidence,
    flow: &mut Flow,
    visits: &[Visit],
    above: u64,
) -> Result<(), Memory>
    requires bounded { IsBounded net.now }
    requires incidence { IsIncidence net.now incidence.now }
    requires tree { IsTree net.now flow.old.on visits.now }
    requires differ { first_node visits.now ≢ last_node visits.now }
    requires flow { IsFlow net.now (first_node visits.now) (last_node visits.now) flow.old.on
        flow.old.value }
    ensures flow { OnOk result
        (IsFlow net.now (first_node visits.now) (last_node visits.now) flow.new.on flow.new.value) }
    ensures more { OnOk result (flow.old.value < flow.new.value) }
{
    let sink = visits[visits.len() - 1].node;
    let mut layers = Layers::new(alloc, net, visits)?;
    flow.augment(net, visits);
    layers.fill(net, incidence, flow, sink, above)
}
