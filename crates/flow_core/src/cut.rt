//! The least minimum cut up to a bound, or a flow above it.
ghost use Rattle.std.specs.Prelude.{◌≡◌, ◌≢◌, ◌≤◌, ◌<◌, ◌↔◌, IfOk, OnOk, Some, None};
ghost use Rattle.vset_core.specs.from_counting.Common.{Within};
ghost use Rattle.flow_core.specs.Common.{HasCutWithin, IsBounded, IsLeastCut, IsFlow, IsIncidence, IsCut, IfCut, IfExceeds};

use crate::flow::Flow;
use crate::incidence::Incidence;
use crate::layers::grow;
use crate::net::Net;
use crate::search::{SearchOutcome, search};
use std::alloc::{AllocError as Memory, Global};
use vset_core::VSet;

/// The result of `min_cut`: a cut within the bound, or a flow above it.
#[derive(Drop)]
pub enum CutAnswer {
    /// The least minimum cut: its nodes, with the source but not the sink, and its value.
    Cut { set: VSet, value: u64 },
    /// A flow whose value is above the bound. No set of nodes with the source but not the sink has
    /// a smaller value.
    Exceeds { flow: Flow },
}

/// The least minimum cut between source and sink, up to a bound. Below, a set means a set of nodes
/// that contains the source but not the sink.
///
/// The result is `Cut` if and only if some set has a value of at most `above`. Its value is then
/// the minimum, and its set lies inside each other set of that value. Otherwise the result is
/// `Exceeds` with a flow of a value above `above`, which shows that each set has a value above
/// `above` (Ford and Fulkerson).
///
/// In each round the flow grows along all shortest paths with residual capacity (Dinic), so there
/// are fewer rounds than nodes, whatever the capacities are; it stops as soon as the flow exceeds
/// the bound. Takes O(k^2 a) time at most for k nodes and a arcs; the only error is `Memory`.
pub fn min_cut(
    alloc: Global,
    net: &Net,
    source: u32,
    sink: u32,
    above: u64,
) -> Result<CutAnswer, Memory>
    requires source { Within net.now.nodes source }
    requires sink { Within net.now.nodes sink }
    requires differ { source ≢ sink }
    ensures exactly { IfOk result
        (λ answer. IsCut answer ↔ HasCutWithin net.now source sink above) }
    ensures cut { IfOk result
        (λ answer. IfCut answer (λ set value. IsLeastCut net.now source sink set value ×
        (value ≤ above))) }
    ensures exceeds { IfOk result
        (λ answer. IfExceeds answer
        (λ flow. IsFlow net.now source sink flow.on flow.value × (above < flow.value))) }
{
    let incidence = Incidence::new(alloc, net)?;
    let mut flow = Flow::zero(alloc, net)?;
    match grow_above(alloc, net, &incidence, &mut flow, source, sink, above)? {
        Some(set) => Ok(CutAnswer::Cut {
            set,
            value: flow.value,
        }),
        None => Ok(CutAnswer::Exceeds { flow }),
    }
}

// Lets a flow grow until it is above the bound, or until no path has residual capacity: the nodes
// that a search then reaches are returned. After `Memory` the flow is meaningless.
fn grow_above(
    alloc: Global,
    net: &Net,
    incidence: &Incidence,
    flow: &mut Flow,
    source: u32,
    sink: u32,
    above: u64,
) -> Result<Option<VSet>, Memory>
    requires bounded { IsBounded net.now }
    requires incidence { IsIncidence net.now incidence.now }
    requires source { Within net.now.nodes source }
    requires differ { source ≢ sink }
    requires flow { IsFlow net.now source sink flow.old.on flow.old.value }
    ensures flow { OnOk result (IsFlow net.now source sink flow.new.on flow.new.value) }
    ensures closed { IfOk result
        (λ o. (set : _) → o ≡ Some set →
        IsLeastCut net.now source sink set flow.new.value × (flow.new.value ≤ above)) }
    ensures above { IfOk result (λ o. o ≡ None → above < flow.new.value) }
{
    'growing: while flow.value <= above {
        match search(alloc, net, incidence, &flow.on, source, sink)? {
            SearchOutcome::Path(visits) => grow(alloc, net, incidence, flow, &visits, above)?,
            SearchOutcome::Closed(set) => return Ok(Some(set)),
        }
    }
    Ok(None)
}
