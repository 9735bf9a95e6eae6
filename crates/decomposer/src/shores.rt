//! What an order picks at a node: the shore of a candidate, or none and then a leaf stands there.
//! Where the order takes the first candidate, no other is looked for.
ghost use Rattle.std.specs.Prelude.{◌≡◌, ℕ, List, IfOk, OnOk};
ghost use Rattle.graph_core.specs.Common.{Graph};
ghost use Rattle.tight_cuts.specs.Common.{AreClustersAt};
ghost use Rattle.decomposer.specs.Common.{AreCandidatesAt, IsFirstAt, IsPickedShore, MayBeAsked, NamedPicks};

use crate::orders::NamedOrder;
use crate::pickers::Picker;
use graph_core::vset_core::VSet;
use std::alloc::{AllocError, Global};
use tight_cuts::{Candidate, CandidateList, Clusters, candidates_from_clusters, first_at_place};
use tree_core::KnownPlace;

/// The shore of the candidate that the order picks at a place with so many cuts before it; none if
/// and only if there is no candidate. The clusters are those that are known at the place.
pub(crate) fn picked_at<P: Picker>(
    alloc: Global,
    place: &KnownPlace,
    order: &P,
    before: usize,
    clusters: &mut Clusters,
) -> Result<Option<VSet>, AllocError>
    requires clusters { AreClustersAt place.now.graph place.now.blocks clusters.old }
    requires asked { MayBeAsked (P.can_pick order.now) place.now.graph.order }
    ensures clusters { OnOk result
        (AreClustersAt place.now.graph place.now.blocks clusters.new) }
    ensures picked { IfOk result
        (IsPickedShore (P.picks order.now) place.now.graph place.now.blocks before) }
{
    if order.takes_first(before) {
        let first = first_at_place(alloc, place)?;
        Ok(shore_of(first))
    } else {
        let list = candidates_from_clusters(alloc, place, clusters)?;
        Ok(listed_shore(order, place, &list, before))
    }
}

// The shore of the first candidate at a partition.
fn shore_of(first: Option<Candidate>) -> Option<VSet>
    ensures { (g : Graph) (p : List (List ℕ)) (k : ℕ) → IsFirstAt g p first →
        IsPickedShore (NamedPicks NamedOrder.First) g p k result }
{
    match first {
        Some(candidate) => Some(candidate.shore),
        None => None,
    }
}

/// The shore of the candidate that the order picks of all candidates at a place.
pub(crate) fn listed_shore<P: Picker>(
    order: &P,
    place: &KnownPlace,
    list: &CandidateList,
    before: usize,
) -> Option<VSet>
    requires candidates { AreCandidatesAt place.now.graph place.now.blocks list.now }
    requires asked { MayBeAsked (P.can_pick order.now) place.now.graph.order }
    ensures { IsPickedShore (P.picks order.now) place.now.graph place.now.blocks before result }
{
    if list.is_empty() {
        return None;
    }
    place.keeps_place();
    let place = order.pick(list.as_slice(), before);
    let picked = list.get(place);
    Some(picked.shore)
}
