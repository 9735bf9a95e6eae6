//! What the search asks at a node: an order, or a function that may be called there.
ghost use Rattle.std.specs.Prelude.{◌≡◌, ◌<◌, List, ℕ, length, map, IsTrue};
ghost use Rattle.tight_cuts.specs.Common.{Candidate, candidate_of};
ghost use Rattle.tight_cuts.specs.declared.candidate.Candidate.{Candidate as StoredCandidate};
ghost use Rattle.decomposer.specs.Choices.{PicksReturned, ReturnsPlace};

use crate::orders::Order;
use graph_core::MultiGraph;
use tight_cuts::Candidate;

/// A rule that picks one of the candidates at a node, where it may be asked.
///
/// An `Order` may be asked with each nonempty list. A function may be asked where its caller knows
/// that it can be called and returns a place. The search is written once, for both.
pub(crate) trait Picker {
    // The rule may be asked with these candidates and with so many cuts before the node.
    ghost can_pick: { Self → List StoredCandidate → ℕ → Type 0 };

    // The rule may pick, of these candidates and with so many cuts before the node, the one at this
    // place.
    ghost picks: { Self → List Candidate → ℕ → ℕ → Type 0 };

    /// The place, counted from 0, of the candidate that is picked.
    fn pick(&self, list: &[Candidate], cuts: usize) -> usize
        requires { can_pick self.now list.now cuts }
        ensures in_range { result < length list.now }
        ensures picks { picks self.now (map candidate_of list.now) cuts result };

    /// Whether the rule may pick the first candidate, as `Order::takes_first` says it.
    fn takes_first(&self, _cuts: usize) -> bool
        ensures { IsTrue result →
            (list : _) → 0 < length list → picks self.now list _cuts 0 }
    {
        false
    }
}

impl<'o, O: Order> Picker for &'o O {
    ghost can_pick = { λ order list cuts. 0 < length list };

    ghost picks = { λ order. O.picks order.now };

    fn pick(&self, list: &[Candidate], cuts: usize) -> usize {
        (**self).pick(list, cuts)
    }

    fn takes_first(&self, cuts: usize) -> bool {
        (**self).takes_first(cuts)
    }
}

/// A function that is asked about the candidates of a graph.
#[derive(Drop)]
pub(crate) struct Asked<'f, F> {
    /// The graph.
    pub graph: &'f MultiGraph,
    /// The function.
    pub function: &'f F,
}

impl<'f, F: Fn(&[Candidate], usize) -> usize> Picker for Asked<'f, F> {
    ghost can_pick = { λ asked. ReturnsPlace (F.pre asked.function.now)
        (F.post asked.function.now) asked.graph.now.order };

    ghost picks = { λ asked. PicksReturned asked.graph.now.order (F.post asked.function.now) };

    fn pick(&self, list: &[Candidate], cuts: usize) -> usize {
        (self.function)(list, cuts)
    }
}
