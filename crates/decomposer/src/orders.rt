//! Orders of choice: the trait, the orders that have names, and the order of a list of picks.
ghost use Rattle.std.specs.Prelude.{◌≡◌, ◌<◌, ◌≤◌, ◌%◌, List, ℕ, length, map, IsTrue, slice_index_or};
ghost use Rattle.tight_cuts.specs.Common.{Candidate, candidate_of};
ghost use Rattle.decomposer.specs.Choices.{IsMostBalanced};
ghost use Rattle.decomposer.specs.Orders.{NamedPicks, ScriptPicks, order_named, scripted_place};

use tight_cuts::Candidate;

/// A rule that picks one of a nonempty list of candidates, given how many cuts stand before the
/// node in preorder.
///
/// That the answer is a place in the list is a clause of the trait. So whoever is lent an order
/// uses its answer without a test, and asks for nothing.
pub trait Order {
    // The order may pick, of these candidates and with so many cuts before the node, the one at
    // this place.
    ghost picks: { Self → List Candidate → ℕ → ℕ → Type 0 };

    /// The place, counted from 0, of the candidate that is picked.
    fn pick(&self, list: &[Candidate], cuts: usize) -> usize
        requires { 0 < length list.now }
        ensures in_range { result < length list.now }
        ensures picks { picks self.now (map candidate_of list.now) cuts result };

    /// Whether the order may pick the first candidate with so many cuts before the node, whatever
    /// the others are. If it says so, no other candidate is looked for, and `pick` is not
    /// asked.
    fn takes_first(&self, _cuts: usize) -> bool
        ensures { IsTrue result →
            (list : _) → 0 < length list → picks self.now list _cuts 0 }
    {
        false
    }
}

impl<'a, O: Order> Order for &'a O {
    ghost picks = { λ order. O.picks order.now };

    fn pick(&self, list: &[Candidate], cuts: usize) -> usize {
        (**self).pick(list, cuts)
    }

    fn takes_first(&self, cuts: usize) -> bool {
        (**self).takes_first(cuts)
    }
}

/// The orders that have names: at each node the first candidate is picked, the last, or the first
/// of those whose sides differ least in size.
#[derive(Clone, Copy, Debug, PartialEq, Eq)]
pub enum NamedOrder {
    First,
    Last,
    Balanced,
}

impl NamedOrder {
    /// The order that the word names, if it names one: `first`, `last` or `balanced`.
    pub fn of_word(word: &str) -> Option<NamedOrder>
        ensures { result ≡ order_named word.now }
    {
        match word {
            "first" => Some(NamedOrder::First),
            "last" => Some(NamedOrder::Last),
            "balanced" => Some(NamedOrder::Balanced),
            _ => None,
        }
    }
}

impl Order for NamedOrder {
    ghost picks = { NamedPicks };

    fn pick(&self, list: &[Candidate], _cuts: usize) -> usize {
        match self {
            NamedOrder::First => 0,
            NamedOrder::Last => list.len() - 1,
            NamedOrder::Balanced => balanced_place(list),
        }
    }

    fn takes_first(&self, _cuts: usize) -> bool {
        matches!(self, NamedOrder::First)
    }
}

// The first place in a nonempty list with the least difference between inside and outside.
fn balanced_place(list: &[Candidate]) -> usize
    requires { 0 < length list.now }
    ensures { IsMostBalanced list.now result }
{
    let mut best = 0;
    for place in 1..list.len() {
        if list[place].inside.abs_diff(list[place].outside)
            < list[best].inside.abs_diff(list[best].outside)
        {
            best = place;
        }
    }
    best
}

/// The order of a list of picks: at the node with k cuts before it the number at place k, counted
/// from 0, is taken modulo the number of candidates; past the end of the list the first candidate
/// is picked.
#[derive(Clone, Copy)]
pub struct Scripted<'a> {
    pub picks: &'a [u32],
}

impl<'a> Scripted<'a> {
    // The number that the list has for the node with so many cuts before it; 0 if it has none.
    fn number(&self, cuts: usize) -> u32
        ensures { result ≡ slice_index_or self.now.picks.now cuts 0 }
    {
        self.picks.get(cuts).copied().unwrap_or(0)
    }
}

impl<'a> Order for Scripted<'a> {
    ghost picks = { λ order. ScriptPicks order.picks.now };

    fn pick(&self, list: &[Candidate], cuts: usize) -> usize {
        self.number(cuts) as usize % list.len()
    }

    fn takes_first(&self, cuts: usize) -> bool {
        self.number(cuts) == 0
    }
}
