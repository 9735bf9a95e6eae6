//! A covered graph with the pairs of vertices that say whether it is bicritical, and if so, whether
//! two vertices separate it.
ghost use Rattle.std.specs.Prelude.{◌≡◌, ◌↔◌, IfSome, IsTrue};
ghost use Rattle.std.specs.Option.{option_map};
ghost use Rattle.graph_core.specs.Common.{IsCovered, IsBipartite, IsBicritical, classes, cut_pair, equivalent_pair, IsWithinLimits, pair_of};

use crate::critical::{equivalent_pair, first_cut_pair};
use barrier_kit::graph_facts::Covered;
use graph_core::{Ends, SetList};
use std::marker::Model;

/// A covered graph with the first pair of vertices that shows that it is not bicritical, with its
/// first cut pair if it is bicritical, and with its classes if they are lent. Contracts see the
/// graph.
#[derive(Drop)]
pub struct FirstPairs<'c, 'g> {
    covered: &'c Covered<'g>,
    lent: Option<&'c SetList>,
    equivalent: Option<Ends>,
    cut: Option<Ends>,
}

impl<'c, 'g> Model for FirstPairs<'c, 'g> {
    ghost use Rattle.std.specs.Prelude.{◌≡◌, IfSome};
    ghost use Rattle.std.specs.Option.{option_map};
    ghost use Rattle.graph_core.specs.Common.{Graph, IsBicritical, classes, cut_pair, equivalent_pair, pair_of};

    ghost Value = { Graph };

    ghost view = { λ p. p.covered.now };

    ghost invariant = { λ p. (option_map pair_of p.equivalent ≡ equivalent_pair p.covered.now) × (IsBicritical p.covered.now → option_map pair_of p.cut ≡ cut_pair p.covered.now) × IfSome p.lent (λ list. list.now ≡ classes p.covered.now) };
}

impl<'c, 'g> FirstPairs<'c, 'g> {
    /// The pairs of a covered graph. A cut pair is searched for only if the graph is bicritical.
    /// Takes no memory, O(n) steps on words, and what `first_cut_pair` costs if the graph is
    /// bicritical, O(n^3).
    pub fn of(covered: &'c Covered<'g>) -> FirstPairs<'c, 'g>
        ensures { result ≡ covered.now }
    {
        let equivalent = equivalent_pair(covered);
        let cut = cut_where_bicritical(covered, equivalent);
        FirstPairs {
            covered,
            lent: None,
            equivalent,
            cut,
        }
    }

    /// The pairs of a covered graph whose classes are known, with these.
    pub fn with_classes(covered: &'c Covered<'g>, lent: &'c SetList) -> FirstPairs<'c, 'g>
        requires { lent.now ≡ classes covered.now }
        ensures { result ≡ covered.now }
    {
        FirstPairs {
            lent: Some(lent),
            ..FirstPairs::of(covered)
        }
    }

    /// The classes, if they are lent.
    pub fn classes(&self) -> Option<&'c SetList>
        ensures { IfSome result (λ list. list.now ≡ classes self.now) }
    {
        self.lent
    }

    /// The covered graph.
    pub fn covered(&self) -> &'c Covered<'g>
        ensures { result.now ≡ self.now }
    {
        self.covered
    }

    /// The law that the graph is covered. It does nothing: a caller states it where it needs it.
    pub fn keeps_covered(&self)
        ensures covered { IsCovered self.now }
        ensures limits { IsWithinLimits self.now }
    {
        self.covered.keeps_covered();
    }

    /// The number of vertices.
    pub fn order(&self) -> u32
        ensures is { result ≡ self.now.order }
    {
        self.covered.order()
    }

    /// Whether some vertex set has all edges in its cut.
    pub fn is_bipartite(&self) -> bool
        ensures { IsTrue result ↔ IsBipartite self.now }
    {
        self.covered.is_bipartite()
    }

    /// The first pair u < v such that G - u - v has no perfect matching; none if and only if the
    /// graph is bicritical.
    pub fn equivalent(&self) -> Option<Ends>
        ensures { option_map pair_of result ≡ equivalent_pair self.now }
    {
        self.equivalent
    }

    /// Whether the graph is bicritical.
    pub fn is_bicritical(&self) -> bool
        ensures { IsTrue result ↔ IsBicritical self.now }
    {
        match self.equivalent {
            Some(_) => false,
            None => true,
        }
    }

    /// The first cut pair of a bicritical graph.
    pub fn cut(&self) -> Option<Ends>
        requires { IsBicritical self.now }
        ensures { option_map pair_of result ≡ cut_pair self.now }
    {
        self.cut
    }

    /// The first cut pair, whether the graph is bicritical or not. It is searched for only if it is
    /// not known; then it costs what `first_cut_pair` costs.
    pub fn any_cut(&self) -> Option<Ends>
        ensures { option_map pair_of result ≡ cut_pair self.now }
    {
        if self.is_bicritical() {
            return self.cut();
        }
        first_cut_pair(self.covered.graph())
    }
}

// The first cut pair of a graph that has no pair of equivalent vertices.
fn cut_where_bicritical(c: &Covered, equivalent: Option<Ends>) -> Option<Ends>
    requires { option_map pair_of equivalent ≡ equivalent_pair c.now }
    ensures { IsBicritical c.now → option_map pair_of result ≡ cut_pair c.now }
{
    match equivalent {
        Some(_) => None,
        None => first_cut_pair(c.graph()),
    }
}
