//! Whether a claim holds of a graph.

use super::claims::{Claim, OfEdges, OfNumber, OfSet, OfWeight, Property};
use super::decompositions::{Tally, count_both, count_leaves, is_maximal_laminar};
use super::pair_graph::PairGraph;
use super::potentials::Sums;
use super::sets::{greatest, is_odd, is_part, meets, one, set_of};
use std::alloc::{AllocError as Memory, Global};

impl Claim {
    /// Whether it holds of the graph, or else, with all that it says, fails.
    pub fn is_so(&self, alloc: Global, g: &PairGraph, holds: bool) -> Result<bool, Memory> {
        match self {
            Claim::Is(properties) => {
                for property in *properties {
                    if property.holds(alloc, g)? != holds {
                        return Ok(false);
                    }
                }
                Ok(true)
            }
            Claim::Set(properties, set) => are_so(alloc, g, properties, set, holds),
            Claim::Sets(properties, sets) => {
                for set in *sets {
                    if !are_so(alloc, g, properties, set, holds)? {
                        return Ok(false);
                    }
                }
                Ok(true)
            }
            Claim::Weight(properties, edges) => {
                for property in *properties {
                    if property.holds(alloc, g, set_of(edges))? != holds {
                        return Ok(false);
                    }
                }
                Ok(true)
            }
            other => Ok(other.holds(alloc, g)? == holds),
        }
    }

    // The claims that say one thing.
    fn holds(&self, alloc: Global, g: &PairGraph) -> Result<bool, Memory> {
        match self {
            Claim::Number(property, number) => Ok(property.holds(g, *number)),
            Claim::Edges(property, edges) => Ok(property.holds(g, set_of(edges))),
            Claim::Ends(bricks, braces) => Ok(counted(alloc, g)? == Some((*bricks, *braces))),
            Claim::Laminar(shores) => is_laminar(alloc, g, shores),
            Claim::Place(place) => Ok(*place < g.tight_shores(alloc)?.len()),
            Claim::Lead(steps, edges) => g.leads_to_all(alloc, set_of(edges), steps),
            other => Ok(other.is_seen(g)),
        }
    }

    // The claims that need no memory.
    fn is_seen(&self, g: &PairGraph) -> bool {
        match self {
            Claim::Equivalent(u, v) => g.are_equivalent(one(*u), one(*v)),
            Claim::Class(v, class) => g.class_of(one(*v)) == set_of(class),
            Claim::Parts(set, many) => g.parts(set_of(set)).0 == *many,
            Claim::CutSize(set, many) => g.cut_size(set_of(set)) == *many,
            Claim::Joined(first, second) => meets(g.neighbours(set_of(first)), set_of(second)),
            Claim::Strong(side, matching, removed) => {
                g.is_strong_without(set_of(removed), set_of(side), set_of(matching))
            }
            Claim::StrongEach(side, matching) => g.is_strong(set_of(side), set_of(matching)),
            Claim::Reached(side, matching) => g.reaches_all(set_of(side), set_of(matching)),
            Claim::Parted(a, b) => g.has_tight_cut(one(*a), one(*b)),
            Claim::OneOrTwo(pairs) => serve_two(g, pairs),
            Claim::Few(set, most) => set_of(set).count_ones() < *most,
            Claim::Avoided(edges) => g.is_avoided(set_of(edges)),
            Claim::Overused(edges, least, r) => {
                let many = set_of(edges).count_ones();
                many < least.saturating_mul(*r) && g.all_have(set_of(edges), *least)
            }
            Claim::Stable(v) => g.is_stable(one(*v)),
            Claim::OneLess(v) => g.is_one_less(one(*v)),
            other => other.is_seen_of_ears(g),
        }
    }

    // The claims on ears.
    fn is_seen_of_ears(&self, g: &PairGraph) -> bool {
        match self {
            Claim::Ear(stage, ear) => g.is_ear(set_of(stage), set_of(ear)),
            Claim::TwoEars(stage, first, second) => {
                g.are_ears(set_of(stage), set_of(first), set_of(second))
            }
            Claim::Needed(stage, first, second) => {
                let stage = set_of(stage);
                !g.is_stage(stage | set_of(first)) && !g.is_stage(stage | set_of(second))
            }
            Claim::Apart(first, second) => {
                !meets(g.met_by(set_of(first)), g.met_by(set_of(second)))
            }
            Claim::EarCount(ears) => {
                ears.saturating_add(g.order()) == g.all_edges().count_ones() + 1
            }
            _ => false,
        }
    }
}

impl Property {
    fn holds(&self, alloc: Global, g: &PairGraph) -> Result<bool, Memory> {
        match self {
            Property::Decomposed => Ok(counted(alloc, g)?.is_some()),
            Property::FewLeaves => match counted(alloc, g)? {
                Some((bricks, braces)) => Ok(bricks.saturating_add(braces) < g.order() / 2),
                None => Ok(false),
            },
            other => Ok(other.is_seen(g)),
        }
    }

    // The properties that need no memory.
    fn is_seen(&self, g: &PairGraph) -> bool {
        match self {
            Property::Covered => g.is_covered(),
            Property::Elementary => g.is_elementary(),
            Property::Connected => g.is_connected(),
            Property::Bipartite => !g.has_loop() && g.has_side(),
            Property::Nonbipartite => g.has_loop() || !g.has_side(),
            Property::Loopless => !g.has_loop(),
            Property::Allowed => g.are_allowed(true),
            Property::Composite => g.has_tight_cut(0, 0),
            Property::Uncut => !g.has_tight_cut(0, 0),
            Property::Bicritical => g.is_bicritical(),
            Property::Unseparated => g.is_connected_without(2),
            Property::ThreeConnected => g.is_three_connected(),
            Property::BarrierCut => g.has_barrier_cut(),
            Property::SeparationCut => g.has_separation_cut(),
            Property::TwoExtendable => g.is_two_extendable(),
            Property::TwoEdgeConnected => g.is_edge_connected(2),
            Property::Missed => g.missed() == g.all,
            Property::Met => g.met_by(g.all_edges()) == g.all,
            Property::Even => !is_odd(g.all),
            Property::EqualCover => g.has_equal_cover(),
            Property::Decomposed | Property::FewLeaves => false,
        }
    }
}

impl OfNumber {
    fn holds(&self, g: &PairGraph, number: u32) -> bool {
        match self {
            OfNumber::Order => g.order() >= number,
            OfNumber::Size => g.all_edges().count_ones() >= number,
            OfNumber::Regular => g.is_regular(number),
            OfNumber::WideOddCuts => g.has_wide_odd_cuts(number),
            OfNumber::WideCuts => g.has_wide_cuts(number),
            OfNumber::OddCut => g.has_odd_cut_of(number),
            OfNumber::EdgeConnected => g.is_edge_connected(number),
        }
    }
}

impl OfSet {
    fn holds(&self, alloc: Global, g: &PairGraph, set: u32) -> Result<bool, Memory> {
        match self {
            OfSet::Separating => g.is_separating(alloc, set),
            OfSet::CoveredInside => g.is_covered_inside(alloc, set),
            OfSet::Additive => Ok(counted(alloc, g)? == count_both(alloc, g, set)?),
            other => Ok(other.is_seen(g, set)),
        }
    }

    // The properties that need no memory.
    fn is_seen(&self, g: &PairGraph, set: u32) -> bool {
        match self {
            OfSet::Perfect => g.has_perfect(set),
            OfSet::Side => g.is_side(set),
            OfSet::Half => set.count_ones() == (g.all & !set).count_ones(),
            OfSet::Hall => g.has_neighbours(set, 0),
            OfSet::Matched => g.is_matched(set),
            OfSet::Cover => g.is_cover(set),
            OfSet::EvenParts => g.parts(set).1 == 0,
            OfSet::Surplus => g.has_neighbours(set, 1),
            OfSet::WideSurplus => g.has_neighbours(set, 2),
            OfSet::PairsMatched => g.are_matched(set, 1),
            OfSet::FoursMatched => g.are_matched(set, 2),
            OfSet::Odd => is_odd(set),
            OfSet::Proper => set != 0 && set != g.all,
            OfSet::Barrier => g.is_barrier(set),
            OfSet::MaximalBarrier => g.is_maximal_barrier(set),
            OfSet::Critical => g.is_factor_critical(set),
            OfSet::ElementaryComponent => g.is_elementary_component(set),
            OfSet::Tight => g.is_tight(set),
            OfSet::Nontrivial => g.is_nontrivial(set),
            OfSet::Canonical => !meets(set, greatest(g.all)),
            OfSet::LeftByBarrier => g.is_barrier_cut(set),
            OfSet::ElpCut => g.is_elp_cut(set),
            OfSet::ElpCutBeside => g.has_elp_cut_beside(set),
            OfSet::ReasonInside => g.has_reason_inside(set),
            OfSet::Alone => g.is_alone(set),
            OfSet::MetOnce => g.is_met_once(set),
            OfSet::InA => is_part(set, g.beside_missed()),
            OfSet::Spread => g.parts_beside(set) > set.count_ones(),
            OfSet::D => g.missed() == set,
            OfSet::Separating | OfSet::Additive | OfSet::CoveredInside => false,
        }
    }
}

impl OfEdges {
    fn holds(&self, g: &PairGraph, edges: u32) -> bool {
        match self {
            OfEdges::Matching => g.is_matching(edges),
            OfEdges::Maximum => g.is_maximum(edges),
            OfEdges::PerfectMatching => g.is_matching(edges) && g.met_by(edges) == g.all,
            OfEdges::Attains => g.attains_some(edges),
            OfEdges::Together => g.together(edges),
            OfEdges::Stage => g.is_stage(edges),
            OfEdges::Conformal => g.has_perfect(g.met_by(edges)),
        }
    }
}

impl OfWeight {
    fn holds(&self, alloc: Global, g: &PairGraph, ones: u32) -> Result<bool, Memory> {
        let sums = match self {
            OfWeight::Flat => return Ok(g.is_flat(ones)),
            OfWeight::Potential => (2, g.all_edges()),
            OfWeight::WholePotential => (1, g.all_edges()),
            OfWeight::PotentialOffCuts => (2, g.off_cuts()),
        };
        let (times, asked) = sums;
        g.has_potential(alloc, &Sums { ones, times, asked })
    }
}

// Whether each of the properties holds of the set, or each fails.
fn are_so(
    alloc: Global,
    g: &PairGraph,
    properties: &[OfSet],
    set: &[u32],
    holds: bool,
) -> Result<bool, Memory> {
    for property in properties {
        if property.holds(alloc, g, set_of(set))? != holds {
            return Ok(false);
        }
    }
    Ok(true)
}

// What a decomposition of the graph counts.
fn counted(alloc: Global, g: &PairGraph) -> Result<Option<Tally>, Memory> {
    count_leaves(alloc, g.contracted(alloc, 0)?)
}

// Whether the shores are those of a maximal laminar family of nontrivial tight cuts.
fn is_laminar(alloc: Global, g: &PairGraph, shores: &[&[u32]]) -> Result<bool, Memory> {
    let mut family = Vec::new(alloc);
    for shore in shores {
        family.push(set_of(shore))?;
    }
    Ok(is_maximal_laminar(g, family.as_slice()))
}

// Whether deleting one pair of the list, or two, leaves a graph with a perfect matching.
fn serve_two(g: &PairGraph, pairs: &[(u32, u32)]) -> bool {
    for (a, b) in pairs {
        for (c, d) in pairs {
            if g.has_perfect(one(*a) | one(*b) | one(*c) | one(*d)) {
                return true;
            }
        }
    }
    false
}
