//! Matchings, components and barriers, by going through all sets.

use super::pair_graph::PairGraph;
use super::sets::{is_odd, is_part, least, meets};
use std::alloc::{AllocError as Memory, Global};

impl PairGraph {
    /// Whether the graph without a set of vertices has a perfect matching.
    pub fn has_perfect(&self, removed: u32) -> bool {
        for matching in &self.matchings {
            if matching.met == self.all & !removed {
                return true;
            }
        }
        false
    }

    /// Whether some perfect matching contains these edges.
    pub fn together(&self, edges: u32) -> bool {
        for matching in &self.matchings {
            if matching.met == self.all && is_part(edges, matching.edges) {
                return true;
            }
        }
        false
    }

    /// Whether each perfect matching has at least so many of these edges.
    pub fn all_have(&self, edges: u32, least: u32) -> bool {
        for matching in &self.matchings {
            if matching.met == self.all && (matching.edges & edges).count_ones() < least {
                return false;
            }
        }
        true
    }

    pub fn is_matching(&self, edges: u32) -> bool {
        for matching in &self.matchings {
            if matching.edges == edges {
                return true;
            }
        }
        false
    }

    // How many vertices the edges of a greatest matching meet.
    fn most_met(&self) -> u32 {
        let mut most = 0u32;
        for matching in &self.matchings {
            most = most.max(matching.met.count_ones());
        }
        most
    }

    pub fn is_maximum(&self, edges: u32) -> bool {
        self.is_matching(edges) && self.met_by(edges).count_ones() == self.most_met()
    }

    /// The vertices that some maximum matching misses: the set D of Gallai and Edmonds.
    pub fn missed(&self) -> u32 {
        let most = self.most_met();
        let mut missed = 0;
        for matching in &self.matchings {
            if matching.met.count_ones() == most {
                missed |= self.all & !matching.met;
            }
        }
        missed
    }

    /// The component of a vertex after a set of vertices is deleted.
    pub fn part_of(&self, vertex: u32, removed: u32) -> u32 {
        self.reached(vertex, self.all_edges(), self.all & !removed)
    }

    /// How many components there are after a set of vertices is deleted, and how many are odd.
    pub fn parts(&self, removed: u32) -> (u32, u32) {
        let mut all = 0u32;
        let mut odd = 0u32;
        for v in &self.vertices {
            let part = self.part_of(*v, removed);
            if meets(part, *v) && least(part) == *v {
                all |= *v;
                if is_odd(part) {
                    odd |= *v;
                }
            }
        }
        (all.count_ones(), odd.count_ones())
    }

    pub fn is_connected(&self) -> bool {
        self.parts(0).0 <= 1
    }

    /// Whether the matching misses as many vertices as some set leaves odd components, less the
    /// size of that set.
    pub fn attains_some(&self, edges: u32) -> bool {
        let missed = (self.all & !self.met_by(edges)).count_ones();
        for set in &self.sets {
            if missed + set.count_ones() == self.parts(*set).1 {
                return true;
            }
        }
        false
    }

    pub fn is_barrier(&self, set: u32) -> bool {
        self.parts(set).1 == set.count_ones()
    }

    /// Whether the set is a barrier, and no barrier contains it and a further vertex.
    pub fn is_maximal_barrier(&self, set: u32) -> bool {
        for other in &self.sets {
            if *other != set && is_part(set, *other) && self.is_barrier(*other) {
                return false;
            }
        }
        self.is_barrier(set)
    }

    pub fn are_equivalent(&self, u: u32, v: u32) -> bool {
        u == v || !self.has_perfect(u | v)
    }

    /// The vertices that are equivalent to a vertex.
    pub fn class_of(&self, vertex: u32) -> u32 {
        let mut class = 0;
        for v in &self.vertices {
            if self.are_equivalent(vertex, *v) {
                class |= *v;
            }
        }
        class
    }

    /// Whether the graph that a set of vertices induces has a perfect matching without any one of
    /// them.
    pub fn is_factor_critical(&self, set: u32) -> bool {
        for v in &self.vertices {
            if meets(*v, set) && !self.has_perfect(self.all & !set | *v) {
                return false;
            }
        }
        true
    }

    pub fn is_bicritical(&self) -> bool {
        for set in &self.sets {
            if set.count_ones() == 2 && !self.has_perfect(*set) {
                return false;
            }
        }
        true
    }

    /// Whether each edge is in a perfect matching; or each edge that is not a loop.
    pub fn are_allowed(&self, loops: bool) -> bool {
        for edge in &self.edges {
            if (loops || !edge.is_loop()) && !self.together(edge.bit) {
                return false;
            }
        }
        true
    }

    /// Whether the graph is matching covered. Nothing is asked of its loops.
    pub fn is_covered(&self) -> bool {
        self.order() >= 2 && self.is_connected() && self.are_allowed(false)
    }

    /// Whether the graph is elementary: it has two vertices or more, and the edges of its perfect
    /// matchings connect them all.
    pub fn is_elementary(&self) -> bool {
        let reached = self.reached(least(self.all), self.allowed(), self.all);
        self.order() >= 2 && is_part(self.all, reached)
    }

    // The edges of its perfect matchings.
    fn allowed(&self) -> u32 {
        let mut allowed = 0;
        for matching in &self.matchings {
            if matching.met == self.all {
                allowed |= matching.edges;
            }
        }
        allowed
    }

    /// Whether the set has all vertices of an elementary component and no other.
    pub fn is_elementary_component(&self, set: u32) -> bool {
        set != 0 && self.reached(least(set), self.allowed(), self.all) == set
    }

    /// Whether the set, with the allowed edges inside it, is a matching covered graph.
    pub fn is_covered_inside(&self, alloc: Global, set: u32) -> Result<bool, Memory> {
        let inside = self.inside(alloc, set, self.allowed())?;
        Ok(inside.is_covered())
    }

    pub fn is_two_extendable(&self) -> bool {
        for first in &self.edges {
            for second in &self.edges {
                if !meets(first.ends(), second.ends()) && !self.together(first.bit | second.bit) {
                    return false;
                }
            }
        }
        true
    }

    /// How many components of G[D] have an edge to a set.
    pub fn parts_beside(&self, set: u32) -> u32 {
        let d = self.missed();
        let mut firsts = 0u32;
        for v in &self.vertices {
            let part = self.part_of(*v, self.all & !d);
            if meets(self.neighbours(part), set) && least(part) == *v {
                firsts |= *v;
            }
        }
        firsts.count_ones()
    }

    /// The vertices outside D with a neighbour in D.
    pub fn beside_missed(&self) -> u32 {
        let d = self.missed();
        self.neighbours(d) & !d
    }
}
