//! Cuts: their sizes, the tight and the separating ones, and the cuts of barriers and cut pairs.

use super::pair_graph::PairGraph;
use super::sets::{greatest, is_odd, is_part, meets};
use std::alloc::{AllocError as Memory, Global};

impl PairGraph {
    /// Whether both shores are odd, and each perfect matching has one edge in the cut.
    pub fn is_tight(&self, shore: u32) -> bool {
        for matching in &self.matchings {
            if matching.met == self.all && self.crossing(matching.edges, shore) != 1 {
                return false;
            }
        }
        is_odd(shore) && is_odd(self.all & !shore)
    }

    /// Whether both shores have at least three vertices.
    pub fn is_nontrivial(&self, shore: u32) -> bool {
        shore.count_ones() >= 3 && (self.all & !shore).count_ones() >= 3
    }

    pub fn is_tight_cut(&self, shore: u32) -> bool {
        self.is_nontrivial(shore) && self.is_tight(shore)
    }

    /// The shores without the greatest vertex of the nontrivial tight cuts.
    pub fn tight_shores(&self, alloc: Global) -> Result<Vec<u32>, Memory> {
        let mut shores = Vec::new(alloc);
        for set in &self.sets {
            if !meets(*set, greatest(self.all)) && self.is_tight_cut(*set) {
                shores.push(*set)?;
            }
        }
        Ok(shores)
    }

    /// Whether some nontrivial tight shore has the vertices of the first set and none of the
    /// second.
    pub fn has_tight_cut(&self, inside: u32, outside: u32) -> bool {
        for set in &self.sets {
            if is_part(inside, *set) && !meets(outside, *set) && self.is_tight_cut(*set) {
                return true;
            }
        }
        false
    }

    /// Whether the cut of each set of an odd number of vertices has at least so many edges.
    pub fn has_wide_odd_cuts(&self, least: u32) -> bool {
        for set in &self.sets {
            if is_odd(*set) && self.cut_size(*set) < least {
                return false;
            }
        }
        true
    }

    /// Whether each nontrivial cut has at least so many edges.
    pub fn has_wide_cuts(&self, least: u32) -> bool {
        for set in &self.sets {
            if self.is_nontrivial(*set) && self.cut_size(*set) < least {
                return false;
            }
        }
        true
    }

    /// Whether some nontrivial cut of an odd set has exactly so many edges.
    pub fn has_odd_cut_of(&self, size: u32) -> bool {
        for set in &self.sets {
            if self.is_nontrivial(*set) && is_odd(*set) && self.cut_size(*set) == size {
                return true;
            }
        }
        false
    }

    /// Whether each cut has at least so many edges, that of the whole aside.
    pub fn is_edge_connected(&self, least: u32) -> bool {
        for set in &self.sets {
            if *set != 0 && *set != self.all && self.cut_size(*set) < least {
                return false;
            }
        }
        true
    }

    pub fn is_regular(&self, degree: u32) -> bool {
        for v in &self.vertices {
            if self.degree(self.all_edges(), *v) != degree {
                return false;
            }
        }
        true
    }

    /// Whether each graph that deleting so many vertices leaves is connected.
    pub fn is_connected_without(&self, many: u32) -> bool {
        for set in &self.sets {
            if set.count_ones() == many && self.parts(*set).0 > 1 {
                return false;
            }
        }
        true
    }

    pub fn is_three_connected(&self) -> bool {
        self.order() >= 4
            && self.is_connected()
            && self.is_connected_without(1)
            && self.is_connected_without(2)
    }

    // Whether the shore or its complement is a component that the set leaves.
    fn is_left_by(&self, shore: u32, set: u32) -> bool {
        for v in &self.vertices {
            let part = self.part_of(*v, set);
            if part != 0 && (part == shore || part == self.all & !shore) {
                return true;
            }
        }
        false
    }

    /// Whether the shore or its complement is a component that some barrier leaves.
    pub fn is_barrier_cut(&self, shore: u32) -> bool {
        for set in &self.sets {
            if self.is_barrier(*set) && self.is_left_by(shore, *set) {
                return true;
            }
        }
        false
    }

    /// Whether some barrier cut is nontrivial and tight.
    pub fn has_barrier_cut(&self) -> bool {
        for set in &self.sets {
            if self.is_tight_cut(*set) && self.is_barrier_cut(*set) {
                return true;
            }
        }
        false
    }

    // Whether a component that the set leaves is, with some vertex of the set, the shore of a
    // nontrivial tight cut.
    fn leaves_tight_cut(&self, set: u32) -> bool {
        for v in &self.vertices {
            for u in &self.vertices {
                let part = self.part_of(*v, set);
                if part != 0 && meets(*u, set) && self.is_tight_cut(part | *u) {
                    return true;
                }
            }
        }
        false
    }

    pub fn has_separation_cut(&self) -> bool {
        for set in &self.sets {
            let is_cut_pair = set.count_ones() == 2 && self.parts(*set).0 >= 2;
            if is_cut_pair && self.has_perfect(*set) && self.leaves_tight_cut(*set) {
                return true;
            }
        }
        false
    }

    /// Whether both contractions are matching covered.
    pub fn is_separating(&self, alloc: Global, shore: u32) -> Result<bool, Memory> {
        let merged = self.contracted(alloc, shore)?;
        let kept = self.contracted(alloc, self.all & !shore)?;
        Ok(merged.is_covered() && kept.is_covered())
    }

    /// Whether each edge is in a perfect matching with exactly one edge in the cut.
    pub fn is_met_once(&self, shore: u32) -> bool {
        let mut met = 0;
        for matching in &self.matchings {
            if matching.met == self.all && self.crossing(matching.edges, shore) == 1 {
                met |= matching.edges;
            }
        }
        for edge in &self.edges {
            if !edge.is_loop() && !meets(edge.bit, met) {
                return false;
            }
        }
        true
    }
}
