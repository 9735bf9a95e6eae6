//! Barrier cuts and 2-separation cuts beside a given cut, or inside one of its shores.

use super::pair_graph::PairGraph;
use super::sets::{is_part, meets};

impl PairGraph {
    /// Whether the cuts of the two sets cross: none of their four corners is empty.
    pub fn cross(&self, first: u32, second: u32) -> bool {
        let beside = self.all & !first;
        let rest = self.all & !second;
        meets(first, second) && meets(first, rest) && meets(beside, second) && meets(beside, rest)
    }

    // Whether some component that the pair leaves is, with a vertex of the pair, the shore of a
    // nontrivial tight cut and a part of the set, or the whole of it.
    fn leaves_part(&self, pair: u32, set: u32, whole: bool) -> bool {
        for v in &self.vertices {
            for u in &self.vertices {
                let part = self.part_of(*v, pair);
                let shore = part | *u;
                if part != 0
                    && meets(*u, pair)
                    && is_part(shore, set)
                    && (!whole || shore == set)
                    && self.is_tight_cut(shore)
                {
                    return true;
                }
            }
        }
        false
    }

    // Whether the set is a cut pair without which the graph has a perfect matching.
    fn is_matched_cut_pair(&self, set: u32) -> bool {
        set.count_ones() == 2 && self.parts(set).0 >= 2 && self.has_perfect(set)
    }

    // Whether the set is a component that a cut pair leaves, with a vertex of the pair.
    fn is_at_cut_pair(&self, shore: u32) -> bool {
        for set in &self.sets {
            if self.is_matched_cut_pair(*set) && self.leaves_part(*set, shore, true) {
                return true;
            }
        }
        false
    }

    /// Whether the cut of the set is nontrivial and tight, and a barrier cut or a 2-separation cut.
    pub fn is_elp_cut(&self, shore: u32) -> bool {
        self.is_tight_cut(shore)
            && (self.is_barrier_cut(shore)
                || self.is_at_cut_pair(shore)
                || self.is_at_cut_pair(self.all & !shore))
    }

    /// Whether such a cut does not cross that of the set.
    pub fn has_elp_cut_beside(&self, shore: u32) -> bool {
        for set in &self.sets {
            if self.is_elp_cut(*set) && !self.cross(shore, *set) {
                return true;
            }
        }
        false
    }

    // Whether the set contains a barrier with two vertices, or a component that a cut pair leaves,
    // with a vertex of the pair.
    fn contains_reason(&self, shore: u32) -> bool {
        for set in &self.sets {
            if is_part(*set, shore) && set.count_ones() >= 2 && self.is_barrier(*set) {
                return true;
            }
            if self.is_matched_cut_pair(*set) && self.leaves_part(*set, shore, false) {
                return true;
            }
        }
        false
    }

    /// Whether the set or its complement contains one of these.
    pub fn has_reason_inside(&self, shore: u32) -> bool {
        self.contains_reason(shore) || self.contains_reason(self.all & !shore)
    }

    /// Whether each nontrivial tight cut that does not cross that of the set is equal to it.
    pub fn is_alone(&self, shore: u32) -> bool {
        for set in &self.sets {
            if *set != shore
                && *set != self.all & !shore
                && self.is_tight_cut(*set)
                && !self.cross(shore, *set)
            {
                return false;
            }
        }
        true
    }
}
