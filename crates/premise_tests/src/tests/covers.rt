//! Vertex covers, and matchings without a vertex or without some edges.

use super::pair_graph::PairGraph;
use super::sets::{is_part, meets};

impl PairGraph {
    /// Whether some matching meets each vertex of a set.
    pub fn is_matched(&self, set: u32) -> bool {
        for matching in &self.matchings {
            if is_part(set, matching.met) {
                return true;
            }
        }
        false
    }

    /// Whether each edge has an end in the set.
    pub fn is_cover(&self, set: u32) -> bool {
        for edge in &self.edges {
            if !meets(edge.ends(), set) {
                return false;
            }
        }
        true
    }

    /// Whether some matching has as many edges as some vertex cover has vertices.
    pub fn has_equal_cover(&self) -> bool {
        for set in &self.sets {
            for matching in &self.matchings {
                if self.is_cover(*set) && set.count_ones() == matching.edges.count_ones() {
                    return true;
                }
            }
        }
        false
    }

    /// Whether some perfect matching has none of these edges.
    pub fn is_avoided(&self, edges: u32) -> bool {
        for matching in &self.matchings {
            if matching.met == self.all && !meets(matching.edges, edges) {
                return true;
            }
        }
        false
    }

    // How many edges a greatest matching has that meets no vertex of a set.
    fn most_without(&self, removed: u32) -> u32 {
        let mut most = 0u32;
        for matching in &self.matchings {
            if !meets(matching.met, removed) {
                most = most.max(matching.edges.count_ones());
            }
        }
        most
    }

    // The vertices outside a set that some greatest matching of the others misses.
    fn missed_without(&self, removed: u32) -> u32 {
        let most = self.most_without(removed);
        let mut missed = 0;
        for matching in &self.matchings {
            if !meets(matching.met, removed) && matching.edges.count_ones() == most {
                missed |= self.all & !removed & !matching.met;
            }
        }
        missed
    }

    /// Whether the graph without a vertex has the same set D of Gallai and Edmonds, that vertex
    /// aside.
    pub fn is_stable(&self, vertex: u32) -> bool {
        self.missed_without(vertex) == self.missed() & !vertex
    }

    /// Whether a maximum matching of the graph without a vertex has one edge less.
    pub fn is_one_less(&self, vertex: u32) -> bool {
        self.most_without(vertex).saturating_add(1) == self.most_without(0)
    }
}
