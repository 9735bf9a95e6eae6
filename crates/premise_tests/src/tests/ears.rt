//! Stages and ears, as sets of edges.

use super::pair_graph::PairGraph;
use super::sets::{is_odd, is_part, least, meets};
use std::alloc::{AllocError as Memory, Global};

/// What is asked of the steps from a stage to the whole graph.
pub enum Steps {
    /// Each adds an ear; nothing is asked of the stages.
    Ears,
    /// Each adds an ear, and each stage is matching covered.
    Single,
    /// Each adds one ear or two, and each stage is matching covered.
    Double,
}

// The most stages that are looked at.
const MOST_STAGES: usize = 4096;

impl PairGraph {
    // Whether the graph of the edges is connected.
    fn is_connected_by(&self, edges: u32) -> bool {
        let met = self.met_by(edges);
        is_part(met, self.reached(least(met), edges, met))
    }

    // The edges in the perfect matchings of the graph of the edges.
    fn allowed_by(&self, edges: u32) -> u32 {
        let met = self.met_by(edges);
        let mut allowed = 0;
        for matching in &self.matchings {
            if matching.met == met && is_part(matching.edges, edges) {
                allowed |= matching.edges;
            }
        }
        allowed
    }

    /// Whether the graph of the edges is matching covered: it has an edge, is connected, and each
    /// edge is in a perfect matching of it.
    pub fn is_stage(&self, edges: u32) -> bool {
        edges != 0 && self.is_connected_by(edges) && is_part(edges, self.allowed_by(edges))
    }

    // Whether the edges are at each vertex as often as those of a path that meets the stage in
    // its two ends alone.
    fn has_degrees_of_ear(&self, stage: u32, edges: u32) -> bool {
        let met = self.met_by(stage);
        let ear = self.met_by(edges);
        for v in &self.vertices {
            let wanted = if meets(*v, met) { 1 } else { 2 };
            if meets(*v, ear) && self.degree(edges, *v) != wanted {
                return false;
            }
        }
        (met & ear).count_ones() == 2
    }

    /// Whether the edges are an ear of the stage: a path of odd length that meets it in its two
    /// ends alone.
    pub fn is_ear(&self, stage: u32, edges: u32) -> bool {
        !meets(stage, edges)
            && is_odd(edges)
            && self.has_degrees_of_ear(stage, edges)
            && self.is_connected_by(edges)
    }

    /// Whether both sets of edges are ears of the stage, without a common edge or inner vertex.
    pub fn are_ears(&self, stage: u32, first: u32, second: u32) -> bool {
        !meets(first, second)
            && is_part(self.met_by(first) & self.met_by(second), self.met_by(stage))
            && self.is_ear(stage, first)
            && self.is_ear(stage, second)
    }

    // Whether the edges are two ears of the stage without a common inner vertex.
    fn are_two_ears(&self, stage: u32, edges: u32) -> bool {
        for first in 0..edges {
            if is_part(first, edges) && self.are_ears(stage, first, edges & !first) {
                return true;
            }
        }
        false
    }

    // Whether the edges are what a step adds to the stage.
    fn is_step(&self, stage: u32, edges: u32, steps: &Steps) -> bool {
        match steps {
            Steps::Ears => self.is_ear(stage, edges),
            Steps::Single => self.is_stage(stage | edges) && self.is_ear(stage, edges),
            Steps::Double => {
                self.is_stage(stage | edges)
                    && (self.is_ear(stage, edges) || self.are_two_ears(stage, edges))
            }
        }
    }

    // Puts the stages on the list, if they are not there, to which a step leads from one of them.
    fn step_from(&self, before: u32, steps: &Steps, stages: &mut Vec<u32>) -> Result<(), Memory> {
        for edges in 1..=self.all_edges() {
            let next = before | edges;
            let is_new = !meets(edges, before) && !stages.contains(&next);
            if is_new && self.is_step(before, edges, steps) {
                stages.push(next)?;
            }
        }
        Ok(())
    }

    /// Whether such steps lead from the stage to all edges.
    pub fn leads_to_all(&self, alloc: Global, stage: u32, steps: &Steps) -> Result<bool, Memory> {
        let mut stages = Vec::new(alloc);
        stages.push(stage)?;
        for place in 0..MOST_STAGES {
            if let Some(before) = stages.as_slice().get(place).copied() {
                self.step_from(before, steps, &mut stages)?;
            }
        }
        Ok(stages.contains(&self.all_edges()))
    }
}
