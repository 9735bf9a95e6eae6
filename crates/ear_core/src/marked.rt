//! The marks of a stage, with the vertices that it meets.
ghost use Rattle.std.specs.Prelude.{◌≡◌, ◌+◌, ◌||◌, ◌==◌, ℕ, length, true, All, IfNone, IfOk, IfSome};
ghost use Rattle.graph_core.specs.from_counting.Common.{IsLeastWithout, Within, mem, singleton};
ghost use Rattle.graph_core.specs.Common.{size};
ghost use Rattle.two_ears.specs.from_match_search.Common.{marks};
ghost use Rattle.ear_core.specs.Common.{FitsStep, IsMarked, next_stage, step_of};

use crate::ears::Step;
use graph_core::MultiGraph;
use graph_core::vset_core::VSet;
use std::alloc::{AllocError as Memory, Global};

/// The marks of the edges of a stage, and the vertices that these edges meet.
#[derive(Drop)]
pub struct Marked {
    pub mark: Vec<bool>,
    pub met: VSet,
}

impl Marked {
    /// The stage of the edge `e` alone.
    pub fn one(alloc: Global, g: &MultiGraph, e: u32) -> Result<Marked, Memory>
        requires { Within (size g.now) e }
        ensures marked { IfOk result (IsMarked g.now) }
        ensures each { IfOk result
            (λ stage. (i : ℕ) → marks stage.mark.items i ≡ singleton e i) }
    {
        let mark = vec![in alloc; false; g.size() as usize + 1]?;
        let met = VSet::empty();
        let mut stage = Marked { mark, met };
        stage.add_edge(g, e);
        Ok(stage)
    }

    /// Adds the edges of a step.
    pub fn add(&mut self, g: &MultiGraph, step: &Step)
        requires marked { IsMarked g.now self.old }
        requires fits { FitsStep g.now.order (size g.now) (step_of step.now) }
        ensures marked { IsMarked g.now self.new }
        ensures each { (i : ℕ) → marks self.new.mark.items i ≡
            next_stage (marks self.old.mark.items) (step_of step.now) i }
    {
        self.add_edges(g, step.first.edges.as_slice());
        if let Some(second) = &step.second {
            self.add_edges(g, second.edges.as_slice());
        }
    }

    // Adds edges.
    fn add_edges(&mut self, g: &MultiGraph, edges: &[u32])
        requires marked { IsMarked g.now self.old }
        requires edges { All (Within (size g.now)) edges.now }
        ensures marked { IsMarked g.now self.new }
        ensures each { (i : ℕ) → marks self.new.mark.items i ≡
            (marks self.old.mark.items i || mem edges.now i) }
    {
        let mut rest = edges;
        'edges: while let Some((e, others)) = rest.split_first() {
            self.add_edge(g, *e);
            rest = others;
        }
    }

    // Adds the edge `e`.
    fn add_edge(&mut self, g: &MultiGraph, e: u32)
        requires marked { IsMarked g.now self.old }
        requires edge { Within (size g.now) e }
        ensures marked { IsMarked g.now self.new }
        ensures each { (i : ℕ) → marks self.new.mark.items i ≡
            (marks self.old.mark.items i || e == i) }
    {
        g.keeps_limits();
        self.mark[e as usize] = true;
        let ends = g.ends(e);
        self.met = self.met.with(ends.a).with(ends.b);
    }

    /// The least edge that is not marked.
    pub fn least_left(&self, g: &MultiGraph) -> Option<u32>
        requires { IsMarked g.now self.now }
        ensures some { IfSome result
            (IsLeastWithout (size g.now) (λ e. marks self.now.mark.items e ≡ true)) }
        ensures none { IfNone result
            ((e : ℕ) → Within (size g.now) e → marks self.now.mark.items e ≡ true) }
    {
        for k in 0..g.size() {
            let edge = k + 1;
            if !self.mark[edge as usize] {
                return Some(edge);
            }
        }
        None
    }
}
