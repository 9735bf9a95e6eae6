//! A stage that is marked and the steps that led to it, and how single edges are added.
ghost use Rattle.std.specs.Prelude.{◌≡◌, ◌+◌, ◌≤◌, ℕ, [], ◌∷◌, false, true, IfOk, IfSome, OnOk};
ghost use Rattle.graph_core.specs.from_counting.Common.{Set, Within, complement, count};
ghost use Rattle.graph_core.specs.Common.{first_end, second_end, size};
ghost use Rattle.two_ears.specs.from_match_search.Common.{marks};
ghost use Rattle.ear_core.specs.Common.{ArePartnersOn, FitsStep, GoesOn, IsAsked, IsBuilt, IsFilled, IsMarked, next_stage, one, step_of};

use crate::ears::{Ear, Step, Steps};
use crate::marked::Marked;
use crate::stage::Stage;
use graph_core::{MultiGraph, Numbers};
use std::alloc::{AllocError as Memory, Global};

/// A stage that is marked, and the steps that led to it.
#[derive(Drop)]
pub struct Built {
    pub marked: Marked,
    pub steps: Steps,
}

impl Built {
    /// Adds a step.
    pub fn add(&mut self, g: &MultiGraph, step: Step) -> Result<(), Memory>
        requires marked { IsMarked g.now self.old.marked }
        requires fits { FitsStep g.now.order (size g.now) (step_of step) }
        ensures marked { IsMarked g.now self.new.marked }
        ensures marks { OnOk result ((i : ℕ) → marks self.new.marked.mark.items i ≡
            next_stage (marks self.old.marked.mark.items) (step_of step) i) }
        ensures built { OnOk result ((n : ℕ → ℕ) (first : Set) → IsBuilt g.now n first self.old →
            GoesOn g.now n (marks self.old.marked.mark.items) (step_of step) →
            IsBuilt g.now n first self.new) }
    {
        self.marked.add(g, &step);
        self.steps.push(step)
    }

    /// The least edge off the stage that joins two partners on it.
    pub fn first_between(
        &self,
        alloc: Global,
        g: &MultiGraph,
        stage: &mut Stage,
    ) -> Result<Option<u32>, Memory>
        requires marked { IsMarked g.now self.now.marked }
        requires asked { IsAsked g.now (marks self.now.marked.mark.items) stage.old }
        ensures same { stage.new ≡ stage.old }
        ensures first { IfOk result (λ o. IfSome o (λ e. Within (size g.now) e ×
            (marks self.now.marked.mark.items e ≡ false) ×
            ArePartnersOn g.now (marks self.now.marked.mark.items) (first_end g.now e)
            (second_end g.now e))) }
    {
        for k in 0..g.size() {
            if self.is_between(alloc, g, stage, k + 1)? {
                return Ok(Some(k + 1));
            }
        }
        Ok(None)
    }

    /// Adds edge `e`, which joins two partners on the stage, and each later edge off the stage that
    /// does. Each is a single ear, since partners on a stage are partners on the next.
    pub fn add_between(
        &mut self,
        alloc: Global,
        g: &MultiGraph,
        stage: &mut Stage,
        e: u32,
    ) -> Result<(), Memory>
        requires marked { IsMarked g.now self.old.marked }
        requires asked { IsAsked g.now (marks self.old.marked.mark.items) stage.old }
        requires edge { Within (size g.now) e }
        requires off { marks self.old.marked.mark.items e ≡ false }
        requires joins { ArePartnersOn g.now (marks self.old.marked.mark.items) (first_end g.now e)
            (second_end g.now e) }
        ensures marked { IsMarked g.now self.new.marked }
        ensures built { OnOk result ((n : ℕ → ℕ) (first : Set) → IsBuilt g.now n first self.old →
            IsBuilt g.now n first self.new) }
        ensures fewer { OnOk result
            (count (size g.now) (complement (marks self.new.marked.mark.items)) + 1 ≤
            count (size g.now) (complement (marks self.old.marked.mark.items))) }
    {
        self.add_edge(alloc, g, e)?;
        for k in e..g.size() {
            self.add_if_between(alloc, g, stage, k + 1)?;
        }
        Ok(())
    }

    // Whether edge `e` is off the stage and joins two partners on an earlier stage.
    fn is_between(
        &self,
        alloc: Global,
        g: &MultiGraph,
        stage: &mut Stage,
        e: u32,
    ) -> Result<bool, Memory>
        requires marked { IsMarked g.now self.now.marked }
        requires edge { Within (size g.now) e }
        requires order { stage.old.stage.order ≡ g.now.order }
        ensures same { stage.new ≡ stage.old }
        ensures off { IfOk result (λ b. b ≡ true → marks self.now.marked.mark.items e ≡ false) }
        ensures joins { IfOk result (λ b. (f : Set) → IsAsked g.now f stage.old → b ≡ true →
            ArePartnersOn g.now f (first_end g.now e) (second_end g.now e)) }
    {
        g.keeps_limits();
        if self.marked.mark[e as usize] {
            return Ok(false);
        }
        let ends = g.ends(e);
        if stage.asked().outside.contains(ends.b) {
            return Ok(false);
        }
        let row = stage.partners(alloc, ends.a)?;
        Ok(row.contains(ends.b))
    }

    // Adds edge `e` as a single ear.
    fn add_edge(&mut self, alloc: Global, g: &MultiGraph, e: u32) -> Result<(), Memory>
        requires marked { IsMarked g.now self.old.marked }
        requires edge { Within (size g.now) e }
        ensures marked { IsMarked g.now self.new.marked }
        ensures filled { OnOk result ((n : ℕ → ℕ) (first f : Set) →
            IsFilled g.now n first f self.old → marks self.old.marked.mark.items e ≡ false →
            ArePartnersOn g.now f (first_end g.now e) (second_end g.now e) →
            IsFilled g.now n first f self.new) }
        ensures fewer { OnOk result (marks self.old.marked.mark.items e ≡ false →
            count (size g.now) (complement (marks self.new.marked.mark.items)) + 1 ≤
            count (size g.now) (complement (marks self.old.marked.mark.items))) }
    {
        g.keeps_limits();
        let step = edge_step(alloc, g, e)?;
        self.add(g, step)
    }

    // Adds edge `e` if it is off the stage and joins two partners on an earlier stage.
    fn add_if_between(
        &mut self,
        alloc: Global,
        g: &MultiGraph,
        stage: &mut Stage,
        e: u32,
    ) -> Result<(), Memory>
        requires marked { IsMarked g.now self.old.marked }
        requires edge { Within (size g.now) e }
        requires order { stage.old.stage.order ≡ g.now.order }
        ensures same { stage.new ≡ stage.old }
        ensures marked { IsMarked g.now self.new.marked }
        ensures filled { OnOk result ((n : ℕ → ℕ) (first f : Set) → IsAsked g.now f stage.old →
            IsFilled g.now n first f self.old → IsFilled g.now n first f self.new) }
        ensures fewer { OnOk result
            (count (size g.now) (complement (marks self.new.marked.mark.items)) ≤
            count (size g.now) (complement (marks self.old.marked.mark.items))) }
    {
        if self.is_between(alloc, g, stage, e)? {
            self.add_edge(alloc, g, e)
        } else {
            Ok(())
        }
    }
}

// The step that adds one edge.
fn edge_step(alloc: Global, g: &MultiGraph, e: u32) -> Result<Step, Memory>
    requires { Within (size g.now) e }
    ensures { IfOk result (λ step. step_of step ≡
        one (record { begin = first_end g.now e; edges = e ∷ [] })) }
{
    let mut edges = Numbers::new(alloc);
    edges.push(e)?;
    let from = g.ends(e).a;
    Ok(Step {
        first: Ear { from, edges },
        second: None,
    })
}
