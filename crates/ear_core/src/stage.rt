//! A stage with the partners on it, searched for as far as they are wanted, and once each.
ghost use Rattle.std.specs.Prelude.{◌≡◌, ◌≢◌, ◌+◌, ◌↔◌, ℕ, false, true, length, IfOk};
ghost use Rattle.graph_core.specs.from_counting.Common.{Within, item, mem, Set};
ghost use Rattle.graph_core.specs.Common.{Graph, IsGraph, size};
ghost use Rattle.two_ears.specs.from_match_core.Common.{are_partners};
ghost use Rattle.two_ears.specs.from_match_search.Common.{marks};
ghost use Rattle.ear_core.specs.Common.{ArePartnersOn, HasClasses, HaveRow, IsAsked, IsPerfectRows, IsStage, NamesMatching, is_met};

use crate::asking::{Asked, asked_about};
use crate::matched::{matched_mates, mates_on, partners_from};
use graph_core::MultiGraph;
use graph_core::vset_core::VSet;
use std::alloc::{AllocError as Memory, Global};
use std::marker::Model;
use two_ears::match_core::Matching;

/// The graph of a stage with the mates of a matching of it, and the rows of partners on it that
/// were asked for: pairs of its vertices without which it has a perfect matching. If the stage is
/// known to be covered, vertices that are no partners have the same partners (Kotzig), so one
/// search tells the row of each of them. Contracts see what the matching engine is asked about.
#[derive(Drop)]
pub struct Stage {
    asked: Asked,
    mate: Vec<u32>,
    covered: bool,
    known: VSet,
    rows: Vec<VSet>,
}

impl Model for Stage {
    ghost use Rattle.ear_core.specs.StageRows.{IsStageOf};
    ghost use Rattle.ear_core.specs.declared.asking.Asked.{Asked};

    ghost Value = { Asked };

    ghost view = { λ s. s.asked };

    ghost invariant = { λ s. IsStageOf s.asked s.mate.items s.covered s.known s.rows.items };
}

impl Stage {
    /// The stage of the marked edges, which meet the vertices `met`.
    pub fn of(alloc: Global, g: &MultiGraph, mark: &[bool], met: VSet) -> Result<Stage, Memory>
        requires long { length mark.now ≡ size g.now + 1 }
        requires met { (v : ℕ) → mem met v ≡ is_met g.now (marks mark.now) v }
        ensures { IfOk result (IsAsked g.now (marks mark.now)) }
    {
        let asked = asked_about(alloc, g, mark, met)?;
        let mate = matched_mates(alloc, &asked.stage, asked.outside)?;
        let stage = Stage::with_mates(alloc, asked, mate, false)?;
        Ok(stage)
    }

    /// The same of a stage that is covered, with the mates by the edges of a perfect matching of
    /// the graph that are on it. The fewer vertices of the stage these miss, the sooner each search
    /// ends.
    pub fn by(
        alloc: Global,
        g: &MultiGraph,
        mark: &[bool],
        met: VSet,
        kept: &Matching,
    ) -> Result<Stage, Memory>
        requires long { length mark.now ≡ size g.now + 1 }
        requires met { (v : ℕ) → mem met v ≡ is_met g.now (marks mark.now) v }
        requires stage { IsStage g.now (marks mark.now) }
        requires kept { IsPerfectRows g.now kept.now }
        ensures { IfOk result (IsAsked g.now (marks mark.now)) }
    {
        g.keeps_limits();
        let asked = asked_about(alloc, g, mark, met)?;
        let mate = mates_on(alloc, g, mark, kept)?;
        let stage = Stage::with_mates(alloc, asked, mate, true)?;
        Ok(stage)
    }

    // A stage of which no row is known yet.
    fn with_mates(
        alloc: Global,
        asked: Asked,
        mate: Vec<u32>,
        covered: bool,
    ) -> Result<Stage, Memory>
        requires matched { NamesMatching asked.stage (mem asked.outside) mate.items }
        requires classes { covered ≡ true → HasClasses asked.stage (mem asked.outside) }
        ensures { IfOk result (λ stage. stage ≡ asked) }
    {
        let rows = vec![in alloc; VSet::empty(); asked.stage.order() as usize]?;
        let known = VSet::empty();
        Ok(Stage {
            asked,
            mate,
            covered,
            known,
            rows,
        })
    }

    /// What the matching engine is asked about.
    pub fn asked(&self) -> &Asked
        ensures { result.now ≡ self.now }
    {
        &self.asked
    }

    /// The partners of `u`. They are searched for if they are not known, and known from then on.
    pub fn partners(&mut self, alloc: Global, u: u32) -> Result<VSet, Memory>
        requires { Within self.old.stage.order u }
        ensures same { self.new ≡ self.old }
        ensures row { IfOk result (λ row. (g : Graph) (f : Set) → IsGraph g → IsAsked g f self.old →
            (v : ℕ) → (mem row v ≡ true) ↔ ArePartnersOn g f u v) }
    {
        self.asked.stage.keeps_limits();
        if self.asked.outside.contains(u) {
            return Ok(VSet::empty());
        }
        if self.known.contains(u) {
            return Ok(row_of(&self.rows, u));
        }
        let row = partners_from(alloc, &self.asked.stage, self.asked.outside, &self.mate, u)?;
        self.keep(u, row);
        Ok(row)
    }

    // Keeps the row of `u`, for each vertex that has the same partners.
    fn keep(&mut self, u: u32, row: VSet)
        requires vertex { Within self.old.stage.order u }
        requires left { mem self.old.outside u ≡ false }
        requires within { (v : ℕ) → mem row v ≡ true → Within self.old.stage.order v }
        requires row { (v : ℕ) → Within self.old.stage.order v →
            mem row v ≡ are_partners self.old.stage (mem self.old.outside) u v }
        ensures { self.new ≡ self.old }
    {
        let class = self.class_of(u, row);
        write_rows(&mut self.rows, class, row);
        self.known = self.known.union(class);
    }

    // Vertices that have the same partners as `u`, whose row is known: if the stage is covered,
    // those that are no partners of it.
    fn class_of(&self, u: u32, row: VSet) -> VSet
        requires vertex { Within self.now.stage.order u }
        requires left { mem self.now.outside u ≡ false }
        requires row { (v : ℕ) → Within self.now.stage.order v →
            mem row v ≡ are_partners self.now.stage (mem self.now.outside) u v }
        ensures { HaveRow self.now (mem result) row }
    {
        self.asked.stage.keeps_limits();
        if self.covered {
            left_without(&self.asked, row)
        } else {
            VSet::one(u)
        }
    }
}

// The vertices of a stage that are not in `row`.
fn left_without(asked: &Asked, row: VSet) -> VSet
    ensures { (v : ℕ) → (mem result v ≡ true) ↔ (Within asked.now.stage.order v ×
        (mem asked.now.outside v ≡ false) × (mem row v ≡ false)) }
{
    VSet::full(asked.stage.order()).minus(asked.outside.union(row))
}

/// The row of a vertex.
pub fn row_of(rows: &[VSet], u: u32) -> VSet
    requires { Within (length rows.now) u }
    ensures { result ≡ item rows.now u }
{
    rows[u as usize - 1]
}

// Writes one row for each vertex of a set.
fn write_rows(rows: &mut Vec<VSet>, set: VSet, row: VSet)
    requires { (v : ℕ) → mem set v ≡ true → Within (length rows.old.items) v }
    ensures long { length rows.new.items ≡ length rows.old.items }
    ensures own { (v : ℕ) → mem set v ≡ true → item rows.new.items v ≡ row }
    ensures others { (v : ℕ) → Within (length rows.old.items) v → mem set v ≡ false →
        item rows.new.items v ≡ item rows.old.items v }
{
    let mut rest = set;
    'writing: while let Some((v, others)) = rest.split_first() {
        rest = others;
        write_row(rows, v, row);
    }
}

fn write_row(rows: &mut Vec<VSet>, v: u32, row: VSet)
    requires { Within (length rows.old.items) v }
    ensures long { length rows.new.items ≡ length rows.old.items }
    ensures own { item rows.new.items v ≡ row }
    ensures others { (u : ℕ) → Within (length rows.old.items) u → v ≢ u →
        item rows.new.items u ≡ item rows.old.items u }
{
    rows[v as usize - 1] = row;
}
