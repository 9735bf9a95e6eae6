//! How a graph stands among the matching covered graphs.
ghost use Rattle.std.specs.Prelude.{IfOk};
ghost use Rattle.mcg6_lines.specs.Standings.{IsStanding};

use crate::deficiencies::deficiency;
use crate::leaf_counts::tally_of_kind;
use graph_core::{Kind, MultiGraph, Reason};
use leaf_kinds::graph_facts::Covered;
use leaf_kinds::kind_of;
use leaf_kinds::separation_kit::FirstPairs;
use std::alloc::{AllocError as Memory, Global};
use tree_core::Tally;

/// How a graph stands: it is not matching covered, or of which structure it is.
#[derive(Clone, Copy)]
pub enum Standing {
    /// It is not covered, for this first reason, and a maximum matching misses so many vertices.
    Uncovered {
        reason: Reason,
        deficiency: u32,
    },
    /// It is covered, of this kind, with so many leaves, and bicritical or not.
    Structured {
        kind: Kind,
        tally: Tally,
        bicritical: bool,
    },
}

impl Standing {
    /// How the graph stands. The leaves are counted only if it has a nontrivial tight cut.
    pub fn of(alloc: Global, g: &MultiGraph) -> Result<Standing, Memory>
        ensures { IfOk result (IsStanding g.now) }
    {
        match Covered::of(alloc, g)? {
            Ok(c) => Standing::of_covered(alloc, &c),
            Err(reason) => {
                let deficiency = deficiency(alloc, g, &reason)?;
                Ok(Standing::Uncovered { reason, deficiency })
            }
        }
    }

    // The same for a covered graph.
    fn of_covered(alloc: Global, c: &Covered) -> Result<Standing, Memory>
        ensures { IfOk result (IsStanding c.now) }
    {
        c.keeps_covered();
        let pairs = FirstPairs::of(c);
        let kind = kind_of(alloc, &pairs)?;
        let tally = tally_of_kind(alloc, c, &kind)?;
        let bicritical = pairs.is_bicritical();
        Ok(Standing::Structured {
            kind,
            tally,
            bicritical,
        })
    }
}
