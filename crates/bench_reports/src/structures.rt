//! The structure of a covered graph, as `analyse` reports it.
ghost use Rattle.std.specs.Prelude.{IfOk};
ghost use Rattle.graph_core.specs.Common.{IsVerdict};
ghost use Rattle.bench_outcomes.specs.Common.{IsStructure, TellsStructure};

use bench_outcomes::barrier_kit::classes_of;
use bench_outcomes::leaf_kinds::kind_of;
use bench_outcomes::report_text::Structure;
use bench_outcomes::separation_kit::FirstPairs;
use gallai_edmonds::graph_facts::{Covered, Facts};
use graph_core::Verdict;
use std::alloc::{AllocError as Memory, Global};

// The structure of a covered graph.
fn structure(alloc: Global, c: &Covered) -> Result<Structure, Memory>
    ensures { IfOk result (IsStructure c.now) }
{
    let classes = classes_of(alloc, c)?;
    let pairs = FirstPairs::with_classes(c, &classes);
    let unlike = pairs.equivalent();
    let cutpair = pairs.any_cut();
    let kind = kind_of(alloc, &pairs)?;
    Ok(Structure {
        classes,
        unlike,
        cutpair,
        kind,
    })
}

/// The structure of a graph if the verdict is that it is covered.
pub fn structure_where_covered(
    alloc: Global,
    facts: Facts,
    verdict: &Verdict,
) -> Result<Option<Structure>, Memory>
    requires { IsVerdict facts verdict.now }
    ensures { IfOk result (TellsStructure facts.entry verdict.now) }
{
    match verdict {
        Verdict::Covered => {
            let covered = Covered::from_facts(facts);
            let found = structure(alloc, &covered)?;
            Ok(Some(found))
        }
        Verdict::NotCovered(_) => Ok(None),
    }
}
