//! A graph that grows from a seed, with its leaves counted and compared, as `grow` reports it.
ghost use Rattle.std.specs.Prelude.{IfOk};
ghost use Rattle.bench_outcomes.specs.Common.{Grown, IsOfGraph};

use bench_outcomes::bench_tasks::GrowNumbers;
use bench_outcomes::decomposer::{NamedOrder, VisitedPlaces};
use bench_outcomes::report_text::grown;
use bench_outcomes::{Report, Status};
use gallai_edmonds::graph_facts::Covered;
use graph_text::write_graph;
use grow_gen::grow;
use std::alloc::{AllocError as Memory, Global};
use uncross::compare_covered;

/// The report on the graph that grows from a seed: its text, the leaves of its derivations by the
/// first and by the last candidates, and how many leaves their comparison pairs.
pub fn grow_report(alloc: Global, growth: GrowNumbers) -> Result<Report, Memory>
    ensures gives { IfOk result
        (λ report. Grown growth.seed growth.pieces report.status report.bytes.items) }
    ensures placed { IfOk result (λ report. IsOfGraph report.refusal) }
{
    let g = grow(alloc, growth.seed as u64, growth.pieces)?;
    let text = write_graph(alloc, &g)?;
    let covered = Covered::known(alloc, &g)?;
    let mut places = VisitedPlaces::none(alloc, &covered);
    let first = places.decompose(alloc, &NamedOrder::First)?;
    let last = places.decompose(alloc, &NamedOrder::Last)?;
    let pairing = compare_covered(alloc, &covered, &first.tree, &last.tree)?;
    let pairs = pairing.maps.len() as u32;
    Ok(Report {
        status: Status::Done,
        bytes: grown(alloc, &text, first.tally, last.tally, pairs)?,
        refusal: None,
    })
}
