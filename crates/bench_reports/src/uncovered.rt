//! The report on a graph that is not matching covered.
ghost use Rattle.std.specs.Prelude.{◌≡◌, IfOk};
ghost use Rattle.graph_core.specs.Common.{IsReason, reason_of};
ghost use Rattle.bench_outcomes.specs.Common.{IsOfGraph, Uncovered, cover_fault_of};

use bench_outcomes::report_text::verdict_line;
use bench_outcomes::{Report, Status};
use graph_core::{MultiGraph, Reason, Verdict};
use refusals::{CoverFault, Refusal};
use std::alloc::{AllocError as Memory, Global};

// The fault of a graph that is not covered for this reason.
fn cover_fault_of(reason: &Reason) -> CoverFault
    ensures { result ≡ cover_fault_of reason.now }
{
    match reason {
        Reason::Small => CoverFault::Small,
        Reason::Parted { a, b } => CoverFault::Parted { a: *a, b: *b },
        Reason::Unmatched { .. } => CoverFault::Unmatched,
        Reason::Unallowed { edge } => CoverFault::Unallowed { edge: *edge },
    }
}

/// The line of the reason why a graph is not covered.
pub fn uncovered_report(alloc: Global, g: &MultiGraph, reason: Reason) -> Result<Report, Memory>
    requires { IsReason g.now (reason_of reason) }
    ensures gives { IfOk result (λ report. Uncovered g.now report.status report.bytes.items) }
    ensures placed { IfOk result (λ report. IsOfGraph report.refusal) }
{
    g.keeps_limits();
    let fault = cover_fault_of(&reason);
    let bytes = verdict_line(alloc, &Verdict::NotCovered(reason))?;
    Ok(Report {
        status: Status::Negative,
        bytes,
        refusal: Some(Refusal::Graph { fault }),
    })
}
