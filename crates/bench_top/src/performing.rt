//! A command from its files to its report.
ghost use Rattle.std.specs.Prelude.{◌≡◌, ◌⊎◌, ◌↔◌, IsErrOf, IsOk, IfOk, IfErr, Some};
ghost use Rattle.bench_reports.specs.from_bench_tasks.Common.{All, asked, Held, HasNoMissing, IsReadFault, IsUnread, LoadsAs, StopsAs, Task as HeldTask, task_of};
ghost use Rattle.bench_reports.specs.from_bench_outcomes.Common.{GatheredMayRefuse, IsPlaced, IsReported, IsSettled, LoadedGives};
ghost use Rattle.bench_top.specs.Endings.{ReportsBad, StopReported, stop_in};
ghost use Rattle.bench_top.specs.Runs.{RunsTo};

use crate::ending::RunEnding;
use bench_reports::bench_outcomes::{Report, Status};
use bench_reports::bench_tasks::{Command, LoadStop, Task, gather};
use bench_reports::judge;
use mcg6_lines::report_text::bad_input;
use outside::{Reasons, Shelf, Sink, SinkFailed, emit};
use std::alloc::Global;

// What was made of the files of a command: the report, or the status where there is none, and why
// they were not loaded, where they were not.
#[derive(Drop)]
struct Judged<'a> {
    report: Result<Report, Status>,
    stop: Option<LoadStop<'a>>,
}

// The report on a stop, or the status where there is none.
fn report_on_stop(alloc: Global, stop: &LoadStop<'_>) -> Result<Report, Status>
    ensures gives { IfOk result
        (λ report. (held : Held) → StopsAs stop.now held →
        LoadedGives held report.status report.bytes.items) }
    ensures bad { IfOk result (λ report. (report.status ≡ Status.BadInput)
        × StopReported stop.now report.bytes.items) }
    ensures plain { IfOk result (λ report. report.refusal ≡ None) }
    ensures read_fault { IsErrOf result Status.ReadFault ↔ IsUnread stop.now }
    ensures stops { IfErr result
        (λ status. (status ≡ Status.ReadFault) ⊎ (status ≡ Status.Memory)) }
{
    match stop {
        LoadStop::ReadFault { .. } => Err(Status::ReadFault),
        LoadStop::Memory => Err(Status::Memory),
        LoadStop::Bad {
            file,
            line,
            kind,
            ..
        } => match bad_input(alloc, *file, *line, kind.number()) {
            Ok(bytes) => Ok(Report {
                status: Status::BadInput,
                bytes,
                refusal: None,
            }),
            Err(_) => Err(Status::Memory),
        },
    }
}

// The report on what was gathered.
fn report_on<'a>(alloc: Global, gathered: Result<Task, LoadStop<'a>>) -> Judged<'a>
    ensures stop { result.stop ≡ stop_in gathered.entry }
    ensures gives { IfOk result.report
        (λ report. (held : Held) → LoadsAs task_of gathered.entry held →
        LoadedGives held report.status report.bytes.items) }
    ensures reported { IfOk result.report (λ report. IsReported report.status) }
    ensures refuses { IfOk result.report
        (λ report. report.status ≡ Status.Negative → GatheredMayRefuse gathered.entry) }
    ensures read { IfOk result.report (λ report. HasNoMissing gathered.entry) }
    ensures whole { IfOk result.report (λ report. IsSettled report.status → IsOk gathered.entry) }
    ensures bad { IfOk result.report
        (λ report. report.status ≡ Status.BadInput →
        ReportsBad gathered.entry report.bytes.items) }
    ensures read_fault { IsErrOf result.report Status.ReadFault ↔ IsReadFault gathered.entry }
    ensures stops { IfErr result.report
        (λ status. (status ≡ Status.ReadFault) ⊎ (status ≡ Status.Memory)) }
    ensures placed { IfOk result.report (λ report. (task : HeldTask) →
        LoadsAs task_of gathered.entry (All task) → IsPlaced task report.refusal) }
{
    match gathered {
        Ok(task) => Judged {
            report: judge(alloc, task).map_err(|_| Status::Memory),
            stop: None,
        },
        Err(stop) => Judged {
            report: report_on_stop(alloc, &stop),
            stop: Some(stop),
        },
    }
}

/// Does the command: reads its files, makes the whole report in memory, and writes it. What it
/// makes of the shelf and the sink is `RunsTo`, at the row of the command.
pub fn perform<'a, R: Reasons<S>, S: Shelf, K: Sink>(
    alloc: Global,
    command: Command<'a>,
    reasons: &R,
    shelf: &mut S,
    sink: &mut K,
) -> RunEnding<'a>
    ensures { RunsTo S.files S.steady S.faults S.reads R.reason K.written K.writes K.faults
        (Some (asked command.entry)) result.status result.stop result.refusal
        shelf.old shelf.new sink.old sink.new }
{
    let gathered = gather(alloc, command, reasons, shelf);
    let Judged { report, stop } = report_on(alloc, gathered);
    match report {
        Ok(report) => match emit(sink, &report.bytes) {
            Ok(()) => RunEnding {
                status: report.status,
                stop,
                refusal: report.refusal,
            },
            Err(SinkFailed) => RunEnding {
                status: Status::WriteFault,
                stop,
                refusal: None,
            },
        },
        Err(status) => RunEnding {
            status,
            stop,
            refusal: None,
        },
    }
}
