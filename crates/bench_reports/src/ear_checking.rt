//! Ear lists of a graph, as `checkears` and `ears` report on them.
ghost use Rattle.std.specs.Prelude.{◌≡◌, ◌<◌, ◌^◌, length, map, IfOk};
ghost use Rattle.graph_core.specs.Common.{size};
ghost use Rattle.ear_text.specs.from_ear_core.Common.{FitsEars, IsEarList, IsRefused, ears_of, step_of, why_of};
ghost use Rattle.bench_outcomes.specs.Common.{AcceptedEars, BuiltEars, EarCheckGives, EarsGives, IsInEars, IsOfGraph, RefusedEars, double_count, ear_fault_of, named_edge, single_count, ear_why_number};

use crate::uncovered::uncovered_report;
use bench_outcomes::report_text::{EarLine, ear_judgement};
use bench_outcomes::{Report, Status};
use ear_text::ear_core::{
    EarJudgement, EarList, EarWhy, Step, build_ears_of, check_ears_of, fault_place,
};
use ear_text::write_ears;
use gallai_edmonds::graph_facts::Covered;
use graph_core::MultiGraph;
use refusals::{EarFault, Refusal};
use std::alloc::{AllocError as Memory, Global};

// The number of a reason.
fn number_of(why: EarWhy) -> u32
    ensures { result ≡ ear_why_number (why_of why) }
{
    match why {
        EarWhy::NotPath => 1,
        EarWhy::EvenLength => 2,
        EarWhy::BadEnds => 3,
        EarWhy::InnerOnStage => 4,
        EarWhy::EdgeUsed => 5,
        EarWhy::StageNotCovered { .. } => 6,
        EarWhy::EndsEarly { .. } => 7,
    }
}

// The fault of a step that is refused for this reason.
fn ear_fault_of(why: EarWhy) -> EarFault
    ensures { result ≡ ear_fault_of (why_of why) }
{
    match why {
        EarWhy::NotPath => EarFault::NotPath,
        EarWhy::EvenLength => EarFault::EvenLength,
        EarWhy::BadEnds => EarFault::BadEnds,
        EarWhy::InnerOnStage => EarFault::InnerOnStage,
        EarWhy::EdgeUsed => EarFault::EdgeUsed,
        EarWhy::StageNotCovered { edge } => EarFault::StageNotCovered { edge },
        EarWhy::EndsEarly { edge } => EarFault::EndsEarly { edge },
    }
}

// The edge that a reason names, if it names one.
fn edge_of(why: EarWhy) -> Option<u32>
    ensures { result ≡ named_edge (why_of why) }
{
    match why {
        EarWhy::StageNotCovered { edge } | EarWhy::EndsEarly { edge } => Some(edge),
        EarWhy::NotPath
        | EarWhy::EvenLength
        | EarWhy::BadEnds
        | EarWhy::InnerOnStage
        | EarWhy::EdgeUsed => None,
    }
}

// How many of the steps have one ear.
fn count_single(steps: &[Step]) -> usize
    ensures { result ≡ single_count (map step_of steps.now) }
{
    steps.iter().filter(|step| step.second.is_none()).count()
}

// How many of the steps have two.
fn count_double(steps: &[Step]) -> usize
    ensures { result ≡ double_count (map step_of steps.now) }
{
    steps.iter().filter(|step| step.second.is_some()).count()
}

// The numbers of the steps of a list.
struct StepCounts {
    steps: u32,
    single: u32,
    double: u32,
}

// How many steps there are, how many of one ear, and how many of two.
fn counts_of(steps: &[Step]) -> StepCounts
    requires { length steps.now < 2 ^ 32 }
    ensures steps { result.steps ≡ length (map step_of steps.now) }
    ensures single { result.single ≡ single_count (map step_of steps.now) }
    ensures double { result.double ≡ double_count (map step_of steps.now) }
{
    StepCounts {
        steps: steps.len() as u32,
        single: count_single(steps) as u32,
        double: count_double(steps) as u32,
    }
}

// The line of an ear list.
fn accepted_report(alloc: Global, c: &Covered, list: &EarList) -> Result<Report, Memory>
    requires { IsEarList c.now (ears_of list.now) }
    ensures gives { IfOk result
        (λ report. AcceptedEars c.now (ears_of list.now) report.status report.bytes.items) }
    ensures placed { IfOk result (λ report. IsOfGraph report.refusal) }
{
    c.keeps_covered();
    let StepCounts {
        steps,
        single,
        double,
    } = counts_of(list.steps.as_slice());
    let line = EarLine::Accepted {
        steps,
        single,
        double,
    };
    Ok(Report {
        status: Status::Done,
        bytes: ear_judgement(alloc, &line)?,
        refusal: None,
    })
}

// The line of a refusal.
fn refused_report(
    alloc: Global,
    c: &Covered,
    list: &EarList,
    step: u32,
    why: EarWhy,
) -> Result<Report, Memory>
    requires fits { FitsEars c.now.order (size c.now) (ears_of list.now) }
    requires refused { IsRefused c.now (ears_of list.now) step (why_of why) }
    ensures gives { IfOk result
        (λ report. RefusedEars c.now (ears_of list.now) report.status report.bytes.items) }
    ensures placed { IfOk result (λ report. IsInEars c.now (ears_of list.now) report.refusal) }
{
    c.keeps_covered();
    let place = fault_place(alloc, c.graph(), list, step)?;
    let line = EarLine::Refused {
        step,
        why: number_of(why),
        edge: edge_of(why),
    };
    Ok(Report {
        status: Status::Negative,
        bytes: ear_judgement(alloc, &line)?,
        refusal: Some(Refusal::Ears {
            step,
            place,
            fault: ear_fault_of(why),
        }),
    })
}

// The report on a list of ears of a covered graph.
fn judged_report(alloc: Global, c: &Covered, list: &EarList) -> Result<Report, Memory>
    requires { FitsEars c.now.order (size c.now) (ears_of list.now) }
    ensures gives { IfOk result
        (λ report. EarCheckGives c.now (ears_of list.now) report.status report.bytes.items) }
    ensures placed { IfOk result (λ report. IsInEars c.now (ears_of list.now) report.refusal) }
{
    match check_ears_of(alloc, c, list)? {
        EarJudgement::Accepted => accepted_report(alloc, c, list),
        EarJudgement::Refused { step, why } => refused_report(alloc, c, list, step, why),
    }
}

/// The report on a list of ears: how many steps it has, or where and why it is refused, or that
/// the graph is not covered.
pub fn checkears_report(alloc: Global, g: &MultiGraph, list: &EarList) -> Result<Report, Memory>
    requires { FitsEars g.now.order (size g.now) (ears_of list.now) }
    ensures gives { IfOk result
        (λ report. EarCheckGives g.now (ears_of list.now) report.status report.bytes.items) }
    ensures placed { IfOk result (λ report. IsInEars g.now (ears_of list.now) report.refusal) }
{
    match Covered::of(alloc, g)? {
        Ok(c) => judged_report(alloc, &c, list),
        Err(reason) => uncovered_report(alloc, g, reason),
    }
}

// The text of an ear list of a covered graph, and then the numbers of its steps.
fn built_report(alloc: Global, c: &Covered) -> Result<Report, Memory>
    ensures gives { IfOk result (λ report. BuiltEars c.now report.status report.bytes.items) }
    ensures placed { IfOk result (λ report. IsOfGraph report.refusal) }
{
    c.keeps_covered();
    let list = build_ears_of(alloc, c)?;
    let (n, m) = (c.order(), c.size());
    let text = write_ears(alloc, &list, n, m)?;
    let StepCounts {
        steps,
        single,
        double,
    } = counts_of(list.steps.as_slice());
    let bytes = bench_outcomes::report_text::ears_report(alloc, &text, steps, single, double)?;
    Ok(Report {
        status: Status::Done,
        bytes,
        refusal: None,
    })
}

/// The report of an ear list that is built: its text and the numbers of its steps, or that the
/// graph is not covered.
pub fn built_ears_report(alloc: Global, g: &MultiGraph) -> Result<Report, Memory>
    ensures gives { IfOk result (λ report. EarsGives g.now report.status report.bytes.items) }
    ensures placed { IfOk result (λ report. IsOfGraph report.refusal) }
{
    match Covered::of(alloc, g)? {
        Ok(c) => built_report(alloc, &c),
        Err(reason) => uncovered_report(alloc, g, reason),
    }
}
