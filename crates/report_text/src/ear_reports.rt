//! The report of an ear list that was built.
ghost use Rattle.std.specs.Prelude.{◌≡◌, IfOk, string_bytes};
ghost use Rattle.report_text.specs.Common.{ears_report_text, steps_line};

use crate::commenting::commented;
use std::alloc::{AllocError as Memory, Global};

// The line of the numbers of steps.
fn line_of_steps(alloc: Global, steps: u32, single: u32, double: u32) -> Result<String, Memory>
    ensures { IfOk result (λ line. string_bytes line ≡ steps_line steps single double) }
{
    let line = format!(in alloc; "c steps {steps} single {single} double {double}\n")?;
    Ok(line)
}

/// Writes the text and then, as a comment, the number of steps, of those with one ear, and of those
/// with two. Takes O(b) time for b bytes written; the only error is `Memory`.
#[tactic(auto, unfolding(crate::specs::EarReports::ears_report_text))]
pub fn ears_report(
    alloc: Global,
    text: &[u8],
    steps: u32,
    single: u32,
    double: u32,
) -> Result<Vec<u8>, Memory>
    ensures { IfOk result (λ report. report.items ≡ ears_report_text text.now steps single double) }
{
    let line = line_of_steps(alloc, steps, single, double)?;
    commented(alloc, text, line.as_str())
}
