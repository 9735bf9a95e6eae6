//! The line of a verdict.
ghost use Rattle.std.specs.Prelude.{◌≡◌, ◌++◌, codes, OnOk, IfOk, string_bytes};
ghost use Rattle.report_text.specs.Common.{numbers_text, reason_numbers, reason_text, verdict_text};

use crate::numbers::{push_numbers, push_set};
use crate::words::reason_word;
use graph_core::{Reason, Verdict};
use std::alloc::{AllocError as Memory, Global};

// Appends the numbers that show a reason.
fn push_reason_numbers(text: &mut String, reason: &Reason) -> Result<(), Memory>
    ensures { OnOk result
        (string_bytes text.new
        ≡ string_bytes text.old ++ numbers_text (reason_numbers reason.now)) }
{
    match reason {
        Reason::Small => Ok(()),
        Reason::Parted { a, b } => push_numbers(text, &[*a, *b]),
        Reason::Unmatched { berge } => push_set(text, *berge),
        Reason::Unallowed { edge } => push_numbers(text, &[*edge]),
    }
}

fn push_reason(text: &mut String, reason: &Reason) -> Result<(), Memory>
    ensures { OnOk result
        (string_bytes text.new ≡ string_bytes text.old ++ reason_text reason.now) }
{
    let word = reason_word(reason);
    write!(text, " {word}")?;
    push_reason_numbers(text, reason)
}

/// Appends the line of the verdict.
#[tactic(auto, unfolding(crate::specs::Reports::verdict_text))]
pub fn push_verdict(text: &mut String, verdict: &Verdict) -> Result<(), Memory>
    ensures { OnOk result
        (string_bytes text.new ≡ string_bytes text.old ++ verdict_text verdict.now) }
{
    match verdict {
        Verdict::Covered => write!(text, "covered yes\n"),
        Verdict::NotCovered(reason) => {
            write!(text, "covered no")?;
            push_reason(text, reason)?;
            write!(text, "\n")
        }
    }
}

/// Writes the line of the verdict alone. Takes O(b) time for b bytes written; the only error is
/// `Memory`.
pub fn verdict_line(alloc: Global, verdict: &Verdict) -> Result<Vec<u8>, Memory>
    ensures { IfOk result (λ text. text.items ≡ verdict_text verdict.now) }
{
    let mut text = String::new(alloc);
    push_verdict(&mut text, verdict)?;
    Ok(text.into_bytes())
}
