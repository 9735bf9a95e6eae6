//! The line that judges an ear list.
ghost use Rattle.std.specs.Prelude.{◌≡◌, ◌++◌, OnOk, IfOk, string_bytes};
ghost use Rattle.report_text.specs.Common.{ear_judgement_text, edge_text, refused_step_line, step_refusal_text};

use std::alloc::{AllocError as Memory, Global};

/// What is reported about an ear list.
#[derive(Clone, Copy, Debug, PartialEq, Eq)]
pub enum EarLine {
    /// It is an ear list with so many steps, so many with one ear and so many with two.
    Accepted {
        steps: u32,
        single: u32,
        double: u32,
    },
    /// It fails at a step, counted from 1, for the reason of this number, which may name an edge.
    Refused {
        step: u32,
        why: u32,
        edge: Option<u32>,
    },
}

fn push_edge(text: &mut String, edge: Option<u32>) -> Result<(), Memory>
    ensures { OnOk result (string_bytes text.new ≡ string_bytes text.old ++ edge_text edge) }
{
    match edge {
        None => Ok(()),
        Some(edge) => write!(text, " edge {edge}"),
    }
}

#[tactic(auto, unfolding(crate::specs::Judgements::step_refusal_text))]
fn push_refusal(text: &mut String, step: u32, why: u32) -> Result<(), Memory>
    ensures { OnOk result
        (string_bytes text.new ≡ string_bytes text.old ++ step_refusal_text step why) }
{
    write!(text, "refused step {step} why {why}")
}

fn push_refused(text: &mut String, step: u32, why: u32, edge: Option<u32>) -> Result<(), Memory>
    ensures { OnOk result
        (string_bytes text.new ≡ string_bytes text.old ++ refused_step_line step why edge) }
{
    push_refusal(text, step, why)?;
    push_edge(text, edge)?;
    write!(text, "\n")?;
    Ok(())
}

#[tactic(auto, unfolding(crate::specs::Judgements::ear_judgement_text))]
fn push_ear_judgement(text: &mut String, line: EarLine) -> Result<(), Memory>
    ensures { OnOk result
        (string_bytes text.new ≡ string_bytes text.old ++ ear_judgement_text line) }
{
    match line {
        EarLine::Accepted {
            steps,
            single,
            double,
        } => write!(
            text,
            "accepted steps {steps} single {single} double {double}\n"
        ),
        EarLine::Refused { step, why, edge } => push_refused(text, step, why, edge),
    }
}

/// Writes the line on an ear list: how many steps it has, or where and why it fails. Takes O(b)
/// time for b bytes written; the only error is `Memory`.
pub fn ear_judgement(alloc: Global, line: &EarLine) -> Result<Vec<u8>, Memory>
    ensures { IfOk result (λ text. text.items ≡ ear_judgement_text line.now) }
{
    let mut text = String::new(alloc);
    push_ear_judgement(&mut text, *line)?;
    Ok(text.into_bytes())
}
