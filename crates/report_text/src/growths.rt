//! The report of a graph that was grown.
ghost use Rattle.std.specs.Prelude.{◌≡◌, ◌++◌, OnOk, IfOk, string_bytes};
ghost use Rattle.report_text.specs.Common.{grown_text, growth_lines, order_line, pairs_line};

use crate::commenting::commented;
use crate::words::push_tally;
use move_text::tree_core::Tally;
use std::alloc::{AllocError as Memory, Global};

fn push_order(text: &mut String, order: &str, tally: Tally) -> Result<(), Memory>
    ensures { OnOk result
        (string_bytes text.new ≡ string_bytes text.old ++ order_line order.now tally) }
{
    write!(text, "c {order}")?;
    push_tally(text, tally)
}

fn push_pairs(text: &mut String, pairs: u32) -> Result<(), Memory>
    ensures { OnOk result (string_bytes text.new ≡ string_bytes text.old ++ pairs_line pairs) }
{
    write!(text, "c pairs {pairs}\n")
}

// The comments after the graph.
fn growth_comments(alloc: Global, first: Tally, last: Tally, pairs: u32) -> Result<String, Memory>
    ensures { IfOk result (λ comments. string_bytes comments ≡ growth_lines first last pairs) }
{
    let mut comments = String::new(alloc);
    push_order(&mut comments, "first", first)?;
    push_order(&mut comments, "last", last)?;
    push_pairs(&mut comments, pairs)?;
    Ok(comments)
}

/// Writes the text and then, as comments, the numbers of leaves of a decomposition by first
/// candidates and of one by last candidates, and how many leaves their comparison pairs. Takes O(b)
/// time for b bytes written; the only error is `Memory`.
#[tactic(auto, unfolding(crate::specs::Growths::grown_text))]
pub fn grown(
    alloc: Global,
    text: &[u8],
    first: Tally,
    last: Tally,
    pairs: u32,
) -> Result<Vec<u8>, Memory>
    ensures { IfOk result (λ report. report.items ≡ grown_text text.now first last pairs) }
{
    let comments = growth_comments(alloc, first, last, pairs)?;
    commented(alloc, text, comments.as_str())
}
