//! The line of a graph6 text in a report.
ghost use Rattle.std.specs.Prelude.{◌≡◌, IfOk};
ghost use Rattle.report_text.specs.Common.{graph6_line};

use std::alloc::{AllocError as Memory, Global};

/// Writes the report and then one line: the word `graph6`, a space, and the text. Takes O(b) time
/// for b bytes written; the only error is `Memory`.
pub fn graph6_line(alloc: Global, report: &[u8], text: &[u8]) -> Result<Vec<u8>, Memory>
    ensures { IfOk result (λ lines. lines.items ≡ graph6_line report.now text.now) }
{
    let mut lines = Vec::from_slice(alloc, report)?;
    lines.extend_from_slice(b"graph6 ")?;
    lines.extend_from_slice(text)?;
    lines.push(b'\n')?;
    Ok(lines)
}
