//! Comments after the text that a report begins with.
ghost use Rattle.std.specs.Prelude.{◌≡◌, ◌++◌, IfOk};

use std::alloc::{AllocError as Memory, Global};

/// The text, and the comments after it.
pub fn commented(alloc: Global, text: &[u8], comments: &str) -> Result<Vec<u8>, Memory>
    ensures { IfOk result (λ report. report.items ≡ text.now ++ comments.now) }
{
    let mut report = Vec::from_slice(alloc, text)?;
    report.extend_from_slice(comments.as_bytes())?;
    Ok(report)
}
