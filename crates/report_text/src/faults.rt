//! The report of a file that is outside its format.
ghost use Rattle.std.specs.Prelude.{◌≡◌, IfOk, string_bytes};
ghost use Rattle.report_text.specs.Common.{bad_input_text};

use std::alloc::{AllocError as Memory, Global};

/// Writes the line that names a file by its place among the named files, counted from 1, and its
/// first error by line and kind. Takes O(b) time for b bytes written; the only error is `Memory`.
#[tactic(auto, unfolding(crate::specs::Reports::bad_input_text))]
pub fn bad_input(alloc: Global, file: u32, line: u32, kind: u32) -> Result<Vec<u8>, Memory>
    ensures { IfOk result (λ text. text.items ≡ bad_input_text file line kind) }
{
    let text = format!(in alloc; "file {file} line {line} kind {kind}\n")?;
    Ok(text.into_bytes())
}
