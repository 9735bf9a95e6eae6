//! Reports that list the names of vertices.
ghost use Rattle.std.specs.Prelude.{◌≡◌, ◌++◌, OnOk, IfOk, true};
ghost use Rattle.report_text.specs.Common.{IsCommented, name_line, with_names_text};

use graph_text::Names;
use std::alloc::{AllocError as Memory, Global};

// Appends the line that names a vertex.
fn push_name(
    alloc: Global,
    text: &mut Vec<u8>,
    vertex: usize,
    name: &str,
    comments: bool,
) -> Result<(), Memory>
    ensures { OnOk result (text.new.items ≡ text.old.items ++ name_line comments vertex name.now) }
{
    let mark = if comments { "c " } else { "" };
    let line = format!(in alloc; "{mark}name {vertex} {name}\n")?;
    text.extend_from_slice(line.as_bytes())
}

/// Writes the report and then one line `name K NAME` for each name, in order, where K is the number
/// of the vertex. If `comments` is true, each of these lines begins with `c` and a space and is a
/// comment, so a report that is a text of some format remains one. Takes O(b) time for b bytes
/// written; the only error is `Memory`.
#[tactic(auto, unfolding(crate::specs::Reports::with_names_text))]
pub fn with_names(
    alloc: Global,
    report: &[u8],
    names: &Names,
    comments: bool,
) -> Result<Vec<u8>, Memory>
    ensures text { IfOk result
        (λ text. text.items ≡ with_names_text report.now names.now comments) }
    ensures comments { comments ≡ true → IfOk result (λ text. IsCommented report.now text.items) }
{
    names.are_names();
    let mut text = Vec::from_slice(alloc, report)?;
    for i in 0..names.len() {
        push_name(alloc, &mut text, i + 1, names.get(i), comments)?;
    }
    Ok(text)
}
