//! What is written for a line.

use line_text::FaultKind;
use mcg6_lines::{Query, tell};
use std::alloc::{AllocError as Memory, Global};

/// What is written for a line, or the kind of its fault.
pub type Answer = Result<&'static str, FaultKind>;

/// Whether the line is answered so, as the seventh of a list.
pub fn is_told(
    alloc: Global,
    query: &Query,
    line: &str,
    answer: &Result<&str, FaultKind>,
) -> Result<bool, Memory> {
    match (tell(alloc, query, 7, line.as_bytes())?, answer) {
        (Ok(bytes), Ok(wanted)) => Ok(bytes.as_slice() == wanted.as_bytes()),
        (Err(kind), Err(wanted)) => Ok(kind == *wanted),
        (Ok(_), Err(_)) | (Err(_), Ok(_)) => Ok(false),
    }
}
