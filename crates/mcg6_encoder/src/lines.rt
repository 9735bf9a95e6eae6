//! A line of a file by its number, and the report on a bad file.
ghost use Rattle.std.specs.Prelude.{◌≡◌, IfOk};
ghost use Rattle.graph_core.specs.from_line_text.Common.{FirstFault};
ghost use Rattle.graph_text.specs.Common.{either_version};
ghost use Rattle.mcg6_encoder.specs.Files.{IsOutside, NamesTooLong, kept_line};

use graph_core::line_text::{FaultKind, split_line};
use mcg6_reader::BadLine;
use std::alloc::{AllocError as Memory, Global};

// The line of that number, counted from 1, without its line feed; empty if the file has fewer
// lines.
fn kept_line(file: &[u8], number: u32) -> &[u8]
    ensures { result.now ≡ kept_line file.now number }
{
    let mut rest = file;
    let mut before = number.saturating_sub(1);
    'passing: while let Some((line, others)) = split_line(rest) {
        if before == 0 {
            return line;
        }
        rest = others;
        before -= 1;
    }
    &[]
}

// The report on a file whose first error is of this kind, at this line.
pub fn outside_at(alloc: Global, file: &[u8], line: u32, kind: FaultKind) -> Result<BadLine, Memory>
    requires { FirstFault either_version file.now line kind }
    ensures { IfOk result (IsOutside file.now) }
{
    let text = kept_line(file, line).to_vec(alloc)?;
    let number = line as u64;
    Ok(BadLine { number, kind, text })
}

// The report on a file that is too long. Takes no memory.
pub fn too_long(alloc: Global) -> BadLine
    ensures { NamesTooLong result }
{
    BadLine {
        number: 0,
        kind: FaultKind::Limit,
        text: Vec::new(alloc),
    }
}
