//! The reader of a text.
ghost use Rattle.std.specs.Prelude.{◌≡◌, ◌<◌, ◌-◌, ◌^◌, ℕ, length, IfOk, IfErr, Ok, Err};
ghost use Rattle.line_text.specs.Common.{Stands, FirstFault, IsFirstFault, ReadsText};
ghost use Rattle.line_text.specs.declared.faults.FaultKind.{FaultKind};

use crate::faults::{FaultKind, TextFault};
use crate::format::{LineFault, LineFormat};
use crate::reading::read;
use std::alloc::Global;

/// Reads a text by the rules of a format: the value that it stands for, or the first line outside
/// the format with the kind of its error. The errors are those of `TextFault`: `At`, with this line
/// and kind, and `Memory`, which may come at any time. Costs what `read` costs.
pub fn read_text<F: LineFormat<Kind = FaultKind>>(
    alloc: Global,
    format: &F,
    text: &[u8],
) -> Result<F::Value, TextFault>
    requires { length text.now < 2 ^ 32 - 1 }
    ensures value { IfOk result (λ value. Stands (F.rules format.now) text.now (F.meaning value)) }
    ensures fault { IfErr result (IsFirstFault (F.rules format.now) text.now) }
    ensures stands { (value : F.Meaning) → Stands (F.rules format.now) text.now value →
        ReadsText F.meaning result (Ok value) }
    ensures breaks { (line : ℕ) (kind : FaultKind) →
        FirstFault (F.rules format.now) text.now line kind →
        ReadsText F.meaning result (Err (line, kind)) }
{
    match read(alloc, format, text) {
        Ok(value) => Ok(value),
        Err(LineFault::At { line, kind }) => Err(TextFault::At { line, kind }),
        Err(LineFault::Memory) => Err(TextFault::Memory),
    }
}
