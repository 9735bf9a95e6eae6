//! One reader for all formats: it takes the significant lines in order, and returns the value that
//! the text stands for, or its first error.
ghost use Rattle.std.specs.Prelude.{◌≡◌, ◌<◌, ◌-◌, ◌^◌, ℕ, map, length, IfOk, IfErr, Ok, Err};
ghost use Rattle.std.specs.Option.{option_map};
ghost use Rattle.line_text.specs.Common.{words_of, finish, Stands, FirstFault, Gives, Reads, state_after, reading_of, placed, IsFirst};

use crate::format::{LineFault, LineFormat, RuleFault};
use crate::lines::split_line;
use crate::words::{is_skipped, split_words};
use std::alloc::Global;

// What has been read after this line; before the header it is nothing.
fn read_line<F: LineFormat>(
    alloc: Global,
    format: &F,
    body: Option<F::Body>,
    line: &[u8],
) -> Result<Option<F::Body>, RuleFault<F::Kind>>
    ensures { Gives (option_map F.state) result
        (state_after (F.rules format.now) (option_map F.state body) (words_of line.now)) }
{
    let words = split_words(alloc, line)?;
    if is_skipped(&words) {
        return Ok(body);
    }
    let next = match body {
        None => format.header(&words),
        Some(body) => format.line(body, &words),
    };
    next.map(Some)
}

// What the text stands for if it ends here.
fn read_end<F: LineFormat>(
    format: &F,
    body: Option<F::Body>,
) -> Result<F::Value, RuleFault<F::Kind>>
    ensures { Gives F.meaning result (finish (F.rules format.now) (option_map F.state body)) }
{
    match body {
        None => Err(RuleFault::Fault(format.headless())),
        Some(body) => format.close(body),
    }
}

// The error of a rule at a line.
fn place<K>(refusal: RuleFault<K>, line: u32) -> LineFault<K>
    ensures { result ≡ placed line refusal }
{
    match refusal {
        RuleFault::Fault(kind) => LineFault::At { line, kind },
        RuleFault::Memory => LineFault::Memory,
    }
}

// Reads a text line by line.
fn read_lines<F: LineFormat>(
    alloc: Global,
    format: &F,
    text: &[u8],
) -> Result<F::Value, LineFault<F::Kind>>
    requires { length text.now < 2 ^ 32 - 1 }
    ensures { Reads F.meaning result (reading_of (F.rules format.now) text.now) }
{
    let mut body = None;
    let mut line = 0u32;
    let mut rest = text;
    'lines: while let Some((first, others)) = split_line(rest) {
        rest = others;
        line += 1;
        match read_line(alloc, format, body, first) {
            Ok(next) => body = next,
            Err(refusal) => return Err(place(refusal, line)),
        }
    }
    match read_end(format, body) {
        Ok(value) => Ok(value),
        Err(refusal) => Err(place(refusal, line + 1)),
    }
}

/// The value that a text stands for in a format, or its first error.
///
/// `Ok` comes if and only if the text stands for a value, which is then returned, and
/// `LineFault::At` if and only if it has a first error, with its line and kind; `LineFault::Memory`
/// may come instead of either. Of the format only `header`, `line` and `close` are called, once for
/// each line that is not skipped and once for the end. The rest takes O(b) time for b bytes.
pub fn read<F: LineFormat>(
    alloc: Global,
    format: &F,
    text: &[u8],
) -> Result<F::Value, LineFault<F::Kind>>
    // The number of a line, and the number one past the last line, fit 32 bits.
    requires { length text.now < 2 ^ 32 - 1 }
    ensures value { IfOk result (λ value. Stands (F.rules format.now) text.now (F.meaning value)) }
    ensures fault { IfErr result (IsFirst (F.rules format.now) text.now) }
    ensures stands { (value : F.Meaning) → Stands (F.rules format.now) text.now value
        → Reads F.meaning result (Ok value) }
    ensures breaks { (line : ℕ) (kind : F.Kind) → FirstFault (F.rules format.now) text.now line kind
        → Reads F.meaning result (Err (line, kind)) }
{
    read_lines(alloc, format, text)
}
