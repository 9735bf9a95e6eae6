//! Lists of one line that is as long as a line may be, or longer: whether it is answered, and how
//! much of its text is kept if it is not.

use super::lists::Copyist;
use graph_core::line_text::FaultKind;
use mcg6_reader::{InputEnding, tell_all};
use outside::{MemSink, MemSource};
use std::alloc::{AllocError as Memory, Global};
use std::test::Fail;

// The length of a line, and how many bytes of its text are kept if it is too long.
static LONG_LINES: [(usize, Option<usize>); 4] = [
    (65_535, None),
    (65_536, Some(65_537)),
    (65_537, Some(65_538)),
    (10_000_000, Some(131_072)),
];

// Whether the ending keeps so many bytes of a first line that is too long, the first of the list,
// or is that of a list that was answered.
fn keeps(ending: &InputEnding, kept: Option<usize>, list: &[u8]) -> bool {
    match (ending, kept) {
        (InputEnding::Done, None) => true,
        (InputEnding::Bad { found }, Some(kept)) => {
            found.number == 1
                && found.kind == FaultKind::Limit
                && found.text.len() == kept
                && found.text.iter().zip(list).all(|(a, b)| *a == *b)
        }
        _ => false,
    }
}

// A line of that length, and its line feed.
fn line_of(alloc: Global, length: usize) -> Result<Vec<u8>, Memory> {
    let mut line = vec![in alloc; b'?'; length]?;
    line.push(b'\n')?;
    Ok(line)
}

// Whether a line is written with its number, or, if so many of its bytes are kept, nothing is.
fn is_written(line: &[u8], kept: Option<usize>, written: &[u8]) -> bool {
    match kept {
        Some(_) => written.is_empty(),
        None => {
            written.len() == line.len().saturating_add(2)
                && written.starts_with(b"1 ".as_slice())
                && written.ends_with(line)
        }
    }
}

// Whether a list of one line of that length is told so.
fn ends_so(alloc: Global, length: usize, kept: Option<usize>) -> Result<bool, Memory> {
    let list = line_of(alloc, length)?;
    let mut source = MemSource::new(alloc, &list)?;
    let mut sink = MemSink::new(alloc, 100_000, 100_000)?;
    let mut skipped = Vec::new(alloc);
    let told = tell_all(alloc, &Copyist, &mut source, &mut sink, &mut skipped);
    Ok(keeps(&told, kept, &list) && is_written(&list, kept, sink.bytes()))
}

#[test]
fn a_line_is_too_long(rt: HostRuntime) -> Result<(), Fail> {
    for (length, kept) in &LONG_LINES {
        assert!(rt; ends_so(rt.alloc(), *length, *kept)?);
    }
    Ok(())
}
