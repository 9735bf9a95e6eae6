//! Lists that are answered line by line: the output and the ending of each, in pieces of every
//! small size, with a read that fails, and with too little room for the output.
ghost use Rattle.std.specs.Prelude.{◌==◌, if◌then◌else◌};
ghost use Rattle.std.specs.declared.option.Option.TheVariants.{Some, None};
ghost use Rattle.graph_core.specs.from_line_text.declared.faults.FaultKind.TheVariants.{Missing};

use self::Wanted::{Bad, Done};
use graph_core::line_text::FaultKind::{self, Missing, Range};
use mcg6_reader::{BadLine, InputEnding, LineAnswer, LinePlace, LineTeller, tell_all};
use outside::{MemSink, MemSource};
use std::alloc::{AllocError as Memory, Global};
use std::test::Fail;

// Answers a line by its number and the line itself, calls one bad that holds a `!`, and skips one
// that holds a `$`; a list without lines is bad.
pub struct Copyist;

impl LineTeller for Copyist {
    ghost tells = { λ copyist place line output. Unit {0} };

    ghost bad = { λ copyist place line kind. Unit {0} };

    ghost lacks = { λ copyist graphs. if graphs == 0 then Some Missing else None };

    ghost skips = { λ copyist place line kind. Unit {0} };

    fn tell(&self, alloc: Global, place: LinePlace, line: &[u8]) -> Result<LineAnswer, Memory> {
        if line.contains(&b'!') {
            let kind = FaultKind::Range;
            return Ok(LineAnswer::Bad { kind });
        }
        if line.contains(&b'$') {
            let kind = FaultKind::Padding;
            return Ok(LineAnswer::Skipped { kind });
        }
        let number = place.number;
        let text = format!(in alloc; "{number} ")?;
        let mut bytes = text.into_bytes();
        bytes.extend_from_slice(line)?;
        Ok(LineAnswer::Output { bytes })
    }

    fn fault_at_end(&self, graphs: u64) -> Option<FaultKind> {
        if graphs == 0 {
            Some(FaultKind::Missing)
        } else {
            None
        }
    }
}

// How a list ends: with a bad line of this number, kind and text, or otherwise.
enum Wanted {
    Done,
    Bad(u64, FaultKind, &'static str),
    ReadFault,
    WriteFault,
}

// Whether a list that ended so ended as expected.
fn is_wanted(ending: &InputEnding, wanted: &Wanted) -> bool {
    match (ending, wanted) {
        (InputEnding::Done, Wanted::Done)
        | (InputEnding::ReadFault, Wanted::ReadFault)
        | (InputEnding::WriteFault, Wanted::WriteFault) => true,
        (InputEnding::Bad { found }, Wanted::Bad(number, kind, text)) => {
            found.number == *number
                && found.kind == *kind
                && found.text.as_slice() == text.as_bytes()
        }
        _ => false,
    }
}

// A list, what is written of it, and how it ends.
type Row = (&'static str, &'static str, Wanted);

static ROWS: [Row; 17] = [
    ("", "", Bad(1, Missing, "")),
    ("\n", "1 \n", Done),
    ("C~", "1 C~", Done),
    ("C~\n", "1 C~\n", Done),
    ("C~\r\nA_\r\n", "1 C~\r\n2 A_\r\n", Done),
    ("C~\n\nA_", "1 C~\n2 \n3 A_", Done),
    (">>graph6<<", "", Bad(2, Missing, "")),
    (">>graph6<<\n", "", Bad(2, Missing, "")),
    (">>graph6<<\nC~\n", "2 C~\n", Done),
    (">>graph6<<\r\nC~\n", "2 C~\n", Done),
    (">>graph6<<C~\nA_\n", "1 >>graph6<<C~\n2 A_\n", Done),
    ("C~\n>>graph6<<\n", "1 C~\n2 >>graph6<<\n", Done),
    ("C~\n\0\nA_\n", "1 C~\n2 \0\n3 A_\n", Done),
    ("!", "", Bad(1, Range, "!")),
    ("C~\n!\nA_\n", "1 C~\n", Bad(2, Range, "!\n")),
    (">>graph6<<\nC~\nA!", "2 C~\n", Bad(3, Range, "A!")),
    (
        "C~\nA_\n!!!!!!!!!!!!!!!!!!\n",
        "1 C~\n2 A_\n",
        Bad(3, Range, "!!!!!!!!!!!!!!!!!!\n"),
    ),
];

// A source of the list in pieces of that size.
fn in_pieces(alloc: Global, list: &str, size: usize) -> Result<MemSource, Memory> {
    let mut source = MemSource::new(alloc, list.as_bytes())?;
    for _ in 0..list.len() {
        source.plan_size(size)?;
    }
    Ok(source)
}

// The number and the text of a line that is skipped.
type Skipped = (u64, &'static str);

// Whether the reports name these lines, and no others.
fn names(skipped: &[BadLine], wanted: &[Skipped]) -> bool {
    skipped.len() == wanted.len()
        && skipped.iter().zip(wanted).all(|(found, (number, text))| {
            found.number == *number
                && found.kind == FaultKind::Padding
                && found.text.as_slice() == text.as_bytes()
        })
}

// Whether the answers to a source end so, leave these bytes in the sink, and skip these lines.
fn is_told(
    alloc: Global,
    mut source: MemSource,
    mut sink: MemSink,
    ending: &Wanted,
    wanted: &[u8],
    lines: &[Skipped],
) -> bool {
    let mut skipped = Vec::new(alloc);
    let told = tell_all(alloc, &Copyist, &mut source, &mut sink, &mut skipped);
    is_wanted(&told, ending) && sink.bytes() == wanted && names(&skipped, lines)
}

// Whether the list is answered so in pieces of that size, and these lines are skipped.
fn is_told_in_pieces(
    alloc: Global,
    (list, wanted, ending): &Row,
    lines: &[Skipped],
    size: usize,
) -> Result<bool, Memory> {
    let source = in_pieces(alloc, list, size)?;
    let sink = MemSink::new(alloc, 100, 7)?;
    Ok(is_told(alloc, source, sink, ending, wanted.as_bytes(), lines))
}

#[test]
fn lists_in_pieces(rt: HostRuntime) -> Result<(), Fail> {
    for row in &ROWS {
        for size in 1..12 {
            assert!(rt; is_told_in_pieces(rt.alloc(), row, &[], size)?);
        }
    }
    Ok(())
}

// The number of the read that fails, and the answers to a list in four pieces.
static FAILED_READS: [(u32, Wanted, &str); 5] = [
    (1, Wanted::ReadFault, ""),
    (2, Wanted::ReadFault, "1 C~\n"),
    (3, Wanted::ReadFault, "1 C~\n2 A_\n"),
    (4, Wanted::ReadFault, "1 C~\n2 A_\n3 D{\n"),
    (5, Wanted::Done, "1 C~\n2 A_\n3 D{\n4 B"),
];

// Whether the list is answered so if a read fails.
fn is_told_until(alloc: Global, read: u32, ending: &Wanted, wanted: &str) -> Result<bool, Memory> {
    let mut source = in_pieces(alloc, "C~\nA_\nD{\nB", 4)?;
    source.fail_read(read)?;
    let sink = MemSink::new(alloc, 100, 100)?;
    Ok(is_told(alloc, source, sink, ending, wanted.as_bytes(), &[]))
}

#[test]
fn a_read_fails(rt: HostRuntime) -> Result<(), Fail> {
    for (read, ending, wanted) in &FAILED_READS {
        assert!(rt; is_told_until(rt.alloc(), *read, ending, wanted)?);
    }
    Ok(())
}

// Whether the answers stop after these bytes if there is room for no more.
fn fills_room(alloc: Global, wanted: &[u8]) -> Result<bool, Memory> {
    let source = in_pieces(alloc, "C~\nA_\n!\n", 4)?;
    let sink = MemSink::new(alloc, wanted.len(), 100)?;
    Ok(is_told(alloc, source, sink, &Wanted::WriteFault, wanted, &[]))
}

#[test]
fn the_room_is_too_small(rt: HostRuntime) -> Result<(), Fail> {
    let whole = b"1 C~\n2 A_\n";
    for room in 0..whole.len() {
        assert!(rt; fills_room(rt.alloc(), &whole[..room])?);
    }
    Ok(())
}

// A list, what is written of it and how it ends, and the lines that are skipped.
static SKIPPING_ROWS: [(Row, &[Skipped]); 4] = [
    (("$\nC~\n", "2 C~\n", Done), &[(1, "$\n")]),
    (
        ("C~\n$a\n\nA_\nb$", "1 C~\n3 \n4 A_\n", Done),
        &[(2, "$a\n"), (5, "b$")],
    ),
    (("$\nA!\n$\nC~\n", "", Bad(2, Range, "A!\n")), &[(1, "$\n")]),
    ((">>graph6<<\n$\n", "", Done), &[(2, "$\n")]),
];

#[test]
fn lists_go_on_after_skipped_lines(rt: HostRuntime) -> Result<(), Fail> {
    for (row, lines) in &SKIPPING_ROWS {
        for size in 1..8 {
            assert!(rt; is_told_in_pieces(rt.alloc(), row, lines, size)?);
        }
    }
    Ok(())
}
