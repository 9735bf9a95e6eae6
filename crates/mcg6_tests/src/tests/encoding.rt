//! Graph files as graph6: the line of each file and how it ends, in pieces of small sizes, with a
//! read that fails, and with too little room for the line.

use line_text::FaultKind;
use mcg6_encoder::encode;
use mcg6_encoder::mcg6_reader::{BadLine, InputEnding};
use mcg6_encoder::outside::{MOST_BYTES, MemSink, MemSource};
use std::alloc::{AllocError as Memory, Global};
use std::test::Fail;

// The number, the kind and the text of a bad line.
type Bad = (u64, FaultKind, &'static str);

// A file, what is written of it, and its bad line, if it has one.
type Row = (&'static str, &'static str, Option<Bad>);

const K4: &str = "p mcg 4 6\ne 1 2\ne 1 3\ne 1 4\ne 2 3\ne 2 4\ne 3 4\n";

static ROWS: [Row; 9] = [
    (K4, "C~\n", None),
    ("p mcg 0 0\n", "?\n", None),
    ("p mcg 3 0", "B?\n", None),
    ("p mcg 2 3\ne 1 2\ne 2 1\ne 1 2\n", "A_\n", None),
    (
        "p mcg2 3 3\nv a\nv b\nv c\ne c a\ne a c\ne b c\n",
        "BW\n",
        None,
    ),
    ("", "", Some((1, FaultKind::Header, ""))),
    ("C~\n", "", Some((1, FaultKind::Header, "C~"))),
    (
        "c a comment\np mcg 2 1\ne 1 3 \r\n",
        "",
        Some((3, FaultKind::Range, "e 1 3 \r")),
    ),
    ("p mcg 2 2\ne 1 2\n", "", Some((3, FaultKind::Missing, ""))),
];

// A source of the file in pieces of that size.
fn in_pieces(alloc: Global, file: &str, size: usize) -> Result<MemSource, Memory> {
    let mut source = MemSource::new(alloc, file.as_bytes())?;
    for _ in 0..file.len() {
        source.plan_size(size)?;
    }
    Ok(source)
}

// How the encoding of a file ends with this bad line, if it has one.
fn ending_of(alloc: Global, bad: &Option<Bad>) -> Result<InputEnding, Memory> {
    match bad {
        Some((number, kind, text)) => {
            let found = BadLine {
                number: *number,
                kind: *kind,
                text: Vec::from_slice(alloc, text.as_bytes())?,
            };
            Ok(InputEnding::Bad { found })
        }
        None => Ok(InputEnding::Done),
    }
}

// Whether the encoding of a source ends so, and leaves these bytes in the sink.
fn is_encoded(
    alloc: Global,
    mut source: MemSource,
    mut sink: MemSink,
    ending: &InputEnding,
    wanted: &[u8],
) -> bool {
    let ended = encode(alloc, &mut source, &mut sink);
    ended == *ending && sink.bytes() == wanted
}

// Whether the file is encoded so in pieces of each size from 1 to 7.
fn is_encoded_in_pieces(alloc: Global, (file, wanted, bad): &Row) -> Result<bool, Memory> {
    let ending = ending_of(alloc, bad)?;
    for size in 1..8 {
        let source = in_pieces(alloc, file, size)?;
        let sink = MemSink::new(alloc, 100, 2)?;
        if !is_encoded(alloc, source, sink, &ending, wanted.as_bytes()) {
            return Ok(false);
        }
    }
    Ok(true)
}

#[test]
fn files_in_pieces(rt: HostRuntime) -> Result<(), Fail> {
    for row in &ROWS {
        assert!(rt; is_encoded_in_pieces(rt.alloc(), row)?);
    }
    Ok(())
}

#[test]
fn a_read_fails(rt: HostRuntime) -> Result<(), Fail> {
    for read in 1..5 {
        let mut source = in_pieces(rt.alloc(), K4, 20)?;
        source.fail_read(read)?;
        let sink = MemSink::new(rt.alloc(), 100, 100)?;
        assert!(rt; is_encoded(rt.alloc(), source, sink, &InputEnding::ReadFault, b""));
    }
    Ok(())
}

#[test]
fn the_room_is_too_small(rt: HostRuntime) -> Result<(), Fail> {
    let whole = b"C~\n";
    for room in 0..whole.len() {
        let source = in_pieces(rt.alloc(), K4, 100)?;
        let sink = MemSink::new(rt.alloc(), room, 100)?;
        assert!(rt;
            is_encoded(
                rt.alloc(),
                source,
                sink,
                &InputEnding::WriteFault,
                &whole[..room]
            )
        );
    }
    Ok(())
}

// How many empty lines a file has, and its bad line.
static LONG_FILES: [(usize, Option<Bad>); 2] = [
    (MOST_BYTES, Some((1_048_577, FaultKind::Header, ""))),
    (MOST_BYTES + 1, Some((0, FaultKind::Limit, ""))),
];

// Whether the encoding of a file of so many empty lines ends with this bad line.
fn ends_so(alloc: Global, length: usize, bad: &Option<Bad>) -> Result<bool, Memory> {
    let file = vec![in alloc; b'\n'; length]?;
    let source = MemSource::new(alloc, &file)?;
    let sink = MemSink::new(alloc, 100, 100)?;
    Ok(is_encoded(alloc, source, sink, &ending_of(alloc, bad)?, b""))
}

#[test]
fn a_file_is_too_long(rt: HostRuntime) -> Result<(), Fail> {
    for (length, bad) in &LONG_FILES {
        assert!(rt; ends_so(rt.alloc(), *length, bad)?);
    }
    Ok(())
}
