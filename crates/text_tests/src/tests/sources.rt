//! What is read through a source: each form is used once, and the form of the runtime meets a
//! real file.
use outside::{InSource, MemSink, MemSource, Source, SourceFailed, TracedReader, emit};
use std::alloc::{AllocError as Memory, Global};
use std::fs;
use std::test::Fail;

// The reads of a source, one after the other: the room for a portion, at most 8 bytes, and the
// portion.
static PORTIONS: [(usize, Result<&[u8], SourceFailed>); 8] = [
    (8, Ok(b"C~")),
    (8, Ok(b"\n")),
    (8, Err(SourceFailed)),
    (0, Ok(b"")),
    (3, Ok(b"A_\n")),
    (8, Ok(b"D{{\n")),
    (8, Ok(b"")),
    (8, Ok(b"")),
];

// A list of three lines in planned portions, of which the third read fails.
fn planned_source(alloc: Global) -> Result<MemSource, Memory> {
    let mut source = MemSource::new(alloc, b"C~\nA_\nD{{\n")?;
    source.plan_size(2)?;
    source.plan_size(0)?;
    source.fail_read(3)?;
    Ok(source)
}

// Whether the next read of the source, into so much room, gives this.
fn gives<S: Source>(source: &mut S, room: usize, wanted: Result<&[u8], SourceFailed>) -> bool {
    let mut piece = [0u8; 8];
    match (source.read(&mut piece[..room.min(8)]), wanted) {
        (Ok(count), Ok(wanted)) => count <= 8 && &piece[..count] == wanted,
        (Err(_), Err(_)) => true,
        _ => false,
    }
}

#[test]
fn mem_source_gives_its_portions(rt: HostRuntime) -> Result<(), Fail> {
    let mut source = planned_source(rt.alloc())?;
    for (room, wanted) in &PORTIONS {
        assert!(rt; gives(&mut source, *room, *wanted));
    }
    Ok(())
}

#[test]
fn in_source_reads_a_file(rt: HostRuntime) -> Result<(), Fail> {
    let name = "in_source_reads_a_file.g6";
    fs::write(&rt, name, b"C~\nA_\n".as_slice())?;
    let mut source = InSource::new(TracedReader::open(&rt, Some(name)));
    let whole = gives(&mut source, 8, Ok(b"C~\nA_\n"));
    let end = gives(&mut source, 8, Ok(b""));
    fs::remove_file(&rt, name)?;
    assert!(rt; whole && end);
    // a file that is gone, and a folder, which is opened, but not read
    for name in [name, "."] {
        let mut refused = InSource::new(TracedReader::open(&rt, Some(name)));
        assert!(rt; gives(&mut refused, 8, Err(SourceFailed)));
    }
    Ok(())
}

#[test]
fn emit_writes_the_rest_again(rt: HostRuntime) -> Result<(), Fail> {
    let mut sink = MemSink::new(rt.alloc(), 12, 5)?;
    assert!(rt; emit(&mut sink, b"C~ 4 6\n").is_ok());
    assert!(rt; emit(&mut sink, b"A_ 2 1\n").is_err());
    assert!(rt; sink.bytes() == b"C~ 4 6\nA_ 2 ".as_slice());
    Ok(())
}
