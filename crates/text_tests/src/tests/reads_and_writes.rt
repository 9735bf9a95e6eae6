//! What is read and written through the outside: each form is used once with ample memory, and
//! the two forms of the runtime meet a real file and a real output.
use outside::{
    CountSink, DirShelf, MemShelf, MemSink, OutSink, Shelf, ShelfFault, Sink, SinkFailed,
};
use std::alloc::{AllocError as Memory, Global};
use std::fs;
use std::test::Fail;

const K4: &[u8] = b"p mcg 4 6\ne 1 2\ne 1 3\ne 1 4\ne 2 3\ne 2 4\ne 3 4\n";

// The bytes of a file, or why it is not read.
type Read = Result<&'static [u8], ShelfFault>;

// The reads of a shelf, one after the other: a name, how many bytes are taken at most, and what
// is read. `K4` has 46 bytes.
static READS: [(&str, u32, Read); 7] = [
    ("k4", 46, Ok(K4)),
    ("k4", 45, Err(ShelfFault::TooLong)),
    ("k4", 46, Err(ShelfFault::Failed)),
    ("k4", 46, Ok(K4)),
    ("k", 46, Err(ShelfFault::Failed)),
    ("empty", 0, Ok(b"")),
    ("K4", 1_048_576, Err(ShelfFault::Failed)),
];

// A shelf with two files, of which one is put twice, that fails at the third read.
fn shelf_of_two(alloc: Global) -> Result<MemShelf, Memory> {
    let mut shelf = MemShelf::new(alloc);
    shelf.put("k4", K4)?;
    shelf.put("empty", b"")?;
    shelf.put("k4", b"a second file of one name")?;
    shelf.fail_read(3)?;
    Ok(shelf)
}

// Whether the next read of the shelf gives this.
fn gives<S: Shelf>(
    alloc: Global,
    shelf: &mut S,
    name: &str,
    limit: u32,
    wanted: Result<&[u8], ShelfFault>,
) -> bool {
    match (shelf.read(alloc, name, limit as usize), wanted) {
        (Ok(bytes), Ok(wanted)) => bytes.as_slice() == wanted,
        (Err(fault), Err(wanted)) => fault == wanted,
        _ => false,
    }
}

#[test]
fn mem_shelf_reads_what_was_put(rt: HostRuntime) -> Result<(), Fail> {
    let mut shelf = shelf_of_two(rt.alloc())?;
    for (name, limit, wanted) in &READS {
        assert!(rt; gives(rt.alloc(), &mut shelf, name, *limit, *wanted));
    }
    Ok(())
}

// The writes into a sink for 24 bytes, at most 16 in one write, of which the second fails: the
// bytes, the answer, and all that is written by then.
static WRITES: [(&[u8], Result<usize, SinkFailed>, &[u8]); 5] = [
    (
        b"graph 4 6\ncomponents 1\nbipartite no\n",
        Ok(16),
        b"graph 4 6\ncompon",
    ),
    (
        b"ents 1\nbipartite no\n",
        Err(SinkFailed),
        b"graph 4 6\ncompon",
    ),
    (b"", Ok(0), b"graph 4 6\ncompon"),
    (
        b"ents 1\nbipartite no\n",
        Ok(8),
        b"graph 4 6\ncomponents 1\nb",
    ),
    (b"ipartite no\n", Ok(0), b"graph 4 6\ncomponents 1\nb"),
];

#[test]
fn mem_sink_takes_its_share(rt: HostRuntime) -> Result<(), Fail> {
    let mut sink = MemSink::new(rt.alloc(), 24, 16)?;
    sink.fail_write(2)?;
    for (bytes, answer, written) in &WRITES {
        assert!(rt; sink.write(bytes) == *answer && sink.bytes() == *written);
    }
    Ok(())
}

#[test]
fn count_sink_counts_bytes(rt: HostRuntime) {
    let mut sink = CountSink::new();
    assert!(rt; sink.write(b"graph 4 6\n") == Ok(10));
    assert!(rt; sink.write(b"") == Ok(0));
    assert!(rt; sink.write(b"components 1\n") == Ok(13));
    assert!(rt; sink.count() == 23);
}

#[test]
fn dir_shelf_reads_a_file(rt: HostRuntime) -> Result<(), Fail> {
    let name = "dir_shelf_reads_a_file.mcg";
    let long = vec![in rt.alloc(); b'c'; 10_000]?;
    fs::write(&rt, name, long.as_slice())?;
    let mut shelf = DirShelf::new(&rt);
    let whole = gives(rt.alloc(), &mut shelf, name, 10_000, Ok(&long));
    let cut = gives(
        rt.alloc(),
        &mut shelf,
        name,
        9_999,
        Err(ShelfFault::TooLong),
    );
    fs::remove_file(&rt, name)?;
    assert!(rt; whole && cut);
    for name in [name, "."] {
        assert!(rt;
            gives(
                rt.alloc(),
                &mut shelf,
                name,
                10_000,
                Err(ShelfFault::Failed)
            )
        );
    }
    Ok(())
}

#[test]
fn out_sink_writes_the_standard_output(rt: HostRuntime) {
    let mut sink = OutSink::new(&rt);
    assert!(rt; sink.write(b"graph 4 6\n") == Ok(10));
    assert!(rt; sink.write(b"") == Ok(0));
}
