//! Faults of the outside, over all commands: each read and each write fails in turn, each file is
//! missing in turn, the room is too small, and nothing fails. A read beyond those of the files
//! would fail too, and none comes.
use super::graphs::{
    CUBE, CUBE_EARS, HEXAGON, HEXAGON_TREE, K4, NAMED_CYCLE, OTHER_HEXAGON_TREE, PATH, PRISM,
    TRIANGLE_IN_K33, TWO_EDGES,
};
use super::trial::{
    CHECK, CHECK_EARS, COMPARE, REPLAY, SCRIPT, ran, ran_over, shelf_of, shelf_without, words_of,
};
use bench_top::outside::{CountSink, MemShelf, MemSink};
use bench_top::{Status, run};
use std::alloc::Global;
use std::test::Fail;

// Runs of each command that are done or refused, and two whose last file is outside its format:
// the words, the files that they name, and the status.
static RUNS: [(&[&str], &[&str], Status); 29] = [
    (&["analyse", "g"], &[K4], Status::Done),
    (&["analyse", "g"], &[CUBE], Status::Done),
    (&["analyse", "g"], &[TRIANGLE_IN_K33], Status::Done),
    (&["analyse", "g"], &[TWO_EDGES], Status::Done),
    (&["convert", "g"], &[NAMED_CYCLE], Status::Done),
    (&["analyse6", "g"], &["C~\n"], Status::Done),
    (&["decompose", "g", "first"], &[HEXAGON], Status::Done),
    (&["decompose", "g", "last"], &[PATH], Status::Negative),
    (
        &["decompose", "g", "balanced"],
        &[NAMED_CYCLE],
        Status::Done,
    ),
    (
        &["decompose", "g", "script", "s"],
        &[HEXAGON, "s mcg 1\npick 2\n"],
        Status::Done,
    ),
    (CHECK, &[HEXAGON, HEXAGON_TREE], Status::Done),
    (
        CHECK,
        &[PRISM, "t mcg 6\ncut 1 2 3\nleaf\nleaf\n"],
        Status::Negative,
    ),
    (
        CHECK,
        &[TRIANGLE_IN_K33, "t mcg 8\ncut 1 2 3\nleaf\nleaf\n"],
        Status::Done,
    ),
    (CHECK_EARS, &[CUBE, CUBE_EARS], Status::Done),
    (
        CHECK_EARS,
        &[K4, "r mcg 4 6\nstart 1\near 2 4 6 3\near 1 2\nwith 2 5\n"],
        Status::Done,
    ),
    (
        CHECK_EARS,
        &[K4, "r mcg 4 6\nstart 1\near 2 4 3\n"],
        Status::Negative,
    ),
    (&["ears", "g"], &[CUBE], Status::Done),
    (&["ears", "g"], &[PATH], Status::Negative),
    (
        COMPARE,
        &[HEXAGON, HEXAGON_TREE, OTHER_HEXAGON_TREE],
        Status::Done,
    ),
    (
        COMPARE,
        &[HEXAGON, HEXAGON_TREE, "t mcg 6\nleaf\n"],
        Status::Negative,
    ),
    (
        SCRIPT,
        &[HEXAGON, HEXAGON_TREE, OTHER_HEXAGON_TREE],
        Status::Done,
    ),
    (
        SCRIPT,
        &[HEXAGON, "t mcg 6\nleaf\n", HEXAGON_TREE],
        Status::Negative,
    ),
    (
        REPLAY,
        &[HEXAGON, HEXAGON_TREE, "m mcg 6\nswitch . 1 4\n"],
        Status::Done,
    ),
    (
        REPLAY,
        &[HEXAGON, "t mcg 6\ncut 1 2\nleaf\nleaf\n", "m mcg 6\n"],
        Status::Negative,
    ),
    (&["grow", "5", "1"], &[], Status::Done),
    (&["grow", "7", "1"], &[], Status::Done),
    (&["grow", "7", "3"], &[], Status::Done),
    (&["analyse", "g"], &["p mcg 2 1\ne 1 1\n"], Status::BadInput),
    (
        SCRIPT,
        &[HEXAGON, HEXAGON_TREE, "t mcg 6\ncut 6 2\n"],
        Status::BadInput,
    ),
];

// Whether the run has its status, and the same with as many bytes over a sink that only counts.
fn counts_alike(
    alloc: Global,
    words: &[&str],
    files: &[&str],
    wanted: Status,
) -> Result<bool, Fail> {
    let (status, written) = ran(alloc, words, files)?;
    let mut shelf = shelf_of(alloc, files)?;
    let mut sink = CountSink::new();
    let words = words_of(alloc, words)?;
    let counted = run(alloc, &words, &mut shelf, &mut sink);
    Ok(status == wanted && counted == status && sink.count() == written.len() as u64)
}

// Whether a read fault comes, and nothing is written.
fn is_read_fault(alloc: Global, words: &[&str], shelf: MemShelf) -> Result<bool, Fail> {
    let sink = MemSink::new(alloc, 100, 16)?;
    let (status, written) = ran_over(alloc, words, shelf, sink)?;
    Ok(status == Status::ReadFault && written.is_empty())
}

// Whether this is so where the read call of that number fails.
fn needs_read(alloc: Global, words: &[&str], files: &[&str], call: u32) -> Result<bool, Fail> {
    let mut shelf = shelf_of(alloc, files)?;
    shelf.fail_read(call)?;
    is_read_fault(alloc, words, shelf)
}

// Whether this is so where the file at a place is missing.
fn needs_file(alloc: Global, words: &[&str], files: &[&str], place: usize) -> Result<bool, Fail> {
    is_read_fault(alloc, words, shelf_without(alloc, files, place)?)
}

// Whether this is so where the read call of each file fails in turn, and where each file is
// missing in turn; and is not so of a command without files, where the first read call would fail.
fn needs_each_file(alloc: Global, words: &[&str], files: &[&str]) -> Result<bool, Fail> {
    if files.is_empty() {
        return Ok(!needs_read(alloc, words, files, 1)?);
    }
    for (call, (place, _)) in (1..=3).zip(files.iter().enumerate()) {
        if !needs_read(alloc, words, files, call)? || !needs_file(alloc, words, files, place)? {
            return Ok(false);
        }
    }
    Ok(true)
}

// Whether the run is as ever where the read call after those of the files would fail: of a command
// without files, the first.
fn reads_no_more(alloc: Global, words: &[&str], files: &[&str]) -> Result<bool, Fail> {
    let (wanted, whole) = ran(alloc, words, files)?;
    let mut shelf = shelf_of(alloc, files)?;
    for call in 1..=4u32 {
        if files.len() < call as usize {
            shelf.fail_read(call)?;
        }
    }
    let sink = MemSink::new(alloc, 65_536, 65_536)?;
    let (status, written) = ran_over(alloc, words, shelf, sink)?;
    Ok(status == wanted && written.as_str() == whole.as_str())
}

// Whether a write fault comes over a sink of this room, which takes 16 bytes a call, and the room
// is full of the beginning of the report.
fn fills_room(
    alloc: Global,
    words: &[&str],
    files: &[&str],
    whole: &str,
    room: usize,
) -> Result<bool, Fail> {
    let shelf = shelf_of(alloc, files)?;
    let sink = MemSink::new(alloc, room, 16)?;
    let (status, written) = ran_over(alloc, words, shelf, sink)?;
    let is_full = written.len() == room && whole.starts_with(written.as_str());
    Ok(status == Status::WriteFault && is_full)
}

// Whether this is so of four small rooms, and of the room that is one byte less than the report.
fn fills_rooms(alloc: Global, words: &[&str], files: &[&str]) -> Result<bool, Fail> {
    let (_, whole) = ran(alloc, words, files)?;
    for room in [0, 1, 16, 17, whole.len().saturating_sub(1)] {
        if !fills_room(alloc, words, files, &whole, room)? {
            return Ok(false);
        }
    }
    Ok(true)
}

// Whether a write fault comes over a sink that takes 16 bytes a call, where each write call fails
// in turn, and what was written is the pieces of the report before it.
fn stops_at_each_write(alloc: Global, words: &[&str], files: &[&str]) -> Result<bool, Fail> {
    let (_, whole) = ran(alloc, words, files)?;
    let mut before = Vec::new(alloc);
    for (call, piece) in (1..=4096).zip(whole.as_bytes().chunks(16)) {
        let shelf = shelf_of(alloc, files)?;
        let mut sink = MemSink::new(alloc, 65_536, 16)?;
        sink.fail_write(call)?;
        let (status, written) = ran_over(alloc, words, shelf, sink)?;
        if status != Status::WriteFault || written.as_bytes() != before.as_slice() {
            return Ok(false);
        }
        before.extend_from_slice(piece)?;
    }
    Ok(before.as_slice() == whole.as_bytes())
}

#[test]
fn each_command_and_each_fault(rt: HostRuntime) -> Result<(), Fail> {
    for (words, files, status) in &RUNS {
        assert!(rt; counts_alike(rt.alloc(), words, files, *status)?);
        assert!(rt; needs_each_file(rt.alloc(), words, files)?);
        assert!(rt; reads_no_more(rt.alloc(), words, files)?);
        assert!(rt; fills_rooms(rt.alloc(), words, files)?);
        assert!(rt; stops_at_each_write(rt.alloc(), words, files)?);
    }
    Ok(())
}
