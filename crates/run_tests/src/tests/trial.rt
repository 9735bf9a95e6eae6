//! Runs of the top call over files in memory.
use bench_top::outside::{MemShelf, MemSink};
use bench_top::{Status, run};
use std::alloc::Global;
use std::str;
use std::test::Fail;

// The names of the files, in order.
const NAMES: [&str; 3] = ["g", "s", "t"];

// The words of the commands that ask for a second file.
pub const CHECK: &[&str] = &["check", "g", "s"];

pub const CHECK_EARS: &[&str] = &["checkears", "g", "s"];

pub const COMPARE: &[&str] = &["compare", "g", "s", "t"];

pub const SCRIPT: &[&str] = &["script", "g", "s", "t"];

pub const REPLAY: &[&str] = &["replay", "g", "s", "t"];

/// The files of a run, and the report that is expected.
pub type RunRow = (&'static [&'static str], &'static str);

/// A status, and rows of runs that have it.
pub type Runs = (Status, &'static [RunRow]);

/// The number of a file of a run, and the line and the kind of its first fault.
pub type FileFault = (usize, u32, u32);

/// The words of a command.
pub fn words_of(alloc: Global, words: &[&str]) -> Result<Vec<String>, Fail> {
    let mut list = Vec::new(alloc);
    for word in words {
        list.push(String::from_str(alloc, word)?)?;
    }
    Ok(list)
}

/// A shelf with these files, which are named `g`, `s` and `t`.
pub fn shelf_of(alloc: Global, files: &[&str]) -> Result<MemShelf, Fail> {
    let mut shelf = MemShelf::new(alloc);
    for (name, file) in NAMES.iter().zip(files) {
        shelf.put(name, file.as_bytes())?;
    }
    Ok(shelf)
}

/// A shelf as `shelf_of` makes it, without the file at a place.
pub fn shelf_without(alloc: Global, files: &[&str], place: usize) -> Result<MemShelf, Fail> {
    let mut shelf = MemShelf::new(alloc);
    for (i, (name, file)) in NAMES.iter().zip(files).enumerate() {
        if i != place {
            shelf.put(name, file.as_bytes())?;
        }
    }
    Ok(shelf)
}

/// What the words answer and write over a shelf and a sink.
pub fn ran_over(
    alloc: Global,
    words: &[&str],
    mut shelf: MemShelf,
    mut sink: MemSink,
) -> Result<(Status, String), Fail> {
    let words = words_of(alloc, words)?;
    let status = run(alloc, &words, &mut shelf, &mut sink);
    let written = String::from_str(alloc, str::from_utf8(sink.bytes())?)?;
    Ok((status, written))
}

/// What the words answer and write over these files.
pub fn ran(alloc: Global, words: &[&str], files: &[&str]) -> Result<(Status, String), Fail> {
    let shelf = shelf_of(alloc, files)?;
    let sink = MemSink::new(alloc, 65_536, 65_536)?;
    ran_over(alloc, words, shelf, sink)
}

/// What is written if the words are done over these files.
pub fn report(alloc: Global, words: &[&str], files: &[&str]) -> Result<String, Fail> {
    let (status, written) = ran(alloc, words, files)?;
    if status == Status::Done {
        return Ok(written);
    }
    Err("a run that is not done".into())
}

/// Whether the words answer this status and write this report over these files.
pub fn answers(
    alloc: Global,
    words: &[&str],
    files: &[&str],
    status: Status,
    report: &str,
) -> Result<bool, Fail> {
    let (answer, written) = ran(alloc, words, files)?;
    Ok(answer == status && written.as_str() == report)
}

/// Whether the words refuse one of these files for its first fault.
pub fn names_fault(
    alloc: Global,
    words: &[&str],
    files: &[&str],
    (file, line, kind): FileFault,
) -> Result<bool, Fail> {
    let report = format!(in alloc; "file {file} line {line} kind {kind}\n")?;
    answers(alloc, words, files, Status::BadInput, &report)
}

/// Whether the words refuse the last of these files for its first fault.
pub fn is_refused(
    alloc: Global,
    words: &[&str],
    files: &[&str],
    line: u32,
    kind: u32,
) -> Result<bool, Fail> {
    names_fault(alloc, words, files, (files.len(), line, kind))
}

/// Fails at the first row whose files give another answer than this status, or another report than
/// the row's, with that report.
pub fn all_answer(
    alloc: Global,
    words: &[&str],
    status: Status,
    rows: &[RunRow],
) -> Result<(), Fail> {
    for (files, report) in rows {
        if !answers(alloc, words, files, status, report)? {
            return Err(Fail::new(*report));
        }
    }
    Ok(())
}

/// Fails as `all_answer` does, over the rows of each status.
pub fn all_runs_answer(alloc: Global, words: &[&str], runs: &[Runs]) -> Result<(), Fail> {
    for (status, rows) in runs {
        all_answer(alloc, words, *status, rows)?;
    }
    Ok(())
}
