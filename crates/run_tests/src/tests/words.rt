//! Words that match no row of the table of words.
use super::graphs::HEXAGON;
use super::trial::{ran_over, shelf_of};
use bench_top::Status;
use bench_top::outside::MemSink;
use std::alloc::Global;
use std::test::Fail;

static WORDS: [&[&str]; 37] = [
    &[],
    &["--help"],
    &["analyse"],
    &["analyse", "g", "g"],
    &["analyse7", "g"],
    &["Analyse", "g"],
    &["convert"],
    &["convert", "g", "g"],
    &["analyse6"],
    &["decompose"],
    &["decompose", "g"],
    &["decompose", "g", "middle"],
    &["decompose", "g", "script"],
    &["decompose", "g", "first", "s"],
    &["decompose", "g", "script", "s", "s"],
    &["check", "g"],
    &["check", "g", "s", "s"],
    &["checkears", "g"],
    &["checkears", "g", "s", "s"],
    &["ears"],
    &["ears", "g", "s"],
    &["compare", "g", "s"],
    &["compare", "g", "s", "t", "t"],
    &["script", "g", "s"],
    &["script", "g", "s", "t", "t"],
    &["replay", "g", "s"],
    &["replay", "g", "s", "t", "t"],
    &["grow", "7"],
    &["grow", "7", "0"],
    &["grow", "7", "17"],
    &["grow", "1", "17"],
    &["grow", "x", "3"],
    &["grow", "1234567890", "3"],
    &["grow", "7", "3", "g"],
    &["grow", "7", "-1"],
    &["grow", "-1", "3"],
    &["grow", "-1", "2"],
];

// Whether the words are refused, and no file is read: the first read would fail.
fn are_refused(alloc: Global, words: &[&str]) -> Result<bool, Fail> {
    let mut shelf = shelf_of(alloc, &[HEXAGON, "t mcg 6\nleaf\n"])?;
    shelf.fail_read(1)?;
    let sink = MemSink::new(alloc, 100, 16)?;
    let (status, written) = ran_over(alloc, words, shelf, sink)?;
    Ok(status == Status::Usage && written.is_empty())
}

#[test]
fn words_that_match_no_command(rt: HostRuntime) -> Result<(), Fail> {
    for words in &WORDS {
        assert!(rt; are_refused(rt.alloc(), words)?);
    }
    Ok(())
}
