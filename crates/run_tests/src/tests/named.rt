//! Graphs in version 2 through the commands whose reports do not list names: what is answered is
//! what is answered on version 1.
use super::graphs::{HEXAGON, HEXAGON_TREE, OTHER_HEXAGON_TREE};
use super::trial::{CHECK, CHECK_EARS, COMPARE, REPLAY, SCRIPT, ran};
use bench_top::Status;
use std::alloc::Global;
use std::test::Fail;

// The hexagon with names, which fall where the numbers rise.
const NAMED_HEXAGON: &str =
    "p mcg2 6 6\nv f\nv e\nv d\nv c\nv b\nv a\ne f e\ne e d\ne d c\ne c b\ne b a\ne a f\n";

// The words, the files beside the graph, and the status.
static RUNS: [(&[&str], [&str; 2], Status); 9] = [
    (CHECK, [HEXAGON_TREE, ""], Status::Done),
    (CHECK, ["t mcg 6\nleaf\n", ""], Status::Negative),
    (
        CHECK_EARS,
        ["r mcg 6 6\nstart 1\near 2 2 3 4 5 6\n", ""],
        Status::Done,
    ),
    (CHECK_EARS, ["r mcg 6 6\nstart 1\n", ""], Status::Negative),
    (&["ears", "g"], ["", ""], Status::Done),
    (COMPARE, [HEXAGON_TREE, OTHER_HEXAGON_TREE], Status::Done),
    (COMPARE, [HEXAGON_TREE, "t mcg 6\nleaf\n"], Status::Negative),
    (SCRIPT, [HEXAGON_TREE, OTHER_HEXAGON_TREE], Status::Done),
    (
        REPLAY,
        [HEXAGON_TREE, "m mcg 6\nswitch . 1 4\n"],
        Status::Done,
    ),
];

// Whether both versions of the hexagon have this status and one report.
fn are_alike(
    alloc: Global,
    words: &[&str],
    files: [&str; 2],
    status: Status,
) -> Result<bool, Fail> {
    let [second, third] = files;
    let plain = ran(alloc, words, &[HEXAGON, second, third])?;
    let named = ran(alloc, words, &[NAMED_HEXAGON, second, third])?;
    Ok(plain.0 == status && named.0 == status && plain.1.as_str() == named.1.as_str())
}

#[test]
fn version_two_as_version_one(rt: HostRuntime) -> Result<(), Fail> {
    for (words, files, status) in &RUNS {
        assert!(rt; are_alike(rt.alloc(), words, *files, *status)?);
    }
    Ok(())
}
