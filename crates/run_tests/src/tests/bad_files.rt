//! Files beyond the limits of size, and which of several bad files is named.
use super::graphs::{HEXAGON, HEXAGON_TREE, OTHER_HEXAGON_TREE, TWO_EDGES};
use super::trial::{
    CHECK, CHECK_EARS, COMPARE, FileFault, REPLAY, SCRIPT, is_refused, names_fault,
};
use std::alloc::{AllocError as Memory, Global};
use std::test::Fail;

// So many copies of a piece, after a start.
fn long_text(alloc: Global, start: &str, piece: &str, many: usize) -> Result<String, Memory> {
    let mut text = String::from_str(alloc, start)?;
    for _ in 0..many {
        text.push_str(piece)?;
    }
    Ok(text)
}

// Files of spaces around the limit of bytes: their sizes, and the line and the kind of the fault.
static SPACES: [(usize, u32, u32); 3] = [(131_073, 2, 1), (1_048_576, 2, 1), (1_048_577, 0, 6)];

#[test]
fn files_of_spaces(rt: HostRuntime) -> Result<(), Fail> {
    for (size, line, kind) in &SPACES {
        let text = long_text(rt.alloc(), "", " ", *size)?;
        let files = [text.as_str()];
        assert!(rt; is_refused(rt.alloc(), &["analyse", "g"], &files, *line, *kind)?);
    }
    Ok(())
}

#[test]
fn a_tree_that_is_too_long(rt: HostRuntime) -> Result<(), Fail> {
    let tree = long_text(rt.alloc(), "t mcg 6\n", "cut 1\n", 128)?;
    let files = [HEXAGON, tree.as_str()];
    assert!(rt; is_refused(rt.alloc(), CHECK, &files, 129, 6)?);
    Ok(())
}

// Whether these moves on the hexagon are refused for their first fault.
fn moves_are_refused(alloc: Global, moves: &str, line: u32, kind: u32) -> Result<bool, Fail> {
    let files = [HEXAGON, HEXAGON_TREE, moves];
    is_refused(alloc, REPLAY, &files, line, kind)
}

#[test]
fn moves_that_are_too_long(rt: HostRuntime) -> Result<(), Fail> {
    let moves = long_text(rt.alloc(), "m mcg 6\n", "rotate .\n", 20_001)?;
    assert!(rt; moves_are_refused(rt.alloc(), &moves, 20_002, 6)?);
    let path = long_text(rt.alloc(), "m mcg 6\nrotate ", "k", 128)?;
    assert!(rt; moves_are_refused(rt.alloc(), &path, 2, 2)?);
    Ok(())
}

// Words, the first two of their files, of which one ends too early, and its number. The graph
// comes first, and a graph that is not covered is reported only if the other file is good.
static EARLY_ENDS: [(&[&str], [&str; 2], usize); 11] = [
    (CHECK, ["p mcg 2 1\n", "t mcg 6\ncut\n"], 1),
    (CHECK, [TWO_EDGES, "t mcg 4\n"], 2),
    (CHECK_EARS, ["p mcg 2 1\n", "r mcg 4 2\n"], 1),
    (CHECK_EARS, [TWO_EDGES, "r mcg 4 2\n"], 2),
    (
        &["decompose", "g", "script", "s"],
        ["p mcg 2 1\n", "s mcg 1\n"],
        1,
    ),
    (
        &["decompose", "g", "script", "s"],
        ["p mcg 0 0\n", "s mcg 1\n"],
        2,
    ),
    (&["ears", "g"], ["p mcg 2 1\n", ""], 1),
    (COMPARE, [TWO_EDGES, "t mcg 4\n"], 2),
    (SCRIPT, [TWO_EDGES, "t mcg 4\n"], 2),
    (REPLAY, [TWO_EDGES, "t mcg 4\n"], 2),
    (REPLAY, ["p mcg 2 1\n", "t mcg 4\n"], 1),
];

#[test]
fn the_first_bad_file(rt: HostRuntime) -> Result<(), Fail> {
    for (words, [graph, text], file) in &EARLY_ENDS {
        let files = [*graph, *text, "t mcg 4\n"];
        assert!(rt; names_fault(rt.alloc(), words, &files, (*file, 2, 7))?);
    }
    Ok(())
}

// Two trees of the hexagon, of which the second is outside the format, or both are: then the first
// is named.
static SECOND_TREES: [([&str; 2], FileFault); 4] = [
    ([HEXAGON_TREE, "t mcg 6\ncut 6 2\n"], (3, 2, 9)),
    ([OTHER_HEXAGON_TREE, "s mcg 1\npick 2\n"], (3, 1, 1)),
    (["t mcg 6\nleaf\n", "t mcg 6\ncut 2 3 4\nleaf\n"], (3, 4, 7)),
    (["s mcg 1\npick 2\n", "t mcg 6\ncut 6 2\n"], (2, 1, 1)),
];

#[test]
fn bad_second_trees(rt: HostRuntime) -> Result<(), Fail> {
    for words in [COMPARE, SCRIPT] {
        for ([first, second], fault) in &SECOND_TREES {
            let files = [HEXAGON, *first, *second];
            assert!(rt; names_fault(rt.alloc(), words, &files, *fault)?);
        }
    }
    Ok(())
}
