//! Files outside their format: for each format each row of its table of faults, with the line and
//! the kind of the first fault.
use super::graphs::{HEXAGON, HEXAGON_TREE, K4};
use super::trial::is_refused;
use std::alloc::Global;
use std::test::Fail;

/// A text, and the line and the kind of its first fault.
type Fault = (&'static str, u32, u32);

// Fails at the first text, after these files, whose first fault is not that of its row.
fn all_are_refused(
    alloc: Global,
    words: &[&str],
    before: &[&'static str],
    rows: &[Fault],
) -> Result<(), Fail> {
    for (text, line, kind) in rows {
        let mut files: Vec<&'static str> = Vec::from_slice(alloc, before)?;
        files.push(*text)?;
        if !is_refused(alloc, words, &files, *line, *kind)? {
            return Err(Fail::new(*text));
        }
    }
    Ok(())
}

// Graphs in version 1.
static VERSION_ONE: [Fault; 23] = [
    // the header
    ("p mcg 3\ne 1 2\n", 1, 1),
    ("p mcg 3 2 1\n", 1, 1),
    ("q mcg 3 2\n", 1, 1),
    ("p mgc 3 2\n", 1, 1),
    ("p mcg x 1\n", 1, 3),
    ("p mcg 1 -1\n", 1, 3),
    ("p mcg 1234567890 1\n", 1, 3),
    ("p mcg 65 65\n", 1, 6),
    ("p mcg 2 513\n", 1, 6),
    // an edge
    ("p mcg 2 1\nf 1 2\n", 2, 2),
    ("p mcg 2 1\ne 1\n", 2, 2),
    ("p mcg 2 1\ne 1 2 3\n", 2, 2),
    ("p mcg 2 1\ne 1 x\n", 2, 3),
    ("p mcg 2 1\ne 0 x\n", 2, 3),
    ("p mcg 2 1\ne 0 1\n", 2, 4),
    ("p mcg 2 1\ne 1 3\n", 2, 4),
    ("p mcg 2 1\ne 3 3\n", 2, 4),
    ("p mcg 3 2\ne 1 2\ne 3 3\n", 3, 5),
    // the end
    ("p mcg 2 1\ne 1 2\ne 1 2\n", 3, 8),
    ("p mcg 2 1\ne 1 2\n\nc more\nx\n", 5, 8),
    ("p mcg 3 2\ne 1 2\n", 3, 7),
    ("", 1, 1),
    ("c nothing else\n", 2, 1),
];

// Graphs in version 2.
static VERSION_TWO: [Fault; 20] = [
    // the header; where it has not four words the file is judged by version 1
    ("p mcg2 2\n", 1, 1),
    ("q mcg2 2 1\n", 1, 1),
    ("p mcg3 2 1\n", 1, 1),
    ("p mcg2 x 1\n", 1, 3),
    ("p mcg2 129 129\n", 1, 6),
    ("p mcg2 2 2049\n", 1, 6),
    // a vertex
    ("p mcg2 2 1\ne 1 2\n", 2, 2),
    ("p mcg2 2 1\nv\n", 2, 2),
    ("p mcg2 2 1\nv a b\n", 2, 2),
    ("p mcg2 2 1\nv a\nv b!\n", 3, 13),
    ("p mcg2 2 1\nv abcdefghijklmnopq\n", 2, 13),
    ("p mcg2 2 1\nv a\nv a\n", 3, 12),
    // an edge
    ("p mcg2 2 1\nv a\nv b\nv c\n", 4, 2),
    ("p mcg2 2 1\nv a\nv b\ne a\n", 4, 2),
    ("p mcg2 2 1\nv a\nv b\ne a c\n", 4, 11),
    ("p mcg2 2 1\nv a\nv b\ne 1 2\n", 4, 11),
    ("p mcg2 2 1\nv a\nv b\ne a a\n", 4, 5),
    // the end
    ("p mcg2 2 1\nv a\nv b\ne a b\ne a b\n", 5, 8),
    ("p mcg2 2 1\nv a\n", 3, 7),
    ("p mcg2 2 1\nv a\nv b\n", 4, 7),
];

// Texts of graph6.
static GRAPH6: [Fault; 14] = [
    ("", 1, 7),
    (">>graph6<<", 1, 7),
    ("\r\n", 1, 7),
    ("C~\nC~", 2, 8),
    (K4, 2, 8),
    (":Bc", 1, 4),
    ("C ", 1, 4),
    ("~?A", 1, 7),
    ("~~??????", 1, 6),
    ("~??C~", 1, 15),
    ("~?A@", 1, 6),
    ("C", 1, 7),
    ("C~~", 1, 8),
    ("B~", 1, 14),
];

// Derivations of the hexagon.
static DERIVATIONS: [Fault; 19] = [
    // the header
    ("t mcg\n", 1, 1),
    ("s mcg 6\n", 1, 1),
    ("t mgc 6\n", 1, 1),
    ("t mcg x\n", 1, 3),
    ("t mcg 5\nleaf\n", 1, 1),
    // a node
    ("t mcg 6\nleaves\n", 2, 2),
    ("t mcg 6\nleaf 1\n", 2, 2),
    ("t mcg 6\ncut\n", 2, 2),
    ("t mcg 6\ncut 1 2 x\n", 2, 3),
    ("t mcg 6\ncut 7 x\n", 2, 3),
    ("t mcg 6\ncut 1 2 7\n", 2, 4),
    ("t mcg 6\ncut 0 1 2\n", 2, 4),
    ("t mcg 6\ncut 6 2\n", 2, 9),
    ("t mcg 6\ncut 2 2 3\n", 2, 9),
    ("t mcg 6\ncut 1 2 6\n", 2, 10),
    // the end
    ("t mcg 6\nleaf\nleaf\n", 3, 8),
    ("t mcg 6\ncut 1 2 3\nleaf\n", 4, 7),
    ("t mcg 6\n", 2, 7),
    ("", 1, 1),
];

// Lists of picks.
static PICKS: [Fault; 12] = [
    // the header
    ("s mcg\n", 1, 1),
    ("t mcg 1\n", 1, 1),
    ("s mcg x\n", 1, 3),
    ("s mcg 128\n", 1, 6),
    // a pick
    ("s mcg 1\npicks 1\n", 2, 2),
    ("s mcg 1\npick\n", 2, 2),
    ("s mcg 1\npick 1 2\n", 2, 2),
    ("s mcg 1\npick -1\n", 2, 3),
    // the end
    ("s mcg 0\npick 1\n", 2, 8),
    ("s mcg 1\npick 1\npick 1\n", 3, 8),
    ("s mcg 1\n", 2, 7),
    ("", 1, 1),
];

// Ear lists of the complete graph of four vertices.
static EARS: [Fault; 20] = [
    // the header
    ("r mcg 4\n", 1, 1),
    ("q mcg 4 6\n", 1, 1),
    ("r mcg x 6\n", 1, 3),
    ("r mcg 5 6\n", 1, 1),
    ("r mcg 4 5\n", 1, 1),
    // the start
    ("r mcg 4 6\nbegin 1\n", 2, 2),
    ("r mcg 4 6\nstart\n", 2, 2),
    ("r mcg 4 6\nstart x\n", 2, 3),
    ("r mcg 4 6\nstart 0\n", 2, 4),
    ("r mcg 4 6\nstart 7\n", 2, 4),
    // an ear
    ("r mcg 4 6\nstart 1\neat 2 3\n", 3, 2),
    ("r mcg 4 6\nstart 1\near 2\n", 3, 2),
    ("r mcg 4 6\nstart 1\nwith 2 5\n", 3, 2),
    ("r mcg 4 6\nstart 1\near 1 2\nwith 2 3\nwith 3 4\n", 5, 2),
    ("r mcg 4 6\nstart 1\near 2 x\n", 3, 3),
    ("r mcg 4 6\nstart 1\near 0 1\n", 3, 4),
    ("r mcg 4 6\nstart 1\near 5 1\n", 3, 4),
    ("r mcg 4 6\nstart 1\near 1 7\n", 3, 4),
    // the end
    ("r mcg 4 6\n", 2, 7),
    ("", 1, 1),
];

// Moves on the hexagon.
static MOVES: [Fault; 18] = [
    // the header
    ("m mcg\n", 1, 1),
    ("t mcg 6\n", 1, 1),
    ("m mcg x\n", 1, 3),
    ("m mcg 5\n", 1, 1),
    // a move
    ("m mcg 6\nturn .\n", 2, 2),
    ("m mcg 6\nrotate\n", 2, 2),
    ("m mcg 6\nrotate k m\n", 2, 2),
    ("m mcg 6\nrotate x\n", 2, 2),
    ("m mcg 6\nrotate k.\n", 2, 2),
    ("m mcg 6\nswitch . 1\n", 2, 2),
    ("m mcg 6\nswitch . 1 4 5\n", 2, 2),
    ("m mcg 6\nswitch km 1, 4\n", 2, 3),
    ("m mcg 6\nswitch . 1,x 4\n", 2, 3),
    ("m mcg 6\nswitch . 0 4\n", 2, 4),
    ("m mcg 6\nswitch . 1 7\n", 2, 4),
    ("m mcg 6\nswitch . 2,1 4\n", 2, 9),
    ("m mcg 6\nswitch . 1 4,4\n", 2, 9),
    // the end
    ("", 1, 1),
];

#[test]
fn files_of_graphs(rt: HostRuntime) -> Result<(), Fail> {
    for command in ["analyse", "convert"] {
        let words = [command, "g"];
        all_are_refused(rt.alloc(), &words, &[], &VERSION_ONE)?;
        all_are_refused(rt.alloc(), &words, &[], &VERSION_TWO)?;
    }
    let words = ["analyse6", "g"];
    all_are_refused(rt.alloc(), &words, &[], &GRAPH6)?;
    Ok(())
}

#[test]
fn files_beside_a_graph(rt: HostRuntime) -> Result<(), Fail> {
    let words = ["check", "g", "s"];
    all_are_refused(rt.alloc(), &words, &[HEXAGON], &DERIVATIONS)?;
    let words = ["decompose", "g", "script", "s"];
    all_are_refused(rt.alloc(), &words, &[HEXAGON], &PICKS)?;
    let words = ["checkears", "g", "s"];
    all_are_refused(rt.alloc(), &words, &[K4], &EARS)?;
    let words = ["replay", "g", "s", "t"];
    all_are_refused(rt.alloc(), &words, &[HEXAGON, HEXAGON_TREE], &MOVES)?;
    Ok(())
}
