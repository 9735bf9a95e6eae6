//! Texts of moves.

use super::formats::Answer::{Fault, Same, Written};
use super::formats::{Answer, Beginning, LongText, TextRow};
use graph_core::line_text::FaultKind::{Header, Limit, NotRising, Number, Range, Word};
use graph_core::vset_core::VSet;
use move_text::{read_moves, write_moves};
use std::test::Fail;
use tree_core::{Move, Moves, Path, Side};

/// Moves, by the numbers of vertices for which they are read.
pub static MOVES: [(u32, &[TextRow]); 4] = [
    (2, &[("m mcg 2", Written("m mcg 2\n"))]),
    (
        6,
        &[("m mcg 6\nswitch . 1 4", Written("m mcg 6\nswitch . 1 4\n"))],
    ),
    (
        8,
        &[(
            "c two moves\nm mcg 08\r\n\nrotate  mk\nc between\n switch\tkmk 01,2,3 8",
            Written("m mcg 8\nrotate mk\nswitch kmk 1,2,3 8\n"),
        )],
    ),
    (
        20,
        &[(
            "m mcg 20\nrotate .\nrotate k\nswitch m 1,3,20 2,4,10\n",
            Same,
        )],
    ),
];

/// Faults of moves on trees over 1 to 6.
pub static FAULTS_OF_MOVES: [Beginning; 4] = [
    (
        "",
        &[
            (
                Fault(1, Header),
                &["", "m mcg\n", "m mcg 6 6\n", "t mcg 6\n", "m mcg 5\n"],
            ),
            (Fault(3, Header), &["c\n\n"]),
            (Fault(1, Number), &["m mcg x\n"]),
        ],
    ),
    (
        "m mcg 6\n",
        &[
            (Fault(2, Word), &["turn k\n"]),
            (
                Fault(4, Word),
                &["rotate k\n\nswitch m 1 2 3\n", "rotate k\nc\nm mcg 6\n"],
            ),
        ],
    ),
    (
        "m mcg 6\nrotate",
        &[(Fault(2, Word), &[" x\n", " .k\n", "\n", " k k\n"])],
    ),
    (
        "m mcg 6\nswitch ",
        &[
            (Fault(2, Word), &[". 1\n", ". 1 4 5\n", "x y z\n"]),
            (
                Fault(2, Number),
                &[". x 4\n", ". 1,,2 4\n", ". 1 4,\n", ". 9 x\n"],
            ),
            (Fault(2, Range), &[". 0 4\n", ". 1 4,7\n", ". 2,1 7\n"]),
            (Fault(2, NotRising), &[". 2,1 4\n", ". 1 4,4\n"]),
        ],
    ),
];

// Whether this is the Switch of 1, 2 with 4, 6 at the merged child of the kept child of the root.
fn is_wanted(item: &Move) -> bool {
    match item {
        Move::Switch { path, u, v } => {
            path.as_slice() == [Side::Kept, Side::Merged].as_slice()
                && *u == VSet::one(1).with(2)
                && *v == VSet::one(4).with(6)
        }
        Move::Rotate { .. } => false,
    }
}

#[test]
fn the_parts_of_a_move(rt: HostRuntime) -> Result<(), Fail> {
    let moves = read_moves(rt.alloc(), b"m mcg 6\nswitch km 1,2 4,6\n", 6)?;
    assert!(rt; moves.len() == 1);
    assert!(rt; is_wanted(moves.get(0)));
    Ok(())
}

#[test]
fn a_move_made_and_written(rt: HostRuntime) -> Result<(), Fail> {
    let mut moves = Moves::new(rt.alloc());
    moves.push(Move::Rotate {
        path: Path::new(rt.alloc()),
    })?;
    let text = write_moves(rt.alloc(), &moves, 6)?;
    assert!(rt; text.as_slice() == b"m mcg 6\nrotate .\n".as_slice());
    Ok(())
}

/// Texts of moves over 1 to 6 with the longest path and the longest list, and with one more.
pub static LONG_MOVES: [(LongText, Answer); 4] = [
    (("m mcg 6\nrotate ", "k", 127, "\n"), Same),
    (("m mcg 6\nrotate ", "k", 127, "m\n"), Fault(2, Word)),
    (("m mcg 6\n", "rotate k\n", 20_000, ""), Same),
    (
        ("m mcg 6\n", "rotate k\n", 20_000, "turn k\n"),
        Fault(20_002, Limit),
    ),
];
