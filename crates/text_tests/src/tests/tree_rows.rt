//! Texts of derivations and of picks.

use super::formats::Answer::{Fault, Same, Written};
use super::formats::{Beginning, TextRow};
use graph_core::line_text::FaultKind::{
    Extra, HasGreatest, Header, Limit, Missing, NotRising, Number, Range, Word,
};

/// Derivations over 1 to 2.
pub static TREES_OF_2: [TextRow; 1] = [("t mcg 2\nleaf", Written("t mcg 2\nleaf\n"))];

/// Derivations over 1 to 6.
pub static TREES_OF_6: [TextRow; 1] = [("t mcg 6\ncut 1 2 3\nleaf\nleaf\n", Same)];

/// Faults of derivations over 1 to 6.
pub static FAULTS_OF_TREES: [Beginning; 2] = [
    (
        "",
        &[
            (
                Fault(1, Header),
                &["t mcg 5\nleaf\n", "", "t mcg 6 6\n", "s mcg 6\n"],
            ),
            (Fault(1, Number), &["t mcg x\n"]),
            (Fault(3, Header), &["c\n\n"]),
        ],
    ),
    (
        "t mcg 6\n",
        &[
            (Fault(4, Missing), &["cut 1 2 3\nleaf\n"]),
            (Fault(3, Extra), &["leaf\nleaf\n"]),
            (Fault(2, Word), &["cut\n", "leaf 1\n", "root\n"]),
            (Fault(2, Number), &["cut 1 2 x\n", "cut 7 x\n"]),
            (Fault(2, Range), &["cut 1 2 7\n", "cut 3 2 9\n", "cut 0\n"]),
            (Fault(2, NotRising), &["cut 6 2\n", "cut 2 2\n"]),
            (Fault(2, HasGreatest), &["cut 1 2 6\n"]),
            (Fault(2, Missing), &[""]),
        ],
    ),
];

/// Derivations over 1 to 8.
pub static TREES_OF_8: [TextRow; 2] = [
    (
        "c one below the other\nt mcg 08\r\n\ncut  3 4 5\ncut 03 4 5 6\t7\nleaf\nc kept\n leaf\nleaf",
        Written("t mcg 8\ncut 3 4 5\ncut 3 4 5 6 7\nleaf\nleaf\nleaf\n"),
    ),
    (
        "t mcg 8\ncut 1 2 3\nleaf\ncut 5 6 7\nleaf\nleaf\nc the end\n",
        Written("t mcg 8\ncut 1 2 3\nleaf\ncut 5 6 7\nleaf\nleaf\n"),
    ),
];

/// Lists of picks.
pub static PICKS: [TextRow; 6] = [
    ("s mcg 0", Written("s mcg 0\n")),
    ("s mcg 1\npick 2\n", Same),
    (
        "c picks\n\ns mcg 2\r\n  pick\t007\r\npick 4",
        Written("s mcg 2\npick 7\npick 4\n"),
    ),
    (
        "s mcg 001\npick 999999999\nc\n",
        Written("s mcg 1\npick 999999999\n"),
    ),
    ("s mcg 2\npick 7\npick 4\n", Same),
    (
        "c picks\n\ns mcg 2\r\n \t\r\n  pick\t007\r\nc pick 1\npick 4",
        Written("s mcg 2\npick 7\npick 4\n"),
    ),
];

/// Faults of lists of picks.
pub static FAULTS_OF_PICKS: [Beginning; 2] = [
    (
        "",
        &[
            (Fault(1, Limit), &["s mcg 128\n", "s mcg 128"]),
            (Fault(1, Header), &["", "t mcg 1\npick 1\n", "s mcg 1 1"]),
            (Fault(1, Number), &["s mcg x\n", "s mcg 1234567890"]),
            (Fault(2, Header), &["\n", "c s mcg 1\npick 1"]),
            (Fault(2, Number), &["\ns mcg x\npick"]),
            (Fault(2, Missing), &["s mcg 1"]),
            (Fault(5, Missing), &["s mcg 2\npick 1\n\nc"]),
        ],
    ),
    (
        "s mcg 1\n",
        &[
            (Fault(2, Missing), &[""]),
            (Fault(2, Number), &["pick -1\n", "pick -1"]),
            (Fault(2, Word), &["pick\n", "pick 1 1\n", "pick 1 1"]),
            (Fault(3, Extra), &["pick 1\npick 1\n", "pick 1\ncc"]),
        ],
    ),
];
