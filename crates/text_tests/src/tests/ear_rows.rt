//! Texts of ear lists.

use super::formats::Answer::{Fault, Same, Written};
use super::formats::{Beginning, TextRow};
use graph_core::line_text::FaultKind::{Header, Missing, Number, Range, Word};

/// Ear lists for 2 vertices and 1 edge.
pub static EARS_OF_2: [TextRow; 1] = [("r mcg 2 1\nstart 1", Written("r mcg 2 1\nstart 1\n"))];

/// Ear lists for 4 vertices and 6 edges.
pub static EARS_OF_4: [TextRow; 2] = [
    ("r mcg 4 6\nstart 1\near 2 4 6 3\near 1 2\nwith 2 5\n", Same),
    (
        "c an ear list\nr mcg 04 6\r\n\n start\t001\nc a step\near 2  4 6 3\near 1 2\nc its second ear\nwith 2 5",
        Written("r mcg 4 6\nstart 1\near 2 4 6 3\near 1 2\nwith 2 5\n"),
    ),
];

/// Faults of ear lists for 4 vertices and 6 edges.
pub static FAULTS_OF_EARS: [Beginning; 3] = [
    (
        "",
        &[
            (
                Fault(1, Header),
                &["", "r mcg 4\n", "t mcg 4 6\n", "r mcg 5 6\n", "r mcg 4 5\n"],
            ),
            (Fault(3, Header), &["c\n\n"]),
            (Fault(1, Number), &["r mcg 4 x\n", "r mcg 5 x\n"]),
            (Fault(2, Missing), &["r mcg 4 6"]),
        ],
    ),
    (
        "r mcg 4 6\n",
        &[
            (Fault(2, Missing), &[""]),
            (Fault(2, Word), &["ear 1 2\n", "start\n", "start 1 2\n"]),
            (Fault(2, Number), &["start one\n"]),
            (Fault(2, Range), &["start 0\n", "start 7\n"]),
        ],
    ),
    (
        "r mcg 4 6\nstart 1\n",
        &[
            (Fault(3, Word), &["start 1\n", "with 2 5\n", "ear 1\n"]),
            (Fault(5, Word), &["ear 1 2\nwith 2 5\nwith 2 5\n"]),
            (Fault(4, Word), &["ear 1 2\nwith\n"]),
            (Fault(3, Number), &["ear 9 x\n", "ear x 2\n"]),
            (Fault(3, Range), &["ear 5 2\n", "ear 0 2\n", "ear 1 2 7\n"]),
            (Fault(5, Range), &["ear 1 2\nc\nwith 2 0\n"]),
        ],
    ),
];

/// Ear lists for 8 vertices and 12 edges.
pub static EARS_OF_8: [TextRow; 1] = [(
    "r mcg 8 12\nstart 1\near 2 2 3 4\near 1 9 5 10\near 3 11 7 12\near 6 6\near 5 8\n",
    Same,
)];
