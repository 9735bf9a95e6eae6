//! Texts of graphs in both versions, and the plain names.

use super::formats::Answer::{Fault, Same, Written};
use super::formats::{Beginning, TextRow};
use graph_core::line_text::FaultKind::{
    BadName, Extra, Header, Limit, Loop, Missing, Number, Range, SameName, Unnamed, Word,
};
use graph_text::{Names, plain_names};
use std::test::Fail;

/// The graph format in version 1.
pub static VERSION_ONE: [TextRow; 4] = [
    ("p mcg 0 0", Written("p mcg 0 0\n")),
    ("p mcg 2 2\ne 1 2\ne 1 2\n", Same),
    (
        "p mcg 4 6\ne 1 2\ne 1 3\ne 1 4\ne 2 3\ne 2 4\ne 3 4\n",
        Same,
    ),
    (
        "c from the lab\r\n\r\np  mcg 04 6\r\ne 1 2\r\ne 1  3\r\ne 1 4\r\n e 2\t3\r\ne 2 4\r\ne 3 4",
        Written("p mcg 4 6\ne 1 2\ne 1 3\ne 1 4\ne 2 3\ne 2 4\ne 3 4\n"),
    ),
];

/// Faults in version 1.
pub static FAULTS_OF_VERSION_ONE: [Beginning; 2] = [
    (
        "",
        &[
            (Fault(1, Header), &["", "p mcg2 2 1\nv a\nv b\ne a b\n"]),
            (Fault(1, Number), &["p mcg x 1\n"]),
            (Fault(1, Limit), &["p mcg 65 65\n"]),
            (Fault(3, Loop), &["p mcg 3 2\ne 1 2\ne 3 3\n"]),
            (Fault(3, Missing), &["p mcg 3 2\ne 1 2\n", "p mcg 0 5\n\n"]),
        ],
    ),
    (
        "p mcg 2 1\n",
        &[
            (Fault(2, Word), &["f 1 2\n"]),
            (Fault(2, Number), &["e 1 x\n"]),
            (Fault(2, Range), &["e 1 3\n"]),
            (Fault(3, Extra), &["e 1 2\ne 1 2\n"]),
        ],
    ),
];

/// The graph format in both versions.
pub static EITHER_VERSION: [TextRow; 2] = [
    (
        "p mcg2 4 4\nv a\nv b\nv c\nv d\ne a b\ne b c\ne c d\ne d a\n",
        Same,
    ),
    ("p mcg 2 2\ne 1 2\ne 1 2\n", Same),
];

/// Faults in both versions.
pub static FAULTS_OF_EITHER_VERSION: [Beginning; 2] = [
    (
        "",
        &[
            (Fault(1, Limit), &["p mcg2 129 129\n", "p mcg 65 65\n"]),
            (Fault(1, Header), &["p mcg3 2 1\n"]),
        ],
    ),
    (
        "p mcg2 2 1\n",
        &[
            (Fault(3, SameName), &["v a\nv a\n"]),
            (Fault(3, BadName), &["v a\nv b!\n"]),
            (Fault(4, Unnamed), &["v a\nv b\ne a c\n"]),
            (Fault(4, Loop), &["v a\nv b\ne a a\n"]),
            (Fault(5, Extra), &["v a\nv b\ne a b\ne a b\n"]),
            (Fault(2, Word), &["e 1 2\n"]),
        ],
    ),
];

// Some names of 128 plain ones, by their places.
static PLAIN: [(usize, &str); 4] = [(0, "v1"), (1, "v2"), (9, "v10"), (127, "v128")];

// Whether the names have these at these places.
fn has_names(names: &Names, some: &[(usize, &str)]) -> bool {
    for (i, name) in some {
        if *i >= names.len() || names.get(*i) != *name {
            return false;
        }
    }
    true
}

#[test]
fn plain_names_by_number(rt: HostRuntime) -> Result<(), Fail> {
    assert!(rt; plain_names(rt.alloc(), 0)?.len() == 0);
    let names = plain_names(rt.alloc(), 128)?;
    assert!(rt; names.len() == 128 && has_names(&names, &PLAIN));
    Ok(())
}
