//! Texts of graph6: known texts with their edges, and texts with each fault.

use super::formats::Answer::{Fault, Same, Written};
use super::formats::{
    Beginning, Format, LongText, TextRow, has_answer, long_has_answer, long_text,
};
use graph_core::line_text::FaultKind::{Extra, Limit, LongForm, Missing, Padding, Range};
use graph6_text::read_graph6;
use std::alloc::Global;
use std::test::Fail;

/// Header and line end are set aside.
pub static TEXTS: [TextRow; 8] = [
    ("?", Same),
    ("Bw", Same),
    (">>graph6<<Bw", Written("Bw")),
    ("Bw\n", Written("Bw")),
    ("Bw\r\n", Written("Bw")),
    (">>graph6<<Bw\r\n", Written("Bw")),
    ("Ch", Same),
    ("C~", Same),
];

/// Each fault of a text.
pub static FAULTS: [Beginning; 1] = [(
    "",
    &[
        (Fault(1, Missing), &["", ">>graph6<<", "\r\n", "C"]),
        (Fault(2, Extra), &["C~\nC~", "C~\n\n"]),
        (Fault(1, Range), &["C~\r", ">>sparse6<<:Bw"]),
        (Fault(1, Limit), &["~~??????", "~?A@"]),
        (Fault(1, LongForm), &["~??C~"]),
        (Fault(1, Extra), &["C~~"]),
        (Fault(1, Padding), &["B~"]),
    ],
)];

// Texts, with the number of vertices and the edges, column by column.
static KNOWN: [(&str, u32, &[(u32, u32)]); 5] = [
    ("?", 0, &[]),
    ("Bw", 3, &[(1, 2), (1, 3), (2, 3)]),
    ("Ch", 4, &[(1, 2), (2, 3), (3, 4)]),
    ("C~", 4, &[(1, 2), (1, 3), (2, 3), (1, 4), (2, 4), (3, 4)]),
    ("IheA@GUAo", 10, &PETERSEN),
];

const PETERSEN: [(u32, u32); 15] = [
    (1, 2),
    (2, 3),
    (3, 4),
    (1, 5),
    (4, 5),
    (1, 6),
    (2, 7),
    (3, 8),
    (6, 8),
    (4, 9),
    (6, 9),
    (7, 9),
    (5, 10),
    (7, 10),
    (8, 10),
];

// Whether the text stands for the graph of `n` vertices with these edges.
fn stands_for(alloc: Global, text: &[u8], n: u32, edges: &[(u32, u32)]) -> Result<bool, Fail> {
    let g = read_graph6(alloc, text)?;
    if g.order() != n || g.size() as usize != edges.len() {
        return Ok(false);
    }
    for (ends, (a, b)) in g.edges().iter().zip(edges) {
        if ends.a != *a || ends.b != *b {
            return Ok(false);
        }
    }
    Ok(true)
}

#[test]
fn known_texts(rt: HostRuntime) -> Result<(), Fail> {
    for (text, n, edges) in &KNOWN {
        assert!(rt; stands_for(rt.alloc(), text.as_bytes(), *n, edges)?);
    }
    Ok(())
}

// Long texts, with the number of vertices and the second and last of their edges; the first one
// joins 1 and 2.
static LONG_TEXTS: [(LongText, u32, (u32, u32)); 2] = [
    (("~??~_", "?", 324, "G"), 63, (62, 63)),
    (("~?A?_", "?", 1353, "C"), 128, (127, 128)),
];

// Whether the text stands for the graph of `n` vertices with the first edge and this last one,
// and is the text of this graph.
fn has_two_edges(alloc: Global, parts: &LongText, n: u32, last: (u32, u32)) -> Result<bool, Fail> {
    let text = long_text(alloc, parts)?;
    let stands = stands_for(alloc, text.as_bytes(), n, &[(1, 2), last])?;
    Ok(stands && long_has_answer(alloc, Format::Graph6, parts, Same)?)
}

#[test]
fn long_texts(rt: HostRuntime) -> Result<(), Fail> {
    for (parts, n, last) in &LONG_TEXTS {
        assert!(rt; has_two_edges(rt.alloc(), parts, *n, *last)?);
    }
    Ok(())
}

/// The text of a graph with more edges than a graph may have.
pub static FULL: LongText = ("~?@@", "~", 346, "{");

// Whether each shorter beginning of the text is refused for what is missing.
fn misses_each_end(alloc: Global, text: &[u8]) -> bool {
    for end in 0..text.len() {
        if !has_answer(alloc, Format::Graph6, &text[..end], Fault(1, Missing)) {
            return false;
        }
    }
    true
}

#[test]
fn each_prefix(rt: HostRuntime) -> Result<(), Fail> {
    assert!(rt; misses_each_end(rt.alloc(), b"IheA@GUAo"));
    let long = long_text(rt.alloc(), &LONG_TEXTS[0].0)?;
    assert!(rt; misses_each_end(rt.alloc(), long.as_bytes()));
    Ok(())
}
