//! The worked reports of `analyse`, `convert` and `analyse6`.
use super::graphs::{K4, K4_REPORT, NAMED_CYCLE, cycle};
use super::trial::{RunRow, all_answer, answers, is_refused, report};
use bench_top::Status;
use std::alloc::Global;
use std::test::Fail;

// Graphs that are not matching covered, and texts of the complete graph of four vertices.
static REPORTS: [RunRow; 8] = [
    (&[K4], K4_REPORT),
    (
        &["p mcg 0 0\n"],
        "graph 0 0\ncomponents 0\nbipartite yes\nmatching 0\ndeficiency 0\nD\nA\nC\nallowed\ncovered no order\n",
    ),
    (
        &["p mcg 4 2\ne 1 2\ne 3 4\n"],
        "graph 4 2\ncomponents 2\nbipartite yes\nmatching 2\ndeficiency 0\nD\nA\nC 1 2 3 4\nallowed 1 2\ncovered no parts 1 3\n",
    ),
    // the star
    (
        &["p mcg 4 3\ne 1 2\ne 1 3\ne 1 4\n"],
        "graph 4 3\ncomponents 1\nbipartite yes\nmatching 1\ndeficiency 2\nD 2 3 4\nA 1\nC\nallowed\ncovered no berge 1\n",
    ),
    // the triangle
    (
        &["p mcg 3 3\ne 1 2\ne 1 3\ne 2 3\n"],
        "graph 3 3\ncomponents 1\nbipartite no\nmatching 1\ndeficiency 1\nD 1 2 3\nA\nC\nallowed\ncovered no berge\n",
    ),
    // parallel edges are kept
    (
        &["p mcg 2 2\ne 1 2\ne 1 2\n"],
        "graph 2 2\ncomponents 1\nbipartite yes\nmatching 1\ndeficiency 0\nD\nA\nC 1 2\nallowed 1 2\ncovered yes\nclasses 2\nclass 1\nclass 2\nbicritical yes\ncutpair none\nkind brace\n",
    ),
    // the path: its middle edge is in no perfect matching
    (
        &["p mcg 4 3\ne 1 2\ne 2 3\ne 3 4\n"],
        "graph 4 3\ncomponents 1\nbipartite yes\nmatching 2\ndeficiency 0\nD\nA\nC 1 2 3 4\nallowed 1 3\ncovered no edge 2\n",
    ),
    // comments, blanks, leading zeros, line ends of carriage return and line feed, no last line
    // feed
    (
        &[
            "c from the lab\r\n\r\np  mcg 04 6\r\ne 1 2\r\ne 1  3\r\ne 1 4\r\n e 2\t3\r\ne 2 4\r\ne 3 4",
        ],
        K4_REPORT,
    ),
];

// Matching covered graphs.
static COVERED: [RunRow; 6] = [
    // the complete bipartite graph of three and three vertices with a triangle for one vertex
    (
        &[
            "p mcg 8 12\ne 1 2\ne 1 3\ne 2 3\ne 1 4\ne 2 5\ne 3 6\ne 7 4\ne 7 5\ne 7 6\ne 8 4\ne 8 5\ne 8 6\n",
        ],
        "graph 8 12\ncomponents 1\nbipartite no\nmatching 4\ndeficiency 0\nD\nA\nC 1 2 3 4 5 6 7 8\nallowed 1 2 3 4 5 6 7 8 9 10 11 12\ncovered yes\nclasses 6\nclass 1\nclass 2\nclass 3\nclass 4 5 6\nclass 7\nclass 8\nbicritical no 4 5\ncutpair none\nkind composite 1 2 3\n",
    ),
    // the Petersen graph
    (
        &[
            "p mcg 10 15\ne 1 2\ne 2 3\ne 3 4\ne 4 5\ne 1 5\ne 1 6\ne 2 7\ne 3 8\ne 4 9\ne 5 10\ne 6 8\ne 8 10\ne 7 10\ne 7 9\ne 6 9\n",
        ],
        "graph 10 15\ncomponents 1\nbipartite no\nmatching 5\ndeficiency 0\nD\nA\nC 1 2 3 4 5 6 7 8 9 10\nallowed 1 2 3 4 5 6 7 8 9 10 11 12 13 14 15\ncovered yes\nclasses 10\nclass 1\nclass 2\nclass 3\nclass 4\nclass 5\nclass 6\nclass 7\nclass 8\nclass 9\nclass 10\nbicritical yes\ncutpair none\nkind brick\n",
    ),
    // the cube
    (
        &[
            "p mcg 8 12\ne 1 2\ne 2 3\ne 3 4\ne 1 4\ne 5 6\ne 6 7\ne 7 8\ne 5 8\ne 1 5\ne 2 6\ne 3 7\ne 4 8\n",
        ],
        "graph 8 12\ncomponents 1\nbipartite yes\nmatching 4\ndeficiency 0\nD\nA\nC 1 2 3 4 5 6 7 8\nallowed 1 2 3 4 5 6 7 8 9 10 11 12\ncovered yes\nclasses 2\nclass 1 3 6 8\nclass 2 4 5 7\nbicritical no 1 3\ncutpair none\nkind brace\n",
    ),
    // the hexagon
    (
        &["p mcg 6 6\ne 1 2\ne 2 3\ne 3 4\ne 4 5\ne 5 6\ne 6 1\n"],
        "graph 6 6\ncomponents 1\nbipartite yes\nmatching 3\ndeficiency 0\nD\nA\nC 1 2 3 4 5 6\nallowed 1 2 3 4 5 6\ncovered yes\nclasses 2\nclass 1 3 5\nclass 2 4 6\nbicritical no 1 3\ncutpair 1 3\nkind composite 2 3 4\n",
    ),
    // two complete graphs of four vertices that share an edge
    (
        &[
            "p mcg 6 11\ne 1 2\ne 1 3\ne 1 4\ne 2 3\ne 2 4\ne 3 4\ne 1 5\ne 1 6\ne 2 5\ne 2 6\ne 5 6\n",
        ],
        "graph 6 11\ncomponents 1\nbipartite no\nmatching 3\ndeficiency 0\nD\nA\nC 1 2 3 4 5 6\nallowed 1 2 3 4 5 6 7 8 9 10 11\ncovered yes\nclasses 6\nclass 1\nclass 2\nclass 3\nclass 4\nclass 5\nclass 6\nbicritical yes\ncutpair 1 2\nkind composite 1 3 4\n",
    ),
    // the cycle of four with names
    (
        &[NAMED_CYCLE],
        "graph 4 4\ncomponents 1\nbipartite yes\nmatching 2\ndeficiency 0\nD\nA\nC 1 2 3 4\nallowed 1 2 3 4\ncovered yes\nclasses 2\nclass 1 3\nclass 2 4\nbicritical no 1 3\ncutpair 1 3\nkind brace\nname 1 a\nname 2 b\nname 3 c\nname 4 d\n",
    ),
];

#[test]
fn reports(rt: HostRuntime) -> Result<(), Fail> {
    all_answer(rt.alloc(), &["analyse", "g"], Status::Done, &REPORTS)?;
    all_answer(rt.alloc(), &["analyse", "g"], Status::Done, &COVERED)?;
    Ok(())
}

// The cycle of so many vertices with the plain names.
fn named_cycle(alloc: Global, n: u32) -> Result<String, Fail> {
    let mut text = format!(in alloc; "p mcg2 {n} {n}\n")?;
    for k in 0..n {
        let vertex = k + 1;
        write!(text, "v v{vertex}\n")?;
    }
    for k in 1..n {
        let next = k + 1;
        write!(text, "e v{k} v{next}\n")?;
    }
    write!(text, "e v{n} v1\n")?;
    Ok(text)
}

// Pieces of the report on the cycle of 128 vertices; it begins with the first and ends with the
// last.
static PIECES: [&str; 5] = [
    "graph 128 128\ncomponents 1\nbipartite yes\nmatching 64\ndeficiency 0\nD\nA\nC 1 2 3 ",
    "\ncovered yes\nclasses 2\nclass 1 3 5 ",
    " 125 127\nclass 2 4 6 ",
    " 126 128\nbicritical no 1 3\ncutpair 1 3\nkind composite 2 3 4\nname 1 v1\nname 2 v2\n",
    "\nname 127 v127\nname 128 v128\n",
];

#[test]
fn cycle_of_128(rt: HostRuntime) -> Result<(), Fail> {
    let text = named_cycle(rt.alloc(), 128)?;
    let report = report(rt.alloc(), &["analyse", "g"], &[&text])?;
    for piece in &PIECES {
        assert!(rt; report.contains(*piece));
    }
    assert!(rt; report.starts_with(PIECES[0]) && report.ends_with(PIECES[4]));
    Ok(())
}

// Graphs, and what `convert` makes of them.
static CONVERTED: [(&str, &str); 5] = [
    // parallel edges are kept
    (
        "p mcg 2 2\ne 1 2\ne 1 2\n",
        "p mcg2 2 2\nv v1\nv v2\ne v1 v2\ne v1 v2\n",
    ),
    // the ends of an edge keep their order
    ("p mcg 2 1\ne 2 1\n", "p mcg2 2 1\nv v1\nv v2\ne v2 v1\n"),
    ("p mcg 0 0\n", "p mcg2 0 0\n"),
    // names are kept
    (NAMED_CYCLE, NAMED_CYCLE),
    (
        "c two\r\np mcg2 02 1\n\nv x.1\nv -_\ne -_ \tx.1",
        "p mcg2 2 1\nv x.1\nv -_\ne -_ x.1\n",
    ),
];

// Whether `convert` makes this of a text, and the same of that.
fn is_converted(alloc: Global, text: &str, canonical: &str) -> Result<bool, Fail> {
    let words = ["convert", "g"];
    Ok(
        answers(alloc, &words, &[text], Status::Done, canonical)?
            && answers(alloc, &words, &[canonical], Status::Done, canonical)?,
    )
}

#[test]
fn conversions(rt: HostRuntime) -> Result<(), Fail> {
    for (text, canonical) in &CONVERTED {
        assert!(rt; is_converted(rt.alloc(), text, canonical)?);
    }
    let plain = cycle(rt.alloc(), 64)?;
    let named = named_cycle(rt.alloc(), 64)?;
    assert!(rt; is_converted(rt.alloc(), &plain, &named)?);
    Ok(())
}

// Texts of graph6.
static GRAPH6: [RunRow; 5] = [
    (
        &["C~\n"],
        "graph 4 6\ncomponents 1\nbipartite no\nmatching 2\ndeficiency 0\nD\nA\nC 1 2 3 4\nallowed 1 2 3 4 5 6\ncovered yes\nclasses 4\nclass 1\nclass 2\nclass 3\nclass 4\nbicritical yes\ncutpair none\nkind brick\ngraph6 C~\n",
    ),
    (
        &[">>graph6<<Bw"],
        "graph 3 3\ncomponents 1\nbipartite no\nmatching 1\ndeficiency 1\nD 1 2 3\nA\nC\nallowed\ncovered no berge\ngraph6 Bw\n",
    ),
    // the path: its middle edge is in no perfect matching
    (
        &["Ch"],
        "graph 4 3\ncomponents 1\nbipartite yes\nmatching 2\ndeficiency 0\nD\nA\nC 1 2 3 4\nallowed 1 3\ncovered no edge 2\ngraph6 Ch\n",
    ),
    (
        &["?"],
        "graph 0 0\ncomponents 0\nbipartite yes\nmatching 0\ndeficiency 0\nD\nA\nC\nallowed\ncovered no order\ngraph6 ?\n",
    ),
    // the Petersen graph
    (
        &["IheA@GUAo\r\n"],
        "graph 10 15\ncomponents 1\nbipartite no\nmatching 5\ndeficiency 0\nD\nA\nC 1 2 3 4 5 6 7 8 9 10\nallowed 1 2 3 4 5 6 7 8 9 10 11 12 13 14 15\ncovered yes\nclasses 10\nclass 1\nclass 2\nclass 3\nclass 4\nclass 5\nclass 6\nclass 7\nclass 8\nclass 9\nclass 10\nbicritical yes\ncutpair none\nkind brick\ngraph6 IheA@GUAo\n",
    ),
];

#[test]
fn reports_of_graph6(rt: HostRuntime) -> Result<(), Fail> {
    all_answer(rt.alloc(), &["analyse6", "g"], Status::Done, &GRAPH6)?;
    Ok(())
}

// The line and the kind of the fault of so many first bytes of the file of the complete graph of
// four vertices. Its header has 9 bytes, and each of its edges 6, with the line feed before it.
fn fault_of_prefix(kept: u32) -> (u32, u32) {
    if kept < 9 {
        return (1, 1);
    }
    let line = 2 + (kept - 9) / 6;
    let kind = if (kept - 9) % 6 < 2 { 7 } else { 2 };
    (line, kind)
}

// Whether `analyse` answers as it should to so many first bytes of the file. The file has 46 bytes,
// and is whole without the last of them, a line feed.
fn prefix_answers(alloc: Global, kept: u32) -> Result<bool, Fail> {
    let (prefix, _) = K4
        .split_at_checked(kept as usize)
        .ok_or("a prefix that is too long")?;
    if kept >= 45 {
        return answers(alloc, &["analyse", "g"], &[prefix], Status::Done, K4_REPORT);
    }
    let (line, kind) = fault_of_prefix(kept);
    is_refused(alloc, &["analyse", "g"], &[prefix], line, kind)
}

#[test]
fn each_prefix_of_a_file(rt: HostRuntime) -> Result<(), Fail> {
    for kept in 0..=46 {
        assert!(rt; prefix_answers(rt.alloc(), kept)?);
    }
    Ok(())
}
