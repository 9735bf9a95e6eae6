//! The lines of `kinds`.

use super::told::{Answer, is_told};
use line_text::FaultKind;
use mcg6_lines::Query;
use std::test::Fail;

// A line, and what is written for it.
static ROWS: [(&str, Answer); 16] = [
    ("C~\n", Ok("C~ 4 6 brick 1 0 bicritical yes\n")),
    ("A_", Ok("A_ 2 1 brace 0 1 bicritical yes\n")),
    ("A?\n", Ok("A? 2 0 uncovered parts 2\n")),
    ("@\n", Ok("@ 1 0 uncovered order 1\n")),
    ("Bw\r\n", Ok("Bw 3 3 uncovered berge 1\n")),
    ("Ch\n", Ok("Ch 4 3 uncovered edge 0\n")),
    (
        ">>graph6<<IheA@GUAo\n",
        Ok("IheA@GUAo 10 15 brick 1 0 bicritical yes\n"),
    ),
    ("EFz_\n", Ok("EFz_ 6 9 brace 0 1 bicritical no\n")),
    ("C`\n", Ok("C` 4 2 uncovered parts 0\n")),
    ("?\n", Ok("? 0 0 uncovered order 0\n")),
    ("Cs\n", Ok("Cs 4 3 uncovered berge 2\n")),
    ("\n", Err(FaultKind::Missing)),
    ("C", Err(FaultKind::Missing)),
    ("C~~", Err(FaultKind::Extra)),
    ("C~\0", Err(FaultKind::Range)),
    ("GFyAHK\n", Ok("GFyAHK 8 12 composite 1 1 bicritical no\n")),
];

#[test]
fn lines_of_kinds(rt: HostRuntime) -> Result<(), Fail> {
    for (line, answer) in &ROWS {
        assert!(rt; is_told(rt.alloc(), &Query::Kinds, line, answer)?, "{line}");
    }
    Ok(())
}
