//! The queries that write witnesses: `matching`, `cuts` and `ears`.

use super::told::{Answer, is_told};
use line_text::FaultKind;
use mcg6_lines::Query;
use std::test::Fail;

// A query, a line, and what is written for it.
static ROWS: [(Query, &str, Answer); 14] = [
    (Query::Matching, "Cs\n", Ok("Cs 1 1-2 D 2 3 4 A 1 C\n")),
    (Query::Matching, "?\n", Ok("? 0 D A C\n")),
    (Query::Matching, "@\n", Ok("@ 0 D 1 A C\n")),
    (
        Query::Matching,
        ">>graph6<<C~\r\n",
        Ok("C~ 2 1-2 3-4 D A C 1 2 3 4\n"),
    ),
    (Query::Matching, "Bw", Ok("Bw 1 1-2 D 1 2 3 A C\n")),
    (Query::Matching, "C]\n", Ok("C] 2 1-3 2-4 D A C 1 2 3 4\n")),
    (
        Query::Cuts,
        ">>graph6<<E~rG\r\n",
        Ok("7 E~rG separation 1 3 4\n7 E~rG separation 2 3 4\n"),
    ),
    (Query::Cuts, "C~\n", Ok("")),
    (
        Query::Cuts,
        "EhEG\n",
        Ok("7 EhEG flow 2 3 4\n7 EhEG flow 3 4 5\n7 EhEG flow 1 2 3\n"),
    ),
    (Query::Cuts, "GFyAHK\n", Ok("7 GFyAHK barrier 1 2 3 4 5\n")),
    (Query::Ears, "A_\n", Ok("7 A_ 0 0 1-2\n")),
    (Query::Ears, "Ch\n", Ok("")),
    (Query::Matching, "C~~", Err(FaultKind::Extra)),
    (Query::Matching, "\n", Err(FaultKind::Missing)),
];

#[test]
fn lines_with_witnesses(rt: HostRuntime) -> Result<(), Fail> {
    for (query, line, answer) in &ROWS {
        assert!(rt; is_told(rt.alloc(), query, line, answer)?, "{line}");
    }
    Ok(())
}
