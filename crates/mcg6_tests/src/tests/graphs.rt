//! The queries that write graphs: `leaves`, `elementary` and `graph`.

use super::told::{Answer, is_told};
use line_text::FaultKind;
use mcg6_lines::Query;
use mcg6_lines::decomposer::NamedOrder;
use std::test::Fail;

const FIRST: Query = Query::Leaves {
    order: NamedOrder::First,
};

const LAST: Query = Query::Leaves {
    order: NamedOrder::Last,
};

const BALANCED: Query = Query::Leaves {
    order: NamedOrder::Balanced,
};

// A query, a line, and what is written for it.
static ROWS: [(Query, &str, Answer); 13] = [
    (FIRST, "C~\n", Ok("7 C~ C~ brick\n")),
    (LAST, "Ch\n", Ok("")),
    (BALANCED, "EFz_\n", Ok("7 EFz_ EFz_ brace\n")),
    (FIRST, ">>graph6<<A_\r\n", Ok("7 A_ A_ brace\n")),
    (Query::Elementary, "C~\n", Ok("7 C~ 1 2 3 4\n")),
    (
        Query::Elementary,
        ">>graph6<<Ch\r\n",
        Ok("7 A_ 1 2\n7 A_ 3 4\n"),
    ),
    (Query::Elementary, "Bw\n", Ok("")),
    (Query::Elementary, "?\n", Ok("")),
    (Query::Elementary, "Euo_\n", Ok("7 C] 1 2 4 5\n7 A_ 3 6\n")),
    (Query::Elementary, "C~~", Err(FaultKind::Extra)),
    (Query::Graph, "Bw\n", Ok("p mcg 3 3\ne 1 2\ne 1 3\ne 2 3\n")),
    (
        FIRST,
        "GFyAHK\n",
        Ok("7 GFyAHK EFz_ brace\n7 GFyAHK C~ brick\n"),
    ),
    (
        BALANCED,
        "GFyAHK\n",
        Ok("7 GFyAHK EFz_ brace\n7 GFyAHK C~ brick\n"),
    ),
];

#[test]
fn lines_with_graphs(rt: HostRuntime) -> Result<(), Fail> {
    for (query, line, answer) in &ROWS {
        assert!(rt; is_told(rt.alloc(), query, line, answer)?, "{line}");
    }
    Ok(())
}
