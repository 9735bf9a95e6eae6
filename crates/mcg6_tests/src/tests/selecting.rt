//! The lines that `select` keeps.

use super::told::is_told;
use mcg6_lines::{Property, Query};
use std::test::Fail;

// A property, a line, and whether the line is kept.
static ROWS: [(Property, &str, bool); 18] = [
    (Property::Bicritical, "C~\n", true),
    (Property::Composite, "C~\n", false),
    (Property::Bricks { count: 1 }, "C~\r\n", true),
    (Property::Bricks { count: 0 }, "EFz_", true),
    (Property::Bricks { count: 0 }, "Ch", false),
    (Property::Bricks { count: 1 }, "GFyAHK\n", true),
    (Property::Composite, "GFyAHK\n", true),
    (Property::Bicritical, "?\n", false),
    (Property::Bicritical, "A?\n", false),
    (Property::Bicritical, "A_\n", true),
    (Property::Uncovered, "Ch\n", true),
    (Property::Uncovered, "C~\n", false),
    (Property::Perfect, "Ch\n", true),
    (Property::Perfect, "C`\r\n", true),
    (Property::Perfect, "?\n", true),
    (Property::Perfect, "Bw\n", false),
    (Property::Braces { count: 1 }, "GFyAHK\n", true),
    (Property::Braces { count: 0 }, "GFyAHK\n", false),
];

#[test]
fn selected_lines(rt: HostRuntime) -> Result<(), Fail> {
    for (property, line, is_kept) in &ROWS {
        let query = Query::Select {
            property: *property,
        };
        let wanted = if *is_kept { *line } else { "" };
        assert!(rt; is_told(rt.alloc(), &query, line, &Ok(wanted))?, "{line}");
    }
    Ok(())
}
