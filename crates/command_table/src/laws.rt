//! The law of the pages. It is the contract of a function that does nothing.
ghost use Rattle.std.specs.Prelude.{◌≡◌, true};
ghost use Rattle.std.specs.List.{list_all};
ghost use Rattle.command_table.specs.Pages.{begins_page, command_lines, list_page_of, page_of};
ghost use Rattle.command_table.specs.Table.{list_rows, rows};

/// Each command has a page, which begins with the lines of the usage that are the command's.
pub fn pages_law()
    ensures mcg { list_all
        (λ row. begins_page (page_of row.command) (command_lines row.command rows)) rows ≡ true }
    ensures mcg6 { list_all
        (λ row. begins_page (list_page_of row.command) (command_lines row.command list_rows))
        list_rows ≡ true }
{}
