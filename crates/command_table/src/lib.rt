//! The tables of commands of `mcg` and of `mcg6`, as values.
//!
//! A `Row` is a command with its words: the name of a file, one of some choices, or a number in a
//! range. The usage of each program is made of its rows, and so is the reason why words match no
//! row.
//!
//! Main definitions, in specs/: `matches` of `Rows` (which words match a row), `rows` and
//! `list_rows` of `Table`, the two tables, and `usage_of`, the usage that is made of one; and
//! `why_unmatched` of `Reasons`; and `page_of` and `list_page_of` of `Pages`, the page of each
//! command. Main promises: the texts of `usage` and `list_usage` are those of their tables, and
//! each page begins with the lines of its command (`pages_law`).
//!
//! Depends on `line_text` for numbers.
#![tactic(auto)]

mod laws;
mod list_pages;
mod pages;
mod reasons;
mod rows;
mod table;

pub use laws::pages_law;
pub use list_pages::list_page;
pub use pages::page;
pub use reasons::{Mismatch, why_unmatched};
pub use rows::{Row, RowWord};
pub use table::{all_list_rows, all_rows, list_usage, usage};
