//! Lists of graphs, processed line by line as they are read.
//!
//! `tell_all` reads pieces from a `Source`, cuts them into lines, calls a `LineTeller` for each
//! line, and writes the outputs of the complete lines before it reads on (`Step`). A teller returns
//! the output of a line or its error. Memory does not grow with the list, except with the number of
//! bad lines if these are skipped.
//!
//! Main definitions, in specs/: `lines_of`; `LineTold` and `LineBad`, the result for one line;
//! `AllTold`, the outputs in order; `GivesOutput`, what was written up to each `InputEnding`;
//! `IsStream`, the reads and writes in order. At the endings `Done` and `Bad` the output is
//! determined by the lines, not by the pieces, and at the others it is that of a beginning of the
//! list; no write follows a failed one. `one_telling_law` and `one_ending_law`: if each line has at
//! most one result, so has the list. Depends on `outside` and `line_text`. Source of the header: B.
//! D. McKay, "Description of graph6, sparse6 and digraph6 encodings".
#![tactic(auto)]

mod cutting;
mod ending;
mod laws;
mod listing;
mod place;
mod reading;
mod teller;
mod telling;

pub use ending::{BadLine, InputEnding};
pub use laws::{one_ending_law, one_telling_law};
pub use place::LinePlace;
pub use reading::tell_all;
pub use teller::{LineAnswer, LineTeller};
