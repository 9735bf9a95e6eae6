//! Input and output, as three traits with contracts, and their implementations.
//!
//! A `Shelf` returns the bytes of a file by its name, a `Source` the bytes of an input piece by
//! piece, and a `Sink` takes those of an output. An error is returned only if its count rose in the
//! call (`Rose`). A shelf may make its files known (`file_named`), a source the bytes that are left
//! (`prepended`), a sink its bytes (`appended`): then it is known exactly what was read and
//! written. A steady shelf makes its files known and fails only at a name that it does not have.
//!
//! `MemShelf`, `MemSource`, `MemSink` and `CountSink` are in memory; their contracts give every
//! result and every next state, with planned errors: they are for tests. `DirShelf`, `InSource`,
//! `OutSink` and `LineSink` (standard error) are the runtime's, the trusted edge. They retry a call
//! that a signal interrupts, up to 1,024 times. `emit` writes a whole output. For messages there
//! are `Explain`, `Reasons`, `Inlet` and `Outlet`.
//!
//! Depends on `std` alone. The contracts follow POSIX's `read` and `write`.
#![tactic(auto)]

mod count_sink;
mod dir_shelf;
mod edge;
mod emitting;
mod explain;
mod given;
mod in_source;
mod inlet;
mod limits;
mod line_sink;
mod mem_shelf;
mod mem_sink;
mod mem_source;
mod noting;
mod out_sink;
mod outlet;
mod planned;
mod printed;
mod reasons;
mod retries;
mod shelf;
mod sink;
mod source;

pub use count_sink::CountSink;
pub use dir_shelf::DirShelf;
pub use edge::TracedReader;
pub use emitting::emit;
pub use explain::{Explain, Explained, FailureReason, Reasons, Unexplained};
pub use given::Given;
pub use in_source::InSource;
pub use inlet::Inlet;
pub use limits::{MOST_BYTES, MOST_LINE};
pub use line_sink::LineSink;
pub use mem_shelf::MemShelf;
pub use mem_sink::MemSink;
pub use mem_source::MemSource;
pub use noting::Noting;
pub use out_sink::OutSink;
pub use outlet::Outlet;
pub use printed::Printed;
pub use shelf::{Shelf, ShelfFault};
pub use sink::{Sink, SinkFailed};
pub use source::{Source, SourceFailed};
