//! The names of vertices in reports.
ghost use Rattle.std.specs.Prelude.{◌≡◌, IfOk, length, true};
ghost use Rattle.std.specs.Option.{ForSome};
ghost use Rattle.bench_outcomes.specs.from_report_text.Common.{IsCommented};
ghost use Rattle.bench_outcomes.specs.Common.{with_given_names, given_or_plain};

use bench_outcomes::report_text::with_names;
use graph_core::MultiGraph;
use graph_text::{Names, plain_names};
use std::alloc::{AllocError as Memory, Global};

/// The report, and then the names if the graph has names; each is a comment if `comments`
/// is true.
pub fn with_given_names(
    alloc: Global,
    report: Vec<u8>,
    names: &Option<Names>,
    comments: bool,
) -> Result<Vec<u8>, Memory>
    ensures text { IfOk result
        (λ bytes. bytes.items ≡ with_given_names report.items names.now comments) }
    ensures comments { comments ≡ true →
        IfOk result (λ bytes. IsCommented report.items bytes.items) }
{
    match names {
        Some(names) => with_names(alloc, &report, names, comments),
        None => Ok(report),
    }
}

/// The names of the vertices: those that are given, or else the plain ones.
pub fn given_or_plain(
    alloc: Global,
    graph: &MultiGraph,
    names: Option<Names>,
) -> Result<Names, Memory>
    requires { ForSome names (λ given. length given ≡ graph.now.order) }
    ensures names { IfOk result (λ all. all ≡ given_or_plain graph.now.order names) }
    ensures one_each { IfOk result (λ all. length all ≡ graph.now.order) }
{
    graph.keeps_limits();
    match names {
        Some(names) => Ok(names),
        None => plain_names(alloc, graph.order()),
    }
}
