//! The graph6 text of a graph file.
ghost use Rattle.std.specs.Prelude.{◌≡◌, ◌<◌, ◌-◌, ◌^◌, ◌∷◌, ◌++◌, [], IfOk, IfErr, length};
ghost use Rattle.graph_core.specs.from_line_text.Common.{IsFirstFault};
ghost use Rattle.graph_text.specs.Common.{either_version};
ghost use Rattle.graph6_text.specs.Common.{graph6_of};
ghost use Rattle.mcg6_encoder.specs.Files.{IsEncoded};

use crate::simple::simple_beneath;
use graph_core::MultiGraph;
use graph_core::line_text::TextFault;
use graph_text::read_any;
use graph6_text::write_graph6;
use std::alloc::{AllocError as Memory, Global};

// The graph6 text of the underlying simple graph, with a line feed.
fn line_of(alloc: Global, g: &MultiGraph) -> Result<Vec<u8>, Memory>
    ensures { IfOk result (λ line. line.items ≡ graph6_of g.now ++ 10 ∷ []) }
{
    let simple = simple_beneath(alloc, g)?;
    let mut line = write_graph6(alloc, &simple)?;
    line.push(b'\n')?;
    Ok(line)
}

/// The line of a graph file: the graph6 text of the underlying simple graph, with a line feed; or
/// the first line outside the format with the kind of its error. Memory may run out at any time.
pub fn graph6_line(alloc: Global, file: &[u8]) -> Result<Vec<u8>, TextFault>
    requires { length file.now < 2 ^ 32 - 1 }
    ensures line { IfOk result (λ line. IsEncoded file.now line.items) }
    ensures fault { IfErr result (IsFirstFault either_version file.now) }
{
    match read_any(alloc, file) {
        Ok(named) => {
            named.graph.keeps_limits();
            match line_of(alloc, &named.graph) {
                Ok(line) => Ok(line),
                Err(_) => Err(TextFault::Memory),
            }
        }
        Err(fault) => Err(fault),
    }
}
