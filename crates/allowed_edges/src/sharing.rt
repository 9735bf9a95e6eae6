//! Whether two edges share an end.
ghost use Rattle.std.specs.Prelude.{◌≡◌};
ghost use Rattle.graph_core.specs.from_counting.Common.{Within};
ghost use Rattle.graph_core.specs.Common.{size};
ghost use Rattle.allowed_edges.specs.Leaving.{share_end};

use graph_core::MultiGraph;

/// Whether two edges share an end; if they do and differ, no matching contains both. Takes no
/// memory.
pub fn share_end(g: &MultiGraph, e: u32, f: u32) -> bool
    requires first { Within (size g.now) e }
    requires second { Within (size g.now) f }
    ensures { result ≡ share_end g.now e f }
{
    let a = g.ends(e);
    let b = g.ends(f);
    a.a == b.a || a.a == b.b || a.b == b.a || a.b == b.b
}
