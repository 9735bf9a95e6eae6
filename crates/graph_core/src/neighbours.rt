//! The rows of a graph's adjacency matrix, and how an edge enters them.
ghost use Rattle.std.specs.Prelude.{◌≤◌, length};
ghost use Rattle.vset_core.specs.from_counting.Common.{Within};
ghost use Rattle.graph_core.specs.Common.{Graph, with_edge, AreRows};

use vset_core::{MOST_VERTICES, VSet, add_arc};

/// Makes `a` and `b` neighbours, as a new edge between them does.
pub(crate) fn join(rows: &mut [VSet], a: u32, b: u32)
    requires few { length rows.old ≤ MOST_VERTICES }
    requires first { Within (length rows.old) a }
    requires second { Within (length rows.old) b }
    ensures { (g : Graph) → AreRows g rows.old → AreRows (with_edge g a b) rows.new }
{
    add_arc(rows, a, b);
    add_arc(rows, b, a);
}
