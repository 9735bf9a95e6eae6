//! The generator.
ghost use Rattle.std.specs.Prelude.{◌≡◌, IfOk};
ghost use Rattle.graph_core.specs.from_counting.Common.{Within};
ghost use Rattle.graph_core.specs.Common.{IsCovered, IsWithinLimits, IsSimple};
ghost use Rattle.grow_gen.specs.Common.{IsCubic, grown};

use crate::growing::Growing;
use crate::pieces::Piece;
use graph_core::MultiGraph;
use rand_core::utils::NextWord;
use rand_pcg::Lcg64Xsh32;
use std::alloc::{AllocError as Memory, Global};

/// The most pieces that a generated graph may have.
pub const MOST_PIECES: u32 = 16;

/// The stream of the random words that the generator draws.
const STREAM: u64 = 1;

/// The graph of a seed and a number of pieces, 1 to `MOST_PIECES`. It is cubic, simple and matching
/// covered, and the same on every machine. It starts as K3,3; the further pieces are K4, K3,3, a
/// prism and a cube in turn, each spliced by its vertex 1 at a vertex that two pseudo-random words
/// pick. Twelve pieces give 48 vertices, sixteen give 64. Takes O(p^2) time for p pieces; the only
/// error is `Memory`.
pub fn grow(alloc: Global, seed: u64, pieces: u32) -> Result<MultiGraph, Memory>
    requires { Within MOST_PIECES pieces }
    ensures graph { IfOk result (λ g. g ≡ grown seed pieces) }
    ensures covered { IfOk result IsCovered }
    ensures cubic { IfOk result IsCubic }
    ensures simple { IfOk result IsSimple }
    ensures within_limits { IfOk result IsWithinLimits }
{
    let mut words = Lcg64Xsh32::new(seed, STREAM);
    let mut growing = Growing::first(alloc)?;
    for i in 0..pieces - 1 {
        let first = words.next_word();
        let second = words.next_word();
        growing = growing.with_piece(Piece::further(i), first, second)?;
    }
    growing.to_graph(alloc)
}
