//! What a step of the engine returns: a larger matching, or a frame.
//!
//! A frame is what the last forest proves. Its outer vertices are those that some matching of the
//! same size misses; its inner vertices are the other vertices adjacent to them. If the inner
//! vertices are deleted, the outer ones form odd components. A matching can match at most as many
//! of these components as there are inner vertices, and misses a vertex in each of the others, so
//! none is larger.
ghost use Rattle.graph_core.specs.from_counting.Common.{mem};
ghost use Rattle.match_search.specs.Common.{IsWidened};

use graph_core::vset_core::VSet;

/// The outer and the inner vertices of a frame.
#[derive(Drop)]
pub struct FinalSets {
    pub outer: VSet,
    pub inner: VSet,
}

/// The result of a step: a larger matching, or a frame.
#[derive(Drop)]
pub enum Answer {
    Grown,
    Final(FinalSets),
}

/// The frame of the graph before a blossom was shrunk: the vertices of the blossom are outer if its
/// base is.
pub fn widen(below: Answer, members: VSet) -> Answer
    ensures { IsWidened below (mem members) result }
{
    match below {
        Answer::Grown => Answer::Grown,
        Answer::Final(sets) => Answer::Final(FinalSets {
            outer: sets.outer.union(members),
            inner: sets.inner,
        }),
    }
}
