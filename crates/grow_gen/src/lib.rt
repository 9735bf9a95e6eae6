//! Large matching covered graphs, determined by a seed.
//!
//! `grow` makes the graph of a seed: it begins with K3,3 and splices K4, K3,3, the prism and the
//! cube into it in turn (`K33`, `K4`, `PRISM` and `CUBE` are their edges). Where and how each is
//! spliced is pseudo-random, by the generator PCG, so a seed always gives the same graph. The
//! definitions are `splice` (specs/Splices), the pieces (specs/Pieces) and `grown` (specs/Growth),
//! which uses the generator as `rand_pcg` defines it. Promises: `grow` returns `grown`, and this
//! graph is cubic, simple and matching covered; `splice_law` says the same of every splice of two
//! such graphs. The cut of each piece is meant to be tight, with braces as the bipartite pieces and
//! bricks as the others; this crate does not promise it.
//!
//! Depends on `graph_core`, `vset_core`, `rand_pcg` and `rand_core`. Splicing is in Lucchesi and
//! Murty, "Perfect Matchings" (2024); the generator is O'Neill's (2014).
#![tactic(auto)]

mod generator;
mod growing;
mod laws;
mod pieces;
mod splices;

pub use generator::{MOST_PIECES, grow};
pub use laws::splice_law;
pub use pieces::{CUBE, K4, K33, PRISM};
