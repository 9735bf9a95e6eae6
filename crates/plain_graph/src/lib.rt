//! What the tests of the engine share: graphs of the literature, and a plain, slow program with
//! which they compare its results.
//!
//! The graphs are constants of `worked` and of `grow_gen`, and `graph_with` makes the multigraph of
//! one. `is_covered` and `is_bipartite` say what most calls need to know of a graph first.
//!
//! The program goes through all sets of edges of a graph of at most `MOST_PLAIN_VERTICES` vertices
//! and `MOST_PLAIN_EDGES` edges (`is_small`), and tries each by the definitions' own tests:
//! `degree`, `is_matching`, `is_perfect`, `edges_in_cut`; `perfect_matchings`, `has_perfect`,
//! `is_allowed`, `greatest_matching`; `is_tight` for a shore. `odd_component_count` follows walks
//! of at most n steps. Each function's contract is the definition, so the crate shows on worked
//! examples that the definitions say what is meant. Depends on `graph_core`, `grow_gen` and
//! `allowed_edges`. The graphs are in Lovász and Plummer, "Matching Theory" (1986), and in Lucchesi
//! and Murty, "Perfect Matchings".
#![tactic(auto)]

mod asked;
mod cuts;
mod degrees;
mod edge_sets;
mod matchings;
mod parts;
mod small;
mod worked;

pub use asked::{is_bipartite, is_covered};
pub use cuts::{edges_in_cut, is_tight};
pub use degrees::{degree, is_matching, is_perfect};
pub use grow_gen::{CUBE, K4, K33, PRISM};
pub use matchings::{greatest_matching, has_perfect, is_allowed, perfect_matchings};
pub use parts::odd_component_count;
pub use small::{MOST_PLAIN_EDGES, MOST_PLAIN_VERTICES, is_small};
pub use worked::{
    CYCLE_OF_8, DOUBLED_SQUARE, FLOWER, FOUR_CYCLE, HEXAGON, PATH, PETERSEN, STAR, TRIANGLE,
    TRIANGLE_IN_K33, TWO_EDGES, TWO_K4, graph_with,
};
