//! Theorems on perfect matchings and tight cuts, each under its own name, in the words of a
//! textbook.
//!
//! Each theorem is a public function with an empty body, and its contract is the statement. Where
//! this is a special case of what the literature has, or one of several forms, the comment above it
//! and `docs/THEOREMS.md`, the book that follows this crate, say which. A file is a chapter:
//! `matchings`, `barriers`, `elementary` (elementary components), `bipartite`, `cuts` (uncrossing
//! and laminar families), `decompositions` (their uniqueness, and the numbers of bricks and
//! braces), `bricks`, `braces`, `extendable` (2-extendable graphs), `regular_graphs`,
//! `inequalities` (Farkas' lemma), `separating` (separating cuts), `ears`, `weights` (weighted
//! matchings, potentials), `outcomes` (what the program reports), and `program`, an appendix on
//! definitions of the program. What a chapter defines beyond the lower crates is in a file of
//! `specs/`.
//!
//! No part of the program depends on this crate. Sources: Lovász and Plummer, "Matching Theory"
//! (1986); Lucchesi and Murty, "Perfect Matchings" (2024).
#![tactic(auto)]

mod barriers;
mod bipartite;
mod braces;
mod bricks;
mod cuts;
mod decompositions;
mod ears;
mod elementary;
mod extendable;
mod inequalities;
mod installed;
mod installed_lists;
mod matchings;
mod outcomes;
mod program;
mod regular_graphs;
mod separating;
mod weights;

pub use barriers::kotzig_lovasz_law;
pub use bipartite::{hall_law, hetyei_law, koenig_law, marriage_law};
pub use braces::{braces_law, strong_digraph_law};
pub use bricks::{elp_cuts_law, elp_law};
pub use cuts::{laminar_law, uncrossing_law};
pub use decompositions::{
    brick_number_law, bricks_and_braces_law, derivation_exists_law, leaf_law, uniqueness_law,
};
pub use ears::{
    bipartite_ear_law, ear_count_law, ear_decomposition_law, ear_list_exists_law,
    two_ear_lemmas_law,
};
pub use elementary::elementary_components_law;
pub use extendable::extendable_law;
pub use inequalities::farkas_law;
pub use installed::installed_runs_law;
pub use installed_lists::{idle_law, installed_lists_law};
pub use matchings::{berge_law, gallai_edmonds_law, gallai_lemma_law, tutte_law};
pub use outcomes::{done_runs_law, headline_law, list_outcome_exists_law, report_exists_law};
pub use program::{
    brace_test_law, brick_test_law, counts_law, first_separated_law, selection_law, third_part_law,
    tree_nodes_law,
};
pub use regular_graphs::{cubic_law, fractional_law, regular_law};
pub use separating::separating_law;
pub use weights::{matching_duality_law, potential_law};
