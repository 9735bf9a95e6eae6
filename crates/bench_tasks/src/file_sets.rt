//! What the files of a graph, and of what is given beside it, hold: one function for each set of
//! files that commands name.
ghost use Rattle.std.specs.Prelude.{◌≡◌, [], ◌∷◌, IfOk, IfErr};
ghost use Rattle.graph_core.specs.Common.{size};
ghost use Rattle.bench_tasks.specs.Common.{CarriesFile, CarriesSizes, GaveSizes, LoadsAnswered, place_name, ears_given, moves_given, picks_given, tree_given, trees_given, Loads, given_ears, given_moves, given_picks, given_tree, given_trees};

use crate::formats::{GraphFile, PickFile};
use crate::loading::{load, load_ears_for, load_first, load_moves_for, load_tree_for};
use crate::stop::LoadStop;
use crate::tasks::{GivenEars, GivenMoves, GivenPicks, GivenTree, GivenTrees};
use outside::{Reasons, Shelf};
use refusals::FileKind;
use std::alloc::Global;

/// What the files of a graph and of a tree for it hold.
pub fn load_tree<'a, R: Reasons<S>, S: Shelf>(
    alloc: Global,
    graph_file: &'a str,
    tree_file: &'a str,
    reasons: &R,
    shelf: &mut S,
) -> Result<GivenTree, LoadStop<'a>>
    ensures loads { Loads S.files S.steady S.faults given_tree
        (λ files. tree_given files graph_file.now tree_file.now)
        result shelf.old shelf.new }
    ensures answered { LoadsAnswered S.reads (graph_file.now ∷ tree_file.now ∷ []) given_tree
        (λ files. tree_given files (place_name 1) (place_name 2))
        result shelf.old shelf.new }
    ensures carries { IfErr result
        (CarriesFile ((graph_file.now, FileKind.Graph) ∷ (tree_file.now, FileKind.Tree) ∷ []) (R.reason shelf.new)) }
    ensures sized { IfErr result (CarriesSizes S.reads graph_file.now shelf.old) }
    ensures gave { IfOk result (λ given. GaveSizes S.reads graph_file.now
        (given.named.graph.order, size given.named.graph) shelf.old) }
{
    let named = match load_first(alloc, &GraphFile, graph_file, reasons, shelf) {
        Ok(named) => named,
        Err(stop) => return Err(stop),
    };
    let tree = match load_tree_for(alloc, &named.graph, tree_file, 2, reasons, shelf) {
        Ok(tree) => tree,
        Err(stop) => return Err(stop),
    };
    Ok(GivenTree { named, tree })
}

/// What the files of a graph and of a list of picks hold.
pub fn load_picks<'a, R: Reasons<S>, S: Shelf>(
    alloc: Global,
    graph_file: &'a str,
    picks_file: &'a str,
    reasons: &R,
    shelf: &mut S,
) -> Result<GivenPicks, LoadStop<'a>>
    ensures loads { Loads S.files S.steady S.faults given_picks
        (λ files. picks_given files graph_file.now picks_file.now)
        result shelf.old shelf.new }
    ensures answered { LoadsAnswered S.reads (graph_file.now ∷ picks_file.now ∷ []) given_picks
        (λ files. picks_given files (place_name 1) (place_name 2))
        result shelf.old shelf.new }
    ensures carries { IfErr result
        (CarriesFile ((graph_file.now, FileKind.Graph) ∷ (picks_file.now, FileKind.Picks) ∷ []) (R.reason shelf.new)) }
    ensures sized { IfErr result (CarriesSizes S.reads graph_file.now shelf.old) }
{
    let named = match load_first(alloc, &GraphFile, graph_file, reasons, shelf) {
        Ok(named) => named,
        Err(stop) => return Err(stop),
    };
    let picks = match load(alloc, &PickFile, picks_file, 2, reasons, shelf) {
        Ok(picks) => picks,
        Err(stop) => return Err(stop),
    };
    Ok(GivenPicks { named, picks })
}

/// What the files of a graph and of a list of ears for it hold.
pub fn load_ears<'a, R: Reasons<S>, S: Shelf>(
    alloc: Global,
    graph_file: &'a str,
    ears_file: &'a str,
    reasons: &R,
    shelf: &mut S,
) -> Result<GivenEars, LoadStop<'a>>
    ensures loads { Loads S.files S.steady S.faults given_ears
        (λ files. ears_given files graph_file.now ears_file.now)
        result shelf.old shelf.new }
    ensures answered { LoadsAnswered S.reads (graph_file.now ∷ ears_file.now ∷ []) given_ears
        (λ files. ears_given files (place_name 1) (place_name 2))
        result shelf.old shelf.new }
    ensures carries { IfErr result
        (CarriesFile ((graph_file.now, FileKind.Graph) ∷ (ears_file.now, FileKind.Ears) ∷ []) (R.reason shelf.new)) }
    ensures sized { IfErr result (CarriesSizes S.reads graph_file.now shelf.old) }
{
    let named = match load_first(alloc, &GraphFile, graph_file, reasons, shelf) {
        Ok(named) => named,
        Err(stop) => return Err(stop),
    };
    let list = match load_ears_for(alloc, &named.graph, ears_file, reasons, shelf) {
        Ok(list) => list,
        Err(stop) => return Err(stop),
    };
    Ok(GivenEars { named, list })
}

/// What the files of a graph, of a tree for it and of moves hold.
pub fn load_moves<'a, R: Reasons<S>, S: Shelf>(
    alloc: Global,
    graph_file: &'a str,
    tree_file: &'a str,
    moves_file: &'a str,
    reasons: &R,
    shelf: &mut S,
) -> Result<GivenMoves, LoadStop<'a>>
    ensures loads { Loads S.files S.steady S.faults given_moves
        (λ files. moves_given files graph_file.now tree_file.now moves_file.now)
        result shelf.old shelf.new }
    ensures answered { LoadsAnswered S.reads
        (graph_file.now ∷ tree_file.now ∷ moves_file.now ∷ []) given_moves
        (λ files. moves_given files (place_name 1) (place_name 2) (place_name 3))
        result shelf.old shelf.new }
    ensures carries { IfErr result
        (CarriesFile ((graph_file.now, FileKind.Graph) ∷ (tree_file.now, FileKind.Tree) ∷ (moves_file.now, FileKind.Moves) ∷ []) (R.reason shelf.new)) }
    ensures sized { IfErr result (CarriesSizes S.reads graph_file.now shelf.old) }
{
    let given = match load_tree(alloc, graph_file, tree_file, reasons, shelf) {
        Ok(given) => given,
        Err(stop) => return Err(stop),
    };
    let moves = match load_moves_for(alloc, &given.named.graph, moves_file, reasons, shelf) {
        Ok(moves) => moves,
        Err(stop) => return Err(stop),
    };
    Ok(GivenMoves {
        named: given.named,
        tree: given.tree,
        moves,
    })
}

/// What the files of a graph, of a tree for it and of a second tree hold.
pub fn load_trees<'a, R: Reasons<S>, S: Shelf>(
    alloc: Global,
    graph_file: &'a str,
    first_file: &'a str,
    second_file: &'a str,
    reasons: &R,
    shelf: &mut S,
) -> Result<GivenTrees, LoadStop<'a>>
    ensures loads { Loads S.files S.steady S.faults given_trees
        (λ files. trees_given files graph_file.now first_file.now second_file.now)
        result shelf.old shelf.new }
    ensures answered { LoadsAnswered S.reads
        (graph_file.now ∷ first_file.now ∷ second_file.now ∷ []) given_trees
        (λ files. trees_given files (place_name 1) (place_name 2) (place_name 3))
        result shelf.old shelf.new }
    ensures carries { IfErr result
        (CarriesFile ((graph_file.now, FileKind.Graph) ∷ (first_file.now, FileKind.Tree) ∷ (second_file.now, FileKind.Tree) ∷ []) (R.reason shelf.new)) }
    ensures sized { IfErr result (CarriesSizes S.reads graph_file.now shelf.old) }
{
    let given = match load_tree(alloc, graph_file, first_file, reasons, shelf) {
        Ok(given) => given,
        Err(stop) => return Err(stop),
    };
    let second = match load_tree_for(alloc, &given.named.graph, second_file, 3, reasons, shelf) {
        Ok(second) => second,
        Err(stop) => return Err(stop),
    };
    Ok(GivenTrees {
        named: given.named,
        first: given.tree,
        second,
    })
}
