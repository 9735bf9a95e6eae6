//! Where a node of a tree of cuts is.
ghost use Rattle.std.specs.Prelude.{◌≡◌};
ghost use Rattle.front_words.specs.NodePlaces.{is_merged, known_place_text, letters_text, spaced_numbers, path_text, place_text, shore_text, step_letter};
ghost use Rattle.front_words.specs.Saying.{Says};

use crate::pieces::MessagePiece::{Number, Text};
use crate::pieces::{Said, say};
use crate::showing::say_bytes;
use crate::texts;
use outside::Sink;
use refusals::NodePlace;
use vset_core::VSet;

// Whether the step is one of these.
fn is_merged(merged: VSet, step: u32) -> bool
    ensures { result ≡ is_merged merged step }
{
    merged.iter().any(|it| it == step)
}

// The letter of a step of a path.
fn step_letter(merged: VSet, step: u32) -> &'static str
    ensures { result.now ≡ step_letter merged step }
{
    if is_merged(merged, step) { "m" } else { "k" }
}

// Says the letters of the first so many steps.
fn say_letters<K: Sink>(sink: &mut K, merged: VSet, depth: u32) -> Said
    ensures { Says K.written K.writes K.faults (letters_text merged 1 depth) result sink.old
        sink.new }
{
    'saying: for before in 0..depth {
        say_bytes(sink, step_letter(merged, before + 1).as_bytes())?;
    }
    Ok(())
}

// Says a path of so many steps.
fn say_path<K: Sink>(sink: &mut K, merged: VSet, depth: u32) -> Said
    ensures { Says K.written K.writes K.faults (path_text depth merged) result sink.old sink.new }
{
    if depth == 0 {
        say_bytes(sink, b".")
    } else {
        say_letters(sink, merged, depth)
    }
}

// Says each number of a set with one blank before it.
fn say_numbers<K: Sink>(sink: &mut K, set: VSet) -> Said
    ensures { Says K.written K.writes K.faults (spaced_numbers set) result sink.old sink.new }
{
    let Some((number, others)) = set.split_first() else {
        return say_bytes(sink, b"");
    };
    say(sink, &[Text(" "), Number(number as u64)])?;
    say_numbers(sink, others)
}

// Says the shore at a node, if the node is no leaf.
fn say_shore<K: Sink>(sink: &mut K, shore: Option<VSet>) -> Said
    ensures { Says K.written K.writes K.faults (shore_text shore) result sink.old sink.new }
{
    let Some(shore) = shore else {
        return say_bytes(sink, b"");
    };
    say(sink, &[Text(texts::SHORE)])?;
    say_numbers(sink, shore)
}

// Says the path to a node, and its shore.
fn say_known_place<K: Sink>(sink: &mut K, place: NodePlace) -> Said
    ensures { Says K.written K.writes K.faults (known_place_text place) result sink.old sink.new }
{
    say(sink, &[Text(texts::PATH)])?;
    say_path(sink, place.merged, place.depth)?;
    say_shore(sink, place.shore)
}

/// Says the path to a node and its shore, if they are known. Takes no memory.
pub fn say_place<K: Sink>(sink: &mut K, place: Option<NodePlace>) -> Said
    ensures { Says K.written K.writes K.faults (place_text place) result sink.old sink.new }
{
    match place {
        Some(place) => say_known_place(sink, place),
        None => say_bytes(sink, b""),
    }
}
