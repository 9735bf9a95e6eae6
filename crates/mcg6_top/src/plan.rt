//! Reading the words.
ghost use Rattle.std.specs.Prelude.{◌≡◌, ◌∷◌, map, string_bytes};
ghost use Rattle.std.specs.Option.{option_map};
ghost use Rattle.mcg6_top.specs.Common.{asked, list_asked, command_of, list_command_of, encode_of, encode_pair, property_named, bricks_property, braces_property, counted_property, query_named, leaves_named, select_named, pair_named, may_skip, asks_skip, command_with_word, command_with_two, command_with, command_if, text_of};

use crate::command::{AtBadLine, ListCommand, Mcg6Command};
use line_text::number;
use mcg6_lines::decomposer::NamedOrder;
use mcg6_lines::{Property, Query};

// The property of so many bricks that the word names, if it names one.
fn bricks_property(word: &str) -> Option<Property>
    ensures { result ≡ bricks_property word.now }
{
    let digits = word.as_bytes().strip_prefix(b"bricks=")?;
    let count = number(digits)?;
    Some(Property::Bricks { count })
}

// The property of so many braces that the word names, if it names one.
fn braces_property(word: &str) -> Option<Property>
    ensures { result ≡ braces_property word.now }
{
    let digits = word.as_bytes().strip_prefix(b"braces=")?;
    let count = number(digits)?;
    Some(Property::Braces { count })
}

// The property of so many bricks or braces that the word names, if it names one.
#[tactic(auto, unfolding(crate::specs::Commands::counted_property))]
fn counted_property(word: &str) -> Option<Property>
    ensures { result ≡ counted_property word.now }
{
    match bricks_property(word) {
        Some(property) => Some(property),
        None => braces_property(word),
    }
}

// The property that the word names, if it names one.
fn property_named(word: &str) -> Option<Property>
    ensures { result ≡ property_named word.now }
{
    match word {
        "covered" => Some(Property::Covered),
        "uncovered" => Some(Property::Uncovered),
        "perfect" => Some(Property::Perfect),
        "brick" => Some(Property::Brick),
        "brace" => Some(Property::Brace),
        "bicritical" => Some(Property::Bicritical),
        "composite" => Some(Property::Composite),
        _ => counted_property(word),
    }
}

// The query that the word asks for by itself, if it asks for one.
fn query_named(word: &str) -> Option<Query>
    ensures { result ≡ query_named word.now }
{
    match word {
        "kinds" => Some(Query::Kinds),
        "leaves" => Some(Query::Leaves {
            order: NamedOrder::First,
        }),
        "elementary" => Some(Query::Elementary),
        "matching" => Some(Query::Matching),
        "cuts" => Some(Query::Cuts),
        "ears" => Some(Query::Ears),
        "graph" => Some(Query::Graph),
        _ => None,
    }
}

// The query for the leaves in the order that the word names, if it names one.
#[tactic(auto, unfolding(crate::specs::Commands::leaves_named))]
fn leaves_named(word: &str) -> Option<Query>
    ensures { result ≡ leaves_named word.now }
{
    let order = NamedOrder::of_word(word)?;
    Some(Query::Leaves { order })
}

// The query for the graphs with the property that the word names, if it names one.
#[tactic(auto, unfolding(crate::specs::Commands::select_named))]
fn select_named(word: &str) -> Option<Query>
    ensures { result ≡ select_named word.now }
{
    let property = property_named(word)?;
    Some(Query::Select { property })
}

// The query that the two words ask for, if they ask for one.
fn pair_named(word: &str, second: &str) -> Option<Query>
    ensures { result ≡ pair_named word.now second.now }
{
    match word {
        "leaves" => leaves_named(second),
        "select" => select_named(second),
        _ => None,
    }
}

// Whether the query may be asked of a list with bad lines: all but the file of one graph.
fn may_skip(query: &Query) -> bool
    ensures { result ≡ may_skip query.now }
{
    match query {
        Query::Graph => false,
        Query::Kinds
        | Query::Leaves { .. }
        | Query::Elementary
        | Query::Matching
        | Query::Cuts
        | Query::Ears
        | Query::Select { .. } => true,
    }
}

// Whether the word after the query says that the list goes on after a bad line.
fn asks_skip(query: &Query, word: &str) -> bool
    ensures { result ≡ asks_skip query.now word.now }
{
    may_skip(query) && word == "skip"
}

// The command of the query and one more word: `skip`, or the name of the file.
fn with_word<'a>(query: Query, word: &'a str) -> Option<ListCommand<'a>>
    ensures { option_map list_asked result ≡ command_with_word query word.now }
{
    if asks_skip(&query, word) {
        let at_bad = AtBadLine::Skip;
        let file = None;
        return Some(ListCommand {
            query,
            at_bad,
            file,
        });
    }
    let at_bad = AtBadLine::Stop;
    let file = Some(word);
    Some(ListCommand {
        query,
        at_bad,
        file,
    })
}

// The command of the query and two more words: `skip` and the name of the file.
fn with_two<'a>(query: Query, word: &str, file: &'a str) -> Option<ListCommand<'a>>
    ensures { option_map list_asked result ≡ command_with_two query word.now file.now }
{
    if asks_skip(&query, word) {
        let at_bad = AtBadLine::Skip;
        let file = Some(file);
        return Some(ListCommand {
            query,
            at_bad,
            file,
        });
    }
    None
}

// The command of the query and the words after it.
fn with_words(query: Query, words: &[String]) -> Option<ListCommand<'_>>
    ensures { option_map list_asked result ≡ command_with query (map string_bytes words.now) }
{
    match words {
        [] => {
            let at_bad = AtBadLine::Stop;
            let file = None;
            Some(ListCommand {
                query,
                at_bad,
                file,
            })
        }
        [word] => with_word(query, word.as_str()),
        [word, file] => with_two(query, word.as_str(), file.as_str()),
        _ => None,
    }
}

// The command whose query is this word alone, and which has these words after it.
fn with_first<'a>(word: &str, words: &'a [String]) -> Option<ListCommand<'a>>
    ensures { option_map list_asked result ≡
        command_if (query_named word.now) (map string_bytes words.now) }
{
    with_words(query_named(word)?, words)
}

// The command of the first word and those after it: the second has more to say of the query, or
// comes after it.
fn with_second<'a>(word: &str, words: &'a [String]) -> Option<ListCommand<'a>>
    ensures { option_map list_asked result ≡ list_command_of (word.now ∷ map string_bytes words.now) }
{
    match words.split_first() {
        None => with_first(word, words),
        Some((second, others)) => match pair_named(word, second.as_str()) {
            Some(query) => with_words(query, others),
            None => with_first(word, words),
        },
    }
}

// The command on a list that the words ask for, if they ask for one.
fn list_command_of(words: &[String]) -> Option<ListCommand<'_>>
    ensures { option_map list_asked result ≡ list_command_of (map string_bytes words.now) }
{
    let (word, others) = words.split_first()?;
    with_second(word.as_str(), others)
}

// The file, where the word asks for its graph6 text.
fn encode_pair<'a>(word: &str, file: &'a str) -> Option<&'a str>
    ensures { text_of result ≡ encode_pair word.now file.now }
{
    match word {
        "encode" => Some(file),
        _ => None,
    }
}

// The name of the graph file whose graph6 text the words ask for, if they do.
fn encode_of(words: &[String]) -> Option<&str>
    ensures { text_of result ≡ encode_of (map string_bytes words.now) }
{
    match words {
        [] => None,
        [_] => None,
        [word, file] => encode_pair(word.as_str(), file.as_str()),
        _ => None,
    }
}

/// What the words ask for. Takes no memory.
pub fn command_of(words: &[String]) -> Option<Mcg6Command<'_>>
    ensures { option_map asked result ≡ command_of (map string_bytes words.now) }
{
    match encode_of(words) {
        Some(file) => Some(Mcg6Command::Encode { file }),
        None => {
            let list = list_command_of(words)?;
            Some(Mcg6Command::Answer { list })
        }
    }
}
