//! The law of the texts. It is the contract of a function that does nothing.
ghost use Rattle.std.specs.Prelude.{◌≡◌, true};
ghost use Rattle.std.specs.List.{list_all};
ghost use Rattle.front_words.specs.Texts.{all_texts, is_printable_line};

/// Each text of the messages is one printable line.
pub fn texts_law()
    ensures { list_all is_printable_line all_texts ≡ true }
{}
