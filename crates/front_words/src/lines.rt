//! A line of a text by its number.
ghost use Rattle.std.specs.Prelude.{◌≡◌};
ghost use Rattle.std.specs.Option.{option_map};
ghost use Rattle.front_words.specs.LinesAt.{line_at};

use line_text::split_line;

/// The line with that number, counted from 1, without its line feed, if the text has it. Takes no
/// memory.
pub fn line_at(text: &[u8], number: u32) -> Option<&[u8]>
    ensures { option_map (λ line. line.now) result ≡ line_at text.now number }
{
    let mut rest = text;
    let mut before = number.saturating_sub(1);
    'passing: while let Some((line, others)) = split_line(rest) {
        if before == 0 {
            return Some(line);
        }
        rest = others;
        before -= 1;
    }
    None
}
