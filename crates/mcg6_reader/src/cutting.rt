//! Cutting a text into lines.
ghost use Rattle.std.specs.Prelude.{◌≡◌, ◌<◌, IfNone, IfSome, length, position};
ghost use Rattle.mcg6_reader.specs.Common.{is_line_feed, HasNoFeed, IsFirstLine};

// The place of the first line feed.
fn line_feed(text: &[u8]) -> Option<usize>
    ensures place { result ≡ position is_line_feed text.now }
    ensures within { IfSome result (λ end. end < length text.now) }
{
    text.iter().position(|byte| *byte == b'\n')
}

// The first line with a line feed, and the text after it; `None` if no line feed is in the text.
#[tactic(auto, using(crate::proofs::LineCuts::no_feed_position, crate::proofs::LineCuts::first_line_position))]
pub fn first_line(text: &[u8]) -> Option<(&[u8], &[u8])>
    ensures none { IfNone result (HasNoFeed text.now) }
    ensures line { IfSome result (λ found. IsFirstLine text.now found.0.now found.1.now) }
{
    let end = line_feed(text)?;
    Some(text.split_at(end + 1))
}
