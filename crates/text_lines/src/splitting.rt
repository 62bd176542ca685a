//! The first line of some bytes, and their first bytes.
ghost use Rattle.std.specs.Prelude.{◌≡◌, option_map, take};
ghost use Rattle.std.specs.List.{prefix_len};
ghost use Rattle.text_codec.specs.Lexical.{no_feed};
ghost use Rattle.text_lines.specs.Splitting.{first_line};

/// How many bytes stand before the first line feed.
fn line_len(bytes: &[u8]) -> usize
    ensures { result ≡ prefix_len no_feed bytes.now }
{
    bytes.iter().take_while(|b| **b != b'\n').count()
}

/// What stands before the first line feed, and behind it.
pub(crate) fn line_split(bytes: &[u8]) -> Option<(&[u8], &[u8])>
    ensures { option_map (λ p. (p.0.now, p.1.now)) result ≡ first_line bytes.now }
{
    let (line, behind) = bytes.split_at(line_len(bytes));
    match behind.split_first() {
        Some((_, rest)) => Some((line, rest)),
        None => None,
    }
}

/// The first bytes, up to so many.
pub(crate) fn first_bytes(bytes: &[u8], limit: usize) -> &[u8]
    ensures { result.now ≡ take limit bytes.now }
{
    &bytes[..bytes.len().min(limit)]
}
