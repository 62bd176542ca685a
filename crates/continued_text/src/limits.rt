//! The byte limit that a text passes first.
ghost use Rattle.std.specs.Prelude.{◌≡◌, ℕ, List, IsTrue, option_map, take};
ghost use Rattle.std.specs.List.{prefix_len};
ghost use Rattle.text_codec.specs.Lexical.{no_feed};
ghost use Rattle.text_lines.specs.Splitting.{first_line};
ghost use Rattle.text_lines.specs.Lines.{whole_lines, IsFront};
ghost use Rattle.continued_text.specs.Texts.{is_last, end_of, limit_behind, byte_limit};

use crate::{SCRIPT_LIMIT, WHOLE_LIMIT};

/// How many bytes stand before the first line feed.
fn line_len(bytes: &[u8]) -> usize
    ensures { result ≡ prefix_len no_feed bytes.now }
{
    bytes.iter().take_while(|b| **b != b'\n').count()
}

/// What stands before the first line feed, and behind it.
fn line_split(bytes: &[u8]) -> Option<(&[u8], &[u8])>
    ensures { option_map (λ p. (p.0.now, p.1.now)) result ≡ first_line bytes.now }
{
    let (line, behind) = bytes.split_at(line_len(bytes));
    match behind.split_first() {
        Some((_, rest)) => Some((line, rest)),
        None => None,
    }
}

/// Whether a line ends a journal, if it has one behind its first line and its entries.
fn is_last(line: &[u8]) -> bool
    ensures { result ≡ is_last line.now }
{
    line.starts_with(b"end ")
}

/// How many bytes there are through the first line that ends a journal. None where there is no such line.
fn journal_len(bytes: &[u8]) -> Option<usize>
    ensures { result ≡ end_of (whole_lines bytes.now) }
{
    let mut rest = bytes;
    while let Some((line, behind)) = line_split(rest) {
        if is_last(line) {
            return Some(bytes.len() - behind.len());
        }
        rest = behind;
    }
    None
}

/// The limit behind a journal of so many bytes.
fn limit_behind(journal_len: Option<usize>) -> usize
    ensures { result ≡ limit_behind journal_len }
{
    match journal_len {
        Some(len) if len < WHOLE_LIMIT => WHOLE_LIMIT.min(len + SCRIPT_LIMIT),
        _ => WHOLE_LIMIT,
    }
}

/// How many bytes a text that begins with these may have: 268,435,456, and no more than 16,777,216 behind the first line that
/// ends a journal.
fn limit_of(bytes: &[u8]) -> usize
    ensures { result ≡ byte_limit bytes.now }
{
    limit_behind(journal_len(bytes))
}

/// The first bytes, up to so many.
pub(crate) fn first_bytes(bytes: &[u8], limit: usize) -> &[u8]
    ensures { result.now ≡ take limit bytes.now }
{
    &bytes[..bytes.len().min(limit)]
}

/// Of the first 268,435,456 bytes of a text those up to its limit, and whether they are all of it, as the first ones are where they
/// are `whole`.
pub(crate) fn within_limit(front: &[u8], whole: bool) -> (&[u8], bool)
    ensures front { (all : List ℕ) → IsFront 268_435_456 all front.now whole → IsFront (byte_limit all) all result.0.now result.1 }
    ensures whole { IsTrue result.1 → IsTrue whole }
{
    let limit = limit_of(front);
    let is_all = whole && front.len() <= limit;
    (first_bytes(front, limit), is_all)
}
