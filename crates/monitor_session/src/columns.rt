//! Columns: words that are filled up with spaces to so many places. A word that needs more places is written whole.
ghost use Rattle.std.specs.Prelude.{◌≡◌, ◌++◌, OnOk, replicate, string_bytes};
ghost use Rattle.monitor_session.specs.Listings as listings;

use std::alloc::AllocError;

/// Writes so many spaces.
fn push_spaces(out: &mut String, count: usize) -> Result<(), AllocError>
    ensures { OnOk result (string_bytes out.new ≡ string_bytes out.old ++ replicate count 32) }
{
    for _ in 0..count {
        out.push(' ')?;
    }
    Ok(())
}

/// Writes a word at the right of its places.
pub(crate) fn push_right(out: &mut String, places: usize, word: &str) -> Result<(), AllocError>
    ensures { OnOk result (string_bytes out.new ≡ string_bytes out.old ++ listings.right places word.now) }
{
    push_spaces(out, places.saturating_sub(word.len()))?;
    out.push_str(word)
}

/// Writes a word at the left of its places.
pub(crate) fn push_left(out: &mut String, places: usize, word: &str) -> Result<(), AllocError>
    ensures { OnOk result (string_bytes out.new ≡ string_bytes out.old ++ listings.left places word.now) }
{
    out.push_str(word)?;
    push_spaces(out, places.saturating_sub(word.len()))
}
