//! The text of a summary.
ghost use Rattle.std.specs.Prelude.{◌≡◌, ◌∷◌, ◌++◌, [], decimal, IfOk, OnOk, string_bytes};
ghost use Rattle.text_lines.specs.Lines.{ended};
ghost use Rattle.soak.specs.Summaries.{count_line, summary_text};

use crate::Summary;
use drmaa_types::Text;
use itoa::Buffer;
use std::alloc::{AllocError, Global};

/// Writes a line of a word and a number.
fn push_count(out: &mut String, word: &str, number: u64) -> Result<(), AllocError>
    ensures { OnOk result (string_bytes out.new ≡ string_bytes out.old ++ ended (count_line word.now number ∷ [])) }
{
    let mut digits = Buffer::new();
    out.push_str(word)?;
    out.push_str(" ")?;
    out.push_str(digits.format(number))?;
    out.push_str("\n")?;
    Ok(())
}

/// The text of a summary: a line for each of its numbers, with a word before it.
///
/// # Errors
///
/// Want of memory.
pub fn print_summary(alloc: Global, summary: &Summary) -> Result<Text, AllocError>
    ensures { IfOk result (λ text. text ≡ summary_text summary.now) }
{
    let mut out = String::new(alloc);
    push_count(&mut out, "entries", summary.entries)?;
    push_count(&mut out, "changes", summary.changes)?;
    push_count(&mut out, "done", summary.done)?;
    push_count(&mut out, "failed", summary.failed)?;
    push_count(&mut out, "refused", summary.refused)?;
    push_count(&mut out, "held", u64::from(summary.held))?;
    push_count(&mut out, "reservations", summary.reservations)?;
    push_count(&mut out, "size", summary.size)?;
    Ok(Text::from_string(out))
}
