//! Reads any text line by line.
ghost use Rattle.std.specs.Prelude.{◌≡◌, List, ℕ, ◌⊎◌, IfOk, IfErr, IfSome, OnOk, IsTrue, Ok, Err, Some};
ghost use Rattle.text_codec.specs.Formats.{Says};
ghost use Rattle.text_lines.specs.Lines.{IsFront, IsTextOf, IsFirstBad};
ghost use Rattle.text_lines.specs.Automata.{Stepping, GoesBy, Reads, from};
ghost use Rattle.text_lines.specs.declared.reading.TextFault.{TextFault};

use crate::splitting::{first_bytes, line_split};
use std::alloc::Global;
use text_codec::Unread;
use thiserror::Error;

/// Why a text could not be read.
#[derive(Clone, Copy, Debug, PartialEq, Eq, Error)]
pub enum TextFault {
    /// The number of the first line after which no text goes on.
    #[error("line {0} is not in the grammar")]
    Line(u64),
    /// Memory ran out.
    #[error("out of memory")]
    OutOfMemory,
}

/// A reader that takes one line after another.
pub trait LineReader: Drop + Sized {
    /// What is read.
    type Read;

    /// Its states, and what they read.
    ghost stepping: { Stepping Self Self.Read };

    /// What is read with a line more. `Unspelled` exactly where no text goes on so.
    fn next(self, alloc: Global, line: &[u8]) -> Result<Self, Unread>
        ensures { Says (stepping.next self line.now) result };

    /// What was read, where the text may end.
    fn ends(self) -> Option<Self::Read>
        ensures { result ≡ stepping.ends self };

    /// From each first state it reads the texts of that state's grammar, and from every state some text goes on.
    ghost reads: { (first : Self) → stepping.is_first first → Reads (GoesBy (from stepping first)) first stepping.ends (stepping.Spells first) };
}

/// What is read with one line more. None where no text goes on so.
fn step<R: LineReader>(alloc: Global, reader: R, line: &[u8]) -> Result<Option<R>, TextFault>
    ensures goes { IfOk result (λ r. IfSome r (GoesBy (from R.stepping reader) reader line.now)) }
    ensures only { (to : R) → GoesBy (from R.stepping reader) reader line.now to → IfOk result (λ r. r ≡ Some to) }
    ensures memory { IfErr result (λ e. e ≡ TextFault.OutOfMemory) }
{
    match R::next(reader, alloc, line) {
        Ok(next) => Ok(Some(next)),
        Err(Unread::Unspelled) => Ok(None),
        Err(Unread::OutOfMemory) => Err(TextFault::OutOfMemory),
    }
}

/// Reads the first bytes of a text, up to a limit; `whole` where they are all of it. The first state says which texts are read.
///
/// # Errors
/// `Line` exactly where the text is none of the grammar's, or is longer than the limit, with the number of the first line
/// after which none goes on.
pub fn read_lines<R: LineReader>(
    alloc: Global,
    first: R,
    front: &[u8],
    whole: bool,
) -> Result<R::Read, TextFault>
    requires first { R.stepping.is_first first }
    ensures whole { OnOk result (IsTrue whole) }
    ensures found { (limit : ℕ) (all : List ℕ) → IsFront limit all front.now whole → IfOk result (IsTextOf (R.stepping.Spells first) limit all) }
    ensures only { (limit : ℕ) (all : List ℕ) (text : R.Read) → IsFront limit all front.now whole → IsTextOf (R.stepping.Spells first) limit all text
        → (result ≡ Ok text) ⊎ (result ≡ Err TextFault.OutOfMemory) }
    ensures line { (limit : ℕ) (all : List ℕ) (n : ℕ) → IsFront limit all front.now whole → result ≡ Err (TextFault.Line n)
        → IsFirstBad (R.stepping.Spells first) limit all n }
{
    let mut reader = first;
    let mut rest = front;
    let mut number = 1u64;
    while let Some((line, behind)) = line_split(rest) {
        let Some(next) = step(alloc, reader, line)? else {
            return Err(TextFault::Line(number));
        };
        reader = next;
        rest = behind;
        number += 1;
    }
    if !whole {
        return Err(TextFault::Line(number));
    }
    if !rest.is_empty() {
        return Err(TextFault::Line(number));
    }
    match reader.ends() {
        Some(text) => Ok(text),
        None => Err(TextFault::Line(number)),
    }
}

/// Reads a text of at most so many bytes, all of it.
///
/// # Errors
/// As `read_lines`.
pub fn read_text<R: LineReader>(
    alloc: Global,
    first: R,
    bytes: &[u8],
    limit: usize,
) -> Result<R::Read, TextFault>
    requires first { R.stepping.is_first first }
    ensures found { IfOk result (IsTextOf (R.stepping.Spells first) limit bytes.now) }
    ensures only { (text : R.Read) → IsTextOf (R.stepping.Spells first) limit bytes.now text
        → (result ≡ Ok text) ⊎ (result ≡ Err TextFault.OutOfMemory) }
    ensures line { (n : ℕ) → result ≡ Err (TextFault.Line n) → IsFirstBad (R.stepping.Spells first) limit bytes.now n }
{
    let whole = bytes.len() <= limit;
    let front = first_bytes(bytes, limit);
    read_lines(alloc, first, front, whole)
}
