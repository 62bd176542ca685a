//! Reads a journal and the script behind it, line by line.
ghost use Rattle.std.specs.Prelude.{◌≡◌, ◌⊎◌, List, ℕ, IfOk, OnOk, IsTrue, Ok, Err};
ghost use Rattle.text_lines.specs.Lines.{IsFront, IsFirstBad};
ghost use Rattle.text_lines.specs.declared.reading.TextFault.{TextFault};
ghost use Rattle.journal_text.specs.Journals.{IsWritable};
ghost use Rattle.continued_text.specs.Texts.{IsSerial, Spells, IsContinued, byte_limit};
ghost use Rattle.continued_text.specs.Reading as states;
ghost use Rattle.continued_text.specs.SequenceLaws.{reads_continued};
ghost use Rattle.continued_text.specs.declared.texts.Continued.{Continued};

use crate::limits::{first_bytes, within_limit};
use crate::matching::start_behind;
use crate::{Continued, MatchingReader, WHOLE_LIMIT};
use journal_text::JournalReader;
use std::alloc::Global;
use text_codec::Unread;
use text_lines::{LineReader, Skipping, TextFault, read_lines};

/// What was read so far.
#[derive(Drop)]
pub enum ContinuedReader {
    /// Of the journal, and not its last line.
    InJournal(JournalReader),
    /// The journal, and of the script.
    InScript(Skipping<MatchingReader>),
}

/// The script begins behind the journal's last line.
fn onward(reader: JournalReader) -> ContinuedReader
    ensures { result ≡ states.onward reader }
{
    match reader {
        JournalReader::Ended(journal) => ContinuedReader::InScript(Skipping {
            reader: start_behind(journal),
        }),
        other => ContinuedReader::InJournal(other),
    }
}

impl LineReader for ContinuedReader {
    type Read = Continued;

    ghost stepping = { states.continuing };

    ghost reads = { reads_continued };

    fn next(self, alloc: Global, line: &[u8]) -> Result<ContinuedReader, Unread> {
        match self {
            ContinuedReader::InJournal(reader) => {
                let reader = reader.next(alloc, line)?;
                Ok(onward(reader))
            }
            ContinuedReader::InScript(reader) => {
                let reader = reader.next(alloc, line)?;
                Ok(ContinuedReader::InScript(reader))
            }
        }
    }

    fn ends(self) -> Option<Continued> {
        match self {
            ContinuedReader::InJournal(reader) => {
                drop(reader);
                None
            }
            ContinuedReader::InScript(reader) => reader.ends(),
        }
    }
}

/// Reads the journal and the script whose first bytes these are: all of them where they are `whole`, and else the first 268,435,456.
///
/// # Errors
/// As `read_continued`, on all bytes.
pub fn read_first(alloc: Global, front: &[u8], whole: bool) -> Result<Continued, TextFault>
    ensures whole { OnOk result (IsTrue whole) }
    ensures writable { IfOk result (λ c. IsWritable c.journal.config c.journal.entries) }
    ensures serial { IfOk result (λ c. IsSerial c.script) }
    ensures same { IfOk result (λ c. c.script.config ≡ c.journal.config) }
    ensures found { (all : List ℕ) → IsFront 268_435_456 all front.now whole → IfOk result (IsContinued all) }
    ensures only { (all : List ℕ) (c : Continued) → IsFront 268_435_456 all front.now whole → IsContinued all c
        → (result ≡ Ok c) ⊎ (result ≡ Err TextFault.OutOfMemory) }
    ensures line { (all : List ℕ) (n : ℕ) → IsFront 268_435_456 all front.now whole → result ≡ Err (TextFault.Line n)
        → IsFirstBad Spells (byte_limit all) all n }
{
    let (first, is_all) = within_limit(front, whole);
    let start = ContinuedReader::InJournal(JournalReader::Start);
    read_lines(alloc, start, first, is_all)
}

/// The journal and the script that these bytes spell, all of them: a text of a journal, of either version, and behind it a serial
/// script whose machine and queues are those of the journal.
///
/// # Errors
/// `Line` where they spell none, are more than 268,435,456 bytes, or more than 16,777,216 behind the journal's last line, with the
/// number of the first line after which no such text goes on; of the two limits the one counts that is passed first.
/// `OutOfMemory` where memory ran out, which may be before a bad line was seen.
pub fn read_continued(alloc: Global, bytes: &[u8]) -> Result<Continued, TextFault>
    ensures writable { IfOk result (λ c. IsWritable c.journal.config c.journal.entries) }
    ensures serial { IfOk result (λ c. IsSerial c.script) }
    ensures same { IfOk result (λ c. c.script.config ≡ c.journal.config) }
    ensures found { IfOk result (IsContinued bytes.now) }
    ensures only { (c : Continued) → IsContinued bytes.now c → (result ≡ Ok c) ⊎ (result ≡ Err TextFault.OutOfMemory) }
    ensures line { (n : ℕ) → result ≡ Err (TextFault.Line n) → IsFirstBad Spells (byte_limit bytes.now) bytes.now n }
{
    let whole = bytes.len() <= WHOLE_LIMIT;
    let front = first_bytes(bytes, WHOLE_LIMIT);
    read_first(alloc, front, whole)
}
