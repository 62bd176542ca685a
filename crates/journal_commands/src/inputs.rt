//! The journals that commands read from a source.
ghost use Rattle.std.specs.Prelude.{◌≡◌, ◌⊎◌, ℕ, List, IfSome, IfOk, IfErr, OnOk, IsTrue, Ok, Err};
ghost use Rattle.std.specs.Io.KnownBytes.{IsAtEnd};
ghost use Rattle.drmaa_types.specs.Counts.{Rose};
ghost use Rattle.journal_text.specs.Journals as journals;
ghost use Rattle.journal_text.specs.declared.journals.Journal.{Journal};
ghost use Rattle.text_lines.specs.Lines.{IsFront, IsTextOf, IsFirstBad};
ghost use Rattle.text_lines.specs.declared.reading.TextFault.{TextFault};
ghost use Rattle.journal_commands.specs.Texts.{IsJournalText, IsReadAs, IsReadOut};
ghost use Rattle.journal_commands.specs.Statuses.{IsUnread};

use crate::status::{Status, status_of};
use byte_streams::{Input, ReadError, Source, read_all};
use journal_text::{Journal, JournalReader};
use std::alloc::Global;
use text_lines::{TextFault, read_lines};

/// The greatest number of bytes of a journal.
const JOURNAL_LIMIT: usize = 268_435_456;

/// Why no bytes were read, as a status.
pub fn read_status(error: ReadError) -> Status
    ensures fault { result ≡ Status.ReadFault → error ≡ ReadError.Fault }
    ensures either { (result ≡ Status.ReadFault) ⊎ (result ≡ Status.Memory) }
{
    match error {
        ReadError::Fault => Status::ReadFault,
        ReadError::OutOfMemory => Status::Memory,
    }
}

/// Reads the journal whose first bytes these are: all of it where it is `whole`, and else as many as the limit.
fn read_first_journal(alloc: Global, front: &[u8], whole: bool) -> Result<Journal, TextFault>
    ensures whole { OnOk result (IsTrue whole) }
    ensures found { (all : List ℕ) → IsFront 268_435_456 all front.now whole → IfOk result (IsTextOf journals.Spells 268_435_456 all) }
    ensures only { (all : List ℕ) (j : Journal) → IsFront 268_435_456 all front.now whole
        → IsTextOf journals.Spells 268_435_456 all j → (result ≡ Ok j) ⊎ (result ≡ Err TextFault.OutOfMemory) }
    ensures line { (all : List ℕ) (n : ℕ) → IsFront 268_435_456 all front.now whole → result ≡ Err (TextFault.Line n)
        → IsFirstBad journals.Spells 268_435_456 all n }
{
    read_lines(alloc, JournalReader::Start, front, whole)
}

/// The journal that all bytes of the source spell.
pub fn read_journal<R: Source>(alloc: Global, source: &mut R) -> Result<Journal, Status>
    ensures writable { IfOk result (λ j. journals.IsWritable j.config j.entries) }
    ensures found { IfOk result (λ j. IfSome (R.left source.old) (λ bytes. IsJournalText bytes j)) }
    ensures end { OnOk result (IsAtEnd (R.left source.new)) }
    ensures only { IfSome (R.left source.old) (λ bytes. (j : Journal) → IsJournalText bytes j → IsReadAs j result) }
    ensures line { (n : ℕ) → result ≡ Err (Status.Text n) → IfSome (R.left source.old) (λ bytes. IsFirstBad journals.Spells 268_435_456 bytes n) }
    ensures read_out { (n : ℕ) → result ≡ Err (Status.Text n) → IsReadOut 268_435_456 (R.left source.old) (R.left source.new) }
    ensures causes { IfErr result IsUnread }
    ensures fault { result ≡ Err Status.ReadFault → Rose (R.faults source.old) (R.faults source.new) }
{
    let Input { bytes, whole } = match read_all(alloc, source, JOURNAL_LIMIT) {
        Ok(input) => input,
        Err(error) => return Err(read_status(error)),
    };
    match read_first_journal(alloc, bytes.as_slice(), whole) {
        Ok(journal) => Ok(journal),
        Err(fault) => Err(status_of(fault)),
    }
}
