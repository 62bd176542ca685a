//! Reads a journal, line by line.
ghost use Rattle.std.specs.Prelude.{◌≡◌, ◌≤◌, ◌⊎◌, ℕ, ◌++◌, ◌∷◌, [], length, Some, None, IfOk, IfErr, IsSome, Ok, Err, codes, if◌then◌else◌};
ghost use Rattle.text_codec.specs.Formats.{Says, strip};
ghost use Rattle.text_codec.specs.declared.unread.Unread.{Unread};
ghost use Rattle.text_lines.specs.Lines.{IsFirstBad};
ghost use Rattle.text_lines.specs.declared.reading.TextFault.{TextFault};
ghost use Rattle.journal_text.specs.Journals.{IsText, IsWritable, Spells, byte_limit};
ghost use Rattle.journal_text.specs.Reading as lines;
ghost use Rattle.journal_text.specs.JournalLaws as laws;
ghost use Rattle.journal_text.specs.declared.reading.JournalReader.{JournalReader};
ghost use Rattle.journal_text.specs.declared.journals.Journal.{Journal};

use crate::Journal;
use crate::entries::{count_of, entry_of};
use crate::sharing::share;
use crate::titles::header_of;
use drmaa_model::{Config, EntryList};
use drmaa_types::ListOf;
use std::alloc::Global;
use text_codec::{Cursor, Unread, push_last};
use text_lines::{LineReader, TextFault, read_text};

/// The greatest number of bytes of a journal.
pub const BYTE_LIMIT: usize = 268_435_456;

/// A journal that is read line by line: what was read so far.
#[derive(Drop)]
pub enum JournalReader {
    /// Nothing.
    Start,
    /// The first line, and the lines of entries.
    Going { config: Config, entries: EntryList },
    /// The last line, too.
    Ended(Journal),
}

/// What is read with the last line, which says so many entries.
fn closed(config: Config, entries: EntryList, count: u64) -> Result<JournalReader, Unread>
    ensures says { Says (lines.closed config entries count) result }
    ensures memory { IfErr result (λ e. e ≡ Unread.Unspelled) }
{
    if count == entries.as_slice().len() as u64 {
        Ok(JournalReader::Ended(Journal { config, entries }))
    } else {
        Err(Unread::Unspelled)
    }
}

/// The list with one value more, where that may stand.
fn longer_where<T: Drop>(may_stand: bool, list: ListOf<T>, value: T) -> Result<ListOf<T>, Unread>
    ensures { Says (if may_stand then Some (list ++ value ∷ []) else None) result }
{
    if !may_stand {
        return Err(Unread::Unspelled);
    }
    let mut list = list.into_vec();
    push_last(&mut list, value)?;
    Ok(ListOf::from_vec(list))
}

/// What is read with the line of one entry more, which has the next number. It shares what is the same in an entry before it.
fn longer(
    alloc: Global,
    config: Config,
    entries: EntryList,
    line: &[u8],
) -> Result<JournalReader, Unread>
    ensures { Says (lines.longer_by config entries line.now) result }
{
    let count = entries.as_slice().len() as u64;
    let (number, mut entry) = entry_of(alloc, line)?;
    share(&mut entry, entries.as_slice());
    let entries = longer_where(number == count + 1, entries, entry)?;
    Ok(JournalReader::Going { config, entries })
}

/// What is read with a line more, behind the first line.
fn after_going(
    alloc: Global,
    config: Config,
    entries: EntryList,
    line: &[u8],
) -> Result<JournalReader, Unread>
    ensures says { Says (lines.next (JournalReader.Going config entries) line.now) result }
    ensures last { IsSome (strip (codes "end ") line.now) → IfErr result (λ e. e ≡ Unread.Unspelled) }
{
    let mut cursor = Cursor::new(alloc, line);
    if cursor.skip(b"end ") {
        let count = count_of(&mut cursor)?;
        return closed(config, entries, count);
    }
    longer(alloc, config, entries, line)
}

impl LineReader for JournalReader {
    type Read = Journal;

    ghost stepping = { lines.reading };

    ghost reads = { laws.reads_from };

    fn next(self, alloc: Global, line: &[u8]) -> Result<JournalReader, Unread>
        ensures says { Says (lines.next self line.now) result }
        ensures ended { (journal : Journal) → self ≡ JournalReader.Ended journal → result ≡ Err Unread.Unspelled }
    {
        match self {
            JournalReader::Start => {
                let config = header_of(alloc, line)?;
                let entries = ListOf::new(alloc);
                Ok(JournalReader::Going { config, entries })
            }
            JournalReader::Going { config, entries } => after_going(alloc, config, entries, line),
            JournalReader::Ended(_) => Err(Unread::Unspelled),
        }
    }

    fn ends(self) -> Option<Journal> {
        match self {
            JournalReader::Ended(journal) => Some(journal),
            _ => None,
        }
    }
}

/// The journal of which these bytes are a text, all of them: of version 2 or of version 1.
///
/// # Errors
/// `Line` where they are a text of none, or are more than 268,435,456 bytes, with the number of the first line after which no
/// journal goes on. `OutOfMemory` where memory ran out, which may be before a bad line was seen.
pub fn read_journal(alloc: Global, bytes: &[u8]) -> Result<Journal, TextFault>
    ensures writable { IfOk result (λ j. IsWritable j.config j.entries) }
    ensures found { IfOk result (λ j. IsText j.config j.entries bytes.now) }
    ensures within { IfOk result (λ j. length bytes.now ≤ byte_limit) }
    ensures only { (j : Journal) → IsWritable j.config j.entries → IsText j.config j.entries bytes.now → length bytes.now ≤ byte_limit
        → (result ≡ Ok j) ⊎ (result ≡ Err TextFault.OutOfMemory) }
    ensures line { (n : ℕ) → result ≡ Err (TextFault.Line n) → IsFirstBad Spells byte_limit bytes.now n }
{
    read_text(alloc, JournalReader::Start, bytes, BYTE_LIMIT)
}
