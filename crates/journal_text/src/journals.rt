//! Journals, and how they are printed.
ghost use Rattle.std.specs.Prelude.{◌≡◌, map, IfOk, IfErr, OnOk, IsUtf8};
ghost use Rattle.drmaa_types.specs.declared.refusals.Refusal.{Refusal};
ghost use Rattle.std.specs.List.{AllByRecursion};
ghost use Rattle.drmaa_model.specs.RecordedCalls.{recorded};
ghost use Rattle.drmaa_model.specs.declared.entries.Entry.{Entry};
ghost use Rattle.journal_text.specs.Journals.{IsWritable, journal_text, recorded_entry};
ghost use Rattle.journal_text.specs.Printing.{IsPrintable};

use crate::entries::{push_closing, push_lines};
use crate::titles::push_header;
use drmaa_model::{Config, Entry, EntryList};
use drmaa_types::{Bytes, Refusal, Text};
use std::alloc::{AllocError, Global};

/// A machine and the history of what it was asked.
#[derive(Drop)]
pub struct Journal {
    pub config: Config,
    pub entries: EntryList,
}

/// The bytes of a journal, printed through one buffer. Each call is printed as a journal keeps it: a limit's name that no
/// journal can have as `OTHER`.
pub fn journal_bytes(alloc: Global, config: &Config, entries: &[Entry]) -> Result<Bytes, AllocError>
    ensures text { IfOk result (λ b. b ≡ journal_text config.now (map recorded_entry entries.now)) }
    ensures recorded { AllByRecursion (λ (e : Entry). recorded e.call ≡ e.call) entries.now → IfOk result (λ b. b ≡ journal_text config.now entries.now) }
    ensures written { IsWritable config.now entries.now → IfOk result (λ b. b ≡ journal_text config.now entries.now) }
    ensures writable { IsPrintable config.now entries.now → OnOk result (IsWritable config.now entries.now) }
    ensures utf8 { IfOk result (λ b. IsUtf8 b) }
{
    let mut out = Vec::new(alloc);
    push_header(&mut out, config)?;
    push_lines(&mut out, entries)?;
    push_closing(&mut out, entries.len() as u64)?;
    Ok(Bytes::from_vec(out))
}

/// The text of a journal: its bytes as `journal_bytes` prints them.
///
/// # Errors
/// `OutOfMemory` alone.
pub fn print_journal(alloc: Global, journal: &Journal) -> Result<Text, Refusal>
    ensures text { IfOk result (λ t. t ≡ journal_text journal.now.config (map recorded_entry journal.now.entries)) }
    ensures recorded { AllByRecursion (λ (e : Entry). recorded e.call ≡ e.call) journal.now.entries → IfOk result (λ t. t ≡ journal_text journal.now.config journal.now.entries) }
    ensures written { IsWritable journal.now.config journal.now.entries → IfOk result (λ t. t ≡ journal_text journal.now.config journal.now.entries) }
    ensures writable { IsPrintable journal.now.config journal.now.entries → OnOk result (IsWritable journal.now.config journal.now.entries) }
    ensures memory { IfErr result (λ e. e ≡ Refusal.OutOfMemory) }
{
    let Ok(bytes) = journal_bytes(alloc, &journal.config, journal.entries.as_slice()) else {
        return Err(Refusal::OutOfMemory);
    };
    let Ok(text) = String::from_utf8(bytes.into_vec()) else {
        unreachable!();
    };
    Ok(Text::from_string(text))
}
