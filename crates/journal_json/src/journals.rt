//! A journal, printed an entry at a time.
ghost use Rattle.std.specs.Prelude.{◌≡◌, map, IfOk, IfErr, string_bytes};
ghost use Rattle.drmaa_types.specs.declared.refusals.Refusal.{Refusal};
ghost use Rattle.journal_text.specs.Journals.{recorded_entry, IsWritable};
ghost use Rattle.journal_json.specs.Documents.{json_form};

use crate::entries::push_entries;
use crate::machines::push_machine;
use drmaa_model::{Config, Entry};
use drmaa_types::{Refusal, Text};
use journal_text::Journal;
use std::alloc::{AllocError, Global};

/// The JSON form of a machine and its entries, each call as a journal keeps it.
#[tactic(auto, unfolding(crate::specs::Documents::json_form))]
fn form_of(alloc: Global, config: &Config, entries: &[Entry]) -> Result<String, AllocError>
    ensures { IfOk result (λ s. string_bytes s ≡ json_form config.now (map recorded_entry entries.now)) }
{
    let mut out = String::new(alloc);
    out.push_str("{\"entries\":[")?;
    push_entries(&mut out, alloc, entries)?;
    out.push_str(",\"machine\":")?;
    push_machine(&mut out, alloc, config)?;
    out.push_str("}")?;
    Ok(out)
}

/// The JSON form of a journal, legal or not: one object, written compactly, its keys in byte order. Each call stands in it as a
/// journal keeps it.
///
/// # Errors
/// `OutOfMemory` alone.
pub fn json_journal(alloc: Global, journal: &Journal) -> Result<Text, Refusal>
    ensures text { IfOk result (λ t. t ≡ json_form journal.now.config (map recorded_entry journal.now.entries)) }
    ensures written { IsWritable journal.now.config journal.now.entries → IfOk result (λ t. t ≡ json_form journal.now.config journal.now.entries) }
    ensures memory { IfErr result (λ e. e ≡ Refusal.OutOfMemory) }
{
    match form_of(alloc, &journal.config, journal.entries.as_slice()) {
        Ok(text) => Ok(Text::from_string(text)),
        Err(_) => Err(Refusal::OutOfMemory),
    }
}
