//! Entries as objects.
ghost use Rattle.std.specs.Prelude.{◌≡◌, ◌++◌, ◌∷◌, [], map, IfOk, OnOk, string_bytes, true, false};
ghost use Rattle.journal_text.specs.Journals.{recorded_entry};
ghost use Rattle.serde_json.specs.View.{view};
ghost use Rattle.serde_json.specs.Written.{compact_text, items_text};
ghost use Rattle.journal_json.specs.Documents.{entry_data, entries_data};

use crate::texts::{call_text, reply_text};
use drmaa_model::Entry;
use serde_json::{Value, json};
use std::alloc::{AllocError, Global};

/// The object of an entry with its number, its call as a journal keeps it.
fn entry_value(alloc: Global, number: u64, entry: &Entry) -> Result<Value, AllocError>
    ensures { IfOk result (λ v. view v ≡ entry_data number (recorded_entry entry.now)) }
{
    let at = entry.at.number();
    let caller = entry.caller.0;
    let call = call_text(alloc, &entry.call)?;
    let reply = reply_text(alloc, &entry.reply)?;
    json!(in alloc; {"at": at, "call": call, "caller": caller, "n": number, "reply": reply})
}

/// Prints an entry with its number.
fn push_entry(out: &mut String, alloc: Global, number: u64, entry: &Entry) -> Result<(), AllocError>
    ensures { OnOk result (string_bytes out.new ≡ string_bytes out.old ++ compact_text (entry_data number (recorded_entry entry.now))) }
{
    let value = entry_value(alloc, number, entry)?;
    let text = value.to_string(alloc)?;
    out.push_str(text.as_str())
}

/// Prints entries, numbered from 2 on, each behind a comma.
fn push_others(out: &mut String, alloc: Global, entries: &[Entry]) -> Result<(), AllocError>
    ensures { OnOk result (string_bytes out.new ++ 93 ∷ [] ≡ string_bytes out.old ++ items_text true (entries_data 2 (map recorded_entry entries.now))) }
{
    for (i, entry) in entries.iter().enumerate() {
        out.push_str(",")?;
        push_entry(out, alloc, i as u64 + 2, entry)?;
    }
    Ok(())
}

/// Prints entries, and the bracket behind them.
pub(crate) fn push_entries(
    out: &mut String,
    alloc: Global,
    entries: &[Entry],
) -> Result<(), AllocError>
    ensures { OnOk result (string_bytes out.new ≡ string_bytes out.old ++ items_text false (entries_data 1 (map recorded_entry entries.now))) }
{
    let Some((first, others)) = entries.split_first() else {
        return out.push_str("]");
    };
    push_entry(out, alloc, 1, first)?;
    push_others(out, alloc, others)?;
    out.push_str("]")
}
