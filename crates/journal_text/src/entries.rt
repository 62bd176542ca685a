//! The lines of entries, and the last line.
ghost use Rattle.std.specs.Prelude.{◌≡◌, ◌∷◌, [], ◌++◌, ◌^◌, ◌<◌, true, map, IfErr, OnOk};
ghost use Rattle.text_codec.specs.declared.unread.Unread.{Unread};
ghost use Rattle.std.specs.List.{AllByRecursion};
ghost use Rattle.drmaa_model.specs.RecordedCalls.{recorded};
ghost use Rattle.text_codec.specs.Formats.{Answers, Says, number, read_line};
ghost use Rattle.text_codec.specs.Formats as form;
ghost use Rattle.text_forms.specs.Templates.{any_template, any_frame};
ghost use Rattle.text_lines.specs.Lines.{ended};
ghost use Rattle.journal_forms.specs.Calls.{calls, call_form};
ghost use Rattle.journal_forms.specs.Replies.{reply_form, may_answer};
ghost use Rattle.journal_text.specs.Journals as journals;
ghost use Rattle.journal_text.specs.Journals.{recorded_entry};
ghost use Rattle.journal_text.specs.Printing.{any_entry, IsRanged};

use drmaa_model::{Call, Entry, Reply};
use drmaa_types::{CallerId, Moment};
use journal_forms::{push_call, push_reply, read_call, read_reply};
use std::alloc::{AllocError, Global};
use text_codec::{Cursor, Form, Print, Unread, push_behind, push_number};

/// Reads the number of an entry, its caller and its moment.
#[tactic(auto, unfolding(crate::specs::Journals::stamp, text_codec::specs::Formats::pair))]
fn stamp_at(cursor: &mut Cursor) -> Result<(u64, (CallerId, Moment)), Unread>
    ensures { Answers journals.stamp.read cursor.old result cursor.new }
{
    let number = cursor.u64()?;
    cursor.expect(b" ")?;
    let caller = CallerId::read(cursor)?;
    cursor.expect(b" ")?;
    let at = cursor.moment()?;
    Ok((number, (caller, at)))
}

/// Reads the reply that stands behind what was read before it.
fn with_reply<T: Drop>(cursor: &mut Cursor, first: T) -> Result<(T, Reply), Unread>
    ensures { Answers (journals.with_reply first) cursor.old result cursor.new }
{
    cursor.expect(b" = ")?;
    let reply = read_reply(cursor)?;
    Ok((first, reply))
}

/// Reads a call and its reply.
#[tactic(auto, unfolding(crate::specs::Journals::answered, text_codec::specs::Fields::joined))]
fn answered_at(cursor: &mut Cursor) -> Result<(Call, Reply), Unread>
    ensures { Answers (journals.answered calls).read cursor.old result cursor.new }
{
    let call = read_call(cursor)?;
    with_reply(cursor, call)
}

/// Reads an entry with its number.
#[tactic(auto, unfolding(crate::specs::Journals::entry, crate::specs::Journals::entry_with, text_codec::specs::Formats::mapped, text_codec::specs::Formats::pair))]
fn entry_at(cursor: &mut Cursor) -> Result<(u64, Entry), Unread>
    ensures { Answers journals.entry.read cursor.old result cursor.new }
{
    let (number, (caller, at)) = stamp_at(cursor)?;
    cursor.expect(b" ")?;
    let (call, reply) = answered_at(cursor)?;
    let entry = Entry {
        caller,
        at,
        call,
        reply,
    };
    Ok((number, entry))
}

/// What was read, where nothing follows it.
fn alone<T: Drop>(cursor: &Cursor, value: T) -> Result<T, Unread>
    ensures { Says (form.whole value cursor.now) result }
{
    cursor.end()?;
    Ok(value)
}

/// The entry that a line says, with its number.
pub(crate) fn entry_of(alloc: Global, line: &[u8]) -> Result<(u64, Entry), Unread>
    ensures { Says (read_line journals.entry line.now) result }
{
    let mut cursor = Cursor::new(alloc, line);
    let entry = entry_at(&mut cursor)?;
    alone(&cursor, entry)
}

/// The number that stands alone in what is left of a line.
pub(crate) fn count_of(cursor: &mut Cursor) -> Result<u64, Unread>
    ensures says { Says (read_line (number (2 ^ 64)) cursor.old) result }
    ensures memory { IfErr result (λ e. e ≡ Unread.Unspelled) }
{
    let count = cursor.u64()?;
    cursor.end()?;
    Ok(count)
}

/// Prints the number of an entry, its caller and its moment.
#[tactic(auto, unfolding(crate::specs::Journals::stamp, text_codec::specs::Formats::pair))]
fn push_stamp(out: &mut Vec<u8>, number: u64, entry: &Entry) -> Result<(), AllocError>
    ensures text { OnOk result (out.new.items ≡ out.old.items ++ journals.stamp.spell (number, (entry.now.caller, entry.now.at))) }
    ensures valid { OnOk result (journals.stamp.valid (number, (entry.now.caller, entry.now.at))) }
{
    number.push(out)?;
    push_behind(out, b" ", &entry.caller)?;
    push_behind(out, b" ", &entry.at)
}

/// Prints an entry with its number, its call as a journal keeps it.
#[tactic(auto, unfolding(crate::specs::Printing::any_entry, crate::specs::Journals::entry_with, crate::specs::Journals::answered, journal_forms::specs::Calls::calls_with, journal_forms::specs::Replies::replies, journal_forms::specs::Replies::reply_sum, text_codec::specs::Formats::mapped, text_codec::specs::Formats::pair, text_codec::specs::Fields::joined, text_codec::specs::Sums::sum_of))]
fn push_entry(out: &mut Vec<u8>, number: u64, entry: &Entry) -> Result<(), AllocError>
    ensures text { OnOk result (out.new.items ≡ out.old.items ++ any_entry.spell (number, recorded_entry entry.now)) }
    ensures stamp { OnOk result (journals.stamp.valid (number, (entry.now.caller, entry.now.at))) }
    ensures call { OnOk result ((call_form any_template any_frame (recorded entry.now.call)).valid) }
    ensures reply { may_answer entry.now.reply ≡ true → OnOk result ((reply_form entry.now.reply).valid) }
{
    push_stamp(out, number, entry)?;
    out.extend_from_slice(b" ")?;
    push_call(out, &entry.call)?;
    out.extend_from_slice(b" = ")?;
    push_reply(out, &entry.reply)
}

/// Prints a line feed.
fn push_feed(out: &mut Vec<u8>) -> Result<(), AllocError>
    ensures { OnOk result (out.new.items ≡ out.old.items ++ 10 ∷ []) }
{
    out.extend_from_slice(b"\n")
}

/// Prints the line of an entry.
#[tactic(auto, using(crate::specs::PrintLaws::same_entry, crate::specs::PrintLaws::is_ranged))]
fn push_line(out: &mut Vec<u8>, number: u64, entry: &Entry) -> Result<(), AllocError>
    ensures text { OnOk result (out.new.items ≡ out.old.items ++ (journals.entry.spell (number, recorded_entry entry.now) ++ 10 ∷ [])) }
    ensures ranged { OnOk result (IsRanged (recorded_entry entry.now)) }
{
    push_entry(out, number, entry)?;
    push_feed(out)
}

/// Prints the lines of entries, numbered from 1 on.
pub(crate) fn push_lines(out: &mut Vec<u8>, entries: &[Entry]) -> Result<(), AllocError>
    ensures text { OnOk result (out.new.items ≡ out.old.items ++ ended (journals.entry_lines 1 (map recorded_entry entries.now))) }
    ensures ranged { OnOk result (AllByRecursion IsRanged (map recorded_entry entries.now)) }
{
    for (i, entry) in entries.iter().enumerate() {
        push_line(out, i as u64 + 1, entry)?;
    }
    Ok(())
}

/// Prints the last line.
#[tactic(auto, unfolding(crate::specs::Journals::closing, text_codec::specs::Formats::behind, text_codec::specs::Formats::number))]
pub(crate) fn push_closing(out: &mut Vec<u8>, count: u64) -> Result<(), AllocError>
    ensures text { OnOk result (out.new.items ≡ out.old.items ++ (journals.closing.spell count ++ 10 ∷ [])) }
    ensures small { count < 2 ^ 64 }
{
    out.extend_from_slice(b"end ")?;
    push_number(out, count)?;
    out.extend_from_slice(b"\n")
}
