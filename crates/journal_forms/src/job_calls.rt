//! Calls for jobs: run, asked for and waited for.
ghost use Rattle.std.specs.Prelude.{◌≡◌, ◌++◌, ◌^◌, OnOk};
ghost use Rattle.drmaa_model.specs.declared.calls.Call.TheVariants as call;
ghost use Rattle.text_codec.specs.Formats.{Answers, list_of, number, pair};
ghost use Rattle.drmaa_model.specs.RecordedCalls.{recorded};
ghost use Rattle.text_codec.specs.Sums.{arm, keyed, fielded};
ghost use Rattle.text_forms.specs.Filters.{filter_parts};
ghost use Rattle.text_forms.specs.Templates.{any_template, template, any_frame, frame};
ghost use Rattle.journal_forms.specs.Calls as calls;
ghost use Rattle.journal_forms.specs.WordGroups as groups;
ghost use Rattle.journal_forms.specs.Calls.{call_form};
ghost use Rattle.text_codec.specs.declared.call_words.CallWord.TheVariants as word;

use crate::fields::{one, own, push_one, push_two, shared, two};
use crate::word_groups::SoughtWord;
use drmaa_model::{Call, Indices};
use drmaa_types::{JobFilter, ListOf, Moment, SessionId, Timeout, WaitKind};
use job_template::JobTemplate;
use std::alloc::AllocError;
use text_codec::{CallWord, Cursor, Print, Unread, push_behind, push_list, push_number, read_list};
use text_forms::{push_filter, push_template, read_filter, read_template};

/// Reads how long a wait may last.
#[tactic(auto, unfolding(crate::specs::Calls::timeout, text_codec::specs::Formats::mapped, text_codec::specs::Formats::or_else))]
fn timeout_at(cursor: &mut Cursor) -> Result<Timeout, Unread>
    ensures { Answers calls.timeout.read cursor.old result cursor.new }
{
    if cursor.skip(b"infinite") {
        return Ok(Timeout::Infinite);
    }
    Ok(Timeout::Seconds(cursor.u64()?))
}

/// Reads the bound of an array, or `-` where there is none.
#[tactic(auto, unfolding(crate::specs::Calls::bound, text_codec::specs::Formats::or_else))]
fn bound_at(cursor: &mut Cursor) -> Result<Option<u32>, Unread>
    ensures { Answers calls.bound.read cursor.old result cursor.new }
{
    if cursor.skip(b"-") {
        return Ok(None);
    }
    Ok(Some(cursor.u32()?))
}

/// Reads the indices of an array.
#[tactic(auto, unfolding(crate::specs::Calls::indices, text_codec::specs::Formats::mapped, text_codec::specs::Formats::pair))]
fn indices_at(cursor: &mut Cursor) -> Result<Indices, Unread>
    ensures { Answers calls.indices.read cursor.old result cursor.new }
{
    let begin = cursor.u32()?;
    let (end, step) = two(cursor)?;
    cursor.expect(b" ")?;
    let bound = bound_at(cursor)?;
    Ok(Indices {
        begin,
        end,
        step,
        bound,
    })
}

/// Reads the indices of an array behind a space, and gives them with what was read before.
fn with_indices<T: Drop>(cursor: &mut Cursor, first: T) -> Result<(T, Indices), Unread>
    ensures { Answers (arm calls.indices (λ i. (first, i))) cursor.old result cursor.new }
{
    cursor.expect(b" ")?;
    let indices = indices_at(cursor)?;
    Ok((first, indices))
}

/// Reads the template and the indices of an array.
#[tactic(auto, unfolding(text_codec::specs::Formats::pair))]
fn members_at(cursor: &mut Cursor) -> Result<(JobTemplate, Indices), Unread>
    ensures { Answers (pair template calls.indices).read cursor.old result cursor.new }
{
    let template = read_template(cursor)?;
    with_indices(cursor, template)
}

#[tactic(auto, unfolding(crate::specs::Calls::running, text_codec::specs::Formats::pair))]
pub(crate) fn run_at(cursor: &mut Cursor) -> Result<Call, Unread>
    ensures { Answers (calls.call_arms template frame word.Run) cursor.old result cursor.new }
{
    let session = one(cursor)?;
    cursor.expect(b" ")?;
    let template = read_template(cursor)?;
    let template = shared(cursor, template)?;
    Ok(Call::RunJob { session, template })
}

#[tactic(auto, unfolding(crate::specs::Calls::bulk, text_codec::specs::Formats::pair))]
pub(crate) fn bulk_at(cursor: &mut Cursor) -> Result<Call, Unread>
    ensures { Answers (calls.call_arms template frame word.Bulk) cursor.old result cursor.new }
{
    let session = one(cursor)?;
    cursor.expect(b" ")?;
    let (template, indices) = members_at(cursor)?;
    let template = shared(cursor, template)?;
    Ok(Call::RunBulk {
        session,
        template,
        indices,
    })
}

/// Reads a session and the items of a filter.
#[tactic(auto, unfolding(crate::specs::Calls::sought, text_codec::specs::Fields::always))]
pub(crate) fn sought_at(cursor: &mut Cursor, word: SoughtWord) -> Result<Call, Unread>
    ensures { Answers (calls.call_arms template frame (groups.sought_word word)) cursor.old result cursor.new }
{
    let session = one(cursor)?;
    let filter = read_filter(cursor)?;
    let filter = own(cursor, filter)?;
    Ok(match word {
        SoughtWord::Jobs => Call::GetJobs { session, filter },
        SoughtWord::AllJobs => Call::AllJobs { session, filter },
    })
}

/// Reads how long a wait may last, and the jobs that are waited for.
#[tactic(auto, unfolding(text_codec::specs::Formats::pair))]
fn lasting_at(cursor: &mut Cursor) -> Result<(Timeout, ListOf<u64>), Unread>
    ensures { Answers (pair calls.timeout (list_of (number (2 ^ 64)))).read cursor.old result cursor.new }
{
    let timeout = timeout_at(cursor)?;
    cursor.expect(b" ")?;
    let jobs = read_list(cursor)?;
    Ok((timeout, jobs))
}

/// Reads the fields of a wait.
#[tactic(auto, unfolding(crate::specs::Calls::waiting, text_codec::specs::Formats::pair))]
pub(crate) fn wait_at(cursor: &mut Cursor, kind: WaitKind) -> Result<Call, Unread>
    ensures { Answers (arm calls.waiting (λ p. call.Wait p.0 p.1.1.1 kind p.1.0 p.1.1.0)) cursor.old result cursor.new }
{
    let (session, begun) = two(cursor)?;
    cursor.expect(b" ")?;
    let (timeout, jobs) = lasting_at(cursor)?;
    Ok(Call::Wait {
        session,
        jobs,
        kind,
        begun,
        timeout,
    })
}

/// Prints how long a wait may last.
#[tactic(auto, unfolding(crate::specs::Calls::timeout, text_codec::specs::Formats::mapped, text_codec::specs::Formats::or_else, text_codec::specs::Formats::number))]
fn push_timeout(out: &mut Vec<u8>, timeout: Timeout) -> Result<(), AllocError>
    ensures text { OnOk result (out.new.items ≡ out.old.items ++ calls.timeout.spell timeout) }
    ensures valid { OnOk result (calls.timeout.valid timeout) }
{
    match timeout {
        Timeout::Infinite => out.extend_from_slice(b"infinite"),
        Timeout::Seconds(seconds) => push_number(out, seconds),
    }
}

/// Prints the bound of an array, or `-` where there is none.
#[tactic(auto, unfolding(crate::specs::Calls::bound, text_codec::specs::Formats::or_else))]
fn push_bound(out: &mut Vec<u8>, bound: Option<u32>) -> Result<(), AllocError>
    ensures text { OnOk result (out.new.items ≡ out.old.items ++ calls.bound.spell bound) }
    ensures valid { OnOk result (calls.bound.valid bound) }
{
    match bound {
        Some(bound) => bound.push(out),
        None => out.extend_from_slice(b"-"),
    }
}

/// Prints the indices of an array.
#[tactic(auto, unfolding(crate::specs::Calls::indices, text_codec::specs::Formats::mapped, text_codec::specs::Formats::pair))]
fn push_indices(out: &mut Vec<u8>, indices: &Indices) -> Result<(), AllocError>
    ensures text { OnOk result (out.new.items ≡ out.old.items ++ calls.indices.spell indices.now) }
    ensures valid { OnOk result (calls.indices.valid indices.now) }
{
    indices.begin.push(out)?;
    push_behind(out, b" ", &indices.end)?;
    push_behind(out, b" ", &indices.step)?;
    out.extend_from_slice(b" ")?;
    push_bound(out, indices.bound)
}

/// Prints the run of a job, with the template that a journal keeps.
#[tactic(auto, unfolding(crate::specs::Calls::running, text_codec::specs::Formats::pair))]
pub(crate) fn push_run(
    out: &mut Vec<u8>,
    session: &SessionId,
    template: &JobTemplate,
) -> Result<(), AllocError>
    ensures text { OnOk result (out.new.items ≡ out.old.items ++ (call_form any_template any_frame (recorded (call.RunJob session.now template.now))).text) }
    ensures valid { OnOk result ((call_form any_template any_frame (recorded (call.RunJob session.now template.now))).valid) }
{
    push_one(out, b"run", session)?;
    out.extend_from_slice(b" ")?;
    push_template(out, template)
}

/// Prints the run of an array, with the template that a journal keeps.
#[tactic(auto, unfolding(crate::specs::Calls::bulk, text_codec::specs::Formats::pair))]
pub(crate) fn push_bulk(
    out: &mut Vec<u8>,
    session: &SessionId,
    template: &JobTemplate,
    indices: &Indices,
) -> Result<(), AllocError>
    ensures text { OnOk result (out.new.items ≡ out.old.items ++ (call_form any_template any_frame (recorded (call.RunBulk session.now template.now indices.now))).text) }
    ensures valid { OnOk result ((call_form any_template any_frame (recorded (call.RunBulk session.now template.now indices.now))).valid) }
{
    push_one(out, b"bulk", session)?;
    out.extend_from_slice(b" ")?;
    push_template(out, template)?;
    out.extend_from_slice(b" ")?;
    push_indices(out, indices)
}

/// Prints a word, a session and the items of a filter.
#[tactic(auto, unfolding(crate::specs::Calls::sought, text_codec::specs::Fields::always))]
pub(crate) fn push_sought(
    out: &mut Vec<u8>,
    word: &[u8],
    session: &SessionId,
    filter: &JobFilter,
) -> Result<(), AllocError>
    ensures text { OnOk result (out.new.items ≡ out.old.items ++ (fielded word.now calls.sought (session.now, filter_parts filter.now)).text) }
    ensures valid { OnOk result ((fielded word.now calls.sought (session.now, filter_parts filter.now)).valid) }
{
    push_one(out, word, session)?;
    push_filter(out, filter)
}

/// Prints the fields of a wait behind its word.
#[tactic(auto, unfolding(crate::specs::Calls::waiting, text_codec::specs::Formats::pair))]
pub(crate) fn push_wait(
    out: &mut Vec<u8>,
    word: &[u8],
    session: &SessionId,
    begun: &Moment,
    timeout: Timeout,
    jobs: &[u64],
) -> Result<(), AllocError>
    ensures text { OnOk result (out.new.items ≡ out.old.items ++ (keyed word.now calls.waiting (session.now, (begun.now, (timeout, jobs.now)))).text) }
    ensures valid { OnOk result ((keyed word.now calls.waiting (session.now, (begun.now, (timeout, jobs.now)))).valid) }
{
    push_two(out, word, session, begun)?;
    out.extend_from_slice(b" ")?;
    push_timeout(out, timeout)?;
    out.extend_from_slice(b" ")?;
    push_list(out, jobs)
}

/// The word of a wait.
pub(crate) fn wait_word(kind: WaitKind) -> CallWord
    ensures { result ≡ calls.wait_word kind }
{
    match kind {
        WaitKind::Started => CallWord::WaitStarted,
        WaitKind::Terminated => CallWord::WaitTerminated,
    }
}
