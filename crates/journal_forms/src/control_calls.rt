//! Calls that control, reap and ask for jobs and arrays.
ghost use Rattle.std.specs.Prelude.{◌≡◌, ◌++◌, OnOk};
ghost use Rattle.drmaa_model.specs.declared.calls.Call.TheVariants as call;
ghost use Rattle.text_codec.specs.Formats.{Answers};
ghost use Rattle.text_forms.specs.Templates.{any_template, template, any_frame, frame};
ghost use Rattle.journal_forms.specs.Calls as calls;
ghost use Rattle.journal_forms.specs.WordGroups as groups;
ghost use Rattle.journal_forms.specs.Calls.{call_form};

use crate::fields::{push_two, two};
use crate::word_groups::{ArrayWord, JobWord};
use drmaa_model::{Call, Target};
use drmaa_types::{Control, SessionId};
use std::alloc::AllocError;
use text_codec::{CallWord, Cursor, Unread, spell_call_word};

/// A control of what a session has.
fn control(session: SessionId, target: Target, what: Control) -> Call
    ensures { result ≡ call.Control session target what }
{
    Call::Control {
        session,
        target,
        what,
    }
}

/// Reads a session and a job.
#[tactic(auto, unfolding(crate::specs::Calls::of_job))]
pub(crate) fn job_at(cursor: &mut Cursor, word: JobWord) -> Result<Call, Unread>
    ensures { Answers (calls.call_arms template frame (groups.job_word word)) cursor.old result cursor.new }
{
    let (session, job) = two(cursor)?;
    let target = Target::Job(job);
    Ok(match word {
        JobWord::Suspend => control(session, target, Control::Suspend),
        JobWord::Resume => control(session, target, Control::Resume),
        JobWord::Hold => control(session, target, Control::Hold),
        JobWord::Release => control(session, target, Control::Release),
        JobWord::Terminate => control(session, target, Control::Terminate),
        JobWord::Reap => Call::Reap { session, target },
        JobWord::State => Call::GetState { session, job },
        JobWord::Info => Call::GetInfo { session, job },
    })
}

/// Reads a session and an array.
#[tactic(auto, unfolding(crate::specs::Calls::of_array))]
pub(crate) fn array_at(cursor: &mut Cursor, word: ArrayWord) -> Result<Call, Unread>
    ensures { Answers (calls.call_arms template frame (groups.array_word word)) cursor.old result cursor.new }
{
    let (session, array) = two(cursor)?;
    let target = Target::Array(array);
    Ok(match word {
        ArrayWord::Array => Call::GetJobArray { session, array },
        ArrayWord::SuspendArray => control(session, target, Control::Suspend),
        ArrayWord::ResumeArray => control(session, target, Control::Resume),
        ArrayWord::HoldArray => control(session, target, Control::Hold),
        ArrayWord::ReleaseArray => control(session, target, Control::Release),
        ArrayWord::TerminateArray => control(session, target, Control::Terminate),
        ArrayWord::ReapArray => Call::Reap { session, target },
    })
}

/// The word of a control of a job.
fn control_word(what: Control) -> CallWord
    ensures { result ≡ calls.control_word what }
{
    match what {
        Control::Suspend => CallWord::Suspend,
        Control::Resume => CallWord::Resume,
        Control::Hold => CallWord::Hold,
        Control::Release => CallWord::Release,
        Control::Terminate => CallWord::Terminate,
    }
}

/// The word of a control of an array.
fn array_control_word(what: Control) -> CallWord
    ensures { result ≡ calls.array_control_word what }
{
    match what {
        Control::Suspend => CallWord::SuspendArray,
        Control::Resume => CallWord::ResumeArray,
        Control::Hold => CallWord::HoldArray,
        Control::Release => CallWord::ReleaseArray,
        Control::Terminate => CallWord::TerminateArray,
    }
}

/// Prints a control of a job or of an array.
#[tactic(auto, unfolding(crate::specs::Calls::of_job, crate::specs::Calls::of_array))]
pub(crate) fn push_control(
    out: &mut Vec<u8>,
    session: &SessionId,
    target: &Target,
    what: Control,
) -> Result<(), AllocError>
    ensures text { OnOk result (out.new.items ≡ out.old.items ++ (call_form any_template any_frame (call.Control session.now target.now what)).text) }
    ensures valid { OnOk result ((call_form any_template any_frame (call.Control session.now target.now what)).valid) }
{
    match target {
        Target::Job(job) => {
            push_two(
                out,
                spell_call_word(control_word(what)).as_bytes(),
                session,
                job,
            )
        }
        Target::Array(array) => {
            push_two(
                out,
                spell_call_word(array_control_word(what)).as_bytes(),
                session,
                array,
            )
        }
    }
}

/// Prints a reap of a job or of an array.
#[tactic(auto, unfolding(crate::specs::Calls::of_job, crate::specs::Calls::of_array))]
pub(crate) fn push_reap(
    out: &mut Vec<u8>,
    session: &SessionId,
    target: &Target,
) -> Result<(), AllocError>
    ensures text { OnOk result (out.new.items ≡ out.old.items ++ (call_form any_template any_frame (call.Reap session.now target.now)).text) }
    ensures valid { OnOk result ((call_form any_template any_frame (call.Reap session.now target.now)).valid) }
{
    match target {
        Target::Job(job) => push_two(out, b"reap", session, job),
        Target::Array(array) => push_two(out, b"reap-array", session, array),
    }
}
