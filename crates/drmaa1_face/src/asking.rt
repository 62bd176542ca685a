//! One call through a desk, as the others read it.
ghost use Rattle.std.specs.Prelude.{◌≡◌, ◌∷◌, [], IfOk, IfErr, true};
ghost use Rattle.drmaa_model.specs.History.{IsLegal};
ghost use Rattle.drmaa_model.specs.declared.calls.Call.{Call};
ghost use Rattle.drmaa_model.specs.declared.replies.Reply.{Reply};
ghost use Rattle.drmaa_model.specs.ReplyKinds.{kind_of_call};
ghost use Rattle.turn_lock.specs.Tokens.{IsFree};
ghost use Rattle.call_history.specs.Clients.{seen_of, IsStillAt};
ghost use Rattle.call_history.specs.Refused.{is_answered};
ghost use Rattle.drmaa1_face.specs.FaceEntries.{asks};
ghost use Rattle.drmaa1_face.specs.Posts.{post};
ghost use Rattle.drmaa1_face.specs.Steps.{IsMade, Halts};
ghost use Rattle.drmaa1_face.specs.Steps.Ask.{at_once};

use call_history::{Call, Desk, JobNumbers, SubmittedArray, Told};
use drmaa_model::Indices;
use drmaa_types::{Clock, JobFilter, JobId, Refusal, SessionId};
use job_template::JobTemplate;
use std::sync::Wait;

/// What the reply to a call tells. The call neither waits nor asks for a launch or a signal.
///
/// # Errors
///
/// The refusal of its one entry; or, with no entry, want of memory, or a journal that would be too large.
pub(crate) fn ask_for<R: Wait, C: Clock, T: Told>(
    rt: &R,
    desk: &mut Desk<C>,
    call: Call,
) -> Result<T, Refusal>
    requires client { IsFree desk.old.shared.now desk.old.client }
    requires kind { kind_of_call call ≡ T.kind }
    requires answered { is_answered T.kind ≡ true }
    ensures desk { IsStillAt desk.old.shared.now desk.old.client desk.new.shared.now desk.new.client }
    ensures legal { IsLegal desk.old.shared.now.fixed (seen_of desk.new.client) }
    ensures ok { IfOk result (λ told. IsMade desk.old.shared.now.fixed (post C.given C.least desk.old) (asks call (T.as_reply told) ∷ []) (post C.given C.least desk.new)) }
    ensures err { IfErr result (λ why. Halts desk.old.shared.now.fixed (post C.given C.least desk.old) [] (at_once call) why (post C.given C.least desk.new)) }
{
    desk.ask_for::<R, T>(rt, call)
}

/// Submits a job.
pub(crate) fn ask_to_run<R: Wait, C: Clock>(
    rt: &R,
    desk: &mut Desk<C>,
    session: SessionId,
    template: JobTemplate,
) -> Result<JobId, Refusal>
    requires { IsFree desk.old.shared.now desk.old.client }
    ensures desk { IsStillAt desk.old.shared.now desk.old.client desk.new.shared.now desk.new.client }
    ensures legal { IsLegal desk.old.shared.now.fixed (seen_of desk.new.client) }
    ensures ok { IfOk result (λ told. IsMade desk.old.shared.now.fixed (post C.given C.least desk.old) (asks (Call.RunJob session template) (Reply.Job told) ∷ []) (post C.given C.least desk.new)) }
    ensures err { IfErr result (λ why. Halts desk.old.shared.now.fixed (post C.given C.least desk.old) [] (at_once (Call.RunJob session template)) why (post C.given C.least desk.new)) }
{
    desk.ask_to_run(rt, session, template)
}

/// Submits an array of jobs.
pub(crate) fn ask_to_run_array<R: Wait, C: Clock>(
    rt: &R,
    desk: &mut Desk<C>,
    session: SessionId,
    template: JobTemplate,
    indices: Indices,
) -> Result<SubmittedArray, Refusal>
    requires { IsFree desk.old.shared.now desk.old.client }
    ensures desk { IsStillAt desk.old.shared.now desk.old.client desk.new.shared.now desk.new.client }
    ensures legal { IsLegal desk.old.shared.now.fixed (seen_of desk.new.client) }
    ensures ok { IfOk result (λ told. IsMade desk.old.shared.now.fixed (post C.given C.least desk.old) (asks (Call.RunBulk session template indices) (Reply.Array told.array told.first told.count) ∷ []) (post C.given C.least desk.new)) }
    ensures err { IfErr result (λ why. Halts desk.old.shared.now.fixed (post C.given C.least desk.old) [] (at_once (Call.RunBulk session template indices)) why (post C.given C.least desk.new)) }
{
    desk.ask_to_run_array(rt, session, template, indices)
}

/// The numbers of a session's jobs that the filter lets through.
pub(crate) fn ask_for_jobs<R: Wait, C: Clock>(
    rt: &R,
    desk: &mut Desk<C>,
    session: SessionId,
    filter: JobFilter,
) -> Result<JobNumbers, Refusal>
    requires { IsFree desk.old.shared.now desk.old.client }
    ensures desk { IsStillAt desk.old.shared.now desk.old.client desk.new.shared.now desk.new.client }
    ensures legal { IsLegal desk.old.shared.now.fixed (seen_of desk.new.client) }
    ensures ok { IfOk result (λ told. IsMade desk.old.shared.now.fixed (post C.given C.least desk.old) (asks (Call.GetJobs session filter) (Reply.Jobs told.numbers) ∷ []) (post C.given C.least desk.new)) }
    ensures err { IfErr result (λ why. Halts desk.old.shared.now.fixed (post C.given C.least desk.old) [] (at_once (Call.GetJobs session filter)) why (post C.given C.least desk.new)) }
{
    desk.ask_for_jobs(rt, session, filter)
}
