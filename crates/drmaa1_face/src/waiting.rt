//! A wait for one job or for any: the job that ended tells how, and is forgotten.
ghost use Rattle.std.specs.Prelude.{◌≡◌, ◌≢◌, ◌∷◌, ◌++◌, [], ℕ, IfOk, IfErr, Err};
ghost use Rattle.drmaa_types.specs.Filters.{all as every_job};
ghost use Rattle.drmaa_types.specs.declared.identifiers.JobId.{JobId};
ghost use Rattle.drmaa_types.specs.declared.infos.JobInfo.{JobInfo};
ghost use Rattle.drmaa_types.specs.declared.moments.Timeout.{Timeout};
ghost use Rattle.drmaa_types.specs.declared.refusals.Refusal.{Refusal};
ghost use Rattle.drmaa_model.specs.declared.calls.Call.{Call};
ghost use Rattle.drmaa_model.specs.declared.calls.Target.{Target};
ghost use Rattle.drmaa_model.specs.declared.replies.Reply.{Reply};
ghost use Rattle.turn_lock.specs.Tokens.{IsFree};
ghost use Rattle.call_history.specs.Clients.{IsStillAt};
ghost use Rattle.drmaa1_face.specs.Answers.{Answered, IsListed, WaitsFor};
ghost use Rattle.drmaa1_face.specs.FaceEntries.{FaceCall, asks, listing, lists, takes, waits_for, first_ask, face_entries};
ghost use Rattle.drmaa1_face.specs.Posts.{post};
ghost use Rattle.drmaa1_face.specs.Steps.{IsMade, Halts, Stops};
ghost use Rattle.drmaa1_face.specs.Steps.Ask.{at_once};

use crate::asking::{ask_for, ask_for_jobs};
use crate::face::Face;
use crate::faults::FaceFault;
use call_history::{Call, Desk};
use drmaa_model::Target;
use drmaa_types::{
    Clock, IdList, JobFilter, JobId, JobInfo, Refusal, SessionId, Timeout, WaitKind,
};
use std::alloc::Global;
use std::sync::Wait;
use std::time::Clock as Pause;
use wait_calls::wait;

impl Face {
    /// Waits until a job of the active session has ended, or any of its kept jobs where none is given; tells how the first of
    /// them that has ended did, and forgets it (DRMAA 1, drmaa_wait). The timeout is in seconds.
    ///
    /// # Errors
    ///
    /// `NoActiveSession` exactly where none is active. Else `Refused` with what the machine refuses of what is asked: `Timeout`,
    /// `InvalidSession` where the session's number is not valid any more, `InvalidArgument(Job)` where it has no such kept job,
    /// or not any more when its info or its reaping is asked for, `InvalidArgument(Jobs)` where it has none at all; or, with no
    /// entry, with `OutOfMemory` or `OutOfResource(Journal)`.
    pub fn wait<R: Wait + Pause, C: Clock>(
        &mut self,
        alloc: Global,
        rt: &R,
        desk: &mut Desk<C>,
        job: Option<JobId>,
        timeout: Timeout,
    ) -> Result<JobInfo, FaceFault>
        requires { IsFree desk.old.shared.now desk.old.client }
        ensures desk { IsStillAt desk.old.shared.now desk.old.client desk.new.shared.now desk.new.client }
        ensures answer { Answered desk.old.shared.now.fixed self.old (post C.given C.least desk.old) (WaitsFor job timeout) (post C.given C.least desk.new) result }
        ensures active { self.new ≡ self.old }
    {
        let Some(session) = self.active else {
            return Err(FaceFault::NoActiveSession);
        };
        match wait_in(alloc, rt, desk, session, job, timeout) {
            Ok(info) => Ok(info),
            Err(why) => Err(FaceFault::Refused(why)),
        }
    }
}

/// Waits in a session.
fn wait_in<R: Wait + Pause, C: Clock>(
    alloc: Global,
    rt: &R,
    desk: &mut Desk<C>,
    session: SessionId,
    job: Option<JobId>,
    timeout: Timeout,
) -> Result<JobInfo, Refusal>
    requires { IsFree desk.old.shared.now desk.old.client }
    ensures desk { IsStillAt desk.old.shared.now desk.old.client desk.new.shared.now desk.new.client }
    ensures ok { IfOk result (λ info. (c : FaceCall) × WaitsFor job timeout info c × IsMade desk.old.shared.now.fixed (post C.given C.least desk.old) (face_entries session c) (post C.given C.least desk.new)) }
    ensures err { IfErr result (λ why. (info : JobInfo) × (c : FaceCall) × WaitsFor job timeout info c × Stops desk.old.shared.now.fixed (post C.given C.least desk.old) (face_entries session c) why (post C.given C.least desk.new)) }
{
    match listed(alloc, rt, desk, session, job) {
        Ok(jobs) => wait_for_any(rt, desk, session, jobs, timeout),
        Err(why) => Err(why),
    }
}

/// The jobs that are waited for: the one that is given, or all that the session has.
fn listed<R: Wait, C: Clock>(
    alloc: Global,
    rt: &R,
    desk: &mut Desk<C>,
    session: SessionId,
    job: Option<JobId>,
) -> Result<IdList, Refusal>
    requires { IsFree desk.old.shared.now desk.old.client }
    ensures desk { IsStillAt desk.old.shared.now desk.old.client desk.new.shared.now desk.new.client }
    ensures ok { IfOk result (λ jobs. IsListed job jobs × IsMade desk.old.shared.now.fixed (post C.given C.least desk.old) (listing session job jobs) (post C.given C.least desk.new)) }
    ensures err { IfErr result (λ why. (timeout : Timeout) → Halts desk.old.shared.now.fixed (post C.given C.least desk.old) [] (first_ask session job timeout) why (post C.given C.least desk.new)) }
{
    match job {
        None => every_job(rt, desk, session),
        Some(job) => one_job(alloc, job.0),
    }
}

/// The list of one job.
pub(crate) fn one_job(alloc: Global, job: u64) -> Result<IdList, Refusal>
    ensures ok { IfOk result (λ jobs. jobs ≡ job ∷ []) }
    ensures err { IfErr result (λ why. why ≡ Refusal.OutOfMemory) }
{
    match Vec::from_slice(alloc, &[job]) {
        Ok(numbers) => Ok(IdList::from_vec(numbers)),
        Err(_) => Err(Refusal::OutOfMemory),
    }
}

/// The kept jobs of a session.
pub(crate) fn every_job<R: Wait, C: Clock>(
    rt: &R,
    desk: &mut Desk<C>,
    session: SessionId,
) -> Result<IdList, Refusal>
    requires { IsFree desk.old.shared.now desk.old.client }
    ensures desk { IsStillAt desk.old.shared.now desk.old.client desk.new.shared.now desk.new.client }
    ensures ok { IfOk result (λ jobs. IsMade desk.old.shared.now.fixed (post C.given C.least desk.old) (lists session jobs ∷ []) (post C.given C.least desk.new)) }
    ensures err { IfErr result (λ why. Halts desk.old.shared.now.fixed (post C.given C.least desk.old) [] (at_once (Call.GetJobs session every_job)) why (post C.given C.least desk.new)) }
    ensures timely { result ≢ Err Refusal.Timeout }
{
    match ask_for_jobs(rt, desk, session, JobFilter::all()) {
        Ok(told) => Ok(told.numbers),
        Err(why) => Err(why),
    }
}

/// Waits until one of these jobs has ended; how the first listed one that has did.
fn wait_for_any<R: Wait + Pause, C: Clock>(
    rt: &R,
    desk: &mut Desk<C>,
    session: SessionId,
    jobs: IdList,
    timeout: Timeout,
) -> Result<JobInfo, Refusal>
    requires { IsFree desk.old.shared.now desk.old.client }
    ensures desk { IsStillAt desk.old.shared.now desk.old.client desk.new.shared.now desk.new.client }
    ensures ok { IfOk result (λ info. (begun : ℕ) × (reached : JobId) × IsMade desk.old.shared.now.fixed (post C.given C.least desk.old) (waits_for session jobs timeout begun reached info) (post C.given C.least desk.new)) }
    ensures err { IfErr result (λ why. (begun : ℕ) × (reached : JobId) × (info : JobInfo) × Stops desk.old.shared.now.fixed (post C.given C.least desk.old) (waits_for session jobs timeout begun reached info) why (post C.given C.least desk.new)) }
{
    match wait(rt, desk, session, jobs, WaitKind::Terminated, timeout) {
        Ok(job) => take_info(rt, desk, session, job),
        Err(why) => Err(why),
    }
}

/// How a job has ended, which is then forgotten.
fn take_info<R: Wait, C: Clock>(
    rt: &R,
    desk: &mut Desk<C>,
    session: SessionId,
    job: JobId,
) -> Result<JobInfo, Refusal>
    requires { IsFree desk.old.shared.now desk.old.client }
    ensures desk { IsStillAt desk.old.shared.now desk.old.client desk.new.shared.now desk.new.client }
    ensures ok { IfOk result (λ info. IsMade desk.old.shared.now.fixed (post C.given C.least desk.old) (takes session job info) (post C.given C.least desk.new)) }
    ensures err { IfErr result (λ why. (info : JobInfo) × Stops desk.old.shared.now.fixed (post C.given C.least desk.old) (takes session job info) why (post C.given C.least desk.new)) }
{
    match ask_for::<R, C, JobInfo>(rt, desk, Call::GetInfo { session, job }) {
        Ok(info) => reap_told(rt, desk, session, job, info),
        Err(why) => Err(why),
    }
}

/// Forgets a job that has ended, of which this is known.
fn reap_told<R: Wait, C: Clock>(
    rt: &R,
    desk: &mut Desk<C>,
    session: SessionId,
    job: JobId,
    info: JobInfo,
) -> Result<JobInfo, Refusal>
    requires { IsFree desk.old.shared.now desk.old.client }
    ensures desk { IsStillAt desk.old.shared.now desk.old.client desk.new.shared.now desk.new.client }
    ensures told { IfOk result (λ told. told ≡ info) }
    ensures ok { IfOk result (λ told. IsMade desk.old.shared.now.fixed (post C.given C.least desk.old) (asks (Call.Reap session (Target.Job job)) Reply.Unit ∷ []) (post C.given C.least desk.new)) }
    ensures err { IfErr result (λ why. Halts desk.old.shared.now.fixed (post C.given C.least desk.old) [] (at_once (Call.Reap session (Target.Job job))) why (post C.given C.least desk.new)) }
{
    match reap(rt, desk, session, job) {
        Ok(()) => Ok(info),
        Err(why) => Err(why),
    }
}

/// Forgets a job that has ended.
pub(crate) fn reap<R: Wait, C: Clock>(
    rt: &R,
    desk: &mut Desk<C>,
    session: SessionId,
    job: JobId,
) -> Result<(), Refusal>
    requires { IsFree desk.old.shared.now desk.old.client }
    ensures desk { IsStillAt desk.old.shared.now desk.old.client desk.new.shared.now desk.new.client }
    ensures ok { IfOk result (λ told. IsMade desk.old.shared.now.fixed (post C.given C.least desk.old) (asks (Call.Reap session (Target.Job job)) Reply.Unit ∷ []) (post C.given C.least desk.new)) }
    ensures err { IfErr result (λ why. Halts desk.old.shared.now.fixed (post C.given C.least desk.old) [] (at_once (Call.Reap session (Target.Job job))) why (post C.given C.least desk.new)) }
    ensures timely { result ≢ Err Refusal.Timeout }
{
    let call = Call::Reap {
        session,
        target: Target::Job(job),
    };
    ask_for::<R, C, ()>(rt, desk, call)
}
