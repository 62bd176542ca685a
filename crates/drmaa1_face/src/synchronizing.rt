//! A wait for all of some jobs, within one timeout.
ghost use Rattle.std.specs.Prelude.{◌≡◌, ◌≢◌, ◌≤◌, ◌∷◌, ◌++◌, [], ℕ, List, IfOk, IfErr, Err};
ghost use Rattle.drmaa_types.specs.declared.refusals.Refusal.{Refusal};
ghost use Rattle.turn_lock.specs.Tokens.{IsFree};
ghost use Rattle.call_history.specs.Clients.{number_of, IsStillAt};
ghost use Rattle.drmaa1_face.specs.Answers.{Answered, IsPicked, WaitsForAll, IsLate, IsTooLate};
ghost use Rattle.drmaa1_face.specs.FaceEntries.{FaceCall, Start, jobs_of, left_of, picking, waits_of, reaps_of, disposing, face_entries};
ghost use Rattle.drmaa1_face.specs.Posts.{post};
ghost use Rattle.drmaa1_face.specs.Steps.{IsMade, Stops};
ghost use Rattle.drmaa1_face.specs.declared.faults.FaceFault.{FaceFault};

use crate::face::Face;
use crate::faults::FaceFault;
use crate::waiting::{every_job, one_job, reap};
use call_history::Desk;
use drmaa_types::{Clock, IdList, JobId, Moment, Refusal, SessionId, Timeout, WaitKind};
use std::alloc::Global;
use std::sync::Wait;
use std::time::Clock as Pause;
use wait_calls::wait;

/// Which jobs are waited for.
#[derive(Drop)]
pub enum Pick {
    /// All kept jobs of the active session.
    All,
    /// These, in this order.
    These(IdList),
}

impl Face {
    /// Waits until each of the picked jobs of the active session has ended, one after another; with `dispose` it then forgets them
    /// (DRMAA 1, drmaa_synchronize). The timeout is in seconds, for all of them together.
    ///
    /// # Errors
    ///
    /// `NoActiveSession` exactly where none is active. Else `Refused` with what the machine refuses of what is asked: `Timeout`,
    /// `InvalidSession` where the session's number is not valid any more, `InvalidArgument(Job)` where it has no such kept job, as
    /// when one that is picked twice is to be forgotten again; or, with no entry, with `OutOfMemory` or `OutOfResource(Journal)`.
    pub fn synchronize<R: Wait + Pause, C: Clock>(
        &mut self,
        alloc: Global,
        rt: &R,
        desk: &mut Desk<C>,
        pick: Pick,
        timeout: Timeout,
        dispose: bool,
    ) -> Result<(), FaceFault>
        requires { IsFree desk.old.shared.now desk.old.client }
        ensures desk { IsStillAt desk.old.shared.now desk.old.client desk.new.shared.now desk.new.client }
        ensures answer { Answered desk.old.shared.now.fixed self.old (post C.given C.least desk.old) (WaitsForAll pick timeout dispose) (post C.given C.least desk.new) result }
        ensures late { result ≡ Err (FaceFault.Refused Refusal.Timeout) → IsTooLate desk.old.shared.now.fixed timeout (post C.given C.least desk.old) (post C.given C.least desk.new) }
        ensures active { self.new ≡ self.old }
    {
        let Some(session) = self.active else {
            return Err(FaceFault::NoActiveSession);
        };
        match synchronize_in(alloc, rt, desk, session, pick, timeout, dispose) {
            Ok(()) => Ok(()),
            Err(why) => Err(FaceFault::Refused(why)),
        }
    }
}

/// Waits for the picked jobs of a session.
fn synchronize_in<R: Wait + Pause, C: Clock>(
    alloc: Global,
    rt: &R,
    desk: &mut Desk<C>,
    session: SessionId,
    pick: Pick,
    timeout: Timeout,
    dispose: bool,
) -> Result<(), Refusal>
    requires { IsFree desk.old.shared.now desk.old.client }
    ensures desk { IsStillAt desk.old.shared.now desk.old.client desk.new.shared.now desk.new.client }
    ensures ok { IfOk result (λ told. (c : FaceCall) × WaitsForAll pick timeout dispose told c × IsMade desk.old.shared.now.fixed (post C.given C.least desk.old) (face_entries session c) (post C.given C.least desk.new)) }
    ensures err { IfErr result (λ why. (c : FaceCall) × WaitsForAll pick timeout dispose tt c × Stops desk.old.shared.now.fixed (post C.given C.least desk.old) (face_entries session c) why (post C.given C.least desk.new)) }
    ensures late { result ≡ Err Refusal.Timeout → IsTooLate desk.old.shared.now.fixed timeout (post C.given C.least desk.old) (post C.given C.least desk.new) }
{
    let first = desk.clock.now();
    match picked(rt, desk, session, pick) {
        Ok(jobs) => end_all(
            alloc,
            rt,
            desk,
            session,
            jobs.as_slice(),
            first,
            timeout,
            dispose,
        ),
        Err(why) => Err(why),
    }
}

/// The jobs that are picked.
fn picked<R: Wait, C: Clock>(
    rt: &R,
    desk: &mut Desk<C>,
    session: SessionId,
    pick: Pick,
) -> Result<IdList, Refusal>
    requires { IsFree desk.old.shared.now desk.old.client }
    ensures desk { IsStillAt desk.old.shared.now desk.old.client desk.new.shared.now desk.new.client }
    ensures ok { IfOk result (λ jobs. IsPicked pick jobs × IsMade desk.old.shared.now.fixed (post C.given C.least desk.old) (picking session pick jobs) (post C.given C.least desk.new)) }
    ensures err { IfErr result (λ why. (jobs : List ℕ) → IsPicked pick jobs × Stops desk.old.shared.now.fixed (post C.given C.least desk.old) (picking session pick jobs) why (post C.given C.least desk.new)) }
    ensures timely { result ≢ Err Refusal.Timeout }
{
    match pick {
        Pick::All => every_job(rt, desk, session),
        Pick::These(jobs) => Ok(jobs),
    }
}

/// Waits until each of these jobs has ended, and then forgets them, if that is wanted.
fn end_all<R: Wait + Pause, C: Clock>(
    alloc: Global,
    rt: &R,
    desk: &mut Desk<C>,
    session: SessionId,
    jobs: &[u64],
    first: Moment,
    timeout: Timeout,
    dispose: bool,
) -> Result<(), Refusal>
    requires { IsFree desk.old.shared.now desk.old.client }
    ensures desk { IsStillAt desk.old.shared.now desk.old.client desk.new.shared.now desk.new.client }
    ensures ok { IfOk result (λ told. (starts : List Start) × (jobs_of starts ≡ jobs.now) × IsMade desk.old.shared.now.fixed (post C.given C.least desk.old) (waits_of session timeout first starts ++ disposing session dispose jobs.now) (post C.given C.least desk.new)) }
    ensures err { IfErr result (λ why. (starts : List Start) × (jobs_of starts ≡ jobs.now) × Stops desk.old.shared.now.fixed (post C.given C.least desk.old) (waits_of session timeout first starts ++ disposing session dispose jobs.now) why (post C.given C.least desk.new)) }
    ensures late { first ≤ C.least desk.old.clock → result ≡ Err Refusal.Timeout → IsLate desk.old.shared.now.fixed first timeout (number_of desk.old.client) (post C.given C.least desk.new) }
{
    match wait_for_each(alloc, rt, desk, session, jobs, first, timeout) {
        Ok(()) => dispose_of(rt, desk, session, jobs, dispose),
        Err(why) => Err(why),
    }
}

/// Waits for each of these jobs, one after another.
fn wait_for_each<R: Wait + Pause, C: Clock>(
    alloc: Global,
    rt: &R,
    desk: &mut Desk<C>,
    session: SessionId,
    jobs: &[u64],
    first: Moment,
    timeout: Timeout,
) -> Result<(), Refusal>
    requires { IsFree desk.old.shared.now desk.old.client }
    ensures desk { IsStillAt desk.old.shared.now desk.old.client desk.new.shared.now desk.new.client }
    ensures ok { IfOk result (λ told. (starts : List Start) × (jobs_of starts ≡ jobs.now) × IsMade desk.old.shared.now.fixed (post C.given C.least desk.old) (waits_of session timeout first starts) (post C.given C.least desk.new)) }
    ensures err { IfErr result (λ why. (starts : List Start) × (jobs_of starts ≡ jobs.now) × Stops desk.old.shared.now.fixed (post C.given C.least desk.old) (waits_of session timeout first starts) why (post C.given C.least desk.new)) }
    ensures late { first ≤ C.least desk.old.clock → result ≡ Err Refusal.Timeout → IsLate desk.old.shared.now.fixed first timeout (number_of desk.old.client) (post C.given C.least desk.new) }
{
    for job in jobs {
        match wait_for_one(alloc, rt, desk, session, *job, first, timeout) {
            Ok(()) => {}
            Err(why) => return Err(why),
        }
    }
    Ok(())
}

/// Waits for one job, for what is left of the timeout.
fn wait_for_one<R: Wait + Pause, C: Clock>(
    alloc: Global,
    rt: &R,
    desk: &mut Desk<C>,
    session: SessionId,
    job: u64,
    first: Moment,
    timeout: Timeout,
) -> Result<(), Refusal>
    requires { IsFree desk.old.shared.now desk.old.client }
    ensures desk { IsStillAt desk.old.shared.now desk.old.client desk.new.shared.now desk.new.client }
    ensures ok { IfOk result (λ told. (s : Start) × (s.job ≡ job) × IsMade desk.old.shared.now.fixed (post C.given C.least desk.old) (waits_of session timeout first (s ∷ [])) (post C.given C.least desk.new)) }
    ensures err { IfErr result (λ why. (s : Start) × (s.job ≡ job) × Stops desk.old.shared.now.fixed (post C.given C.least desk.old) (waits_of session timeout first (s ∷ [])) why (post C.given C.least desk.new)) }
    ensures late { first ≤ C.least desk.old.clock → result ≡ Err Refusal.Timeout → IsLate desk.old.shared.now.fixed first timeout (number_of desk.old.client) (post C.given C.least desk.new) }
{
    let read = desk.clock.now();
    let left = left_of(timeout, first, read);
    let Ok(jobs) = one_job(alloc, job) else {
        return Err(Refusal::OutOfMemory);
    };
    match wait(rt, desk, session, jobs, WaitKind::Terminated, left) {
        Ok(_) => Ok(()),
        Err(why) => Err(why),
    }
}

/// What is left of a timeout that counts from the first moment, at another one: never less than 0 seconds.
fn left_of(timeout: Timeout, first: Moment, now: Moment) -> Timeout
    ensures { result ≡ left_of timeout first now }
{
    match timeout {
        Timeout::Seconds(seconds) => {
            let passed = now.number().saturating_sub(first.number());
            Timeout::Seconds(seconds.saturating_sub(passed))
        }
        Timeout::Infinite => Timeout::Infinite,
    }
}

/// Forgets these jobs, if that is wanted.
fn dispose_of<R: Wait, C: Clock>(
    rt: &R,
    desk: &mut Desk<C>,
    session: SessionId,
    jobs: &[u64],
    dispose: bool,
) -> Result<(), Refusal>
    requires { IsFree desk.old.shared.now desk.old.client }
    ensures desk { IsStillAt desk.old.shared.now desk.old.client desk.new.shared.now desk.new.client }
    ensures ok { IfOk result (λ told. IsMade desk.old.shared.now.fixed (post C.given C.least desk.old) (disposing session dispose jobs.now) (post C.given C.least desk.new)) }
    ensures err { IfErr result (λ why. Stops desk.old.shared.now.fixed (post C.given C.least desk.old) (disposing session dispose jobs.now) why (post C.given C.least desk.new)) }
    ensures timely { result ≢ Err Refusal.Timeout }
{
    if dispose {
        reap_each(rt, desk, session, jobs)
    } else {
        Ok(())
    }
}

/// Forgets each of these jobs, one after another.
fn reap_each<R: Wait, C: Clock>(
    rt: &R,
    desk: &mut Desk<C>,
    session: SessionId,
    jobs: &[u64],
) -> Result<(), Refusal>
    requires { IsFree desk.old.shared.now desk.old.client }
    ensures desk { IsStillAt desk.old.shared.now desk.old.client desk.new.shared.now desk.new.client }
    ensures ok { IfOk result (λ told. IsMade desk.old.shared.now.fixed (post C.given C.least desk.old) (reaps_of session jobs.now) (post C.given C.least desk.new)) }
    ensures err { IfErr result (λ why. Stops desk.old.shared.now.fixed (post C.given C.least desk.old) (reaps_of session jobs.now) why (post C.given C.least desk.new)) }
    ensures timely { result ≢ Err Refusal.Timeout }
{
    for job in jobs {
        match reap(rt, desk, session, JobId(*job)) {
            Ok(()) => {}
            Err(why) => return Err(why),
        }
    }
    Ok(())
}
