//! Waits for jobs: of one session, or for one job.
ghost use Rattle.std.specs.Prelude.{◌≡◌, IfOk, IfErr, OnOk};
ghost use Rattle.drmaa_types.specs.declared.states.WaitKind.{WaitKind};
ghost use Rattle.drmaa_model.specs.declared.calls.Call.{Call};
ghost use Rattle.turn_lock.specs.Tokens.{IsFree};
ghost use Rattle.call_history.specs.Clients.{StaysAt, IsStillAt};
ghost use Rattle.client_sessions.specs.AllWaits.{wait_for, JobDenies};
ghost use Rattle.client_sessions.specs.Desks.{WaitReaches, WaitDenies};

use crate::job_sessions::JobSession;
use crate::jobs::Job;
use call_history::Desk;
use drmaa_types::{Clock, IdList, Refusal, Timeout, WaitKind};
use std::alloc::Global;
use std::sync::Wait;
use std::time::Clock as Pause;
use wait_calls::wait;

impl JobSession {
    /// Waits until one of the listed jobs has started, and answers the first listed one that has (GFD.231,
    /// JobSession::waitAnyStarted). The timeout is in seconds. A job that ended before it ran has started too.
    ///
    /// # Errors
    ///
    /// `Timeout`; `InvalidSession` where this is no open job session, `InvalidArgument(Jobs)` for an empty list,
    /// `InvalidArgument(Job)` where a listed job is none of this session, `OutOfResource(WaitList)` above 10,000 jobs;
    /// with no entry, `OutOfMemory` or `OutOfResource(Journal)`.
    pub fn wait_any_started<R: Wait + Pause, C: Clock>(
        self,
        rt: &R,
        desk: &mut Desk<C>,
        jobs: IdList,
        timeout: Timeout,
    ) -> Result<Job, Refusal>
        requires { IsFree desk.old.shared.now desk.old.client }
        ensures desk { StaysAt desk.old.shared.now desk.old.client desk.new.shared.now desk.new.client }
        ensures ok { IfOk result (λ reached. WaitReaches C.given C.least desk.old (λ begun. Call.Wait self.session jobs WaitKind.Started begun timeout) reached.job desk.new) }
        ensures session { IfOk result (λ reached. reached.session ≡ self.session) }
        ensures err { IfErr result (λ why. WaitDenies C.given C.least desk.old (λ begun. Call.Wait self.session jobs WaitKind.Started begun timeout) why desk.new) }
    {
        let session = self.session;
        match wait(rt, desk, session, jobs, WaitKind::Started, timeout) {
            Ok(job) => Ok(Job { session, job }),
            Err(why) => Err(why),
        }
    }

    /// Waits until one of the listed jobs has terminated, and answers the first listed one that has (GFD.231,
    /// JobSession::waitAnyTerminated). The timeout is in seconds.
    ///
    /// # Errors
    ///
    /// As `wait_any_started`.
    pub fn wait_any_terminated<R: Wait + Pause, C: Clock>(
        self,
        rt: &R,
        desk: &mut Desk<C>,
        jobs: IdList,
        timeout: Timeout,
    ) -> Result<Job, Refusal>
        requires { IsFree desk.old.shared.now desk.old.client }
        ensures desk { StaysAt desk.old.shared.now desk.old.client desk.new.shared.now desk.new.client }
        ensures ok { IfOk result (λ reached. WaitReaches C.given C.least desk.old (λ begun. Call.Wait self.session jobs WaitKind.Terminated begun timeout) reached.job desk.new) }
        ensures session { IfOk result (λ reached. reached.session ≡ self.session) }
        ensures err { IfErr result (λ why. WaitDenies C.given C.least desk.old (λ begun. Call.Wait self.session jobs WaitKind.Terminated begun timeout) why desk.new) }
    {
        let session = self.session;
        match wait(rt, desk, session, jobs, WaitKind::Terminated, timeout) {
            Ok(job) => Ok(Job { session, job }),
            Err(why) => Err(why),
        }
    }
}

impl Job {
    /// Waits until the job has started (GFD.231, Job::waitStarted). The timeout is in seconds. A job that ended before it ran
    /// has started too.
    ///
    /// # Errors
    ///
    /// As `JobSession::wait_any_started`; and want of memory for the list of the one job, with which nothing has happened.
    pub fn wait_started<R: Wait + Pause, C: Clock>(
        self,
        alloc: Global,
        rt: &R,
        desk: &mut Desk<C>,
        timeout: Timeout,
    ) -> Result<(), Refusal>
        requires { IsFree desk.old.shared.now desk.old.client }
        ensures desk { OnOk result (StaysAt desk.old.shared.now desk.old.client desk.new.shared.now desk.new.client) }
        ensures ok { IfOk result (λ _. WaitReaches C.given C.least desk.old (wait_for self.session WaitKind.Started timeout self) self.job desk.new) }
        ensures err { IfErr result (λ why. JobDenies C.given C.least desk.old (wait_for self.session WaitKind.Started timeout self) why desk.new) }
    {
        self.wait_alone(alloc, rt, desk, WaitKind::Started, timeout)
    }

    /// Waits until the job has terminated (GFD.231, Job::waitTerminated). The timeout is in seconds.
    ///
    /// # Errors
    ///
    /// As `wait_started`.
    pub fn wait_terminated<R: Wait + Pause, C: Clock>(
        self,
        alloc: Global,
        rt: &R,
        desk: &mut Desk<C>,
        timeout: Timeout,
    ) -> Result<(), Refusal>
        requires { IsFree desk.old.shared.now desk.old.client }
        ensures desk { OnOk result (StaysAt desk.old.shared.now desk.old.client desk.new.shared.now desk.new.client) }
        ensures ok { IfOk result (λ _. WaitReaches C.given C.least desk.old (wait_for self.session WaitKind.Terminated timeout self) self.job desk.new) }
        ensures err { IfErr result (λ why. JobDenies C.given C.least desk.old (wait_for self.session WaitKind.Terminated timeout self) why desk.new) }
    {
        self.wait_alone(alloc, rt, desk, WaitKind::Terminated, timeout)
    }

    /// Waits until the job has reached a state.
    pub(crate) fn wait_alone<R: Wait + Pause, C: Clock>(
        self,
        alloc: Global,
        rt: &R,
        desk: &mut Desk<C>,
        kind: WaitKind,
        timeout: Timeout,
    ) -> Result<(), Refusal>
        requires { IsFree desk.old.shared.now desk.old.client }
        ensures still { IsStillAt desk.old.shared.now desk.old.client desk.new.shared.now desk.new.client }
        ensures desk { OnOk result (StaysAt desk.old.shared.now desk.old.client desk.new.shared.now desk.new.client) }
        ensures ok { IfOk result (λ _. WaitReaches C.given C.least desk.old (wait_for self.session kind timeout self) self.job desk.new) }
        ensures err { IfErr result (λ why. JobDenies C.given C.least desk.old (wait_for self.session kind timeout self) why desk.new) }
    {
        let Ok(numbers) = Vec::from_slice(alloc, &[self.job.0]) else {
            return Err(Refusal::OutOfMemory);
        };
        match wait(
            rt,
            desk,
            self.session,
            IdList::from_vec(numbers),
            kind,
            timeout,
        ) {
            Ok(_) => Ok(()),
            Err(why) => Err(why),
        }
    }
}
