//! Waits for all of some jobs: those that are listed, or those of an array.
ghost use Rattle.std.specs.Prelude.{IfOk, IfErr};
ghost use Rattle.drmaa_types.specs.declared.states.WaitKind.{WaitKind};
ghost use Rattle.turn_lock.specs.Tokens.{IsFree};
ghost use Rattle.call_history.specs.Clients.{StaysAt, IsStillAt};
ghost use Rattle.client_sessions.specs.AllWaits.{wait_for, AllReach, OneDenies, MembersReach, MemberDenies};

use crate::arrays::JobArray;
use crate::job_sessions::JobSession;
use crate::jobs::Job;
use call_history::Desk;
use drmaa_types::{Clock, Refusal, SessionId, Timeout, WaitKind};
use std::alloc::Global;
use std::sync::Wait;
use std::time::Clock as Pause;

impl JobSession {
    /// Waits until each of the listed jobs has started, one after another in the order given. Each is asked for through this
    /// session. The timeout is in seconds, and counts for each job from the beginning of its own wait. A job that ended before
    /// it ran has started too. With no job listed it is Ok, makes no entry, and does not ask for the session.
    ///
    /// # Errors
    ///
    /// It stops at the first job whose wait is refused, with that refusal, and the entries for the jobs before it stay: `Timeout`;
    /// `InvalidSession` where this is no open job session, `InvalidArgument(Job)` where the job is none of this session; with no
    /// entry for that job, `OutOfMemory` or `OutOfResource(Journal)`.
    pub fn wait_all_started<R: Wait + Pause, C: Clock>(
        self,
        alloc: Global,
        rt: &R,
        desk: &mut Desk<C>,
        jobs: &[Job],
        timeout: Timeout,
    ) -> Result<(), Refusal>
        requires { IsFree desk.old.shared.now desk.old.client }
        ensures desk { IsStillAt desk.old.shared.now desk.old.client desk.new.shared.now desk.new.client }
        ensures ok { IfOk result (λ _. AllReach C.given C.least desk.old (wait_for self.session WaitKind.Started timeout) jobs.now desk.new) }
        ensures err { IfErr result (λ why. OneDenies C.given C.least desk.old (wait_for self.session WaitKind.Started timeout) jobs.now why desk.new) }
    {
        wait_for_each(
            alloc,
            rt,
            desk,
            self.session,
            jobs,
            WaitKind::Started,
            timeout,
        )
    }

    /// Waits until each of the listed jobs has terminated, one after another in the order given. Each is asked for through this
    /// session. The timeout is in seconds, and counts for each job from the beginning of its own wait. With no job listed it is
    /// Ok, makes no entry, and does not ask for the session.
    ///
    /// # Errors
    ///
    /// As `wait_all_started`.
    pub fn wait_all_terminated<R: Wait + Pause, C: Clock>(
        self,
        alloc: Global,
        rt: &R,
        desk: &mut Desk<C>,
        jobs: &[Job],
        timeout: Timeout,
    ) -> Result<(), Refusal>
        requires { IsFree desk.old.shared.now desk.old.client }
        ensures desk { IsStillAt desk.old.shared.now desk.old.client desk.new.shared.now desk.new.client }
        ensures ok { IfOk result (λ _. AllReach C.given C.least desk.old (wait_for self.session WaitKind.Terminated timeout) jobs.now desk.new) }
        ensures err { IfErr result (λ why. OneDenies C.given C.least desk.old (wait_for self.session WaitKind.Terminated timeout) jobs.now why desk.new) }
    {
        wait_for_each(
            alloc,
            rt,
            desk,
            self.session,
            jobs,
            WaitKind::Terminated,
            timeout,
        )
    }
}

impl JobArray {
    /// Waits until each kept job of the array has started, one after another by rising number. One entry asks which jobs these
    /// are. The timeout is in seconds, and counts for each job from the beginning of its own wait. A job that ended before it
    /// ran has started too.
    ///
    /// # Errors
    ///
    /// As `jobs`, and then nothing was waited for; or as `JobSession::wait_all_started`, at the first job whose wait is refused.
    pub fn wait_started<R: Wait + Pause, C: Clock>(
        self,
        alloc: Global,
        rt: &R,
        desk: &mut Desk<C>,
        timeout: Timeout,
    ) -> Result<(), Refusal>
        requires { IsFree desk.old.shared.now desk.old.client }
        ensures desk { StaysAt desk.old.shared.now desk.old.client desk.new.shared.now desk.new.client }
        ensures ok { IfOk result (λ _. MembersReach C.given C.least desk.old self.session self.array WaitKind.Started timeout desk.new) }
        ensures err { IfErr result (λ why. MemberDenies C.given C.least desk.old self.session self.array WaitKind.Started timeout why desk.new) }
    {
        self.wait_for_all(alloc, rt, desk, WaitKind::Started, timeout)
    }

    /// Waits until each kept job of the array has terminated, one after another by rising number. One entry asks which jobs these
    /// are. The timeout is in seconds, and counts for each job from the beginning of its own wait.
    ///
    /// # Errors
    ///
    /// As `wait_started`.
    pub fn wait_terminated<R: Wait + Pause, C: Clock>(
        self,
        alloc: Global,
        rt: &R,
        desk: &mut Desk<C>,
        timeout: Timeout,
    ) -> Result<(), Refusal>
        requires { IsFree desk.old.shared.now desk.old.client }
        ensures desk { StaysAt desk.old.shared.now desk.old.client desk.new.shared.now desk.new.client }
        ensures ok { IfOk result (λ _. MembersReach C.given C.least desk.old self.session self.array WaitKind.Terminated timeout desk.new) }
        ensures err { IfErr result (λ why. MemberDenies C.given C.least desk.old self.session self.array WaitKind.Terminated timeout why desk.new) }
    {
        self.wait_for_all(alloc, rt, desk, WaitKind::Terminated, timeout)
    }

    /// Waits until each kept job of the array has reached a state.
    fn wait_for_all<R: Wait + Pause, C: Clock>(
        self,
        alloc: Global,
        rt: &R,
        desk: &mut Desk<C>,
        kind: WaitKind,
        timeout: Timeout,
    ) -> Result<(), Refusal>
        requires { IsFree desk.old.shared.now desk.old.client }
        ensures desk { StaysAt desk.old.shared.now desk.old.client desk.new.shared.now desk.new.client }
        ensures ok { IfOk result (λ _. MembersReach C.given C.least desk.old self.session self.array kind timeout desk.new) }
        ensures err { IfErr result (λ why. MemberDenies C.given C.least desk.old self.session self.array kind timeout why desk.new) }
    {
        match self.jobs(alloc, rt, desk) {
            Ok(jobs) => wait_for_each(
                alloc,
                rt,
                desk,
                self.session,
                jobs.as_slice(),
                kind,
                timeout,
            ),
            Err(why) => Err(why),
        }
    }
}

/// Waits until each of these jobs has reached a state, one after another, through a session.
fn wait_for_each<R: Wait + Pause, C: Clock>(
    alloc: Global,
    rt: &R,
    desk: &mut Desk<C>,
    session: SessionId,
    jobs: &[Job],
    kind: WaitKind,
    timeout: Timeout,
) -> Result<(), Refusal>
    requires { IsFree desk.old.shared.now desk.old.client }
    ensures desk { IsStillAt desk.old.shared.now desk.old.client desk.new.shared.now desk.new.client }
    ensures ok { IfOk result (λ _. AllReach C.given C.least desk.old (wait_for session kind timeout) jobs.now desk.new) }
    ensures err { IfErr result (λ why. OneDenies C.given C.least desk.old (wait_for session kind timeout) jobs.now why desk.new) }
{
    for listed in jobs {
        let job = listed.job;
        match (Job { session, job }).wait_alone(alloc, rt, desk, kind, timeout) {
            Ok(()) => {}
            Err(why) => return Err(why),
        }
    }
    Ok(())
}
