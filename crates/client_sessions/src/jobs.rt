//! Jobs: they are controlled, and tell how they are.
ghost use Rattle.std.specs.Prelude.{◌≡◌, ℕ, Err, IfOk, IfErr};
ghost use Rattle.turn_lock.specs.Tokens.{IsFree};
ghost use Rattle.call_history.specs.Clients.{StaysAt};
ghost use Rattle.client_sessions.specs.Desks.{dial_of, Serves, Denies};
ghost use Rattle.client_sessions.specs.Tries.{IsRefusedAtOnce};

use crate::tries::{refusal_at_once, state_told};
use call_history::{Call, Desk, Reply};
use drmaa_model::Target;
use drmaa_types::{Clock, Control, JobId, JobInfo, JobState, Refusal, SessionId};
use std::sync::Wait;

/// A job (GFD.231, Job).
#[derive(Clone, Copy, Debug, PartialEq, Eq)]
pub struct Job {
    /// The job session through which it is asked for.
    pub session: SessionId,
    /// Its number, from 1 in order of submission.
    pub job: JobId,
}

impl Job {
    /// Suspends a running job, and asks for its process to be stopped (GFD.231, Job::suspend).
    ///
    /// # Errors
    ///
    /// `InvalidSession` where its session is no open job session, `InvalidArgument(Job)` where it is no kept job of
    /// that session, `UnsupportedOperation` where the machine can't suspend, `InvalidState` where its state does not
    /// permit it; with no entry, `OutOfMemory` or `OutOfResource(Journal)`.
    pub fn suspend<R: Wait, C: Clock>(self, rt: &R, desk: &mut Desk<C>) -> Result<(), Refusal>
        requires { IsFree desk.old.shared.now desk.old.client }
        ensures desk { StaysAt desk.old.shared.now desk.old.client desk.new.shared.now desk.new.client }
        ensures ok { IfOk result (λ told. Serves C.given C.least desk.old (Call.Control self.session (Target.Job self.job) Control.Suspend) Reply.Unit desk.new) }
        ensures err { IfErr result (λ why. Denies C.given C.least desk.old (Call.Control self.session (Target.Job self.job) Control.Suspend) why desk.new) }
    {
        let target = Target::Job(self.job);
        ask_to_control(rt, desk, self.session, target, Control::Suspend)
    }

    /// Resumes a suspended job, and asks for its process to be continued (GFD.231, Job::resume).
    ///
    /// # Errors
    ///
    /// `InvalidSession` where its session is no open job session, `InvalidArgument(Job)` where it is no kept job of
    /// that session, `UnsupportedOperation` where the machine can't suspend, `InvalidState` where its state does not
    /// permit it; with no entry, `OutOfMemory` or `OutOfResource(Journal)`.
    pub fn resume<R: Wait, C: Clock>(self, rt: &R, desk: &mut Desk<C>) -> Result<(), Refusal>
        requires { IsFree desk.old.shared.now desk.old.client }
        ensures desk { StaysAt desk.old.shared.now desk.old.client desk.new.shared.now desk.new.client }
        ensures ok { IfOk result (λ told. Serves C.given C.least desk.old (Call.Control self.session (Target.Job self.job) Control.Resume) Reply.Unit desk.new) }
        ensures err { IfErr result (λ why. Denies C.given C.least desk.old (Call.Control self.session (Target.Job self.job) Control.Resume) why desk.new) }
    {
        let target = Target::Job(self.job);
        ask_to_control(rt, desk, self.session, target, Control::Resume)
    }

    /// Holds a queued or requeued job: it is not launched until it is released (GFD.231, Job::hold).
    ///
    /// # Errors
    ///
    /// `InvalidSession` where its session is no open job session, `InvalidArgument(Job)` where it is no kept job of
    /// that session, `InvalidState` where its state does not permit it; with no entry, `OutOfMemory` or
    /// `OutOfResource(Journal)`.
    pub fn hold<R: Wait, C: Clock>(self, rt: &R, desk: &mut Desk<C>) -> Result<(), Refusal>
        requires { IsFree desk.old.shared.now desk.old.client }
        ensures desk { StaysAt desk.old.shared.now desk.old.client desk.new.shared.now desk.new.client }
        ensures ok { IfOk result (λ told. Serves C.given C.least desk.old (Call.Control self.session (Target.Job self.job) Control.Hold) Reply.Unit desk.new) }
        ensures err { IfErr result (λ why. Denies C.given C.least desk.old (Call.Control self.session (Target.Job self.job) Control.Hold) why desk.new) }
    {
        let target = Target::Job(self.job);
        ask_to_control(rt, desk, self.session, target, Control::Hold)
    }

    /// Releases a held job (GFD.231, Job::release).
    ///
    /// # Errors
    ///
    /// `InvalidSession` where its session is no open job session, `InvalidArgument(Job)` where it is no kept job of
    /// that session, `InvalidState` where its state does not permit it; with no entry, `OutOfMemory` or
    /// `OutOfResource(Journal)`.
    pub fn release<R: Wait, C: Clock>(self, rt: &R, desk: &mut Desk<C>) -> Result<(), Refusal>
        requires { IsFree desk.old.shared.now desk.old.client }
        ensures desk { StaysAt desk.old.shared.now desk.old.client desk.new.shared.now desk.new.client }
        ensures ok { IfOk result (λ told. Serves C.given C.least desk.old (Call.Control self.session (Target.Job self.job) Control.Release) Reply.Unit desk.new) }
        ensures err { IfErr result (λ why. Denies C.given C.least desk.old (Call.Control self.session (Target.Job self.job) Control.Release) why desk.new) }
    {
        let target = Target::Job(self.job);
        ask_to_control(rt, desk, self.session, target, Control::Release)
    }

    /// Makes a waiting job fail at once, and asks for the process of a started one to be killed (GFD.231,
    /// Job::terminate).
    ///
    /// # Errors
    ///
    /// `InvalidSession` where its session is no open job session, `InvalidArgument(Job)` where it is no kept job of
    /// that session, `InvalidState` where its state does not permit it; with no entry, `OutOfMemory` or
    /// `OutOfResource(Journal)`.
    pub fn terminate<R: Wait, C: Clock>(self, rt: &R, desk: &mut Desk<C>) -> Result<(), Refusal>
        requires { IsFree desk.old.shared.now desk.old.client }
        ensures desk { StaysAt desk.old.shared.now desk.old.client desk.new.shared.now desk.new.client }
        ensures ok { IfOk result (λ told. Serves C.given C.least desk.old (Call.Control self.session (Target.Job self.job) Control.Terminate) Reply.Unit desk.new) }
        ensures err { IfErr result (λ why. Denies C.given C.least desk.old (Call.Control self.session (Target.Job self.job) Control.Terminate) why desk.new) }
    {
        let target = Target::Job(self.job);
        ask_to_control(rt, desk, self.session, target, Control::Terminate)
    }

    /// Forgets a terminated job (GFD.231, Job::reap).
    ///
    /// # Errors
    ///
    /// `InvalidSession` where its session is no open job session, `InvalidArgument(Job)` where it is no kept job of
    /// that session, `InvalidState` where it is not terminated; with no entry, `OutOfMemory` or
    /// `OutOfResource(Journal)`.
    pub fn reap<R: Wait, C: Clock>(self, rt: &R, desk: &mut Desk<C>) -> Result<(), Refusal>
        requires { IsFree desk.old.shared.now desk.old.client }
        ensures desk { StaysAt desk.old.shared.now desk.old.client desk.new.shared.now desk.new.client }
        ensures ok { IfOk result (λ told. Serves C.given C.least desk.old (Call.Reap self.session (Target.Job self.job)) Reply.Unit desk.new) }
        ensures err { IfErr result (λ why. Denies C.given C.least desk.old (Call.Reap self.session (Target.Job self.job)) why desk.new) }
    {
        let session = self.session;
        let target = Target::Job(self.job);
        desk.ask_for::<R, ()>(rt, Call::Reap { session, target })
    }

    /// The job's state (GFD.231, Job::getState).
    ///
    /// # Errors
    ///
    /// `InvalidSession` where its session is no open job session, `InvalidArgument(Job)` where it is no kept job of
    /// that session; with no entry, `OutOfMemory` or `OutOfResource(Journal)`.
    pub fn get_state<R: Wait, C: Clock>(
        self,
        rt: &R,
        desk: &mut Desk<C>,
    ) -> Result<JobState, Refusal>
        requires { IsFree desk.old.shared.now desk.old.client }
        ensures desk { StaysAt desk.old.shared.now desk.old.client desk.new.shared.now desk.new.client }
        ensures ok { IfOk result (λ told. Serves C.given C.least desk.old (Call.GetState self.session self.job) (Reply.State told) desk.new) }
        ensures err { IfErr result (λ why. Denies C.given C.least desk.old (Call.GetState self.session self.job) why desk.new) }
    {
        let Job { session, job } = self;
        desk.ask_for::<R, JobState>(rt, Call::GetState { session, job })
    }

    /// What is known of the job (GFD.231, Job::getInfo).
    ///
    /// # Errors
    ///
    /// `InvalidSession` where its session is no open job session, `InvalidArgument(Job)` where it is no kept job of
    /// that session; with no entry, `OutOfMemory` or `OutOfResource(Journal)`.
    pub fn get_info<R: Wait, C: Clock>(self, rt: &R, desk: &mut Desk<C>) -> Result<JobInfo, Refusal>
        requires { IsFree desk.old.shared.now desk.old.client }
        ensures desk { StaysAt desk.old.shared.now desk.old.client desk.new.shared.now desk.new.client }
        ensures ok { IfOk result (λ told. Serves C.given C.least desk.old (Call.GetInfo self.session self.job) (Reply.Info told) desk.new) }
        ensures err { IfErr result (λ why. Denies C.given C.least desk.old (Call.GetInfo self.session self.job) why desk.new) }
    {
        let Job { session, job } = self;
        desk.ask_for::<R, JobInfo>(rt, Call::GetInfo { session, job })
    }

    /// The job's state, without waiting for another client (GFD.231, Job::getState). The bell does not ring.
    ///
    /// # Errors
    ///
    /// `TryLater` where another client had its turn, with the numbers of that look at the lock: nothing was read, seen
    /// or made then. Else as `get_state`.
    pub fn try_get_state<C: Clock>(self, desk: &mut Desk<C>) -> Result<JobState, Refusal>
        requires { IsFree desk.old.shared.now desk.old.client }
        ensures desk { StaysAt desk.old.shared.now desk.old.client desk.new.shared.now desk.new.client }
        ensures ok { IfOk result (λ told. Serves C.given C.least desk.old (Call.GetState self.session self.job) (Reply.State told) desk.new) }
        ensures err { IfErr result (λ why. IsRefusedAtOnce desk.old.shared.now.fixed (dial_of C.given C.least desk.old) desk.old.client (Call.GetState self.session self.job) (dial_of C.given C.least desk.new) desk.new.client why) }
        ensures unread { (served drawn : ℕ) → result ≡ Err (Refusal.TryLater served drawn) → desk.new.clock ≡ desk.old.clock }
    {
        let Job { session, job } = self;
        match desk.try_call(Call::GetState { session, job }) {
            Ok(reply) => state_told(reply),
            Err(fault) => Err(refusal_at_once(fault)),
        }
    }
}

/// Controls a job, or the jobs of an array whose state permits it.
pub(crate) fn ask_to_control<R: Wait, C: Clock>(
    rt: &R,
    desk: &mut Desk<C>,
    session: SessionId,
    target: Target,
    what: Control,
) -> Result<(), Refusal>
    requires { IsFree desk.old.shared.now desk.old.client }
    ensures desk { StaysAt desk.old.shared.now desk.old.client desk.new.shared.now desk.new.client }
    ensures ok { IfOk result (λ told. Serves C.given C.least desk.old (Call.Control session target what) Reply.Unit desk.new) }
    ensures err { IfErr result (λ why. Denies C.given C.least desk.old (Call.Control session target what) why desk.new) }
{
    let call = Call::Control {
        session,
        target,
        what,
    };
    desk.ask_for::<R, ()>(rt, call)
}
