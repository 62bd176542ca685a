//! Arrays of jobs: a call acts on each kept job whose state permits it, in order of number.
ghost use Rattle.std.specs.Prelude.{◌≡◌, ℕ, List, IfOk, IfErr};
ghost use Rattle.turn_lock.specs.Tokens.{IsFree};
ghost use Rattle.call_history.specs.Clients.{StaysAt};
ghost use Rattle.client_sessions.specs.Desks.{dial_of, Serves, Denies};
ghost use Rattle.client_sessions.specs.Lists.{jobs_of, IsUnlisted};

use crate::job_sessions::JobSession;
use crate::jobs::{Job, ask_to_control};
use crate::lists::jobs_of;
use call_history::{Call, Desk, Reply};
use drmaa_model::Target;
use drmaa_types::{ArrayId, Clock, Control, JobId, ListOf, Refusal, SessionId};
use std::alloc::Global;
use std::sync::Wait;

/// An array of jobs that were submitted together (GFD.231, JobArray).
#[derive(Clone, Copy, Debug, PartialEq, Eq)]
pub struct JobArray {
    /// The job session through which it is asked for.
    pub session: SessionId,
    /// Its number, from 1 in order of submission.
    pub array: ArrayId,
    /// The number of its first job; those of the others follow.
    pub first: JobId,
    /// How many jobs were submitted.
    pub count: u32,
}

impl JobArray {
    /// Suspends the running jobs of the array (GFD.231, JobArray::suspend).
    ///
    /// # Errors
    ///
    /// `InvalidSession` where its session is no open job session, `InvalidArgument(Array)` where no kept job of it is
    /// in that session, `UnsupportedOperation` where the machine can't suspend, `InvalidState` where no kept job's
    /// state permits it; with no entry, `OutOfMemory` or `OutOfResource(Journal)`.
    pub fn suspend<R: Wait, C: Clock>(self, rt: &R, desk: &mut Desk<C>) -> Result<(), Refusal>
        requires { IsFree desk.old.shared.now desk.old.client }
        ensures desk { StaysAt desk.old.shared.now desk.old.client desk.new.shared.now desk.new.client }
        ensures ok { IfOk result (λ told. Serves C.given C.least desk.old (Call.Control self.session (Target.Array self.array) Control.Suspend) Reply.Unit desk.new) }
        ensures err { IfErr result (λ why. Denies C.given C.least desk.old (Call.Control self.session (Target.Array self.array) Control.Suspend) why desk.new) }
    {
        let target = Target::Array(self.array);
        ask_to_control(rt, desk, self.session, target, Control::Suspend)
    }

    /// Resumes the suspended jobs of the array (GFD.231, JobArray::resume).
    ///
    /// # Errors
    ///
    /// `InvalidSession` where its session is no open job session, `InvalidArgument(Array)` where no kept job of it is
    /// in that session, `UnsupportedOperation` where the machine can't suspend, `InvalidState` where no kept job's
    /// state permits it; with no entry, `OutOfMemory` or `OutOfResource(Journal)`.
    pub fn resume<R: Wait, C: Clock>(self, rt: &R, desk: &mut Desk<C>) -> Result<(), Refusal>
        requires { IsFree desk.old.shared.now desk.old.client }
        ensures desk { StaysAt desk.old.shared.now desk.old.client desk.new.shared.now desk.new.client }
        ensures ok { IfOk result (λ told. Serves C.given C.least desk.old (Call.Control self.session (Target.Array self.array) Control.Resume) Reply.Unit desk.new) }
        ensures err { IfErr result (λ why. Denies C.given C.least desk.old (Call.Control self.session (Target.Array self.array) Control.Resume) why desk.new) }
    {
        let target = Target::Array(self.array);
        ask_to_control(rt, desk, self.session, target, Control::Resume)
    }

    /// Holds the queued and requeued jobs of the array (GFD.231, JobArray::hold).
    ///
    /// # Errors
    ///
    /// `InvalidSession` where its session is no open job session, `InvalidArgument(Array)` where no kept job of it is
    /// in that session, `InvalidState` where no kept job's state permits it; with no entry, `OutOfMemory` or
    /// `OutOfResource(Journal)`.
    pub fn hold<R: Wait, C: Clock>(self, rt: &R, desk: &mut Desk<C>) -> Result<(), Refusal>
        requires { IsFree desk.old.shared.now desk.old.client }
        ensures desk { StaysAt desk.old.shared.now desk.old.client desk.new.shared.now desk.new.client }
        ensures ok { IfOk result (λ told. Serves C.given C.least desk.old (Call.Control self.session (Target.Array self.array) Control.Hold) Reply.Unit desk.new) }
        ensures err { IfErr result (λ why. Denies C.given C.least desk.old (Call.Control self.session (Target.Array self.array) Control.Hold) why desk.new) }
    {
        let target = Target::Array(self.array);
        ask_to_control(rt, desk, self.session, target, Control::Hold)
    }

    /// Releases the held jobs of the array (GFD.231, JobArray::release).
    ///
    /// # Errors
    ///
    /// `InvalidSession` where its session is no open job session, `InvalidArgument(Array)` where no kept job of it is
    /// in that session, `InvalidState` where no kept job's state permits it; with no entry, `OutOfMemory` or
    /// `OutOfResource(Journal)`.
    pub fn release<R: Wait, C: Clock>(self, rt: &R, desk: &mut Desk<C>) -> Result<(), Refusal>
        requires { IsFree desk.old.shared.now desk.old.client }
        ensures desk { StaysAt desk.old.shared.now desk.old.client desk.new.shared.now desk.new.client }
        ensures ok { IfOk result (λ told. Serves C.given C.least desk.old (Call.Control self.session (Target.Array self.array) Control.Release) Reply.Unit desk.new) }
        ensures err { IfErr result (λ why. Denies C.given C.least desk.old (Call.Control self.session (Target.Array self.array) Control.Release) why desk.new) }
    {
        let target = Target::Array(self.array);
        ask_to_control(rt, desk, self.session, target, Control::Release)
    }

    /// Makes the waiting jobs of the array fail at once, and asks for the processes of the started ones to be killed
    /// (GFD.231, JobArray::terminate).
    ///
    /// # Errors
    ///
    /// `InvalidSession` where its session is no open job session, `InvalidArgument(Array)` where no kept job of it is
    /// in that session, `InvalidState` where no kept job's state permits it; with no entry, `OutOfMemory` or
    /// `OutOfResource(Journal)`.
    pub fn terminate<R: Wait, C: Clock>(self, rt: &R, desk: &mut Desk<C>) -> Result<(), Refusal>
        requires { IsFree desk.old.shared.now desk.old.client }
        ensures desk { StaysAt desk.old.shared.now desk.old.client desk.new.shared.now desk.new.client }
        ensures ok { IfOk result (λ told. Serves C.given C.least desk.old (Call.Control self.session (Target.Array self.array) Control.Terminate) Reply.Unit desk.new) }
        ensures err { IfErr result (λ why. Denies C.given C.least desk.old (Call.Control self.session (Target.Array self.array) Control.Terminate) why desk.new) }
    {
        let target = Target::Array(self.array);
        ask_to_control(rt, desk, self.session, target, Control::Terminate)
    }

    /// Forgets the terminated jobs of the array (GFD.231, JobArray::reap).
    ///
    /// # Errors
    ///
    /// `InvalidSession` where its session is no open job session, `InvalidArgument(Array)` where no kept job of it is
    /// in that session, `InvalidState` where no kept job is terminated; with no entry, `OutOfMemory` or
    /// `OutOfResource(Journal)`.
    pub fn reap<R: Wait, C: Clock>(self, rt: &R, desk: &mut Desk<C>) -> Result<(), Refusal>
        requires { IsFree desk.old.shared.now desk.old.client }
        ensures desk { StaysAt desk.old.shared.now desk.old.client desk.new.shared.now desk.new.client }
        ensures ok { IfOk result (λ told. Serves C.given C.least desk.old (Call.Reap self.session (Target.Array self.array)) Reply.Unit desk.new) }
        ensures err { IfErr result (λ why. Denies C.given C.least desk.old (Call.Reap self.session (Target.Array self.array)) why desk.new) }
    {
        let session = self.session;
        let target = Target::Array(self.array);
        desk.ask_for::<R, ()>(rt, Call::Reap { session, target })
    }

    /// The kept jobs of the array, by rising number (GFD.231, JobArray::jobs). Each is asked for through the array's session.
    ///
    /// # Errors
    ///
    /// `InvalidSession` where its session is no open job session, `InvalidArgument(Array)` where no kept job of it is in
    /// that session; with no entry, `OutOfMemory` or `OutOfResource(Journal)`; and `OutOfMemory` where there is none for
    /// the list, when the entry has been made.
    pub fn jobs<R: Wait, C: Clock>(
        self,
        alloc: Global,
        rt: &R,
        desk: &mut Desk<C>,
    ) -> Result<ListOf<Job>, Refusal>
        requires { IsFree desk.old.shared.now desk.old.client }
        ensures desk { StaysAt desk.old.shared.now desk.old.client desk.new.shared.now desk.new.client }
        ensures ok { IfOk result (λ jobs. (numbers : List ℕ) × (jobs ≡ jobs_of self.session numbers) × Serves C.given C.least desk.old (Call.GetJobArray self.session self.array) (Reply.Jobs numbers) desk.new) }
        ensures err { IfErr result (λ why. IsUnlisted desk.old.shared.now.fixed (dial_of C.given C.least desk.old) desk.old.client (Call.GetJobArray self.session self.array) (λ numbers. Reply.Jobs numbers) why (dial_of C.given C.least desk.new) desk.new.client) }
    {
        let session = self.session;
        match (JobSession { session }).get_job_array(rt, desk, self.array) {
            Ok(numbers) => jobs_of(alloc, session, &numbers),
            Err(why) => Err(why),
        }
    }
}
