//! Monitoring sessions: what is shown of all jobs, reservations, queues and the machine.
ghost use Rattle.std.specs.Prelude.{IfOk, IfErr};
ghost use Rattle.turn_lock.specs.Tokens.{IsFree};
ghost use Rattle.call_history.specs.Clients.{StaysAt};
ghost use Rattle.call_history.specs.Clocks.{dial};
ghost use Rattle.call_history.specs.Calls.{IsServed};
ghost use Rattle.call_history.specs.Refused.{IsRefused};

use call_history::{Call, Desk, Reply};
use drmaa_model::Target;
use drmaa_types::{
    Clock, InfoList, JobFilter, JobId, JobInfo, JobState, MachineInfo, Refusal, ReservationList,
    SessionId, TextList,
};
use std::sync::Wait;

/// A monitoring session: it shows what there is, whoever asked for it (GFD.231, MonitoringSession).
#[derive(Clone, Copy, Debug, PartialEq, Eq)]
pub struct MonitoringSession {
    /// The session number, as an open call answered it.
    pub session: SessionId,
}

impl MonitoringSession {
    /// What is known of each kept job that the filter lets through, by number (GFD.231, MonitoringSession::getAllJobs).
    /// The jobs are those of all sessions.
    ///
    /// # Errors
    ///
    /// `InvalidSession` where this is no open monitoring session; with no entry, `OutOfMemory` or
    /// `OutOfResource(Journal)`.
    pub fn get_all_jobs<R: Wait, C: Clock>(
        self,
        rt: &R,
        desk: &mut Desk<C>,
        filter: JobFilter,
    ) -> Result<InfoList, Refusal>
        requires { IsFree desk.old.shared.now desk.old.client }
        ensures desk { StaysAt desk.old.shared.now desk.old.client desk.new.shared.now desk.new.client }
        ensures ok { IfOk result (λ told. IsServed (dial (C.given desk.old.clock) (C.least desk.old.clock)) desk.old.client
            (Call.AllJobs self.session filter) (Reply.Infos told) (dial (C.given desk.new.clock) (C.least desk.new.clock)) desk.new.client) }
        ensures err { IfErr result (λ why. IsRefused desk.old.shared.now.fixed (dial (C.given desk.old.clock) (C.least desk.old.clock)) desk.old.client
            (Call.AllJobs self.session filter) why (dial (C.given desk.new.clock) (C.least desk.new.clock)) desk.new.client) }
    {
        let session = self.session;
        desk.ask_for_all_jobs(rt, session, filter)
    }

    /// What is known of each accepted reservation, by number (GFD.231, MonitoringSession::getAllReservations).
    ///
    /// # Errors
    ///
    /// `InvalidSession` where this is no open monitoring session; with no entry, `OutOfMemory` or
    /// `OutOfResource(Journal)`.
    pub fn get_all_reservations<R: Wait, C: Clock>(
        self,
        rt: &R,
        desk: &mut Desk<C>,
    ) -> Result<ReservationList, Refusal>
        requires { IsFree desk.old.shared.now desk.old.client }
        ensures desk { StaysAt desk.old.shared.now desk.old.client desk.new.shared.now desk.new.client }
        ensures ok { IfOk result (λ told. IsServed (dial (C.given desk.old.clock) (C.least desk.old.clock)) desk.old.client
            (Call.AllReservations self.session) (Reply.ReservationInfos told) (dial (C.given desk.new.clock) (C.least desk.new.clock)) desk.new.client) }
        ensures err { IfErr result (λ why. IsRefused desk.old.shared.now.fixed (dial (C.given desk.old.clock) (C.least desk.old.clock)) desk.old.client
            (Call.AllReservations self.session) why (dial (C.given desk.new.clock) (C.least desk.new.clock)) desk.new.client) }
    {
        let session = self.session;
        desk.ask_for::<R, ReservationList>(rt, Call::AllReservations { session })
    }

    /// The names of the queues, in order (GFD.231, MonitoringSession::getAllQueues), and `default` alone where the machine has none.
    ///
    /// # Errors
    ///
    /// `InvalidSession` where this is no open monitoring session; with no entry, `OutOfMemory` or
    /// `OutOfResource(Journal)`.
    pub fn get_all_queues<R: Wait, C: Clock>(
        self,
        rt: &R,
        desk: &mut Desk<C>,
    ) -> Result<TextList, Refusal>
        requires { IsFree desk.old.shared.now desk.old.client }
        ensures desk { StaysAt desk.old.shared.now desk.old.client desk.new.shared.now desk.new.client }
        ensures ok { IfOk result (λ told. IsServed (dial (C.given desk.old.clock) (C.least desk.old.clock)) desk.old.client
            (Call.AllQueues self.session) (Reply.Names told) (dial (C.given desk.new.clock) (C.least desk.new.clock)) desk.new.client) }
        ensures err { IfErr result (λ why. IsRefused desk.old.shared.now.fixed (dial (C.given desk.old.clock) (C.least desk.old.clock)) desk.old.client
            (Call.AllQueues self.session) why (dial (C.given desk.new.clock) (C.least desk.new.clock)) desk.new.client) }
    {
        let session = self.session;
        desk.ask_for::<R, TextList>(rt, Call::AllQueues { session })
    }

    /// What is known of the one machine: its name, its slots, and how many of them jobs hold (GFD.231,
    /// MonitoringSession::getAllMachines).
    ///
    /// # Errors
    ///
    /// `InvalidSession` where this is no open monitoring session; with no entry, `OutOfMemory` or
    /// `OutOfResource(Journal)`.
    pub fn get_all_machines<R: Wait, C: Clock>(
        self,
        rt: &R,
        desk: &mut Desk<C>,
    ) -> Result<MachineInfo, Refusal>
        requires { IsFree desk.old.shared.now desk.old.client }
        ensures desk { StaysAt desk.old.shared.now desk.old.client desk.new.shared.now desk.new.client }
        ensures ok { IfOk result (λ told. IsServed (dial (C.given desk.old.clock) (C.least desk.old.clock)) desk.old.client
            (Call.AllMachines self.session) (Reply.Machine told) (dial (C.given desk.new.clock) (C.least desk.new.clock)) desk.new.client) }
        ensures err { IfErr result (λ why. IsRefused desk.old.shared.now.fixed (dial (C.given desk.old.clock) (C.least desk.old.clock)) desk.old.client
            (Call.AllMachines self.session) why (dial (C.given desk.new.clock) (C.least desk.new.clock)) desk.new.client) }
    {
        let session = self.session;
        desk.ask_for::<R, MachineInfo>(rt, Call::AllMachines { session })
    }

    /// The state of any kept job (GFD.231, Job::getState, through a monitoring session).
    ///
    /// # Errors
    ///
    /// `InvalidSession` where this is no open monitoring session, `InvalidArgument(Job)` for a job that is not kept;
    /// with no entry, `OutOfMemory` or `OutOfResource(Journal)`.
    pub fn job_state<R: Wait, C: Clock>(
        self,
        rt: &R,
        desk: &mut Desk<C>,
        job: JobId,
    ) -> Result<JobState, Refusal>
        requires { IsFree desk.old.shared.now desk.old.client }
        ensures desk { StaysAt desk.old.shared.now desk.old.client desk.new.shared.now desk.new.client }
        ensures ok { IfOk result (λ told. IsServed (dial (C.given desk.old.clock) (C.least desk.old.clock)) desk.old.client
            (Call.GetState self.session job) (Reply.State told) (dial (C.given desk.new.clock) (C.least desk.new.clock)) desk.new.client) }
        ensures err { IfErr result (λ why. IsRefused desk.old.shared.now.fixed (dial (C.given desk.old.clock) (C.least desk.old.clock)) desk.old.client
            (Call.GetState self.session job) why (dial (C.given desk.new.clock) (C.least desk.new.clock)) desk.new.client) }
    {
        let session = self.session;
        desk.ask_for::<R, JobState>(rt, Call::GetState { session, job })
    }

    /// What is known of any kept job (GFD.231, Job::getInfo, through a monitoring session).
    ///
    /// # Errors
    ///
    /// `InvalidSession` where this is no open monitoring session, `InvalidArgument(Job)` for a job that is not kept;
    /// with no entry, `OutOfMemory` or `OutOfResource(Journal)`.
    pub fn job_info<R: Wait, C: Clock>(
        self,
        rt: &R,
        desk: &mut Desk<C>,
        job: JobId,
    ) -> Result<JobInfo, Refusal>
        requires { IsFree desk.old.shared.now desk.old.client }
        ensures desk { StaysAt desk.old.shared.now desk.old.client desk.new.shared.now desk.new.client }
        ensures ok { IfOk result (λ told. IsServed (dial (C.given desk.old.clock) (C.least desk.old.clock)) desk.old.client
            (Call.GetInfo self.session job) (Reply.Info told) (dial (C.given desk.new.clock) (C.least desk.new.clock)) desk.new.client) }
        ensures err { IfErr result (λ why. IsRefused desk.old.shared.now.fixed (dial (C.given desk.old.clock) (C.least desk.old.clock)) desk.old.client
            (Call.GetInfo self.session job) why (dial (C.given desk.new.clock) (C.least desk.new.clock)) desk.new.client) }
    {
        let session = self.session;
        desk.ask_for::<R, JobInfo>(rt, Call::GetInfo { session, job })
    }

    /// Forgets a terminated job whose session was destroyed (GFD.231, Job::reap, through a monitoring session).
    ///
    /// # Errors
    ///
    /// `InvalidSession` where this is no open monitoring session, `InvalidArgument(Job)` for a job that is not kept or
    /// still has its session, `InvalidState` for one that is not terminated; with no entry, `OutOfMemory` or
    /// `OutOfResource(Journal)`.
    pub fn reap<R: Wait, C: Clock>(
        self,
        rt: &R,
        desk: &mut Desk<C>,
        job: JobId,
    ) -> Result<(), Refusal>
        requires { IsFree desk.old.shared.now desk.old.client }
        ensures desk { StaysAt desk.old.shared.now desk.old.client desk.new.shared.now desk.new.client }
        ensures ok { IfOk result (λ told. IsServed (dial (C.given desk.old.clock) (C.least desk.old.clock)) desk.old.client
            (Call.Reap self.session (Target.Job job)) Reply.Unit (dial (C.given desk.new.clock) (C.least desk.new.clock)) desk.new.client) }
        ensures err { IfErr result (λ why. IsRefused desk.old.shared.now.fixed (dial (C.given desk.old.clock) (C.least desk.old.clock)) desk.old.client
            (Call.Reap self.session (Target.Job job)) why (dial (C.given desk.new.clock) (C.least desk.new.clock)) desk.new.client) }
    {
        let session = self.session;
        let target = Target::Job(job);
        desk.ask_for::<R, ()>(rt, Call::Reap { session, target })
    }
}
