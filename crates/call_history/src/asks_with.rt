//! Calls that ask with a template or a filter, which lies in memory of its own.
ghost use Rattle.std.specs.Prelude.{IfOk, IfErr};
ghost use Rattle.drmaa_model.specs.declared.calls.Call.{Call};
ghost use Rattle.drmaa_model.specs.declared.replies.Reply.{Reply};
ghost use Rattle.turn_lock.specs.Tokens.{IsFree};
ghost use Rattle.call_history.specs.Clients.{StaysAt};
ghost use Rattle.call_history.specs.Clocks.{dial};
ghost use Rattle.call_history.specs.Calls.{IsServed};
ghost use Rattle.call_history.specs.Refused.{IsRefused};

use crate::desks::Desk;
use crate::told::{JobNumbers, SubmittedArray};
use drmaa_machine::Call;
use drmaa_model::Indices;
use drmaa_types::{Clock, InfoList, JobFilter, JobId, Refusal, Reserved, SessionId};
use job_template::{JobTemplate, ReservationTemplate};
use std::sync::Wait;

impl<'a, C: Clock> Desk<'a, C> {
    /// Submits a job: RunJob.
    ///
    /// # Errors
    ///
    /// The refusal of its one entry; or, with no entry, want of memory, or a journal that would be too large.
    pub fn ask_to_run<R: Wait>(
        &mut self,
        rt: &R,
        session: SessionId,
        template: JobTemplate,
    ) -> Result<JobId, Refusal>
        requires { IsFree self.old.shared.now self.old.client }
        ensures desk { StaysAt self.old.shared.now self.old.client self.new.shared.now self.new.client }
        ensures ok { IfOk result (λ told. IsServed (dial (C.given self.old.clock) (C.least self.old.clock)) self.old.client
            (Call.RunJob session template) (Reply.Job told) (dial (C.given self.new.clock) (C.least self.new.clock)) self.new.client) }
        ensures err { IfErr result (λ why. IsRefused self.old.shared.now.fixed (dial (C.given self.old.clock) (C.least self.old.clock)) self.old.client
            (Call.RunJob session template) why (dial (C.given self.new.clock) (C.least self.new.clock)) self.new.client) }
    {
        match self.shared.share(template) {
            Ok(template) => self.ask_for::<R, JobId>(rt, Call::RunJob { session, template }),
            Err(_) => Err(self.give_up_submission(rt)),
        }
    }

    /// Submits an array of jobs: RunBulk.
    ///
    /// # Errors
    ///
    /// The refusal of its one entry; or, with no entry, want of memory, or a journal that would be too large.
    pub fn ask_to_run_array<R: Wait>(
        &mut self,
        rt: &R,
        session: SessionId,
        template: JobTemplate,
        indices: Indices,
    ) -> Result<SubmittedArray, Refusal>
        requires { IsFree self.old.shared.now self.old.client }
        ensures desk { StaysAt self.old.shared.now self.old.client self.new.shared.now self.new.client }
        ensures ok { IfOk result (λ told. IsServed (dial (C.given self.old.clock) (C.least self.old.clock)) self.old.client
            (Call.RunBulk session template indices) (Reply.Array told.array told.first told.count) (dial (C.given self.new.clock) (C.least self.new.clock)) self.new.client) }
        ensures err { IfErr result (λ why. IsRefused self.old.shared.now.fixed (dial (C.given self.old.clock) (C.least self.old.clock)) self.old.client
            (Call.RunBulk session template indices) why (dial (C.given self.new.clock) (C.least self.new.clock)) self.new.client) }
    {
        match self.shared.share(template) {
            Ok(template) => self.ask_for::<R, SubmittedArray>(
                rt,
                Call::RunBulk {
                    session,
                    template,
                    indices,
                },
            ),
            Err(_) => Err(self.give_up_submission(rt)),
        }
    }

    /// The numbers of a session's jobs that the filter lets through: GetJobs.
    ///
    /// # Errors
    ///
    /// The refusal of its one entry; or, with no entry, want of memory, or a journal that would be too large.
    pub fn ask_for_jobs<R: Wait>(
        &mut self,
        rt: &R,
        session: SessionId,
        filter: JobFilter,
    ) -> Result<JobNumbers, Refusal>
        requires { IsFree self.old.shared.now self.old.client }
        ensures desk { StaysAt self.old.shared.now self.old.client self.new.shared.now self.new.client }
        ensures ok { IfOk result (λ told. IsServed (dial (C.given self.old.clock) (C.least self.old.clock)) self.old.client
            (Call.GetJobs session filter) (Reply.Jobs told.numbers) (dial (C.given self.new.clock) (C.least self.new.clock)) self.new.client) }
        ensures err { IfErr result (λ why. IsRefused self.old.shared.now.fixed (dial (C.given self.old.clock) (C.least self.old.clock)) self.old.client
            (Call.GetJobs session filter) why (dial (C.given self.new.clock) (C.least self.new.clock)) self.new.client) }
    {
        match self.shared.own(filter) {
            Ok(filter) => self.ask_for::<R, JobNumbers>(rt, Call::GetJobs { session, filter }),
            Err(_) => Err(self.give_up(rt)),
        }
    }

    /// What is known of all jobs that the filter lets through: AllJobs.
    ///
    /// # Errors
    ///
    /// The refusal of its one entry; or, with no entry, want of memory, or a journal that would be too large.
    pub fn ask_for_all_jobs<R: Wait>(
        &mut self,
        rt: &R,
        session: SessionId,
        filter: JobFilter,
    ) -> Result<InfoList, Refusal>
        requires { IsFree self.old.shared.now self.old.client }
        ensures desk { StaysAt self.old.shared.now self.old.client self.new.shared.now self.new.client }
        ensures ok { IfOk result (λ told. IsServed (dial (C.given self.old.clock) (C.least self.old.clock)) self.old.client
            (Call.AllJobs session filter) (Reply.Infos told) (dial (C.given self.new.clock) (C.least self.new.clock)) self.new.client) }
        ensures err { IfErr result (λ why. IsRefused self.old.shared.now.fixed (dial (C.given self.old.clock) (C.least self.old.clock)) self.old.client
            (Call.AllJobs session filter) why (dial (C.given self.new.clock) (C.least self.new.clock)) self.new.client) }
    {
        match self.shared.own(filter) {
            Ok(filter) => self.ask_for::<R, InfoList>(rt, Call::AllJobs { session, filter }),
            Err(_) => Err(self.give_up(rt)),
        }
    }

    /// Asks for slots ahead: RequestReservation.
    ///
    /// # Errors
    ///
    /// The refusal of its one entry; or, with no entry, want of memory, or a journal that would be too large.
    pub fn ask_to_reserve<R: Wait>(
        &mut self,
        rt: &R,
        session: SessionId,
        template: ReservationTemplate,
    ) -> Result<Reserved, Refusal>
        requires { IsFree self.old.shared.now self.old.client }
        ensures desk { StaysAt self.old.shared.now self.old.client self.new.shared.now self.new.client }
        ensures ok { IfOk result (λ told. IsServed (dial (C.given self.old.clock) (C.least self.old.clock)) self.old.client
            (Call.RequestReservation session template) (Reply.Reserved told) (dial (C.given self.new.clock) (C.least self.new.clock)) self.new.client) }
        ensures err { IfErr result (λ why. IsRefused self.old.shared.now.fixed (dial (C.given self.old.clock) (C.least self.old.clock)) self.old.client
            (Call.RequestReservation session template) why (dial (C.given self.new.clock) (C.least self.new.clock)) self.new.client) }
    {
        match self.shared.own(template) {
            Ok(template) => self.ask_for::<R, Reserved>(
                rt,
                Call::RequestReservation { session, template },
            ),
            Err(_) => Err(self.give_up(rt)),
        }
    }
}
