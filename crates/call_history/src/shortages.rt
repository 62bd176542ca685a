//! Calls that can't be made, since the memory for what they ask with is wanting.
ghost use Rattle.std.specs.Prelude.{◌≡◌, ℕ, Option};
ghost use Rattle.drmaa_types.specs.declared.identifiers.SessionId.{SessionId};
ghost use Rattle.drmaa_types.specs.declared.filters.JobFilter.{JobFilter};
ghost use Rattle.drmaa_model.specs.declared.calls.Call.{Call};
ghost use Rattle.drmaa_model.specs.declared.calls.Indices.{Indices};
ghost use Rattle.drmaa_model.specs.declared.looks.Answer.{Answer};
ghost use Rattle.job_template.specs.declared.templates.JobTemplate.{JobTemplate};
ghost use Rattle.job_template.specs.declared.templates.ReservationTemplate.{ReservationTemplate};
ghost use Rattle.turn_lock.specs.Tokens.{IsFree};
ghost use Rattle.call_history.specs.Clients.{StaysAt};
ghost use Rattle.call_history.specs.Clocks.{dial};
ghost use Rattle.call_history.specs.Refused.{IsRefused, shortage};

use crate::desks::Desk;
use drmaa_machine::{Answer, Question};
use drmaa_types::{Clock, Limit, Refusal};
use std::sync::Wait;

impl<'a, C: Clock> Desk<'a, C> {
    /// Gives up a submission, for which memory is wanting: at one reading of the clock, as each call, and with no entry.
    pub(crate) fn give_up_submission<R: Wait>(&mut self, rt: &R) -> Refusal
        requires { IsFree self.old.shared.now self.old.client }
        ensures desk { StaysAt self.old.shared.now self.old.client self.new.shared.now self.new.client }
        ensures job { (session : SessionId) (template : JobTemplate) →
            IsRefused self.old.shared.now.fixed (dial (C.given self.old.clock) (C.least self.old.clock)) self.old.client
            (Call.RunJob session template) result (dial (C.given self.new.clock) (C.least self.new.clock)) self.new.client }
        ensures array { (session : SessionId) (template : JobTemplate) (indices : Indices) →
            IsRefused self.old.shared.now.fixed (dial (C.given self.old.clock) (C.least self.old.clock)) self.old.client
            (Call.RunBulk session template indices) result (dial (C.given self.new.clock) (C.least self.new.clock)) self.new.client }
    {
        drop(self.look(rt, Question::Settled));
        Refusal::OutOfMemory
    }

    /// Gives up a listing of jobs or a request for a reservation, for which memory is wanting: at one reading of the clock, as each
    /// call, and with no entry. A journal that would be too large is told before that.
    pub(crate) fn give_up<R: Wait>(&mut self, rt: &R) -> Refusal
        requires { IsFree self.old.shared.now self.old.client }
        ensures desk { StaysAt self.old.shared.now self.old.client self.new.shared.now self.new.client }
        ensures jobs { (session : SessionId) (filter : JobFilter) →
            IsRefused self.old.shared.now.fixed (dial (C.given self.old.clock) (C.least self.old.clock)) self.old.client
            (Call.GetJobs session filter) result (dial (C.given self.new.clock) (C.least self.new.clock)) self.new.client }
        ensures all_jobs { (session : SessionId) (filter : JobFilter) →
            IsRefused self.old.shared.now.fixed (dial (C.given self.old.clock) (C.least self.old.clock)) self.old.client
            (Call.AllJobs session filter) result (dial (C.given self.new.clock) (C.least self.new.clock)) self.new.client }
        ensures reservation { (session : SessionId) (template : ReservationTemplate) →
            IsRefused self.old.shared.now.fixed (dial (C.given self.old.clock) (C.least self.old.clock)) self.old.client
            (Call.RequestReservation session template) result (dial (C.given self.new.clock) (C.least self.new.clock)) self.new.client }
    {
        let answer = self.look(rt, Question::Full);
        shortage_in(answer)
    }
}

/// What is short, where this is the answer to whether the journal is full.
fn shortage_in(answer: Answer) -> Refusal
    ensures { (size : Option ℕ) → answer ≡ Answer.Full size → result ≡ shortage size }
{
    match answer {
        Answer::Full(size) => shortage(size),
        other => {
            drop(other);
            Refusal::OutOfMemory
        }
    }
}

/// What is short: room in the journal, where it would be too large by this size, or else memory.
fn shortage(size: Option<u64>) -> Refusal
    ensures { result ≡ shortage size }
{
    match size {
        Some(size) => Refusal::OutOfResource(Limit::Journal { size }),
        None => Refusal::OutOfMemory,
    }
}
