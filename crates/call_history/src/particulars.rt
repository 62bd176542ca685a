//! What a client is told of a job or a session without an entry.
ghost use Rattle.std.specs.Prelude.{◌≡◌, ◌≢◌, ℕ, List, Option, IfOk, OnErr};
ghost use Rattle.job_template.specs.declared.templates.JobTemplate.{JobTemplate};
ghost use Rattle.drmaa_model.specs.declared.looks.Answer.{Answer};
ghost use Rattle.drmaa_model.specs.declared.looks.Question.{Question};
ghost use Rattle.turn_lock.specs.Tokens.{IsFree};
ghost use Rattle.call_history.specs.Calls.{IsLookedAt};
ghost use Rattle.call_history.specs.Clients.{mine_of, StaysAt};
ghost use Rattle.call_history.specs.Clocks.{dial};
ghost use Rattle.call_history.specs.Timed.{StaysTimed};

use crate::desks::Desk;
use drmaa_machine::{Answer, Question};
use drmaa_types::{Clock, JobId, SessionId, Shared, Text};
use job_template::JobTemplate;
use std::alloc::AllocError;
use std::sync::Wait;

impl<'a, C: Clock> Desk<'a, C> {
    /// The template of a job, its placeholders replaced, shared with the machine; None exactly where the job is not kept (GFD.231,
    /// Job, jobTemplate). It takes one reading of the clock and makes no entry.
    ///
    /// # Errors
    ///
    /// Want of memory.
    pub fn template_of<R: Wait>(
        &mut self,
        rt: &R,
        job: JobId,
    ) -> Result<Option<Shared<JobTemplate>>, AllocError>
        requires { IsFree self.old.shared.now self.old.client }
        ensures desk { StaysAt self.old.shared.now self.old.client self.new.shared.now self.new.client }
        ensures ok { IfOk result (λ template. IsLookedAt self.old.shared.now.fixed (dial (C.given self.old.clock) (C.least self.old.clock)) self.old.client
            (Question.Template job) (Answer.Template template) (dial (C.given self.new.clock) (C.least self.new.clock)) self.new.client) }
        ensures err { OnErr result (IsLookedAt self.old.shared.now.fixed (dial (C.given self.old.clock) (C.least self.old.clock)) self.old.client
            (Question.Template job) Answer.OutOfMemory (dial (C.given self.new.clock) (C.least self.new.clock)) self.new.client) }
        ensures timed { StaysTimed (mine_of self.old.client) (C.given self.old.clock) (mine_of self.new.client) (C.given self.new.clock) }
    {
        let answer = self.look(rt, Question::Template { job });
        template_in(answer)
    }

    /// The name of the session that a number was opened on; None exactly where the number is not one of a named session, or no
    /// longer (GFD.231, JobSession and ReservationSession, sessionName). It takes one reading of the clock and makes no entry.
    ///
    /// # Errors
    ///
    /// Want of memory.
    pub fn session_name<R: Wait>(
        &mut self,
        rt: &R,
        session: SessionId,
    ) -> Result<Option<Text>, AllocError>
        requires { IsFree self.old.shared.now self.old.client }
        ensures desk { StaysAt self.old.shared.now self.old.client self.new.shared.now self.new.client }
        ensures ok { IfOk result (λ name. IsLookedAt self.old.shared.now.fixed (dial (C.given self.old.clock) (C.least self.old.clock)) self.old.client
            (Question.SessionName session) (Answer.SessionName name) (dial (C.given self.new.clock) (C.least self.new.clock)) self.new.client) }
        ensures err { OnErr result (IsLookedAt self.old.shared.now.fixed (dial (C.given self.old.clock) (C.least self.old.clock)) self.old.client
            (Question.SessionName session) Answer.OutOfMemory (dial (C.given self.new.clock) (C.least self.new.clock)) self.new.client) }
        ensures timed { StaysTimed (mine_of self.old.client) (C.given self.old.clock) (mine_of self.new.client) (C.given self.new.clock) }
    {
        let answer = self.look(rt, Question::SessionName { session });
        name_in(answer)
    }
}

/// The template that an answer tells.
fn template_in(answer: Answer) -> Result<Option<Shared<JobTemplate>>, AllocError>
    ensures ok { IfOk result (λ template. answer ≡ Answer.Template template) }
    ensures err { OnErr result ((template : Option JobTemplate) → answer ≢ Answer.Template template) }
{
    match answer {
        Answer::Template(template) => Ok(template),
        other => {
            drop(other);
            Err(AllocError)
        }
    }
}

/// The name that an answer tells.
fn name_in(answer: Answer) -> Result<Option<Text>, AllocError>
    ensures ok { IfOk result (λ name. answer ≡ Answer.SessionName name) }
    ensures err { OnErr result ((name : Option (List ℕ)) → answer ≢ Answer.SessionName name) }
{
    match answer {
        Answer::SessionName(name) => Ok(name),
        other => {
            drop(other);
            Err(AllocError)
        }
    }
}
