//! What a session and a job are asked for without an entry: its name, and its template.
ghost use Rattle.std.specs.Prelude.{Some, None, IfOk, IfErr};
ghost use Rattle.turn_lock.specs.Tokens.{IsFree};
ghost use Rattle.call_history.specs.Clients.{StaysAt};
ghost use Rattle.client_sessions.specs.Desks.{LooksUp};
ghost use Rattle.client_sessions.specs.Particulars.{IsUntold, TellsName, IsNameless};

use crate::job_sessions::JobSession;
use crate::jobs::Job;
use crate::reservation_sessions::ReservationSession;
use call_history::Desk;
use drmaa_model::{Answer, Question};
use drmaa_types::{Clock, Refusal, SessionId, Shared, Text, Which};
use job_template::JobTemplate;
use std::sync::Wait;

impl JobSession {
    /// The name of the session (GFD.231, JobSession, sessionName): of the one that its number was opened on. It makes no entry.
    ///
    /// # Errors
    ///
    /// `InvalidSession` where its number is not one of a named session, or no longer; `OutOfMemory`.
    pub fn session_name<R: Wait, C: Clock>(
        self,
        rt: &R,
        desk: &mut Desk<C>,
    ) -> Result<Text, Refusal>
        requires { IsFree desk.old.shared.now desk.old.client }
        ensures desk { StaysAt desk.old.shared.now desk.old.client desk.new.shared.now desk.new.client }
        ensures ok { IfOk result (TellsName C.given C.least desk.old self.session desk.new) }
        ensures err { IfErr result (IsNameless C.given C.least desk.old self.session desk.new) }
    {
        name_told(rt, desk, self.session)
    }
}

impl ReservationSession {
    /// The name of the session (GFD.231, ReservationSession, sessionName): of the one that its number was opened on. It makes no
    /// entry.
    ///
    /// # Errors
    ///
    /// `InvalidSession` where its number is not one of a named session, or no longer; `OutOfMemory`.
    pub fn session_name<R: Wait, C: Clock>(
        self,
        rt: &R,
        desk: &mut Desk<C>,
    ) -> Result<Text, Refusal>
        requires { IsFree desk.old.shared.now desk.old.client }
        ensures desk { StaysAt desk.old.shared.now desk.old.client desk.new.shared.now desk.new.client }
        ensures ok { IfOk result (TellsName C.given C.least desk.old self.session desk.new) }
        ensures err { IfErr result (IsNameless C.given C.least desk.old self.session desk.new) }
    {
        name_told(rt, desk, self.session)
    }
}

impl Job {
    /// The template that the job with this number runs with, its placeholders replaced (GFD.231, Job, jobTemplate), shared with the
    /// machine: whatever the session is through which it is asked for. It makes no entry.
    ///
    /// # Errors
    ///
    /// `InvalidArgument(Job)` where the job is not kept; `OutOfMemory`.
    pub fn job_template<R: Wait, C: Clock>(
        self,
        rt: &R,
        desk: &mut Desk<C>,
    ) -> Result<Shared<JobTemplate>, Refusal>
        requires { IsFree desk.old.shared.now desk.old.client }
        ensures desk { StaysAt desk.old.shared.now desk.old.client desk.new.shared.now desk.new.client }
        ensures ok { IfOk result (λ template. LooksUp C.given C.least desk.old (Question.Template self.job) (Answer.Template (Some template)) desk.new) }
        ensures err { IfErr result (IsUntold C.given C.least desk.old (Question.Template self.job) (Answer.Template None) (Refusal.InvalidArgument Which.Job) desk.new) }
    {
        match desk.template_of(rt, self.job) {
            Ok(Some(template)) => Ok(template),
            Ok(None) => Err(Refusal::InvalidArgument(Which::Job)),
            Err(_) => Err(Refusal::OutOfMemory),
        }
    }
}

/// The name of the session that this number was opened on.
fn name_told<R: Wait, C: Clock>(
    rt: &R,
    desk: &mut Desk<C>,
    session: SessionId,
) -> Result<Text, Refusal>
    requires { IsFree desk.old.shared.now desk.old.client }
    ensures desk { StaysAt desk.old.shared.now desk.old.client desk.new.shared.now desk.new.client }
    ensures ok { IfOk result (TellsName C.given C.least desk.old session desk.new) }
    ensures err { IfErr result (IsNameless C.given C.least desk.old session desk.new) }
{
    match desk.session_name(rt, session) {
        Ok(Some(name)) => Ok(name),
        Ok(None) => Err(Refusal::InvalidSession),
        Err(_) => Err(Refusal::OutOfMemory),
    }
}
