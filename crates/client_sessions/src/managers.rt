//! The session manager: it makes, opens, closes and destroys sessions.
ghost use Rattle.std.specs.Prelude.{IfOk, IfErr};
ghost use Rattle.turn_lock.specs.Tokens.{IsFree};
ghost use Rattle.call_history.specs.Clients.{StaysAt};
ghost use Rattle.client_sessions.specs.Desks.{Serves, Denies};

use crate::job_sessions::JobSession;
use crate::reservation_sessions::ReservationSession;
use call_history::{Call, Desk, Reply};
use drmaa_types::{Clock, Refusal, SessionId, Text, TextList};
use monitor_session::MonitoringSession;
use std::sync::Wait;

/// Makes, opens, closes and destroys sessions (GFD.231, SessionManager). All managers are the same.
#[derive(Clone, Copy, Debug, PartialEq, Eq)]
pub struct SessionManager {}

impl SessionManager {
    /// Makes a job session and opens it (GFD.231, SessionManager::createJobSession). Its name, where none is given, is
    /// the first free one of `session-1`, `session-2` and so on.
    ///
    /// # Errors
    ///
    /// `InvalidArgument(SessionName)` for a name that is empty, has more than 255 bytes or is in use, `OutOfResource`
    /// at 1,000 sessions or 1,000 valid session numbers; with no entry, `OutOfMemory` or `OutOfResource(Journal)`.
    pub fn create_job_session<R: Wait, C: Clock>(
        self,
        rt: &R,
        desk: &mut Desk<C>,
        name: Option<Text>,
    ) -> Result<JobSession, Refusal>
        requires { IsFree desk.old.shared.now desk.old.client }
        ensures desk { StaysAt desk.old.shared.now desk.old.client desk.new.shared.now desk.new.client }
        ensures ok { IfOk result (λ made. Serves C.given C.least desk.old (Call.CreateJobSession name) (Reply.Session made.session) desk.new) }
        ensures err { IfErr result (λ why. Denies C.given C.least desk.old (Call.CreateJobSession name) why desk.new) }
    {
        let session = desk.ask_for::<R, SessionId>(rt, Call::CreateJobSession { name })?;
        Ok(JobSession { session })
    }

    /// Opens a job session that is there, under a further session number (GFD.231, SessionManager::openJobSession).
    ///
    /// # Errors
    ///
    /// `InvalidArgument(SessionName)` for a name that no session has, `OutOfResource(OpenSessions)` at 1,000 valid
    /// session numbers; with no entry, `OutOfMemory` or `OutOfResource(Journal)`.
    pub fn open_job_session<R: Wait, C: Clock>(
        self,
        rt: &R,
        desk: &mut Desk<C>,
        name: Text,
    ) -> Result<JobSession, Refusal>
        requires { IsFree desk.old.shared.now desk.old.client }
        ensures desk { StaysAt desk.old.shared.now desk.old.client desk.new.shared.now desk.new.client }
        ensures ok { IfOk result (λ made. Serves C.given C.least desk.old (Call.OpenJobSession name) (Reply.Session made.session) desk.new) }
        ensures err { IfErr result (λ why. Denies C.given C.least desk.old (Call.OpenJobSession name) why desk.new) }
    {
        let session = desk.ask_for::<R, SessionId>(rt, Call::OpenJobSession { name })?;
        Ok(JobSession { session })
    }

    /// Destroys a job session: all its session numbers become invalid, its terminated jobs are reaped, and its other
    /// jobs go on without a session (GFD.231, SessionManager::destroyJobSession).
    ///
    /// # Errors
    ///
    /// `InvalidArgument(SessionName)` for a name that no session has; with no entry, `OutOfMemory` or
    /// `OutOfResource(Journal)`.
    pub fn destroy_job_session<R: Wait, C: Clock>(
        self,
        rt: &R,
        desk: &mut Desk<C>,
        name: Text,
    ) -> Result<(), Refusal>
        requires { IsFree desk.old.shared.now desk.old.client }
        ensures desk { StaysAt desk.old.shared.now desk.old.client desk.new.shared.now desk.new.client }
        ensures ok { IfOk result (λ told. Serves C.given C.least desk.old (Call.DestroyJobSession name) Reply.Unit desk.new) }
        ensures err { IfErr result (λ why. Denies C.given C.least desk.old (Call.DestroyJobSession name) why desk.new) }
    {
        desk.ask_for::<R, ()>(rt, Call::DestroyJobSession { name })
    }

    /// The names of the job sessions, in order of creation (GFD.231, SessionManager::getJobSessionNames).
    ///
    /// # Errors
    ///
    /// With no entry, `OutOfMemory` or `OutOfResource(Journal)`.
    pub fn job_session_names<R: Wait, C: Clock>(
        self,
        rt: &R,
        desk: &mut Desk<C>,
    ) -> Result<TextList, Refusal>
        requires { IsFree desk.old.shared.now desk.old.client }
        ensures desk { StaysAt desk.old.shared.now desk.old.client desk.new.shared.now desk.new.client }
        ensures ok { IfOk result (λ told. Serves C.given C.least desk.old Call.JobSessionNames (Reply.Names told) desk.new) }
        ensures err { IfErr result (λ why. Denies C.given C.least desk.old Call.JobSessionNames why desk.new) }
    {
        desk.ask_for::<R, TextList>(rt, Call::JobSessionNames)
    }

    /// Makes a reservation session and opens it (GFD.231, SessionManager::createReservationSession). Its name, where
    /// none is given, is the first free one of `session-1`, `session-2` and so on; those of job sessions do not count.
    ///
    /// # Errors
    ///
    /// `InvalidArgument(SessionName)` for a name that is empty, has more than 255 bytes or is in use, `OutOfResource`
    /// at 1,000 sessions or 1,000 valid session numbers; with no entry, `OutOfMemory` or `OutOfResource(Journal)`.
    pub fn create_reservation_session<R: Wait, C: Clock>(
        self,
        rt: &R,
        desk: &mut Desk<C>,
        name: Option<Text>,
    ) -> Result<ReservationSession, Refusal>
        requires { IsFree desk.old.shared.now desk.old.client }
        ensures desk { StaysAt desk.old.shared.now desk.old.client desk.new.shared.now desk.new.client }
        ensures ok { IfOk result (λ made. Serves C.given C.least desk.old (Call.CreateReservationSession name) (Reply.Session made.session) desk.new) }
        ensures err { IfErr result (λ why. Denies C.given C.least desk.old (Call.CreateReservationSession name) why desk.new) }
    {
        let session = desk.ask_for::<R, SessionId>(rt, Call::CreateReservationSession { name })?;
        Ok(ReservationSession { session })
    }

    /// Opens a reservation session that is there, under a further session number (GFD.231,
    /// SessionManager::openReservationSession).
    ///
    /// # Errors
    ///
    /// `InvalidArgument(SessionName)` for a name that no session has, `OutOfResource(OpenSessions)` at 1,000 valid
    /// session numbers; with no entry, `OutOfMemory` or `OutOfResource(Journal)`.
    pub fn open_reservation_session<R: Wait, C: Clock>(
        self,
        rt: &R,
        desk: &mut Desk<C>,
        name: Text,
    ) -> Result<ReservationSession, Refusal>
        requires { IsFree desk.old.shared.now desk.old.client }
        ensures desk { StaysAt desk.old.shared.now desk.old.client desk.new.shared.now desk.new.client }
        ensures ok { IfOk result (λ made. Serves C.given C.least desk.old (Call.OpenReservationSession name) (Reply.Session made.session) desk.new) }
        ensures err { IfErr result (λ why. Denies C.given C.least desk.old (Call.OpenReservationSession name) why desk.new) }
    {
        let session = desk.ask_for::<R, SessionId>(rt, Call::OpenReservationSession { name })?;
        Ok(ReservationSession { session })
    }

    /// Destroys a reservation session: all its session numbers become invalid, and its reservations stay without a
    /// session (GFD.231, SessionManager::destroyReservationSession).
    ///
    /// # Errors
    ///
    /// `InvalidArgument(SessionName)` for a name that no session has; with no entry, `OutOfMemory` or
    /// `OutOfResource(Journal)`.
    pub fn destroy_reservation_session<R: Wait, C: Clock>(
        self,
        rt: &R,
        desk: &mut Desk<C>,
        name: Text,
    ) -> Result<(), Refusal>
        requires { IsFree desk.old.shared.now desk.old.client }
        ensures desk { StaysAt desk.old.shared.now desk.old.client desk.new.shared.now desk.new.client }
        ensures ok { IfOk result (λ told. Serves C.given C.least desk.old (Call.DestroyReservationSession name) Reply.Unit desk.new) }
        ensures err { IfErr result (λ why. Denies C.given C.least desk.old (Call.DestroyReservationSession name) why desk.new) }
    {
        desk.ask_for::<R, ()>(rt, Call::DestroyReservationSession { name })
    }

    /// The names of the reservation sessions, in order of creation (GFD.231,
    /// SessionManager::getReservationSessionNames).
    ///
    /// # Errors
    ///
    /// With no entry, `OutOfMemory` or `OutOfResource(Journal)`.
    pub fn reservation_session_names<R: Wait, C: Clock>(
        self,
        rt: &R,
        desk: &mut Desk<C>,
    ) -> Result<TextList, Refusal>
        requires { IsFree desk.old.shared.now desk.old.client }
        ensures desk { StaysAt desk.old.shared.now desk.old.client desk.new.shared.now desk.new.client }
        ensures ok { IfOk result (λ told. Serves C.given C.least desk.old Call.ReservationSessionNames (Reply.Names told) desk.new) }
        ensures err { IfErr result (λ why. Denies C.given C.least desk.old Call.ReservationSessionNames why desk.new) }
    {
        desk.ask_for::<R, TextList>(rt, Call::ReservationSessionNames)
    }

    /// Opens a monitoring session (GFD.231, SessionManager::openMonitoringSession).
    ///
    /// # Errors
    ///
    /// `OutOfResource(OpenSessions)` at 1,000 valid session numbers; with no entry, `OutOfMemory` or
    /// `OutOfResource(Journal)`.
    pub fn open_monitoring_session<R: Wait, C: Clock>(
        self,
        rt: &R,
        desk: &mut Desk<C>,
    ) -> Result<MonitoringSession, Refusal>
        requires { IsFree desk.old.shared.now desk.old.client }
        ensures desk { StaysAt desk.old.shared.now desk.old.client desk.new.shared.now desk.new.client }
        ensures ok { IfOk result (λ made. Serves C.given C.least desk.old Call.OpenMonitoring (Reply.Session made.session) desk.new) }
        ensures err { IfErr result (λ why. Denies C.given C.least desk.old Call.OpenMonitoring why desk.new) }
    {
        let session = desk.ask_for::<R, SessionId>(rt, Call::OpenMonitoring)?;
        Ok(MonitoringSession { session })
    }

    /// Makes one session number of any kind invalid; its session and what is in it stay (GFD.231,
    /// SessionManager::closeJobSession, closeReservationSession and closeMonitoringSession).
    ///
    /// # Errors
    ///
    /// `InvalidSession` for a number that is not valid; with no entry, `OutOfMemory` or `OutOfResource(Journal)`.
    pub fn close<R: Wait, C: Clock>(
        self,
        rt: &R,
        desk: &mut Desk<C>,
        session: SessionId,
    ) -> Result<(), Refusal>
        requires { IsFree desk.old.shared.now desk.old.client }
        ensures desk { StaysAt desk.old.shared.now desk.old.client desk.new.shared.now desk.new.client }
        ensures ok { IfOk result (λ told. Serves C.given C.least desk.old (Call.CloseSession session) Reply.Unit desk.new) }
        ensures err { IfErr result (λ why. Denies C.given C.least desk.old (Call.CloseSession session) why desk.new) }
    {
        desk.ask_for::<R, ()>(rt, Call::CloseSession { session })
    }
}
