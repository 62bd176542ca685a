//! The replies to the calls that only read.
ghost use Rattle.std.specs.Prelude.{◌≡◌, true, IfOk, IfErr};
ghost use Rattle.std.specs.Option.{option_map_or};
ghost use Rattle.session_table.specs.Sessions.{names_of};
ghost use Rattle.drmaa_model.specs.Effects.{reservation_reply};
ghost use Rattle.drmaa_model.specs.Rows.{state_of};
ghost use Rattle.drmaa_model.specs.Time.{rows_at};
ghost use Rattle.machine_readings.specs.Stores.{IsStore, world_at};
ghost use Rattle.machine_readings.specs.Telling.{IsReply, is_other, is_reading};

use crate::store::Store;
use drmaa_model::{Call, Reply, Target};
use drmaa_types::{
    ArrayId, Boxed, JobFilter, JobId, JobInfo, JobState, Moment, Refusal, ReservationId, SessionId,
    SessionKind,
};
use std::alloc::{AllocError, Global};

impl Store {
    /// The reply to a call that only reads.
    pub fn reply_to(&self, at: Moment, call: &Call) -> Result<Reply, AllocError>
        requires { IsStore self.now }
        ensures { is_reading call.now ≡ true → IfOk result (IsReply self.now at call.now) }
    {
        match call {
            Call::JobSessionNames => self.names(SessionKind::Jobs),
            Call::ReservationSessionNames => self.names(SessionKind::Reservations),
            Call::GetJobs { session, filter } => self.jobs(at, *session, filter.get()),
            Call::GetJobArray { session, array } => self.job_array(at, *session, *array),
            Call::GetState { session, job } => Ok(self.told_state(at, *session, *job)),
            Call::GetInfo { session, job } => self.job_info(at, *session, *job),
            _ => self.other_reply_to(at, call),
        }
    }

    fn other_reply_to(&self, at: Moment, call: &Call) -> Result<Reply, AllocError>
        requires { IsStore self.now }
        ensures { is_other call.now ≡ true → IfOk result (IsReply self.now at call.now) }
    {
        match call {
            Call::GetReservation {
                session,
                reservation,
            } => self.reservation(at, *session, *reservation),
            Call::GetReservations { session } => self.reservations(at, *session),
            Call::AllJobs { session, filter } => self.all_jobs(at, *session, filter.get()),
            Call::AllReservations { session } => self.all_reservations(at, *session),
            Call::AllQueues { session } => self.all_queues(at, *session),
            Call::AllMachines { session } => self.all_machines(at, *session),
            _ => Ok(Reply::Unit),
        }
    }

    fn names(&self, kind: SessionKind) -> Result<Reply, AllocError>
        ensures { IfOk result (λ reply. reply ≡ Reply.Names (names_of kind self.now.sessions.named)) }
    {
        match self.sessions.names(kind) {
            Ok(names) => Ok(Reply::Names(names)),
            Err(_) => Err(AllocError),
        }
    }

    fn jobs(&self, at: Moment, session: SessionId, wanted: &JobFilter) -> Result<Reply, AllocError>
        requires { IsStore self.now }
        ensures { IfOk result (IsReply self.now at (Call.GetJobs session wanted.now)) }
    {
        match self.jobs_refusal(at, session) {
            Some(why) => Ok(Reply::Refused(why)),
            None => Ok(Reply::Jobs(self.jobs_of(at, self.home_in(session), wanted)?)),
        }
    }

    fn job_array(&self, at: Moment, session: SessionId, array: ArrayId) -> Result<Reply, AllocError>
        requires { IsStore self.now }
        ensures { IfOk result (IsReply self.now at (Call.GetJobArray session array)) }
    {
        match self.own_refusal(at, session, &Target::Array(array)) {
            Some(why) => Ok(Reply::Refused(why)),
            None => Ok(Reply::Jobs(self.members_of(at, self.home_in(session), array)?)),
        }
    }

    fn told_state(&self, at: Moment, session: SessionId, job: JobId) -> Reply
        requires { IsStore self.now }
        ensures { IsReply self.now at (Call.GetState session job) result }
    {
        match self.state(at, session, job) {
            Ok(state) => Reply::State(state),
            Err(why) => Reply::Refused(why),
        }
    }

    /// The state of a job, or why it is not told. It takes no memory.
    pub fn state(&self, at: Moment, session: SessionId, job: JobId) -> Result<JobState, Refusal>
        requires { IsStore self.now }
        ensures ok { IfOk result (λ state. IsReply self.now at (Call.GetState session job) (Reply.State state)) }
        ensures err { IfErr result (λ why. IsReply self.now at (Call.GetState session job) (Reply.Refused why)) }
    {
        match self.seen_refusal(at, session, job) {
            Some(why) => Err(why),
            None => Ok(self.state_at(at, job)),
        }
    }

    fn state_at(&self, at: Moment, job: JobId) -> JobState
        ensures { result ≡ state_of job (rows_at at self.now.core.plan) }
    {
        match self.core.row(at, job) {
            Some(facts) => facts.state,
            None => JobState::Undetermined,
        }
    }

    fn job_info(&self, at: Moment, session: SessionId, job: JobId) -> Result<Reply, AllocError>
        requires { IsStore self.now }
        ensures { IfOk result (IsReply self.now at (Call.GetInfo session job)) }
    {
        match self.seen_refusal(at, session, job) {
            Some(why) => Ok(Reply::Refused(why)),
            None => told_info(self.alloc, self.info_of(at, job)?),
        }
    }

    fn reservation(
        &self,
        at: Moment,
        session: SessionId,
        number: ReservationId,
    ) -> Result<Reply, AllocError>
        requires { IsStore self.now }
        ensures { IfOk result (IsReply self.now at (Call.GetReservation session number)) }
    {
        match self.reservation_refusal(at, session, number) {
            Some(why) => Ok(Reply::Refused(why)),
            None => self.told_reservation(at, number),
        }
    }

    fn told_reservation(&self, at: Moment, number: ReservationId) -> Result<Reply, AllocError>
        ensures { IfOk result (λ reply. reply ≡ reservation_reply (world_at at self.now) number) }
    {
        match self.core.reservation(at, number) {
            Some(accepted) => {
                let info = self.reservation_info(accepted)?;
                Ok(Reply::Reservation(Boxed::new(self.alloc, info)?))
            }
            None => Ok(Reply::Unit),
        }
    }

    fn reservations(&self, at: Moment, session: SessionId) -> Result<Reply, AllocError>
        requires { IsStore self.now }
        ensures { IfOk result (IsReply self.now at (Call.GetReservations session)) }
    {
        match self.reservations_refusal(at, session) {
            Some(why) => Ok(Reply::Refused(why)),
            None => Ok(Reply::Reservations(self.reservations_of(at, self.home_in(session))?)),
        }
    }

    fn all_jobs(
        &self,
        at: Moment,
        session: SessionId,
        wanted: &JobFilter,
    ) -> Result<Reply, AllocError>
        requires { IsStore self.now }
        ensures { IfOk result (IsReply self.now at (Call.AllJobs session wanted.now)) }
    {
        match self.monitoring_refusal(at, session) {
            Some(why) => Ok(Reply::Refused(why)),
            None => Ok(Reply::Infos(self.infos_of(at, wanted)?)),
        }
    }

    fn all_reservations(&self, at: Moment, session: SessionId) -> Result<Reply, AllocError>
        requires { IsStore self.now }
        ensures { IfOk result (IsReply self.now at (Call.AllReservations session)) }
    {
        match self.monitoring_refusal(at, session) {
            Some(why) => Ok(Reply::Refused(why)),
            None => Ok(Reply::ReservationInfos(self.reservation_infos(at)?)),
        }
    }

    fn all_queues(&self, at: Moment, session: SessionId) -> Result<Reply, AllocError>
        ensures { IfOk result (IsReply self.now at (Call.AllQueues session)) }
    {
        match self.monitoring_refusal(at, session) {
            Some(why) => Ok(Reply::Refused(why)),
            None => Ok(Reply::Names(self.queue_names()?)),
        }
    }

    fn all_machines(&self, at: Moment, session: SessionId) -> Result<Reply, AllocError>
        requires { IsStore self.now }
        ensures { IfOk result (IsReply self.now at (Call.AllMachines session)) }
    {
        match self.monitoring_refusal(at, session) {
            Some(why) => Ok(Reply::Refused(why)),
            None => Ok(Reply::Machine(self.machine_info()?)),
        }
    }
}

fn told_info(alloc: Global, info: Option<JobInfo>) -> Result<Reply, AllocError>
    ensures { IfOk result (λ reply. reply ≡ option_map_or Reply.Info info Reply.Unit) }
{
    match info {
        Some(info) => Ok(Reply::Info(Boxed::new(alloc, info)?)),
        None => Ok(Reply::Unit),
    }
}
