//! What a call is refused for before the scheduler is asked: its session, and what is not of that session.
ghost use Rattle.std.specs.Prelude.{◌≡◌, ◌&&◌, not, [], ◌∷◌};
ghost use Rattle.drmaa_types.specs.Refusals.{first_refusal};
ghost use Rattle.drmaa_types.specs.declared.sessions.SessionKind.{SessionKind};
ghost use Rattle.drmaa_model.specs.Targets.{argument_of};
ghost use Rattle.drmaa_model.specs.Homes.{session_test, own_test, seen_test, reap_test, reapers, reservation_test};
ghost use Rattle.drmaa_model.specs.Refusals.{is_pausing};
ghost use Rattle.machine_readings.specs.Stores.{IsStore, world_at};

use crate::store::Store;
use drmaa_model::Target;
use drmaa_types::{ArrayId, Control, JobId, Moment, Refusal, ReservationId, SessionId, Which};

impl Store {
    /// The refusal of a call that wants a job session, where there is one.
    pub fn jobs_refusal(&self, at: Moment, session: SessionId) -> Option<Refusal>
        ensures { result ≡ first_refusal (session_test (SessionKind.Jobs ∷ []) session (world_at at self.now) ∷ []) }
    {
        if !self.is_for_jobs(session) {
            return Some(Refusal::InvalidSession);
        }
        None
    }

    /// The refusal of a call that wants a reservation session.
    pub fn reservations_refusal(&self, at: Moment, session: SessionId) -> Option<Refusal>
        ensures { result ≡ first_refusal (session_test (SessionKind.Reservations ∷ []) session (world_at at self.now) ∷ []) }
    {
        if !self.is_for_reservations(session) {
            return Some(Refusal::InvalidSession);
        }
        None
    }

    /// The refusal of a call that wants a monitoring session.
    pub fn monitoring_refusal(&self, at: Moment, session: SessionId) -> Option<Refusal>
        ensures { result ≡ first_refusal (session_test (SessionKind.Monitoring ∷ []) session (world_at at self.now) ∷ []) }
    {
        if !self.is_for_monitoring(session) {
            return Some(Refusal::InvalidSession);
        }
        None
    }

    /// The refusal of a call that wants any valid number.
    pub fn number_refusal(&self, at: Moment, session: SessionId) -> Option<Refusal>
        ensures { result ≡ first_refusal (session_test (SessionKind.Jobs ∷ SessionKind.Reservations ∷ SessionKind.Monitoring ∷ []) session (world_at at self.now) ∷ []) }
    {
        if !self.is_valid(session) {
            return Some(Refusal::InvalidSession);
        }
        None
    }

    /// The refusal of a call that asks for a job, of a job session or for monitoring.
    pub fn seen_refusal(&self, at: Moment, session: SessionId, job: JobId) -> Option<Refusal>
        requires { IsStore self.now }
        ensures { result ≡ first_refusal (session_test (SessionKind.Jobs ∷ SessionKind.Monitoring ∷ []) session (world_at at self.now) ∷
            seen_test session job (world_at at self.now) ∷ []) }
    {
        if !self.is_for_jobs_or_monitoring(session) {
            return Some(Refusal::InvalidSession);
        }
        if self.misses_seen(at, session, job) {
            return Some(Refusal::InvalidArgument(Which::Job));
        }
        None
    }

    fn misses_seen(&self, at: Moment, session: SessionId, job: JobId) -> bool
        requires { IsStore self.now }
        ensures { result ≡ (seen_test session job (world_at at self.now)).0 }
    {
        if self.is_for_monitoring(session) {
            !self.has_job(at, job)
        } else {
            !self.has_job_at(at, self.home_in(session), job)
        }
    }

    /// The refusal of a call that is for a job or an array of a job session.
    pub fn own_refusal(&self, at: Moment, session: SessionId, target: &Target) -> Option<Refusal>
        requires { IsStore self.now }
        ensures { result ≡ first_refusal (session_test (SessionKind.Jobs ∷ []) session (world_at at self.now) ∷
            own_test session target.now (world_at at self.now) ∷ []) }
    {
        if !self.is_for_jobs(session) {
            return Some(Refusal::InvalidSession);
        }
        if self.misses_own(at, session, target) {
            return Some(Refusal::InvalidArgument(argument_of(target)));
        }
        None
    }

    fn misses_own(&self, at: Moment, session: SessionId, target: &Target) -> bool
        requires { IsStore self.now }
        ensures { result ≡ (own_test session target.now (world_at at self.now)).0 }
    {
        match target {
            Target::Job(job) => !self.has_job_at(at, self.home_in(session), *job),
            Target::Array(array) => !self.has_member_at(at, self.home_in(session), *array),
        }
    }

    /// The refusal of a control call, before the states of the jobs are looked at.
    pub fn control_refusal(
        &self,
        at: Moment,
        session: SessionId,
        target: &Target,
        what: Control,
    ) -> Option<Refusal>
        requires { IsStore self.now }
        ensures { result ≡ first_refusal (session_test (SessionKind.Jobs ∷ []) session (world_at at self.now) ∷
            own_test session target.now (world_at at self.now) ∷
            (is_pausing what && not self.now.config.suspend, Refusal.UnsupportedOperation) ∷ []) }
    {
        if !self.is_for_jobs(session) {
            return Some(Refusal::InvalidSession);
        }
        if self.misses_own(at, session, target) {
            return Some(Refusal::InvalidArgument(argument_of(target)));
        }
        if is_pausing(what) && !self.config.suspend {
            return Some(Refusal::UnsupportedOperation);
        }
        None
    }

    /// The refusal of a reap, before the states of the jobs are looked at.
    pub fn reap_refusal(&self, at: Moment, session: SessionId, target: &Target) -> Option<Refusal>
        requires { IsStore self.now }
        ensures { result ≡ first_refusal (session_test (reapers target.now) session (world_at at self.now) ∷
            reap_test session target.now (world_at at self.now) ∷ []) }
    {
        match target {
            Target::Job(job) => self.reaped_job_refusal(at, session, *job),
            Target::Array(array) => self.reaped_array_refusal(at, session, *array),
        }
    }

    fn reaped_job_refusal(&self, at: Moment, session: SessionId, job: JobId) -> Option<Refusal>
        requires { IsStore self.now }
        ensures { result ≡ first_refusal (session_test (reapers (Target.Job job)) session (world_at at self.now) ∷
            reap_test session (Target.Job job) (world_at at self.now) ∷ []) }
    {
        if !self.is_for_jobs_or_monitoring(session) {
            return Some(Refusal::InvalidSession);
        }
        if self.misses_reaped(at, session, job) {
            return Some(Refusal::InvalidArgument(Which::Job));
        }
        None
    }

    fn misses_reaped(&self, at: Moment, session: SessionId, job: JobId) -> bool
        requires { IsStore self.now }
        ensures { result ≡ (reap_test session (Target.Job job) (world_at at self.now)).0 }
    {
        if self.is_for_monitoring(session) {
            !self.has_left_job(at, job)
        } else {
            !self.has_job_at(at, self.home_in(session), job)
        }
    }

    fn reaped_array_refusal(
        &self,
        at: Moment,
        session: SessionId,
        array: ArrayId,
    ) -> Option<Refusal>
        requires { IsStore self.now }
        ensures { result ≡ first_refusal (session_test (SessionKind.Jobs ∷ []) session (world_at at self.now) ∷
            own_test session (Target.Array array) (world_at at self.now) ∷ []) }
    {
        if !self.is_for_jobs(session) {
            return Some(Refusal::InvalidSession);
        }
        if !self.has_member_at(at, self.home_in(session), array) {
            return Some(Refusal::InvalidArgument(Which::Array));
        }
        None
    }

    /// The refusal of a call that is for a reservation of a reservation session.
    pub fn reservation_refusal(
        &self,
        at: Moment,
        session: SessionId,
        number: ReservationId,
    ) -> Option<Refusal>
        requires { IsStore self.now }
        ensures { result ≡ first_refusal (session_test (SessionKind.Reservations ∷ []) session (world_at at self.now) ∷
            reservation_test session number (world_at at self.now) ∷ []) }
    {
        if !self.is_for_reservations(session) {
            return Some(Refusal::InvalidSession);
        }
        if !self.has_reservation_at(at, self.home_in(session), number) {
            return Some(Refusal::InvalidArgument(Which::Reservation));
        }
        None
    }
}

/// Which argument names the jobs.
fn argument_of(target: &Target) -> Which
    ensures { result ≡ argument_of target.now }
{
    match target {
        Target::Job(_) => Which::Job,
        Target::Array(_) => Which::Array,
    }
}

/// Whether the call needs a machine on which jobs can be suspended.
fn is_pausing(what: Control) -> bool
    ensures { result ≡ is_pausing what }
{
    match what {
        Control::Suspend | Control::Resume => true,
        Control::Hold | Control::Release | Control::Terminate => false,
    }
}
