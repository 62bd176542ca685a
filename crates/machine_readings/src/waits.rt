//! Waits: what refuses one, what is reached, and when a timeout is over.
ghost use Rattle.std.specs.Prelude.{◌≡◌, ◌+◌, ◌==◌, nat_lt, min, [], ◌∷◌, length};
ghost use Rattle.drmaa_types.specs.Moments.{greatest};
ghost use Rattle.drmaa_types.specs.Refusals.{first_refusal};
ghost use Rattle.drmaa_types.specs.declared.sessions.SessionKind.{SessionKind};
ghost use Rattle.drmaa_model.specs.Homes.{session_test, own_rows};
ghost use Rattle.drmaa_model.specs.Refusals.{lists_other};
ghost use Rattle.drmaa_model.specs.Time.{rows_at};
ghost use Rattle.drmaa_model.specs.Waiting.{most_waited, first_reached, is_reached_by, is_timed_out, has_reached};
ghost use Rattle.machine_readings.specs.Stores.{IsStore, world_at};

use crate::store::Store;
use drmaa_types::{
    IdList, JobId, JobState, Limit, Moment, Refusal, SessionId, Timeout, WaitKind, Which,
};
use job_states::{has_started, has_terminated};

/// The most jobs of one wait.
const MOST_WAITED: usize = 10_000;

impl Store {
    /// The refusal of a wait for these jobs.
    pub fn wait_refusal(&self, at: Moment, session: SessionId, jobs: &IdList) -> Option<Refusal>
        requires { IsStore self.now }
        ensures { result ≡ first_refusal (
            session_test (SessionKind.Jobs ∷ []) session (world_at at self.now) ∷
            (length jobs.now == 0, Refusal.InvalidArgument Which.Jobs) ∷
            (nat_lt most_waited (length jobs.now), Refusal.OutOfResource Limit.WaitList) ∷
            (lists_other jobs.now (own_rows session (world_at at self.now)), Refusal.InvalidArgument Which.Job) ∷ []) }
    {
        if !self.is_for_jobs(session) {
            return Some(Refusal::InvalidSession);
        }
        if jobs.as_slice().len() == 0 {
            return Some(Refusal::InvalidArgument(Which::Jobs));
        }
        if jobs.as_slice().len() > MOST_WAITED {
            return Some(Refusal::OutOfResource(Limit::WaitList));
        }
        if self.lists_other(at, session, jobs) {
            return Some(Refusal::InvalidArgument(Which::Job));
        }
        None
    }

    /// Whether a listed job is not kept in the named session.
    fn lists_other(&self, at: Moment, session: SessionId, jobs: &IdList) -> bool
        requires { IsStore self.now }
        ensures { result ≡ lists_other jobs.now (own_rows session (world_at at self.now)) }
    {
        let home = self.home_in(session);
        jobs.as_slice()
            .iter()
            .any(|job| !self.has_job_at(at, home, JobId(*job)))
    }

    /// The first listed job that has reached the state.
    pub fn first_reached(&self, at: Moment, kind: WaitKind, jobs: &IdList) -> Option<u64>
        requires { IsStore self.now }
        ensures { result ≡ first_reached kind (rows_at at self.now.core.plan) jobs.now }
    {
        for job in jobs.as_slice() {
            if self.is_reached_by(at, kind, *job) {
                return Some(*job);
            }
        }
        None
    }

    fn is_reached_by(&self, at: Moment, kind: WaitKind, job: u64) -> bool
        requires { IsStore self.now }
        ensures { result ≡ is_reached_by kind (rows_at at self.now.core.plan) job }
    {
        match self.core.row(at, JobId(job)) {
            Some(facts) => has_reached(kind, facts.state),
            None => false,
        }
    }
}

fn has_reached(kind: WaitKind, state: JobState) -> bool
    ensures { result ≡ has_reached kind state }
{
    match kind {
        WaitKind::Started => has_started(state),
        WaitKind::Terminated => has_terminated(state),
    }
}

/// Whether a timeout is over at a moment. One that would end after the greatest moment ends there.
pub fn is_timed_out(at: Moment, begun: Moment, timeout: Timeout) -> bool
    ensures { result ≡ is_timed_out at begun timeout }
{
    match timeout {
        Timeout::Seconds(seconds) => end_of(begun, seconds).number() <= at.number(),
        Timeout::Infinite => false,
    }
}

/// The moment so many seconds later, or the greatest one.
fn end_of(begun: Moment, seconds: u64) -> Moment
    ensures { result ≡ min (begun + seconds) greatest }
{
    match begun.plus(seconds) {
        Some(end) => end,
        None => Moment::greatest(),
    }
}
