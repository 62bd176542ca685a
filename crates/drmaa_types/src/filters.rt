//! Which jobs a filter lets through.
ghost use Rattle.std.specs.Prelude.{◌≡◌, nat_le, true, Some};
ghost use Rattle.drmaa_types.specs.declared.infos.JobInfo.{JobInfo};
ghost use Rattle.std.specs.Str.{bytes_eq};
ghost use Rattle.std.specs.Option.{option_and_then};
ghost use Rattle.drmaa_types.specs.States.{is_state, state_number};
ghost use Rattle.drmaa_types.specs.Filters as filter;

use crate::{Exit, JobId, JobInfo, JobState, Moment, Text};

/// A filter over jobs (GFD.231, JobInfo as a filter). An unset field lets every job through.
#[derive(Drop)]
pub struct JobFilter {
    pub job: Option<JobId>,
    pub name: Option<Text>,
    pub state: Option<JobState>,
    /// The slots of the last launch.
    pub slots: Option<u32>,
    pub queue: Option<Text>,
    /// The code with which the job exited.
    pub status: Option<u8>,
    /// At least so many seconds of wall-clock time.
    pub wallclock: Option<u64>,
    /// Submitted at or after this moment.
    pub submitted: Option<Moment>,
    /// Last launched at or after this moment.
    pub dispatched: Option<Moment>,
    /// Ended at or after this moment.
    pub finished: Option<Moment>,
}

/// The filter that sets nothing lets every job through.
pub fn all_lets_every_job_through()
    ensures { (info : JobInfo) → filter.matches filter.all info ≡ true }
{}

impl JobFilter {
    /// The filter that lets every job through.
    pub fn all() -> JobFilter
        ensures { result ≡ filter.all }
    {
        JobFilter {
            job: None,
            name: None,
            state: None,
            slots: None,
            queue: None,
            status: None,
            wallclock: None,
            submitted: None,
            dispatched: None,
            finished: None,
        }
    }

    /// The same filter for the jobs in this state alone.
    pub fn in_state(self, state: JobState) -> JobFilter
        ensures { result ≡ record self { state = Some state } }
    {
        let mut filter = self;
        filter.state = Some(state);
        filter
    }

    /// The same filter for the jobs of this name alone.
    pub fn named(self, name: Text) -> JobFilter
        ensures { result ≡ record self { name = Some name } }
    {
        let mut filter = self;
        filter.name = Some(name);
        filter
    }

    /// Whether each set field agrees with the info. Where the info has no value, a set field does not. It takes no memory.
    pub fn matches(&self, info: &JobInfo) -> bool
        ensures { result ≡ filter.matches self.now info.now }
    {
        self.names(info) && self.counts(info) && self.times(info)
    }

    fn names(&self, info: &JobInfo) -> bool
        ensures { result ≡ filter.matches_names self.now info.now }
    {
        is_job(self.job, info.job)
            && is_optional_text(&self.name, &info.name)
            && is_state(self.state, info.state)
    }

    fn counts(&self, info: &JobInfo) -> bool
        ensures { result ≡ filter.matches_counts self.now info.now }
    {
        is_number(self.slots, info.slots)
            && is_text(&self.queue, &info.queue)
            && is_code(self.status, info.exit)
    }

    fn times(&self, info: &JobInfo) -> bool
        ensures { result ≡ filter.matches_times self.now info.now }
    {
        lasts(self.wallclock, info.wallclock)
            && is_since(self.submitted, Some(info.submitted))
            && is_since(self.dispatched, info.dispatched)
            && is_since(self.finished, info.finished)
    }
}

fn is_job(wanted: Option<JobId>, job: JobId) -> bool
    ensures { result ≡ filter.agrees filter.is_job wanted (Some job) }
{
    match wanted {
        None => true,
        Some(wanted) => wanted.0 == job.0,
    }
}

fn is_text(wanted: &Option<Text>, text: &Text) -> bool
    ensures { result ≡ filter.agrees bytes_eq wanted.now (Some text.now) }
{
    match wanted {
        None => true,
        Some(wanted) => *wanted == *text,
    }
}

fn is_optional_text(wanted: &Option<Text>, there: &Option<Text>) -> bool
    ensures { result ≡ filter.agrees bytes_eq wanted.now there.now }
{
    match there {
        Some(text) => is_text(wanted, text),
        None => wanted.is_none(),
    }
}

fn is_state(wanted: Option<JobState>, state: JobState) -> bool
    ensures { result ≡ filter.agrees is_state wanted (Some state) }
{
    match wanted {
        None => true,
        Some(wanted) => state_number(wanted) == state_number(state),
    }
}

fn is_number(wanted: Option<u32>, there: Option<u32>) -> bool
    ensures { result ≡ filter.agrees filter.is_number wanted there }
{
    match (wanted, there) {
        (None, _) => true,
        (Some(_), None) => false,
        (Some(wanted), Some(number)) => wanted == number,
    }
}

fn is_code(wanted: Option<u8>, exit: Option<Exit>) -> bool
    ensures { result ≡ filter.agrees filter.is_number wanted (option_and_then filter.code_of exit) }
{
    match (wanted, exit) {
        (None, _) => true,
        (Some(wanted), Some(Exit::Code(code))) => wanted == code,
        (Some(_), Some(Exit::Signal(_)) | None) => false,
    }
}

fn lasts(wanted: Option<u64>, there: Option<u64>) -> bool
    ensures { result ≡ filter.agrees nat_le wanted there }
{
    match (wanted, there) {
        (None, _) => true,
        (Some(_), None) => false,
        (Some(wanted), Some(seconds)) => wanted <= seconds,
    }
}

fn is_since(wanted: Option<Moment>, there: Option<Moment>) -> bool
    ensures { result ≡ filter.agrees nat_le wanted there }
{
    match (wanted, there) {
        (None, _) => true,
        (Some(_), None) => false,
        (Some(wanted), Some(moment)) => wanted.number() <= moment.number(),
    }
}

fn state_number(state: JobState) -> u32
    ensures { result ≡ state_number state }
{
    match state {
        JobState::Undetermined => 0,
        JobState::Queued => 1,
        JobState::QueuedHeld => 2,
        JobState::Running => 3,
        JobState::Suspended => 4,
        JobState::Requeued => 5,
        JobState::RequeuedHeld => 6,
        JobState::Done => 7,
        JobState::Failed => 8,
    }
}
