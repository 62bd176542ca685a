//! What can be asked of a machine without an entry.
use drmaa_types::{ChangeBatch, JobId, SessionId, Shared, Text};
use job_template::JobTemplate;

/// A question that makes no entry.
#[derive(Clone, Copy, Debug, PartialEq, Eq)]
pub enum Question {
    /// Whether no job holds slots, no signal is to be sent and no job is ready.
    Settled,
    /// How many slots jobs hold.
    Held,
    /// The changes from this place on, counted from 0; at most 64 of them.
    Changes { from: u64 },
    /// The size that the journal would have with one entry more that brings no change, where that is above the greatest.
    Full,
    /// The template of a job, its placeholders replaced (GFD.231, Job, jobTemplate).
    Template { job: JobId },
    /// The name of the session that this number was opened on (GFD.231, JobSession and ReservationSession, sessionName).
    SessionName { session: SessionId },
}

/// Its answer.
#[derive(Drop)]
pub enum Answer {
    Settled(bool),
    Held(u32),
    Changes(ChangeBatch),
    Full(Option<u64>),
    /// None exactly where the job is not kept.
    Template(Option<Shared<JobTemplate>>),
    /// None exactly where the number is not one of a named session, or no longer.
    SessionName(Option<Text>),
    /// Memory is wanted for the template or the name.
    OutOfMemory,
}
