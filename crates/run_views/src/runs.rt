//! Runs of jobs, and what entries tell of them.
use drmaa_types::{Exit, JobId, ListOf, Moment, TextList};

/// How a run ended, as it was reported.
#[derive(Clone, Copy, Debug, PartialEq, Eq)]
pub enum Ending {
    Exited(Exit),
    /// The process has ended, in a way that can't be learnt.
    Unknown,
    /// The process could not be started.
    NotStarted,
}

/// The end of a run: the moment that its report came at, and how it ended.
#[derive(Clone, Copy, Debug, PartialEq, Eq)]
pub struct RunEnd {
    pub at: Moment,
    pub how: Ending,
}

/// A run of a job: one launch of it, and its end, where that was reported.
#[derive(Drop)]
pub struct Run {
    pub job: JobId,
    /// How often the job was launched, with this time.
    pub attempt: u32,
    pub launched: Moment,
    /// How many slots it held.
    pub slots: u32,
    /// The words that started it.
    pub words: TextList,
    pub end: Option<RunEnd>,
}

/// An accepted report of the end of a run.
#[derive(Clone, Copy, Debug, PartialEq, Eq)]
pub struct EndReport {
    pub job: JobId,
    pub attempt: u32,
    pub end: RunEnd,
}

/// What an entry tells of runs.
#[derive(Drop)]
pub enum RunEvent {
    /// A run begins; it has no end as yet.
    Launched(Run),
    Ended(EndReport),
}

/// Runs, in the order of their launches.
pub type RunList = ListOf<Run>;
