//! What is told of jobs, reservations and the machine.
use crate::{ArrayId, Exit, JobId, JobState, ListOf, Moment, Note, ReservationId, Text};

/// What is known of a job (GFD.231, JobInfo). A field that has no value yet is None.
#[derive(Drop)]
pub struct JobInfo {
    pub job: JobId,
    /// The name of the job's named session.
    pub session: Option<Text>,
    /// The name that its template gave it.
    pub name: Option<Text>,
    /// The array that it is a member of, and its index there.
    pub array: Option<ArrayId>,
    pub index: Option<u32>,
    pub state: JobState,
    /// How many slots its last launch had.
    pub slots: Option<u32>,
    /// The name of its queue, and `default` where the machine has none.
    pub queue: Text,
    /// The seconds from its last launch until it ended, or until now where it is started; 0 where it waits to be launched
    /// again.
    pub wallclock: Option<u64>,
    pub submitted: Moment,
    /// When it was last launched.
    pub dispatched: Option<Moment>,
    /// When it became DONE or FAILED.
    pub finished: Option<Moment>,
    /// The exit that was last reported.
    pub exit: Option<Exit>,
    pub note: Note,
}

/// What is known of a reservation (GFD.231, ReservationInfo).
#[derive(Drop)]
pub struct ReservationInfo {
    pub reservation: ReservationId,
    /// The name of its named session.
    pub session: Option<Text>,
    /// The name that its template gave it.
    pub name: Option<Text>,
    pub slots: u32,
    pub from: Moment,
    /// It covers each moment before this one.
    pub until: Moment,
}

/// What a request for a reservation was given.
#[derive(Clone, Copy, Debug, PartialEq, Eq)]
pub struct Reserved {
    pub reservation: ReservationId,
    pub slots: u32,
    pub from: Moment,
    /// It covers each moment before this one.
    pub until: Moment,
}

/// What is known of the machine (GFD.231, MachineInfo).
#[derive(Drop)]
pub struct MachineInfo {
    pub name: Text,
    pub slots: u32,
    /// How many slots jobs hold.
    pub used: u32,
}

/// Infos of jobs.
pub type InfoList = ListOf<JobInfo>;

/// Infos of reservations.
pub type ReservationList = ListOf<ReservationInfo>;
