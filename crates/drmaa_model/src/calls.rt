//! The calls that a machine serves.
use drmaa_types::{
    ArrayId, Boxed, Control, Exit, IdList, JobFilter, JobId, Moment, ReservationId, SessionId,
    Shared, SignalKind, Text, Timeout, WaitKind,
};
use job_template::{JobTemplate, ReservationTemplate};

/// What a control call or a reap is for.
#[derive(Clone, Copy, Debug, PartialEq, Eq)]
pub enum Target {
    Job(JobId),
    Array(ArrayId),
}

/// The indices of the members of an array: `begin`, `begin` plus `step` and so on, up to `end`.
#[derive(Clone, Copy, Debug, PartialEq, Eq)]
pub struct Indices {
    pub begin: u32,
    pub end: u32,
    pub step: u32,
    /// How many members may hold slots at once.
    pub bound: Option<u32>,
}

/// What the launcher or the reaper reports of a job.
#[derive(Clone, Copy, Debug, PartialEq, Eq)]
pub enum Report {
    Started {
        job: JobId,
        attempt: u32,
    },
    StartFailed {
        job: JobId,
        attempt: u32,
    },
    Exited {
        job: JobId,
        attempt: u32,
        exit: Exit,
    },
    ExitUnknown {
        job: JobId,
        attempt: u32,
    },
    SignalDone {
        job: JobId,
        attempt: u32,
        kind: SignalKind,
    },
    SignalFailed {
        job: JobId,
        attempt: u32,
        kind: SignalKind,
    },
}

/// A call. Each that is served is one entry of the history. A template or a filter lies in memory of its own, so that an entry
/// is not as large as the largest of them, and calls that submit the same job template may share it.
#[derive(Drop)]
pub enum Call {
    /// Makes a job session and opens it (GFD.231, SessionManager, as the seven that follow).
    CreateJobSession {
        name: Option<Text>,
    },
    CreateReservationSession {
        name: Option<Text>,
    },
    /// Opens a job session that is there.
    OpenJobSession {
        name: Text,
    },
    OpenReservationSession {
        name: Text,
    },
    /// Destroys a job session, and reaps its terminated jobs.
    DestroyJobSession {
        name: Text,
    },
    DestroyReservationSession {
        name: Text,
    },
    JobSessionNames,
    ReservationSessionNames,
    OpenMonitoring,
    /// Makes one session number invalid.
    CloseSession {
        session: SessionId,
    },
    /// Submits a job (GFD.231, JobSession, as the three that follow).
    RunJob {
        session: SessionId,
        template: Shared<JobTemplate>,
    },
    /// Submits an array of jobs.
    RunBulk {
        session: SessionId,
        template: Shared<JobTemplate>,
        indices: Indices,
    },
    GetJobs {
        session: SessionId,
        filter: Boxed<JobFilter>,
    },
    GetJobArray {
        session: SessionId,
        array: ArrayId,
    },
    /// Controls a job or the members of an array (GFD.231, Job and JobArray).
    Control {
        session: SessionId,
        target: Target,
        what: Control,
    },
    /// Forgets a terminated job, or those of an array.
    Reap {
        session: SessionId,
        target: Target,
    },
    GetState {
        session: SessionId,
        job: JobId,
    },
    GetInfo {
        session: SessionId,
        job: JobId,
    },
    /// Asks for the first of these jobs that has reached a state.
    Wait {
        session: SessionId,
        jobs: IdList,
        kind: WaitKind,
        begun: Moment,
        timeout: Timeout,
    },
    /// Asks for slots ahead (GFD.231, ReservationSession, as the two that follow).
    RequestReservation {
        session: SessionId,
        template: Boxed<ReservationTemplate>,
    },
    GetReservation {
        session: SessionId,
        reservation: ReservationId,
    },
    GetReservations {
        session: SessionId,
    },
    /// Ends a reservation (GFD.231, Reservation).
    EndReservation {
        session: SessionId,
        reservation: ReservationId,
    },
    /// Tells of all jobs (GFD.231, MonitoringSession, as the three that follow).
    AllJobs {
        session: SessionId,
        filter: Boxed<JobFilter>,
    },
    AllReservations {
        session: SessionId,
    },
    AllQueues {
        session: SessionId,
    },
    AllMachines {
        session: SessionId,
    },
    /// Registers a callback: it hears each change of a job's state from here on.
    Register,
    /// The launcher asks which job is to be started.
    TakeLaunch,
    /// The launcher reports that a job's process was started.
    Started {
        job: JobId,
        attempt: u32,
    },
    /// The launcher reports that a job's process could not be started.
    StartFailed {
        job: JobId,
        attempt: u32,
    },
    /// The reaper reports that a job's process has ended.
    Exited {
        job: JobId,
        attempt: u32,
        exit: Exit,
    },
    /// The reaper reports that a job's process has ended, in a way that can't be learnt.
    ExitUnknown {
        job: JobId,
        attempt: u32,
    },
    /// The reaper asks which signal is to be sent.
    TakeSignal,
    /// The reaper reports that a signal was sent.
    SignalDone {
        job: JobId,
        attempt: u32,
        kind: SignalKind,
    },
    /// The reaper reports that a signal could not be sent.
    SignalFailed {
        job: JobId,
        attempt: u32,
        kind: SignalKind,
    },
}
