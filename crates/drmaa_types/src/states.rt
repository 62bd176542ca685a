//! The job state model of GFD.231, and the words of control, exits and events.

/// The state of a job.
#[derive(Clone, Copy, Debug, PartialEq, Eq)]
pub enum JobState {
    Undetermined,
    Queued,
    QueuedHeld,
    Running,
    Suspended,
    Requeued,
    RequeuedHeld,
    Done,
    Failed,
}

impl Default for JobState {
    fn default() -> JobState {
        JobState::Undetermined
    }
}

/// How a job ended: by its own exit code, or by a signal.
#[derive(Clone, Copy, Debug, PartialEq, Eq)]
pub enum Exit {
    Code(u8),
    Signal(u8),
}

/// A signal that a job's process can be sent.
#[derive(Clone, Copy, Debug, PartialEq, Eq)]
pub enum SignalKind {
    Stop,
    Cont,
    Kill,
}

/// What a control call asks of a job.
#[derive(Clone, Copy, Debug, PartialEq, Eq)]
pub enum Control {
    Suspend,
    Resume,
    Hold,
    Release,
    Terminate,
}

/// What a wait waits for.
#[derive(Clone, Copy, Debug, PartialEq, Eq)]
pub enum WaitKind {
    Started,
    Terminated,
}

/// What last befell a job, beside its state.
#[derive(Clone, Copy, Debug, PartialEq, Eq)]
pub enum Note {
    None,
    Terminated,
    PastDeadline,
    PastLimit,
    ReservationGone,
    StartFailed,
    ExitUnknown,
    SignalFailed,
}

/// The events of the standard's notifications; this profile produces `NewState` alone.
#[derive(Clone, Copy, Debug, PartialEq, Eq)]
pub enum Event {
    NewState,
    Migrated,
    AttributeChange,
}
