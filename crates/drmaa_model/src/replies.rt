//! What a machine answers.
use drmaa_types::{
    ArrayId, Boxed, IdList, InfoList, JobId, JobInfo, JobState, MachineInfo, Refusal,
    ReservationInfo, ReservationList, Reserved, SessionId, Shared, SignalKind, TextList,
};

/// A job that is to be started.
#[derive(Drop)]
pub struct Launch {
    pub job: JobId,
    /// How often the job was launched, with this time.
    pub attempt: u32,
    /// How many slots it holds.
    pub slots: u32,
    /// The words that start it, which launches of the same words may share.
    pub words: Shared<TextList>,
}

/// A signal that is to be sent to the process of a job's last launch.
#[derive(Clone, Copy, Debug, PartialEq, Eq)]
pub struct Signal {
    pub job: JobId,
    pub attempt: u32,
    pub kind: SignalKind,
}

/// What was submitted: one job, or the members of an array, whose numbers follow one another.
#[derive(Clone, Copy, Debug, PartialEq, Eq)]
pub struct Submitted {
    pub array: Option<ArrayId>,
    pub first: JobId,
    pub count: u32,
}

/// The answer to a call. A refusal is an answer too, and stands in the history. An info lies in memory of its own, so that an
/// entry is not as large as the largest of them.
#[derive(Drop)]
pub enum Reply {
    /// The call was served and has nothing to tell.
    Unit,
    Session(SessionId),
    Names(TextList),
    Job(JobId),
    Array {
        array: ArrayId,
        first: JobId,
        count: u32,
    },
    /// Jobs, by number.
    Jobs(IdList),
    State(JobState),
    Info(Boxed<JobInfo>),
    /// The first listed job that has reached the state.
    Reached(JobId),
    Reserved(Reserved),
    Reservation(Boxed<ReservationInfo>),
    /// Reservations, by number.
    Reservations(IdList),
    Infos(InfoList),
    ReservationInfos(ReservationList),
    Machine(MachineInfo),
    /// The number of a callback, from 1.
    Callback(u32),
    Launch(Launch),
    Signal(Signal),
    Refused(Refusal),
}
