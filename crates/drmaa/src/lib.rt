//! A machine with its launcher, its reaper and its hub at work, for who writes a client's work alone; and what such work needs of the
//! crates below.
#![tactic(auto)]

mod crews;
mod ends;
mod hub_clients;
mod local;
mod machines;
mod pairs;
mod seats;
mod works;

pub use call_history::{Bell, Call, Config, Desk, Entry, Machine, Reply};
pub use change_callbacks::{Callback, Callbacks, ClosureCallback, MemoryCallback};
pub use child_spawner::{Fate, FateList, LocalSpawner, MemorySpawner, Spawner};
pub use client_sessions::{
    Job, JobArray, JobSession, MonitoringSession, Reservation, ReservationSession, SessionManager,
    Version, plain_command, plain_job,
};
pub use drmaa_types::{
    ArrayId, Attribute, Bytes, CallersClock, Capability, Clock, Clocks, Exit, IdList, InfoList,
    JobFilter, JobId, JobInfo, JobState, Limit, ListOf, MachineInfo, Moment, Note, Notification,
    QueueList, QueueSpec, Refusal, ReservationId, ReservationInfo, ReservationList, Reserved,
    SessionId, Shared, Start, StepClock, Text, TextList, Timeout, Which, are_queues,
};
pub use job_template::{JobTemplate, ReservationTemplate};
pub use journal_text::{journal_bytes, print_journal};
pub use local::{plain_config, with_local_clients, with_local_machine};
pub use machines::{Ended, with_clients, with_machine};
pub use system_clock::{SystemClock, SystemClocks};
