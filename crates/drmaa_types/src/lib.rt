//! The plain data that every crate above speaks of: identifiers, moments, texts, job states, infos,
//! filters, refusals, clocks, and the trait of a value that keeps a history.
#![tactic(auto)]

mod boxed;
mod capabilities;
mod changes;
mod chronicles;
mod filters;
mod identifiers;
mod infos;
mod lists;
mod moments;
mod queues;
mod readings;
mod refusals;
mod said;
mod same;
mod sessions;
mod shared;
mod states;
mod template_parts;
mod texts;

pub use boxed::Boxed;
pub use capabilities::{Capability, supports};
pub use changes::{Change, ChangeBatch, Failed, Notification};
pub use chronicles::{Chronicle, ChronicleEntry};
pub use filters::{JobFilter, all_lets_every_job_through};
pub use identifiers::{ArrayId, CallerId, JobId, ReservationId, SessionId};
pub use infos::{InfoList, JobInfo, MachineInfo, ReservationInfo, ReservationList, Reserved};
pub use lists::{AttributeList, Bytes, IdList, ListOf, MomentList, PlaceList, TextList};
pub use moments::{End, Moment, Timeout, a_moment_is_within};
pub use queues::{MOST_QUEUES, QueueList, QueueSpec, are_queues, place_of, queue_at};
pub use readings::{CallersClock, Clock, Clocks, ListClock, StepClock};
pub use refusals::{Attribute, Limit, Refusal, Which};
pub use same::Same;
pub use sessions::SessionKind;
pub use shared::Shared;
pub use states::{Control, Event, Exit, JobState, Note, SignalKind, WaitKind};
pub use template_parts::{LimitList, Pair, PairList, ResourceLimit, Start};
pub use texts::Text;
