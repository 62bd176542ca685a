//! Changes of jobs' states, what callbacks hear of them, and the fault of an object that fails.
ghost use Rattle.std.specs.Prelude.{◌≡◌, ◌+◌, ◌<◌, ◌≤◌, [], ◌∷◌, ◌++◌, length};
ghost use Rattle.drmaa_types.specs.Notifications.{notification_of};

use crate::{Event, JobId, JobState};
use arrayvec::ArrayVec;
use std::marker::Model;

/// One job's change from one state to another, by the entry of this number.
#[derive(Clone, Copy, Debug, Default, PartialEq, Eq)]
pub struct Change {
    /// The number of the entry that brought the change, from 1.
    pub entry: u64,
    pub job: JobId,
    /// The number of the named session that the job belongs to, if there is one.
    pub home: Option<u64>,
    pub from: JobState,
    pub to: JobState,
}

/// What a callback hears (GFD.231, notifications).
#[derive(Clone, Copy, Debug, PartialEq, Eq)]
pub struct Notification {
    pub event: Event,
    pub job: JobId,
    /// The number of the named session that the job belongs to, if there is one.
    pub home: Option<u64>,
    /// The job's new state.
    pub state: JobState,
}

impl Notification {
    /// What is heard of a change: the event `NewState`, with the job's new state.
    pub fn of(change: &Change) -> Notification
        ensures { result ≡ notification_of change.now }
    {
        Notification {
            event: Event::NewState,
            job: change.job,
            home: change.home,
            state: change.to,
        }
    }
}

/// At most 64 changes, in order, seen by contracts as the list of them. It takes no memory.
#[derive(Drop)]
pub struct ChangeBatch {
    changes: ArrayVec<Change, 64>,
}

impl Model for ChangeBatch {
    ghost use Rattle.std.specs.Prelude.{List};
    ghost use Rattle.drmaa_types.specs.declared.changes.Change.{Change};

    ghost Value = { List Change };

    ghost view = { λ b. b.changes.items };
}

impl ChangeBatch {
    /// No change.
    pub fn new() -> ChangeBatch
        ensures { result ≡ [] }
    {
        ChangeBatch {
            changes: ArrayVec::new(),
        }
    }

    /// Adds a change at the end, where there are fewer than 64.
    pub fn push(&mut self, change: Change)
        requires { length self.old < 64 }
        ensures { self.new ≡ self.old ++ change ∷ [] }
    {
        self.changes.push(change);
    }

    /// The changes.
    pub fn as_slice(&self) -> &[Change]
        ensures value { result.now ≡ self.now }
        ensures few { length result.now ≤ 64 }
    {
        self.changes.as_slice()
    }
}

/// A read, a write, a start, a poll or a signal failed, and its object has counted the fault.
#[derive(Clone, Copy, Debug, PartialEq, Eq)]
pub struct Failed;
