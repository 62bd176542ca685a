//! What befalls jobs, and what is told of one.
ghost use Rattle.std.specs.Prelude.{◌≡◌};
ghost use Rattle.run_views.specs.Told as told;

use crate::runs::Ending;
use drmaa_types::{JobId, JobState};

/// What befalls a job. Moments are numbers of seconds.
#[derive(Clone, Copy, Debug, PartialEq, Eq)]
pub enum Happening {
    /// It is launched, at a moment and with so many slots.
    Launch { at: u64, slots: u32 },
    /// The end of a run of it is reported.
    End(Ending),
    /// It comes to a state, at the moment of the entry that brings the change.
    Change { at: Option<u64>, to: JobState },
}

/// What befalls a job, and which.
#[derive(Clone, Copy, Debug, PartialEq, Eq)]
pub struct JobEvent {
    pub job: JobId,
    pub what: Happening,
}

/// What a history tells of how far a job has come, whether it is kept or not.
#[derive(Clone, Copy, Debug, PartialEq, Eq)]
pub struct Told {
    /// Its state, and the moment at which it came to it, in seconds.
    pub state: JobState,
    pub changed: Option<u64>,
    /// When it was last launched, in seconds, and the slots that it held then.
    pub launched: Option<u64>,
    pub slots: Option<u32>,
    /// The end of a run of it that was last reported.
    pub ending: Option<Ending>,
}

impl Told {
    /// What is told of a job that nothing has befallen.
    pub fn nothing() -> Told
        ensures { result ≡ told.nothing }
    {
        Told {
            state: JobState::Undetermined,
            changed: None,
            launched: None,
            slots: None,
            ending: None,
        }
    }

    /// What is told of a job that something has befallen since.
    pub fn after(&self, what: &Happening) -> Told
        ensures { result ≡ told.after what.now self.now }
    {
        match *what {
            Happening::Launch { at, slots } => Told {
                launched: Some(at),
                slots: Some(slots),
                ..*self
            },
            Happening::End(ending) => Told {
                ending: Some(ending),
                ..*self
            },
            Happening::Change { at, to } => Told {
                state: to,
                changed: at,
                ..*self
            },
        }
    }
}
