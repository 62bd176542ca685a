//! Waits that look before they call.
ghost use Rattle.std.specs.Prelude.{◌≡◌};
ghost use Rattle.drmaa_machine.specs.Waits.{call_of};

use drmaa_model::Call;
use drmaa_types::{IdList, Moment, SessionId, Timeout, WaitKind};

/// What a wait waits for: which state of which jobs, since when, and for how long at most.
#[derive(Drop)]
pub struct Awaited {
    pub session: SessionId,
    pub jobs: IdList,
    pub kind: WaitKind,
    pub begun: Moment,
    pub timeout: Timeout,
}

impl Awaited {
    /// The wait as a call.
    pub fn into_call(self) -> Call
        ensures { result ≡ call_of self }
    {
        Call::Wait {
            session: self.session,
            jobs: self.jobs,
            kind: self.kind,
            begun: self.begun,
            timeout: self.timeout,
        }
    }
}
