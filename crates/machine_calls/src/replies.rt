//! A reply for the caller, and the same for the entry.
ghost use Rattle.std.specs.Prelude.{◌≡◌, IfOk};
ghost use Rattle.machine_calls.specs.Serving.{AreBoth};

use crate::copies::copied_reply;
use drmaa_model::{Reply, Signal};
use drmaa_types::{ArrayId, JobId, JobState, Refusal, Reserved, SessionId};
use std::alloc::{AllocError, Global};

/// A reply and its copy. Both are made before anything changes, since a copy may take memory.
#[derive(Drop)]
pub struct Replies {
    /// For the caller.
    pub told: Reply,
    /// For the entry.
    pub recorded: Reply,
}

/// A reply that owns nothing, twice. It takes no memory.
macro_rules! both {
    ($reply:expr) => {
        Replies {
            told: $reply,
            recorded: $reply,
        }
    };
}

impl Replies {
    /// This reply, and a copy of it.
    ///
    /// # Errors
    ///
    /// Want of memory.
    pub fn twice(alloc: Global, told: Reply) -> Result<Replies, AllocError>
        ensures { IfOk result (λ replies. AreBoth replies told) }
    {
        let recorded = copied_reply(alloc, &told)?;
        Ok(Replies { told, recorded })
    }

    pub fn refused(why: &Refusal) -> Replies
        ensures { AreBoth result (Reply.Refused why.now) }
    {
        both!(Reply::Refused(*why))
    }

    pub fn unit() -> Replies
        ensures { AreBoth result Reply.Unit }
    {
        both!(Reply::Unit)
    }

    pub fn session(session: SessionId) -> Replies
        ensures { AreBoth result (Reply.Session session) }
    {
        both!(Reply::Session(session))
    }

    pub fn job(job: JobId) -> Replies
        ensures { AreBoth result (Reply.Job job) }
    {
        both!(Reply::Job(job))
    }

    pub fn array(array: ArrayId, first: JobId, count: u32) -> Replies
        ensures { AreBoth result (Reply.Array array first count) }
    {
        both!(Reply::Array {
            array,
            first,
            count,
        })
    }

    pub fn job_state(state: JobState) -> Replies
        ensures { AreBoth result (Reply.State state) }
    {
        both!(Reply::State(state))
    }

    pub fn reached(job: JobId) -> Replies
        ensures { AreBoth result (Reply.Reached job) }
    {
        both!(Reply::Reached(job))
    }

    pub fn reserved(reserved: &Reserved) -> Replies
        ensures { AreBoth result (Reply.Reserved reserved.now) }
    {
        both!(Reply::Reserved(*reserved))
    }

    pub fn callback(number: u32) -> Replies
        ensures { AreBoth result (Reply.Callback number) }
    {
        both!(Reply::Callback(number))
    }

    pub fn signal(signal: Signal) -> Replies
        ensures { AreBoth result (Reply.Signal signal) }
    {
        both!(Reply::Signal(signal))
    }
}
