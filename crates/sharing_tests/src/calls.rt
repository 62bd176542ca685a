//! Calls of a client.
use crate::machines::{plain, text};
use call_history::{Call, Reply};
use drmaa_types::{SessionId, Shared};
use std::alloc::Global;

/// Makes a session for jobs.
pub fn create(alloc: Global) -> Call {
    Call::CreateJobSession {
        name: Some(text(alloc, "s")),
    }
}

/// Opens that session.
pub fn open(alloc: Global) -> Call {
    Call::OpenJobSession {
        name: text(alloc, "s"),
    }
}

/// Runs a job in the first session. Where memory is wanting it is another call, and then no test passes.
pub fn run(alloc: Global) -> Call {
    match Shared::new(alloc, plain(alloc)) {
        Ok(template) => Call::RunJob {
            session: SessionId(1),
            template,
        },
        Err(_) => Call::TakeSignal,
    }
}

/// The number of a session that a reply tells, or how many names.
pub fn told(reply: &Reply) -> u64 {
    match reply {
        Reply::Session(session) => session.0,
        Reply::Names(names) => names.as_slice().len() as u64,
        _ => 0,
    }
}
