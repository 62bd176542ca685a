//! Calls of the clients of a hub's machine.
ghost use Rattle.turn_lock.specs.Tokens.{IsFree};

use crate::calls::{create, run};
use crate::machines::stopped;
use call_history::{Call, Client, Reply, SharedMachine};
use drmaa_model::Target;
use drmaa_types::{Control, JobId, SessionId};
use std::alloc::Global;
use std::sync::Wait;

/// A call of a client. Its session is the first one.
#[derive(Clone, Copy)]
pub enum Ask {
    Create,
    Run,
    Control(u64, Control),
    TakeLaunch,
    StartFailed(u64),
    Register,
}

fn call_of(alloc: Global, ask: Ask) -> Call {
    match ask {
        Ask::Create => create(alloc),
        Ask::Run => run(alloc),
        Ask::Control(job, what) => Call::Control {
            session: SessionId(1),
            target: Target::Job(JobId(job)),
            what,
        },
        Ask::TakeLaunch => Call::TakeLaunch,
        Ask::StartFailed(job) => Call::StartFailed {
            job: JobId(job),
            attempt: 1,
        },
        Ask::Register => Call::Register,
    }
}

/// Makes a call. Whether it was served.
pub fn is_served<R: Wait>(
    rt: &R,
    alloc: Global,
    shared: &SharedMachine,
    client: &mut Client,
    ask: Ask,
) -> bool
    requires { IsFree shared.now client.old }
    ensures { IsFree shared.now client.new }
{
    match shared.call(rt, client, &mut stopped(0), call_of(alloc, ask)) {
        Ok(Reply::Refused(_)) | Err(_) => false,
        Ok(_) => true,
    }
}
