//! What a run of a command leaves.
ghost use Rattle.std.specs.Prelude.{◌≡◌, []};

use change_callbacks::Callbacks;
use journal_commands::Status;
use script_commands::Ended;
use std::alloc::Global;
use thread_play::ClockList;

/// What a run leaves: how it ended, the callbacks that were handed in, in their order, and the clocks of the callers of a script that
/// was played in threads, in the order of their numbers: of the setup block, of the clients' blocks, of the launcher, of the
/// reaper and of the hub.
#[derive(Drop)]
pub struct Outcome<C, B> {
    pub status: Status,
    pub callbacks: Callbacks<B>,
    pub clocks: ClockList<C>,
}

/// A run without callers of its own.
pub(crate) fn without_clocks<C, B>(alloc: Global, ended: Ended<B>) -> Outcome<C, B>
    ensures status { result.status ≡ ended.status }
    ensures callbacks { result.callbacks ≡ ended.callbacks }
    ensures clocks { result.clocks ≡ [] }
{
    let Ended { status, callbacks } = ended;
    Outcome {
        status,
        callbacks,
        clocks: ClockList::new(alloc),
    }
}
