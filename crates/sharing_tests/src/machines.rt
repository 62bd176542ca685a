//! A machine for tests, and who sits at it.
ghost use Rattle.std.specs.Prelude.{◌≡◌, ◌≤◌, ◌<◌, ◌++◌, ◌∷◌, [], length, None};
ghost use Rattle.turn_lock.specs.Tokens.{BelongsTo, IsFree};
ghost use Rattle.call_history.specs.Clients.{retired_of};

use call_history::{Bell, Config, Desk, Machine, MachineOpener, SharedMachine};
use client_sessions::plain_job;
use drmaa_types::{Clock, IdList, Moment, QueueList, StepClock, Text};
use job_template::JobTemplate;
use std::alloc::Global;
use std::process::Abort;

/// The moment of so many seconds.
pub fn at(seconds: u64) -> Moment {
    Moment::new(seconds).unwrap_or(Moment::greatest())
}

/// A clock that stays at this moment.
pub fn stopped(seconds: u64) -> StepClock {
    StepClock::new(at(seconds), 0)
}

/// A text. Where memory is wanting it is empty, and then no test passes.
pub fn text(alloc: Global, characters: &str) -> Text {
    match String::from_str(alloc, characters) {
        Ok(whole) => Text::from_string(whole),
        Err(_) => Text::from_string(String::new(alloc)),
    }
}

/// A list of numbers. Where memory is wanting it is empty, and then no test passes.
pub fn numbers(alloc: Global, listed: &[u64]) -> IdList {
    match Vec::from_slice(alloc, listed) {
        Ok(list) => IdList::from_vec(list),
        Err(_) => IdList::new(alloc),
    }
}

/// A template of which the command alone is set.
pub fn plain(alloc: Global) -> JobTemplate {
    plain_job(alloc, text(alloc, "true"))
}

/// A machine with four slots and no queues that has served nothing, and its opener.
pub fn machine(rt: &impl Abort, alloc: Global, journal: u64) -> (SharedMachine, MachineOpener)
    requires { 1 ≤ journal × journal ≤ 4000000 }
    ensures opener { BelongsTo result.0 result.1 }
    ensures retired { retired_of result.1 ≡ [] }
{
    let config = Config {
        slots: 4,
        name: text(alloc, "node1"),
        suspend: true,
        journal,
        queues: QueueList::new(alloc),
    };
    match SharedMachine::new(alloc, config) {
        Ok(made) => made,
        Err(_) => panic!(rt; "there is memory"),
    }
}

/// The desk of a client, with this clock.
pub fn desk<'a, C: Clock>(
    shared: &'a SharedMachine,
    opener: &mut MachineOpener,
    bell: &'a Bell,
    clock: C,
) -> Desk<'a, C>
    requires opener { BelongsTo shared.now opener.old }
    requires room { length (retired_of opener.old) < 4294967295 }
    ensures opener { BelongsTo shared.now opener.new }
    ensures retired { retired_of opener.new ≡ retired_of opener.old ++ None ∷ [] }
    ensures shared { result.shared.now ≡ shared.now }
    ensures client { IsFree shared.now result.client }
{
    Desk {
        shared,
        client: shared.open_client(opener),
        clock,
        bell,
    }
}

/// The machine, once every client is back.
pub fn closed(rt: &impl Abort, shared: SharedMachine, opener: MachineOpener) -> Machine
    requires { BelongsTo shared opener }
{
    assert!(rt; shared.left(&opener) == 0);
    shared.close(opener)
}
