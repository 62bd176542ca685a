//! A machine for tests, who sits at it, and a spawner that starts nothing.
ghost use Rattle.std.specs.Prelude.{◌≡◌, ◌<◌, ◌++◌, ◌∷◌, [], length, None};
ghost use Rattle.turn_lock.specs.Tokens.{BelongsTo, IsFree};
ghost use Rattle.call_history.specs.Clients.{retired_of};

use crate::asking::text;
use call_history::{Bell, Config, Desk, Machine, MachineOpener, SharedMachine};
use child_spawner::{Fate, FateList, MemorySpawner};
use drmaa_types::{Exit, Moment, PlaceList, QueueList, StepClock};
use std::alloc::Global;
use std::process::Abort;

/// A machine with four slots that nobody has called, and who opens it.
pub fn open_machine(rt: &impl Abort, alloc: Global, journal: u64) -> (SharedMachine, MachineOpener)
    ensures opener { BelongsTo result.0 result.1 }
    ensures retired { retired_of result.1 ≡ [] }
{
    let config = Config {
        slots: 4,
        name: text(alloc, "node1"),
        suspend: true,
        journal: journal.clamp(1, 4_000_000),
        queues: QueueList::new(alloc),
    };
    match SharedMachine::new(alloc, config) {
        Ok(made) => made,
        Err(_) => panic!(rt; "there is memory"),
    }
}

/// The machine, once every client is back.
pub fn closed(rt: &impl Abort, shared: SharedMachine, opener: MachineOpener) -> Machine
    requires { BelongsTo shared opener }
{
    assert!(rt; shared.left(&opener) == 0);
    shared.close(opener)
}

/// The desk of the next client, with a clock that stands at 0.
pub fn desk<'a>(
    shared: &'a SharedMachine,
    opener: &mut MachineOpener,
    bell: &'a Bell,
) -> Desk<'a, StepClock>
    requires opener { BelongsTo shared.now opener.old }
    requires room { length (retired_of opener.old) < 4294967295 }
    ensures opener { BelongsTo shared.now opener.new }
    ensures retired { retired_of opener.new ≡ retired_of opener.old ++ None ∷ [] }
    ensures shared { result.shared.now ≡ shared.now }
    ensures client { IsFree result.shared.now result.client }
{
    let start = Moment::new(0).unwrap_or(Moment::greatest());
    Desk {
        shared,
        client: shared.open_client(opener),
        clock: StepClock::new(start, 0),
        bell,
    }
}

/// Which call of a child fails: none, its first poll, or its first signal.
#[derive(Clone, Copy)]
pub enum Fails {
    Never,
    Poll,
    Signal,
}

/// How many polls a child runs for, how it ends, and which call fails.
pub type Course = (u32, Exit, Fails);

/// The fate of a child.
fn fate_of(course: Course) -> Fate {
    let (polls, exit, fails) = course;
    let (failing_poll, failing_signal) = match fails {
        Fails::Never => (None, None),
        Fails::Poll => (Some(1), None),
        Fails::Signal => (None, Some(1)),
    };
    Fate {
        polls,
        exit,
        failing_poll,
        failing_signal,
    }
}

/// Where memory is wanting fates are left out, and then no test passes.
fn fates_of(alloc: Global, courses: &[Course]) -> FateList {
    let mut fates = Vec::new(alloc);
    for course in courses {
        let _ = fates.push(fate_of(*course));
    }
    FateList::from_vec(fates)
}

/// Where memory is wanting no start fails, and then no test passes.
fn places_of(alloc: Global, failing: &[u64]) -> PlaceList {
    match failing.to_vec(alloc) {
        Ok(failing) => PlaceList::from_vec(failing),
        Err(_) => PlaceList::new(alloc),
    }
}

/// A spawner whose children go these courses, in order. The starts that fail are counted from 1.
pub fn spawner_of(alloc: Global, courses: &[Course], failing: &[u64]) -> MemorySpawner {
    MemorySpawner::new(alloc, fates_of(alloc, courses), places_of(alloc, failing))
}
