//! When a wait begins, and when it is over: its first reading of the clock, and its last.
ghost use Rattle.std.specs.Prelude.{◌≡◌, []};
ghost use Rattle.turn_lock.specs.Tokens.{BelongsTo, IsFree};
ghost use Rattle.call_history.specs.Clients.{retired_of};

use crate::jobs::{SESSION, open, run};
use crate::machines::{at, closed, desk, machine, numbers, stopped};
use call_history::{Bell, Call, Desk, Entry, Machine, MachineOpener, Reply, SharedMachine};
use drmaa_types::{Clock, JobId, ListClock, MomentList, Refusal, StepClock, Timeout, WaitKind};
use std::alloc::Global;
use std::process::Abort;
use std::sync::Wait;
use std::time::Clock as Pause;
use wait_calls::wait;

/// A client makes the session and a job in it.
fn queue_job<R: Wait>(rt: &R, alloc: Global, desk: &mut Desk<StepClock>) -> bool
    requires { IsFree desk.old.shared.now desk.old.client }
    ensures client { IsFree desk.new.shared.now desk.new.client }
    ensures shared { desk.new.shared.now ≡ desk.old.shared.now }
{
    let opened = open(rt, alloc, desk);
    let run = run(rt, alloc, desk, 1);
    opened && run
}

type Told = Result<JobId, Refusal>;

/// When a wait that timed out began, and when it was over, in seconds.
fn times_of(entry: &Entry) -> Option<(u64, u64)> {
    match (&entry.call, &entry.reply) {
        (Call::Wait { begun, .. }, Reply::Refused(Refusal::Timeout)) => Some((
            begun.number(),
            entry.at.number(),
        )),
        _ => None,
    }
}

/// The same of the last entry of a history.
fn last_wait(machine: &Machine) -> Option<(u64, u64)> {
    match machine.entries() {
        [.., last] => times_of(last),
        _ => None,
    }
}

/// Waits by a clock for the start of a job that is not launched, for so many seconds.
fn told_by<R: Wait + Pause, C: Clock + Drop>(
    rt: &R,
    alloc: Global,
    shared: &SharedMachine,
    opener: &mut MachineOpener,
    clock: C,
    seconds: u64,
) -> (bool, Told)
    requires opener { BelongsTo shared.now opener.old }
    requires nobody { retired_of opener.old ≡ [] }
    ensures { BelongsTo shared.now opener.new }
{
    let bell = Bell::silent();
    let mut asking = desk(shared, opener, &bell, stopped(0));
    let mut waiting = desk(shared, opener, &bell, clock);
    let queued = queue_job(rt, alloc, &mut asking);
    let told = wait(
        rt,
        &mut waiting,
        SESSION.session,
        numbers(alloc, &[1]),
        WaitKind::Started,
        Timeout::Seconds(seconds),
    );
    shared.retire(opener, asking.client);
    shared.retire(opener, waiting.client);
    (queued, told)
}

/// Whether its job was queued, what such a wait is told, and when it began and was over.
fn waited<R: Abort + Wait + Pause, C: Clock + Drop>(
    rt: &R,
    alloc: Global,
    clock: C,
    seconds: u64,
) -> ((bool, Told), Option<(u64, u64)>) {
    let (shared, mut opener) = machine(rt, alloc, 4_000_000);
    let told = told_by(rt, alloc, &shared, &mut opener, clock, seconds);
    let machine = closed(rt, shared, opener);
    (told, last_wait(&machine))
}

/// The first reading of a clock, its step, for how many seconds a wait is, and when it is over.
const STEPS: &[(u64, u64, u64, u64)] = &[
    (10, 1, 2, 12),
    (0, 10, 10, 10),
    (99_999_999_999, 1, 50, 100_000_000_000),
];

#[test]
fn a_wait_is_over_when_its_time_is(rt: HostRuntime) {
    for (first, step, seconds, last) in STEPS {
        let clock = StepClock::new(at(*first), *step);
        assert!(rt;
            waited(&rt, rt.alloc(), clock, *seconds)
                == ((true, Err(Refusal::Timeout)), Some((*first, *last)))
        );
    }
}

/// A clock that gives these three readings.
fn list_clock(rt: &impl Abort, alloc: Global, readings: [u64; 3]) -> ListClock {
    let [first, second, third] = readings;
    let Ok(moments) = Vec::from_slice(alloc, &[at(first), at(second), at(third)]) else {
        panic!(rt; "there is memory")
    };
    assert!(rt; moments.is_sorted());
    ListClock::new(MomentList::from_vec(moments))
}

#[test]
fn a_wait_is_over_at_its_second_look(rt: HostRuntime) {
    let clock = list_clock(&rt, rt.alloc(), [3, 4, 9]);
    assert!(rt; waited(&rt, rt.alloc(), clock, 5) == ((true, Err(Refusal::Timeout)), Some((3, 9))));
}
