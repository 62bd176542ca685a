//! Two clients in threads, over one clock that counts its readings: since a call reads its clock while it has the turn, the moments
//! of the journal rise.
ghost use Rattle.std.specs.Prelude.{◌≤◌, None};
ghost use Rattle.drmaa_types.specs.Readings.{nobodys};
ghost use Rattle.turn_lock.specs.Tokens.{BelongsTo, IsFree};

use crate::machines::{at, closed, desk, machine};
use call_history::{Bell, Call, Client, Desk, Machine};
use drmaa_types::{Clock, Moment};
use std::alloc::Global;
use std::process::Abort;
use std::sync::{Mutex, Wait};
use std::thread::{Threads, join};

/// How many calls each client makes.
const CALLS: u32 = 200;

/// A clock that counts all readings of those that share it.
#[derive(Drop)]
struct CountingClock<'a, R> {
    rt: &'a R,
    count: &'a Mutex<u64>,
    last: Moment,
}

impl<'a, R> CountingClock<'a, R> {
    fn new(rt: &'a R, count: &'a Mutex<u64>) -> CountingClock<'a, R> {
        CountingClock {
            rt,
            count,
            last: at(0),
        }
    }
}

impl<'a, R: Wait> Clock for CountingClock<'a, R> {
    ghost given = { λ c. nobodys None };

    ghost least = { λ c. c.last };

    fn now(&mut self) -> Moment {
        let mut count = self.count.lock(self.rt);
        *count = count.saturating_add(1);
        let reading = at(*count);
        if self.last.number() < reading.number() {
            self.last = reading;
        }
        self.last
    }
}

/// Asks so often for the names of the job sessions. Whether each call was answered, and the client back.
fn ask_often<R: Wait, C: Clock + Drop>(rt: &R, mut desk: Desk<C>) -> (bool, Client)
    requires { IsFree desk.shared.now desk.client }
    ensures { IsFree desk.entry.shared.now result.1 }
{
    let mut answered = true;
    for _ in 0..CALLS {
        answered &= desk.call(rt, Call::JobSessionNames).is_ok();
    }
    let Desk { client, .. } = desk;
    (answered, client)
}

/// Whether no entry's moment is below that of the one before it.
fn rises(machine: &Machine) -> bool {
    let mut last = 0;
    for entry in machine.entries() {
        let moment = entry.at.number();
        if moment < last {
            return false;
        }
        last = moment;
    }
    true
}

/// Both clients ask, each in a thread of its own.
fn ask_both<'a, R: Threads + Wait + Sync, C: Clock + Send + Drop>(
    rt: &R,
    first: Desk<'a, C>,
    second: Desk<'a, C>,
) -> ((bool, Client), (bool, Client))
    requires { IsFree first.shared.now first.client × IsFree second.shared.now second.client }
    ensures first { IsFree first.entry.shared.now result.0.1 }
    ensures second { IsFree second.entry.shared.now result.1.1 }
{
    join(
        rt,
        move || -> (bool, Client)
            requires { IsFree first.shared.now first.client }
        { ask_often(rt, first) },
        move || -> (bool, Client)
            requires { IsFree second.shared.now second.client }
        { ask_often(rt, second) },
    )
}

/// Whether each call of the two was answered, whether the moments rise, and how many entries there are.
fn asked<R: Abort + Threads + Wait + Sync>(rt: &R, alloc: Global) -> ((bool, bool), bool, usize) {
    let (shared, mut opener) = machine(rt, alloc, 4_000_000);
    let bell = Bell::silent();
    let count = Mutex::new(0);
    let first = desk(&shared, &mut opener, &bell, CountingClock::new(rt, &count));
    let second = desk(&shared, &mut opener, &bell, CountingClock::new(rt, &count));
    let ((one, first), (other, second)) = ask_both(rt, first, second);
    shared.retire(&mut opener, first);
    shared.retire(&mut opener, second);
    let machine = closed(rt, shared, opener);
    ((one, other), rises(&machine), machine.entries().len())
}

#[test]
fn moments_rise_where_clients_share_a_clock(rt: HostRuntime) {
    assert!(rt; asked(&rt, rt.alloc()) == ((true, true), true, 400));
}
