//! What clients see of each other, and the history of them all.
ghost use Rattle.std.specs.Prelude.{◌≡◌, []};
ghost use Rattle.turn_lock.specs.Tokens.{BelongsTo, IsFree};
ghost use Rattle.call_history.specs.Clients.{retired_of};

use crate::calls::{create, open, told};
use crate::machines::{at, closed, machine};
use call_history::{Call, Client, Entry, Machine, MachineOpener, Reply, SharedMachine};
use drmaa_types::{CallerId, StepClock};
use std::alloc::Global;
use std::process::Abort;
use std::sync::Wait;
use std::thread::{Threads, join};

/// The number of an entry, and what its reply tells.
type Told = Option<(u64, u64)>;

/// Makes a call at moment 0.
fn numbered<R: Wait>(rt: &R, shared: &SharedMachine, client: &mut Client, call: Call) -> Told
    requires { IsFree shared.now client.old }
    ensures { IsFree shared.now client.new }
{
    match shared.call_numbered(rt, client, &mut StepClock::new(at(0), 0), call) {
        Ok((number, reply)) => Some((number, told(&reply))),
        Err(_) => None,
    }
}

/// The first client makes a session, and the second opens it after that was handed over. The first one learns what the second notes,
/// and asks for names.
fn hand_over<R: Wait>(
    rt: &R,
    alloc: Global,
    shared: &SharedMachine,
    first: &mut Client,
    second: &mut Client,
) -> (Told, Told, Told)
    requires first { IsFree shared.now first.old }
    requires second { IsFree shared.now second.old }
    ensures first { IsFree shared.now first.new }
    ensures second { IsFree shared.now second.new }
{
    let made = numbered(rt, shared, first, create(alloc));
    shared.hand_over(first, second);
    let opened = numbered(rt, shared, second, open(alloc));
    let note = shared.note(second);
    shared.learn(first, note);
    let named = numbered(rt, shared, first, Call::JobSessionNames);
    (made, opened, named)
}

/// Whether an entry is this client's, and answers that it has this session.
fn opens(entry: &Entry, caller: u32, session: u64) -> bool {
    match entry.reply {
        Reply::Session(opened) => entry.caller == CallerId(caller) && opened.0 == session,
        _ => false,
    }
}

/// Whether the first client made a session, the second opened it, and the first asked for names.
fn is_whole(machine: &Machine) -> bool {
    match machine.entries() {
        [first, second, third] => opens(first, 0, 1)
            && opens(second, 1, 2)
            && third.caller == CallerId(0),
        _ => false,
    }
}

/// What is told while two clients hand over, and whether the history has it.
fn handed_over<R: Abort + Wait>(rt: &R, alloc: Global) -> ((Told, Told, Told), bool) {
    let (shared, mut opener) = machine(rt, alloc, 4_000_000);
    let mut first = shared.open_client(&mut opener);
    let mut second = shared.open_client(&mut opener);
    let told = hand_over(rt, alloc, &shared, &mut first, &mut second);
    shared.retire(&mut opener, first);
    shared.retire(&mut opener, second);
    let machine = closed(rt, shared, opener);
    (told, is_whole(&machine))
}

#[test]
fn what_is_handed_over_is_seen(rt: HostRuntime) {
    let told = (Some((1, 1)), Some((2, 2)), Some((3, 1)));
    assert!(rt; handed_over(&rt, rt.alloc()) == (told, true));
}

/// How many calls each thread makes.
const CALLS: u64 = 1_000;

/// Asks again and again for the names of sessions, each time one second later.
fn ask_often<R: Wait>(rt: &R, shared: &SharedMachine, mut client: Client) -> Client
    requires { IsFree shared.now client }
    ensures { IsFree shared.now result }
{
    let mut clock = StepClock::new(at(0), 1);
    for _ in 0..CALLS {
        let _ = shared.call(rt, &mut client, &mut clock, Call::JobSessionNames);
    }
    client
}

/// Two threads ask at once.
fn ask_at_once<R: Threads + Wait + Sync>(
    rt: &R,
    shared: &SharedMachine,
    first: Client,
    second: Client,
) -> (Client, Client)
    requires { IsFree shared.now first × IsFree shared.now second }
    ensures { IsFree shared.now result.0 × IsFree shared.now result.1 }
{
    join(
        rt,
        move || -> Client
            requires { IsFree shared.now first }
            ensures { IsFree shared.entry.now result }
        { ask_often(rt, shared, first) },
        move || -> Client
            requires { IsFree shared.now second }
            ensures { IsFree shared.entry.now result }
        { ask_often(rt, shared, second) },
    )
}

/// Two clients ask at once, and are back.
fn asked<R: Threads + Wait + Sync>(rt: &R, shared: &SharedMachine, opener: &mut MachineOpener)
    requires opener { BelongsTo shared.now opener.old }
    requires nobody { retired_of opener.old ≡ [] }
    ensures { BelongsTo shared.now opener.new }
{
    let first = shared.open_client(opener);
    let second = shared.open_client(opener);
    let (first, second) = ask_at_once(rt, shared, first, second);
    shared.retire(opener, first);
    shared.retire(opener, second);
}

/// How many entries a client has, each of which is one second after the one before; none where one isn't.
fn seconds_of(machine: &Machine, caller: u32) -> Option<u64> {
    let mut next: u64 = 0;
    for entry in machine.entries() {
        if entry.caller == CallerId(caller) {
            if entry.at.number() != next {
                return None;
            }
            next = next.checked_add(1)?;
        }
    }
    Some(next)
}

/// How many entries the machine has once both have asked, and how many each of them has.
fn counted<R: Abort + Threads + Wait + Sync>(rt: &R, alloc: Global) -> (u64, [Option<u64>; 2]) {
    let (shared, mut opener) = machine(rt, alloc, 4_000_000);
    asked(rt, &shared, &mut opener);
    let machine = closed(rt, shared, opener);
    let all = machine.entries().len() as u64;
    (all, [seconds_of(&machine, 0), seconds_of(&machine, 1)])
}

#[test]
fn the_history_has_the_calls_of_both_threads(rt: HostRuntime) {
    assert!(rt; counted(&rt, rt.alloc()) == (2 * CALLS, [Some(CALLS); 2]));
}
