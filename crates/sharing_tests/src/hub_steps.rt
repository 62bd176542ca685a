//! Steps of a hub and of the clients of its machine, and what comes of each.
ghost use Rattle.std.specs.Prelude.{◌≡◌, None, IfOk};
ghost use Rattle.turn_lock.specs.Tokens.{IsFree};
ghost use Rattle.notify_hub.specs.Hubs.{IsNoteOf};

use crate::hub_calls::{Ask, is_served};
use crate::machines::{machine, stopped};
use call_history::{Client, SharedMachine};
use change_callbacks::{Callbacks, MemoryCallback};
use drmaa_types::{Limit, Refusal};
use notify_hub::Hub;
use std::alloc::Global;
use std::process::Abort;
use std::sync::Wait;
use std::test::Fail;

/// What one of them does.
#[derive(Clone, Copy)]
pub enum Step {
    /// The hub's client calls, or another one, and is served.
    Client(Ask),
    Other(Ask),
    /// A callback is registered, and has this number; or it is refused, since 64 are.
    Registers(u32),
    IsRefused,
    /// Changes are handed over, by so many calls.
    Pumps(u64),
    /// Whether any number has a place.
    Listens(bool),
}

/// Takes a step. Whether this comes of it.
fn take_step<R: Wait>(
    rt: &R,
    alloc: Global,
    shared: &SharedMachine,
    client: &mut Client,
    other: &mut Client,
    hub: &mut Hub<MemoryCallback>,
    step: Step,
) -> bool
    requires client { IsFree shared.now client.old }
    requires other { IsFree shared.now other.old }
    requires note { IsNoteOf shared.now hub.old.note }
    ensures client { IsFree shared.now client.new }
    ensures other { IsFree shared.now other.new }
    ensures note { IsNoteOf shared.now hub.new.note }
{
    match step {
        Step::Client(ask) => is_served(rt, alloc, shared, client, ask),
        Step::Other(ask) => is_served(rt, alloc, shared, other, ask),
        Step::Registers(number) => hub.register(rt, shared, client, &mut stopped(0)) == Ok(number),
        Step::IsRefused => {
            let refusal = Refusal::OutOfResource(Limit::Callbacks);
            hub.register(rt, shared, client, &mut stopped(0)) == Err(refusal)
        }
        Step::Pumps(calls) => hub.pump(rt, shared, client, &mut stopped(0)) == calls,
        Step::Listens(any) => hub.listens() == any,
    }
}

/// Takes steps in order, as long as each comes to what it says. Whether all did.
fn take_steps<R: Wait>(
    rt: &R,
    alloc: Global,
    shared: &SharedMachine,
    client: &mut Client,
    other: &mut Client,
    hub: &mut Hub<MemoryCallback>,
    steps: &[Step],
) -> bool
    requires client { IsFree shared.now client.old }
    requires other { IsFree shared.now other.old }
    requires note { IsNoteOf shared.now hub.old.note }
{
    for step in steps {
        if !take_step(rt, alloc, shared, client, other, hub, *step) {
            return false;
        }
    }
    true
}

/// A hub of so many callbacks that keep what they hear.
fn hub(rt: &impl Abort, alloc: Global, count: usize) -> Result<Hub<MemoryCallback>, Fail>
    ensures { IfOk result (λ hub. hub.note ≡ None) }
{
    let mut callbacks = Vec::new(alloc);
    for _ in 0..count {
        callbacks.push(MemoryCallback::new(alloc)?)?;
    }
    match Hub::new(alloc, Callbacks::from_vec(callbacks)) {
        Ok(hub) => Ok(hub),
        Err(_) => panic!(rt; "there is memory"),
    }
}

/// The callbacks of a hub, as many as this, after these steps at a machine of its own.
pub fn played<R: Abort + Wait>(
    rt: &R,
    alloc: Global,
    count: usize,
    steps: &[Step],
) -> Result<Callbacks<MemoryCallback>, Fail> {
    let mut hub = hub(rt, alloc, count)?;
    let (shared, mut opener) = machine(rt, alloc, 4_000_000);
    let mut client = shared.open_client(&mut opener);
    let mut other = shared.open_client(&mut opener);
    if take_steps(rt, alloc, &shared, &mut client, &mut other, &mut hub, steps) {
        Ok(hub.take_back())
    } else {
        Err("a step came to something else".into())
    }
}
