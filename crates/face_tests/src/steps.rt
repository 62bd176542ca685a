//! Steps of one user at a machine of its own.
ghost use Rattle.std.specs.Prelude.{◌≡◌, []};
ghost use Rattle.turn_lock.specs.Tokens.{BelongsTo, IsFree};
ghost use Rattle.call_history.specs.Clients.{retired_of};

use crate::answers::Said;
use crate::calls::{Ask, answer};
use crate::histories::{Story, story_of};
use call_history::{Bell, Desk, Machine, MachineOpener, SharedMachine};
use client_sessions::{open_desk, plain_machine};
use drmaa_types::{Clock, Moment, StepClock};
use drmaa1_face::Face;
use std::alloc::Global;
use std::process::Abort;
use std::sync::Wait;
use std::time::Clock as Pause;

/// What is called, and what is to be answered.
pub type Step = (Ask, Said);

/// A clock that stays at moment 0.
pub fn stopped() -> StepClock {
    StepClock::new(Moment::new(0).unwrap(), 0)
}

/// A machine with four slots that has served nothing, and its opener.
pub fn machine(rt: &impl Abort, alloc: Global) -> (SharedMachine, MachineOpener)
    ensures opener { BelongsTo result.0 result.1 }
    ensures retired { retired_of result.1 ≡ [] }
{
    match plain_machine(alloc, 4, "node1") {
        Ok(made) => made,
        Err(_) => panic!(rt; "there is memory"),
    }
}

/// Takes steps in order, up to the first that is answered otherwise. How many were taken before that.
pub fn take_steps<R: Abort + Wait + Pause, C: Clock>(
    rt: &R,
    alloc: Global,
    desk: &mut Desk<C>,
    face: &mut Face,
    steps: &[Step],
) -> usize
    requires { IsFree desk.old.shared.now desk.old.client }
    ensures client { IsFree desk.new.shared.now desk.new.client }
    ensures shared { desk.new.shared.now ≡ desk.old.shared.now }
{
    let mut taken: usize = 0;
    for step in steps {
        let (asked, wanted) = step;
        if answer(rt, alloc, desk, face, *asked) != *wanted {
            return taken;
        }
        taken = taken.saturating_add(1);
    }
    taken
}

/// The machine, once every client is back.
fn closed(rt: &impl Abort, shared: SharedMachine, opener: MachineOpener) -> Machine
    requires { BelongsTo shared opener }
{
    assert!(rt; shared.left(&opener) == 0);
    shared.close(opener)
}

/// Takes the steps at a machine of its own, by a user whose clock stands at 0. How many were taken, and what the history is then.
pub fn told<R: Abort + Wait + Pause>(rt: &R, alloc: Global, steps: &[Step]) -> (usize, Story) {
    let (shared, mut opener) = machine(rt, alloc);
    let bell = Bell::silent();
    let mut desk = open_desk(&shared, &mut opener, stopped(), &bell);
    let mut face = Face::new();
    let taken = take_steps(rt, alloc, &mut desk, &mut face, steps);
    shared.retire(&mut opener, desk.client);
    (taken, story_of(&closed(rt, shared, opener)))
}

/// Asserts that each step is answered as it says.
pub fn play<R: Abort + Wait + Pause>(rt: &R, alloc: Global, steps: &[Step]) {
    let (taken, _) = told(rt, alloc, steps);
    assert!(rt; taken == steps.len(), "after {taken} steps");
}
