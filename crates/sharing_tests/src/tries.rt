//! Tries wait for nobody: while another client has the turn they are told so.
ghost use Rattle.turn_lock.specs.Tokens.{IsFree};

use crate::calls::{create, run, told};
use crate::jobs::job_of;
use crate::machines::{machine, stopped};
use call_history::{Answer, Bell, Busy, Call, Client, Desk, Question, SharedMachine, TryFault};
use drmaa_types::{Clock, JobState, Moment, Refusal, StepClock};
use std::alloc::Global;
use std::process::Abort;
use std::sync::Wait;

/// What is answered to a try for the names of sessions, for the slots that are held, and for the state of the first job: how many
/// names, and how many slots.
type Tried = (
    Result<u64, TryFault>,
    Result<u32, Busy>,
    Result<JobState, Refusal>,
);

fn names(desk: &mut Desk<StepClock>) -> Result<u64, TryFault>
    requires { IsFree desk.old.shared.now desk.old.client }
    ensures { IsFree desk.new.shared.now desk.new.client }
{
    match desk.try_call(Call::JobSessionNames) {
        Ok(reply) => Ok(told(&reply)),
        Err(why) => Err(why),
    }
}

fn held(desk: &mut Desk<StepClock>) -> Result<u32, Busy>
    requires { IsFree desk.old.shared.now desk.old.client }
    ensures { IsFree desk.new.shared.now desk.new.client }
{
    match desk
        .shared
        .try_look(&mut desk.client, &mut desk.clock, Question::Held)
    {
        Ok(Answer::Held(slots)) => Ok(slots),
        Ok(_) => Ok(u32::MAX),
        Err(busy) => Err(busy),
    }
}

fn tries(desk: &mut Desk<StepClock>) -> Tried
    requires { IsFree desk.old.shared.now desk.old.client }
    ensures { IsFree desk.new.shared.now desk.new.client }
{
    let named = names(desk);
    let held = held(desk);
    let state = job_of(1).try_get_state(desk);
    (named, held, state)
}

/// What is answered while the ticket `served` has the turn, and `drawn` were drawn.
fn busy(served: u64, drawn: u64) -> Tried {
    (
        Err(TryFault::Busy { served, drawn }),
        Err(Busy { served, drawn }),
        Err(Refusal::TryLater { served, drawn }),
    )
}

/// A clock that is read by whoever has the turn: at each reading another client tries.
#[derive(Drop)]
struct Prying<'a> {
    other: Desk<'a, StepClock>,
    tried: Option<Tried>,
    ghost free: { IsFree other.shared.now other.client },
}

impl Clock for Prying<'_> {
    ghost use Rattle.std.specs.Prelude.{None};
    ghost use Rattle.drmaa_types.specs.Readings.{nobodys};

    ghost given = { λ _. nobodys None };

    ghost least = { λ _. 0 };

    fn now(&mut self) -> Moment {
        self.tried = Some(tries(&mut self.other));
        Moment::new(0).unwrap()
    }
}

/// What another client is told while this one makes a call.
fn beside<R: Wait>(
    rt: &R,
    shared: &SharedMachine,
    client: &mut Client,
    clock: &mut Prying,
    call: Call,
) -> Option<Tried>
    requires { IsFree shared.now client.old }
    ensures { IsFree shared.now client.new }
{
    let _ = shared.call(rt, client, clock, call);
    clock.tried
}

/// What is told while a session is made, while a job is run in it, and after that.
fn pried<R: Abort + Wait>(rt: &R, alloc: Global) -> (Option<Tried>, Option<Tried>, Tried) {
    let (shared, mut opener) = machine(rt, alloc, 4_000_000);
    let mut client = shared.open_client(&mut opener);
    let bell = Bell::silent();
    let other = Desk {
        shared: &shared,
        client: shared.open_client(&mut opener),
        clock: stopped(0),
        bell: &bell,
    };
    let mut clock = Prying { other, tried: None };
    let first = beside(rt, &shared, &mut client, &mut clock, create(alloc));
    let second = beside(rt, &shared, &mut client, &mut clock, run(alloc));
    let after = tries(&mut clock.other);
    (first, second, after)
}

#[test]
fn tries_wait_for_nobody(rt: HostRuntime) {
    let after = (Ok(1), Ok(0), Ok(JobState::Queued));
    assert!(rt; pried(&rt, rt.alloc()) == (Some(busy(0, 1)), Some(busy(1, 2)), after));
}
