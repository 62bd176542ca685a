//! A kill that is asked for while the child is started, before its start is reported.
ghost use Rattle.std.specs.Prelude.{◌≡◌, [], None};
ghost use Rattle.turn_lock.specs.Tokens.{BelongsTo, IsFree};
ghost use Rattle.call_history.specs.Clients.{retired_of};
ghost use Rattle.child_spawner.specs.Spawners.{plain_fate};

use crate::asking::{Ask, Said, answers, call_of, plain_call};
use crate::machines::{Course, Fails, desk, open_machine, spawner_of};
use crate::wording::RUN;
use attendant::{Launched, Reaper, launch_once, reap_once};
use call_history::{Bell, Call, Desk, MachineOpener, SharedMachine};
use child_spawner::{MemoryChild, MemorySpawner, Spawner};
use drmaa_types::{Control, Exit, Failed, JobId, JobState, StepClock, TextList};
use std::alloc::Global;
use std::marker::Model;
use std::sync::Wait;

/// A client that asks between the calls of others.
#[derive(Drop)]
struct Asker<'a> {
    desk: Desk<'a, StepClock>,
}

impl<'a> Model for Asker<'a> {
    ghost use Rattle.turn_lock.specs.Tokens.{IsFree};

    ghost Value = { Unit {0} };

    ghost view = { λ _. tt };

    ghost invariant = { λ a. IsFree a.desk.shared.now a.desk.client };
}

impl Asker<'_> {
    /// Asks without waiting. Whether it is told this.
    fn is_told(&mut self, call: Call, said: Said) -> bool {
        answers(&self.desk.try_call(call), said)
    }
}

/// A spawner that starts nothing. While it starts a child, a client asks for the job's kill, and is told that this is served.
#[derive(Drop)]
struct KillingSpawner<'a> {
    spawner: MemorySpawner,
    asker: Asker<'a>,
    served: bool,
}

impl Spawner for KillingSpawner<'_> {
    type One = MemoryChild;

    ghost faults = { λ s. s.spawner.faults };

    ghost asked = { λ _. None };

    ghost fate = { λ _ _. plain_fate };

    fn start(&mut self, job: JobId, attempt: u32, words: &TextList) -> Result<MemoryChild, Failed> {
        let kill = plain_call(Ask::Control(job.0, Control::Terminate));
        self.served = self.asker.is_told(kill, Said::Unit);
        self.spawner.start(job, attempt, words)
    }
}

/// The client makes a session and runs a job. Whether it is told their numbers.
fn submit(alloc: Global, asker: &mut Asker) -> [bool; 2] {
    [
        asker.is_told(call_of(alloc, Ask::Create), Said::Session(1)),
        asker.is_told(call_of(alloc, RUN), Said::Job(1)),
    ]
}

/// Whether the job is in this state.
fn is_in(asker: &mut Asker, state: JobState) -> bool {
    asker.is_told(plain_call(Ask::State(1)), Said::State(state))
}

/// The job is launched, and killed meanwhile. Whether the kill is served, the job runs, both order and end are reported then, the job
/// has failed, and nothing is left.
fn launch_and_reap<R: Wait>(
    rt: &R,
    launcher: &mut Desk<StepClock>,
    reaping: &mut Desk<StepClock>,
    spawner: &mut KillingSpawner,
    reaper: &mut Reaper<MemoryChild>,
) -> [bool; 6]
    requires launcher { IsFree launcher.old.shared.now launcher.old.client }
    requires reaping { IsFree reaping.old.shared.now reaping.old.client }
{
    [
        launch_once(rt, launcher, spawner, reaper) == Ok(Launched::Began(JobId(1))),
        spawner.served,
        is_in(&mut spawner.asker, JobState::Running),
        reap_once(rt, reaping, reaper) == Ok(2),
        is_in(&mut spawner.asker, JobState::Failed),
        reap_once(rt, reaping, reaper) == Ok(0),
    ]
}

/// One child, that would run for a thousand polls.
const LONG: &[Course] = &[(1_000, Exit::Code(0), Fails::Never)];

/// Whether the client is told what it is to be told first, and whether what comes then is as it is to be.
fn play_kill<R: Wait>(
    rt: &R,
    alloc: Global,
    shared: &SharedMachine,
    opener: &mut MachineOpener,
) -> ([bool; 2], [bool; 6])
    requires opener { BelongsTo shared.now opener.old }
    requires retired { retired_of opener.old ≡ [] }
{
    let bell = Bell::silent();
    let client = desk(shared, opener, &bell);
    let mut launcher = desk(shared, opener, &bell);
    let mut reaping = desk(shared, opener, &bell);
    let mut spawner = KillingSpawner {
        spawner: spawner_of(alloc, LONG, &[]),
        asker: Asker { desk: client },
        served: false,
    };
    let mut reaper = Reaper::new(alloc);
    let first = submit(alloc, &mut spawner.asker);
    let then = launch_and_reap(rt, &mut launcher, &mut reaping, &mut spawner, &mut reaper);
    (first, then)
}

/// The client's kill is served before the start is reported. The order is handed out once that is reported, and the child ends by it.
#[test]
fn a_kill_before_the_start_is_reported(rt: HostRuntime) {
    let (shared, mut opener) = open_machine(&rt, rt.alloc(), 4_000_000);
    let told = play_kill(&rt, rt.alloc(), &shared, &mut opener);
    assert!(rt; told == ([true; 2], [true; 6]));
}
