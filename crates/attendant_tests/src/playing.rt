//! Plays: steps of a client, the launcher and the reaper over one machine, and what they leave.
ghost use Rattle.std.specs.Prelude.{◌≡◌, []};
ghost use Rattle.turn_lock.specs.Tokens.{BelongsTo};
ghost use Rattle.call_history.specs.Clients.{retired_of};

use crate::asking::{Ask, Said};
use crate::machines::{Course, closed, open_machine, spawner_of};
use crate::stages::Stage;
use crate::telling::{Start, Told, has_told};
use attendant::Launched;
use call_history::{Bell, MachineOpener, SharedMachine};
use drmaa_types::{JobId, Limit, Refusal};
use std::alloc::Global;
use std::process::Abort;
use std::sync::Wait;
use std::time::Clock as Pause;

/// What one of the three does, and what comes of it.
#[derive(Clone, Copy)]
pub enum Step {
    /// The client asks.
    Client(Ask, Said),
    /// A round of the launcher: no launch, a child that began, a start that failed, or a journal that would have this size.
    LaunchesNone,
    Launches(u64),
    FailsToStart(u64),
    CannotLaunch(u64),
    /// A round of the reaper, with its number of reports, or with the size that the journal would have.
    Reaps(u32),
    CannotReap(u64),
    /// Rounds of both until the machine is settled: once the clients are over, or at once.
    Attends,
    Finishes,
}

/// What a machine and a spawner are like, and what is played on them.
#[derive(Clone, Copy)]
pub struct Play<'a> {
    /// What it shows.
    pub about: &'a str,
    pub journal: u64,
    /// What the children do, in order, and the starts that fail, counted from 1.
    pub courses: &'a [Course],
    pub failing: &'a [u64],
    pub steps: &'a [Step],
    /// The entries of the launcher, and those of the reaper.
    pub launcher: &'a [Told],
    pub reaper: &'a [Told],
    /// What the spawner is asked for.
    pub asked: &'a [Start],
}

/// The journal would have this size.
fn full(size: u64) -> Refusal {
    Refusal::OutOfResource(Limit::Journal { size })
}

/// Takes a step. Whether it comes to what it says.
fn take_step<R: Wait + Pause>(rt: &R, alloc: Global, stage: &mut Stage, step: Step) -> bool
    ensures { stage.new ≡ stage.old }
{
    match step {
        Step::Client(ask, said) => stage.asks(rt, alloc, ask, said),
        Step::LaunchesNone => stage.launches(rt, Ok(Launched::Nothing)),
        Step::Launches(job) => stage.launches(rt, Ok(Launched::Began(JobId(job)))),
        Step::FailsToStart(job) => stage.launches(rt, Ok(Launched::StartFailed(JobId(job)))),
        Step::CannotLaunch(size) => stage.launches(rt, Err(full(size))),
        Step::Reaps(reports) => stage.reaps(rt, Ok(reports)),
        Step::CannotReap(size) => stage.reaps(rt, Err(full(size))),
        Step::Attends => stage.attends(rt),
        Step::Finishes => stage.finishes(rt),
    }
}

/// Takes steps in order, up to the first that comes to something else. How many were taken before that.
fn take_steps<R: Wait + Pause>(rt: &R, alloc: Global, stage: &mut Stage, steps: &[Step]) -> usize
    ensures { stage.new ≡ stage.old }
{
    let mut taken: usize = 0;
    for step in steps {
        if !take_step(rt, alloc, stage, *step) {
            return taken;
        }
        taken = taken.saturating_add(1);
    }
    taken
}

/// What is compared of a play: how many steps were taken, and whether the spawner was asked for what it is to be asked for.
type Played = (usize, bool);

/// Plays at a machine that nobody has called.
fn play_at<R: Wait + Pause>(
    rt: &R,
    alloc: Global,
    shared: &SharedMachine,
    opener: &mut MachineOpener,
    play: &Play,
) -> Played
    requires opener { BelongsTo shared.now opener.old }
    requires retired { retired_of opener.old ≡ [] }
    ensures { BelongsTo shared.now opener.new }
{
    let bell = Bell::silent();
    let spawner = spawner_of(alloc, play.courses, play.failing);
    let mut stage = Stage::open(alloc, shared, opener, &bell, spawner);
    let taken = take_steps(rt, alloc, &mut stage, play.steps);
    let asked = stage.has_asked(play.asked);
    stage.leave(shared, opener);
    (taken, asked)
}

/// Whether launcher and reaper have told what they are to tell, once all three are back.
fn have_told(rt: &impl Abort, shared: SharedMachine, opener: MachineOpener, play: &Play) -> bool
    requires { BelongsTo shared opener }
{
    let machine = closed(rt, shared, opener);
    has_told(&machine, 1, play.launcher) && has_told(&machine, 2, play.reaper)
}

/// Asserts that a play came to what it says.
fn compare(rt: &impl Abort, play: &Play, played: Played, told: bool) {
    let (about, (taken, asked)) = (play.about, played);
    let holds = taken == play.steps.len() && asked && told;
    assert!(rt; holds, "{about}: after {taken} steps");
}

fn run_play<R: Abort + Wait + Pause>(rt: &R, alloc: Global, play: &Play) {
    let (shared, mut opener) = open_machine(rt, alloc, play.journal);
    let played = play_at(rt, alloc, &shared, &mut opener, play);
    let told = have_told(rt, shared, opener, play);
    compare(rt, play, played, told);
}

/// Plays each, and compares what was answered, what stands in the history, and what the spawner was asked for.
pub fn run_plays<R: Abort + Wait + Pause>(rt: &R, alloc: Global, plays: &[Play]) {
    for play in plays {
        run_play(rt, alloc, play);
    }
}
