//! Journals of a small size, and looks that make no entry.
ghost use Rattle.turn_lock.specs.Tokens.{IsFree};

use crate::jobs::{SESSION, end, job_of, launch, open, run};
use crate::machines::{desk, machine, numbers, stopped};
use call_history::{Answer, Bell, Call, Desk, NoEntry, Question, Reply, TryFault};
use drmaa_types::{ChangeBatch, Clock, Exit, JobId, JobState, Limit, Refusal, StepClock, Timeout};
use std::alloc::Global;
use std::process::Abort;
use std::sync::Wait;
use std::time::Clock as Pause;

/// The journal would have this size.
fn beyond(size: u64) -> Refusal {
    Refusal::OutOfResource(Limit::Journal { size })
}

/// A journal of size 5 has room for a session and two jobs.
fn is_full_at_5<R: Wait + Pause>(rt: &R, alloc: Global, desk: &mut Desk<StepClock>) -> bool
    requires { IsFree desk.old.shared.now desk.old.client }
{
    let (jobs, timeout) = (numbers(alloc, &[1]), Timeout::Seconds(0));
    let told = [
        open(rt, alloc, desk),
        run(rt, alloc, desk, 1),
        run(rt, alloc, desk, 2),
        job_of(1).get_state(rt, desk) == Err(beyond(6)),
        job_of(1).try_get_state(desk) == Err(beyond(6)),
        SESSION.wait_any_started(rt, desk, jobs, timeout) == Err(beyond(6)),
    ];
    told == [true; 6]
}

/// Which call has no entry, and why.
fn without(told: Result<Reply, NoEntry>) -> Option<NoEntry> {
    told.err()
}

fn without_at_once(told: Result<Reply, TryFault>) -> Option<TryFault> {
    told.err()
}

/// Whether the machine is settled, how many slots are held, and whether the first job's launch by the fourth entry is the one change.
fn looks<R: Wait, C: Clock>(rt: &R, desk: &mut Desk<C>) -> (bool, u32, bool)
    requires { IsFree desk.old.shared.now desk.old.client }
    ensures { IsFree desk.new.shared.now desk.new.client }
{
    let settled = desk.look(rt, Question::Settled);
    let held = desk.look(rt, Question::Held);
    let changes = desk.look(rt, Question::Changes { from: 0 });
    told_by(&settled, &held, &changes)
}

fn told_by(settled: &Answer, held: &Answer, changes: &Answer) -> (bool, u32, bool) {
    match (settled, held, changes) {
        (Answer::Settled(settled), Answer::Held(held), Answer::Changes(changes)) => {
            (*settled, *held, is_launch(changes))
        }
        _ => (false, u32::MAX, false),
    }
}

fn is_launch(changes: &ChangeBatch) -> bool {
    match changes.as_slice() {
        [one] => one.entry == 4 && one.job == JobId(1) && one.to == JobState::Running,
        _ => false,
    }
}

/// A journal of size 14 has room for one launch, and for the end that it promised. Looks make no entry.
fn keeps_room_at_14<R: Wait + Pause>(rt: &R, alloc: Global, desk: &mut Desk<StepClock>) -> bool
    requires { IsFree desk.old.shared.now desk.old.client }
{
    let full = NoEntry::Journal { size: 15 };
    let told = [
        without(desk.call(rt, Call::TakeLaunch)) == Some(NoEntry::Nothing),
        looks(rt, desk) == (true, 0, false),
        open(rt, alloc, desk),
        run(rt, alloc, desk, 1),
        run(rt, alloc, desk, 2),
        launch(rt, desk, 1),
        looks(rt, desk) == (false, 1, true),
        without(desk.call(rt, Call::TakeLaunch)) == Some(full),
        without_at_once(desk.try_call(Call::TakeLaunch)) == Some(TryFault::Not(full)),
        end(rt, desk, 1, Exit::Code(0)),
    ];
    told == [true; 10]
}

/// Whether both are so, each at a machine of its own.
fn are_kept<R: Abort + Wait + Pause>(rt: &R, alloc: Global) -> (bool, bool) {
    let bell = Bell::silent();
    let (five, mut opens_five) = machine(rt, alloc, 5);
    let full = is_full_at_5(
        rt,
        alloc,
        &mut desk(&five, &mut opens_five, &bell, stopped(0)),
    );
    let (fourteen, mut opens_fourteen) = machine(rt, alloc, 14);
    let mut client = desk(&fourteen, &mut opens_fourteen, &bell, stopped(0));
    (full, keeps_room_at_14(rt, alloc, &mut client))
}

#[test]
fn a_full_journal_takes_the_end_of_a_job(rt: HostRuntime) {
    assert!(rt; are_kept(&rt, rt.alloc()) == (true, true));
}
