//! The lock: a note that is learnt, a turn that is held, and threads that act.
ghost use Rattle.std.specs.Prelude.{◌≡◌, ◌+◌, ◌<◌, [], length, All, IfOk};
ghost use Rattle.turn_lock.specs.Tokens.{BelongsTo, IsFree};

use std::alloc::{AllocError, Global};
use std::process::Abort;
use std::sync::Wait;
use std::thread::{Threads, map_vec};
use turn_lock::{Busy, CallerId, Chronicle, ChronicleEntry, Opener, Pass, TurnLock};

/// A list of numbers, each with who told it.
#[derive(Drop)]
struct Log {
    entries: Vec<ChronicleEntry<u64, u64>>,
}

/// The list takes no more.
#[derive(Drop, Debug)]
struct Full;

const MOST: usize = 10_000;

impl Chronicle for Log {
    type Ask = u64;

    type Answer = u64;

    type Fault = Full;

    type Fixed = u64;

    ghost entries = { λ log. log.entries.items };

    ghost fixed = { λ log. 0 };

    ghost kept = { λ ask. ask };

    ghost legal = { λ fixed entries. Unit {0} };

    ghost fails = { λ fixed entries caller ask fault. Unit {0} };

    fn act(&mut self, caller: CallerId, ask: u64) -> Result<u64, Full> {
        if self.entries.len() >= MOST {
            return Err(Full);
        }
        match self.entries.push(ChronicleEntry {
            caller,
            ask,
            answer: ask,
        }) {
            Ok(()) => Ok(ask),
            Err(_) => Err(Full),
        }
    }
}

/// A lock over an empty list, and its opener.
fn new_lock(rt: &impl Abort, alloc: Global) -> (TurnLock<Log>, Opener<Log>)
    ensures lock { BelongsTo result.0 result.1 }
    ensures retired { result.1.view.retired ≡ [] }
{
    let log = Log {
        entries: Vec::new(alloc),
    };
    match TurnLock::new(alloc, log) {
        Ok(made) => made,
        Err(_) => panic!(rt; "there is memory"),
    }
}

/// The list, once all passes are back.
fn closed(rt: &impl Abort, lock: TurnLock<Log>, opener: Opener<Log>) -> Log
    requires { BelongsTo lock opener }
{
    assert!(rt; opener.left() == 0);
    lock.close(opener)
}

/// Enters, acts, and says whether the value answered.
fn act<R: Wait>(rt: &R, lock: &TurnLock<Log>, pass: &mut Pass<Log>, ask: u64) -> bool
    requires { IsFree lock.now pass.old }
    ensures { IsFree lock.now pass.new }
{
    let turn = lock.enter(rt, pass);
    turn.act(lock, pass, ask).is_ok()
}

/// Acts, if no other pass has the turn, and says whether the value answered.
fn try_act(lock: &TurnLock<Log>, pass: &mut Pass<Log>, ask: u64) -> Result<bool, Busy>
    requires { IsFree lock.now pass.old }
    ensures { IsFree lock.now pass.new }
{
    match lock.try_enter(pass) {
        Ok(turn) => Ok(turn.act(lock, pass, ask).is_ok()),
        Err(busy) => Err(busy),
    }
}

/// How many entries this caller has.
fn told(log: &Log, number: u32) -> usize {
    let mut count: usize = 0;
    for entry in log.entries.iter() {
        if entry.caller.0 == number {
            count = count.saturating_add(1);
        }
    }
    count
}

/// Who asked what and was answered what, where there are three entries.
fn told_in_order(log: &Log) -> Option<[(u32, u64, u64); 3]> {
    let told = |entry: &ChronicleEntry<u64, u64>| (entry.caller.0, entry.ask, entry.answer);
    match log.entries.as_slice() {
        [one, two, three] => Some([told(one), told(two), told(three)]),
        _ => None,
    }
}

/// The first acts, and the second after it has learnt what the first notes then. Whether both were answered.
fn act_and_learn<R: Wait>(
    rt: &R,
    lock: &TurnLock<Log>,
    first: &mut Pass<Log>,
    second: &mut Pass<Log>,
) -> [bool; 2]
    requires first { IsFree lock.now first.old }
    requires second { IsFree lock.now second.old }
    ensures first { IsFree lock.now first.new }
    ensures second { IsFree lock.now second.new }
{
    let told = act(rt, lock, first, 5);
    let note = lock.note(first);
    lock.learn(second, note);
    [told, act(rt, lock, second, 7)]
}

/// How much the first finds, and what the second, which tries, is told while the first has the turn, and after it.
fn try_beside<R: Wait>(
    rt: &R,
    lock: &TurnLock<Log>,
    first: &mut Pass<Log>,
    second: &mut Pass<Log>,
) -> (usize, [Result<bool, Busy>; 2])
    requires first { IsFree lock.now first.old }
    requires second { IsFree lock.now second.old }
    ensures first { IsFree lock.now first.new }
    ensures second { IsFree lock.now second.new }
{
    let turn = lock.enter(rt, first);
    let found = turn.value().entries.len();
    let beside = try_act(lock, second, 3);
    turn.leave(lock, first);
    (found, [beside, try_act(lock, second, 3)])
}

/// Whether both acted at first, the second found their entries and a turn that was held, and then acted.
fn are_told(acted: [bool; 2], tried: (usize, [Result<bool, Busy>; 2]), log: &Log) -> bool {
    let busy = Busy {
        served: 2,
        drawn: 3,
    };
    let entries = Some([(0, 5, 5), (1, 7, 7), (1, 3, 3)]);
    acted == [true; 2] && tried == (2, [Err(busy), Ok(true)]) && told_in_order(log) == entries
}

#[test]
fn a_note_is_learnt_and_a_held_turn_is_busy(rt: HostRuntime) {
    let (lock, mut opener) = new_lock(&rt, rt.alloc());
    let mut first = opener.open_pass(&lock);
    let mut second = opener.open_pass(&lock);
    let acted = act_and_learn(&rt, &lock, &mut first, &mut second);
    let tried = try_beside(&rt, &lock, &mut first, &mut second);
    opener.retire(&lock, first);
    opener.retire(&lock, second);
    let log = closed(&rt, lock, opener);
    assert!(rt; are_told(acted, tried, &log));
}

/// Acts by trying, or where the turn is not to be had at once by waiting.
fn try_or_wait<R: Wait>(rt: &R, lock: &TurnLock<Log>, pass: &mut Pass<Log>, ask: u64)
    requires { IsFree lock.now pass.old }
    ensures { IsFree lock.now pass.new }
{
    if try_act(lock, pass, ask).is_err() {
        act(rt, lock, pass, ask);
    }
}

/// Makes a note, acts once by trying and once by waiting, looks in without an entry, and learns the note, so many times over.
fn play<R: Wait>(rt: &R, lock: &TurnLock<Log>, mut pass: Pass<Log>, rounds: u64) -> Pass<Log>
    requires { IsFree lock.now pass }
    ensures { IsFree lock.now result }
{
    for ask in 0..rounds {
        let note = lock.note(&mut pass);
        try_or_wait(rt, lock, &mut pass, ask);
        act(rt, lock, &mut pass, ask);
        lock.enter(rt, &mut pass).leave(lock, &mut pass);
        lock.learn(&mut pass, note);
    }
    pass
}

const PASSES: u32 = 8;

const ROUNDS: u64 = 150;

/// As many passes as there are to be. Where memory is wanting some are left out, and then no test passes.
fn open_all(alloc: Global, lock: &TurnLock<Log>, opener: &mut Opener<Log>) -> Vec<Pass<Log>>
    requires lock { BelongsTo lock.now opener.old }
    requires retired { opener.old.view.retired ≡ [] }
    ensures lock { BelongsTo lock.now opener.new }
    ensures free { All (IsFree lock.now) result.items }
{
    let mut passes = Vec::new(alloc);
    for _number in 0..PASSES {
        let _ = passes.push(opener.open_pass(lock));
    }
    passes
}

/// Each pass plays in a thread of its own.
fn all_play<R: Threads + Wait + Sync>(
    rt: &R,
    lock: &TurnLock<Log>,
    passes: Vec<Pass<Log>>,
) -> Result<Vec<Pass<Log>>, AllocError>
    requires { All (IsFree lock.now) passes.items }
    ensures { IfOk result (λ after. All (IsFree lock.now) after.items) }
{
    map_vec(
        rt,
        passes,
        &|pass: Pass<Log>| -> Pass<Log>
            requires { IsFree lock.now pass }
            ensures { IsFree lock.entry.now result }
        { play(rt, lock, pass, ROUNDS) },
    )
}

/// The passes are taken back.
fn retire_all(lock: &TurnLock<Log>, opener: &mut Opener<Log>, mut passes: Vec<Pass<Log>>)
    requires lock { BelongsTo lock.now opener.old }
    requires free { All (IsFree lock.now) passes.items }
    ensures { BelongsTo lock.now opener.new }
{
    for _ in 0..PASSES {
        if let Some(pass) = passes.pop() {
            opener.retire(lock, pass);
        }
    }
}

/// Whether each pass has made its entries, and nobody else any.
fn have_all_told(log: &Log) -> bool {
    let each = (2 * ROUNDS) as usize;
    for number in 0..PASSES {
        if told(log, number) != each {
            return false;
        }
    }
    log.entries.len() == PASSES as usize * each
}

#[test]
fn eight_threads_note_learn_try_and_enter(rt: HostRuntime) {
    let (lock, mut opener) = new_lock(&rt, rt.alloc());
    let passes = open_all(rt.alloc(), &lock, &mut opener);
    if let Ok(passes) = all_play(&rt, &lock, passes) {
        retire_all(&lock, &mut opener, passes);
    }
    let log = closed(&rt, lock, opener);
    assert!(rt; have_all_told(&log));
}
