//! What a play leaves, as far as the tables compare it: what launcher and reaper have told, and what the spawner was asked for.
use call_history::{Call, Machine, Reply};
use child_spawner::{Asked, MemorySpawner};
use drmaa_model::Entry;
use drmaa_types::{Exit, SignalKind, TextList};

/// What becomes of a run.
#[derive(Clone, Copy, PartialEq, Eq)]
pub enum Event {
    Launched,
    Started,
    StartFailed,
    Exited(Exit),
    ExitUnknown,
    Signal(SignalKind),
    SignalDone(SignalKind),
    SignalFailed(SignalKind),
}

/// What an entry of the launcher or the reaper says: the job, its attempt, and what becomes of that.
pub type Told = (u64, u32, Event);

/// A start: the job, its attempt, and whether it began.
pub type Start = (u64, u32, bool);

/// What is handed out.
fn handed_out(reply: &Reply) -> Option<Told> {
    match reply {
        Reply::Launch(launch) => Some((launch.job.0, launch.attempt, Event::Launched)),
        Reply::Signal(signal) => Some((signal.job.0, signal.attempt, Event::Signal(signal.kind))),
        _ => None,
    }
}

/// What is reported.
fn reported(call: &Call) -> Option<Told> {
    match call {
        Call::Started { job, attempt } => Some((job.0, *attempt, Event::Started)),
        Call::StartFailed { job, attempt } => Some((job.0, *attempt, Event::StartFailed)),
        Call::SignalDone { job, attempt, kind } => {
            Some((job.0, *attempt, Event::SignalDone(*kind)))
        }
        Call::SignalFailed { job, attempt, kind } => {
            Some((job.0, *attempt, Event::SignalFailed(*kind)))
        }
        Call::Exited { job, attempt, exit } => Some((job.0, *attempt, Event::Exited(*exit))),
        Call::ExitUnknown { job, attempt } => Some((job.0, *attempt, Event::ExitUnknown)),
        _ => None,
    }
}

fn told_of(entry: &Entry) -> Option<Told> {
    let reported = reported(&entry.call);
    reported.or(handed_out(&entry.reply))
}

/// Whether the entries of a caller are these.
pub fn has_told(machine: &Machine, caller: u32, told: &[Told]) -> bool {
    let mut found: usize = 0;
    for entry in machine.entries() {
        if entry.caller.0 == caller {
            if told.get(found).copied() != told_of(entry) {
                return false;
            }
            found = found.saturating_add(1);
        }
    }
    found == told.len()
}

/// The words of a job with the command `true` and nothing else.
const WORDS: &[&str] = &["", "", "", "", "apart", "0", "true"];

fn has_words(words: &TextList) -> bool {
    let words = words.as_slice();
    for (word, expected) in words.iter().zip(WORDS.iter()) {
        if word.as_str() != *expected {
            return false;
        }
    }
    words.len() == WORDS.len()
}

fn is_asked(asked: &Asked, start: Start) -> bool {
    let (job, attempt, began) = start;
    let is_run = asked.job.0 == job && asked.attempt == attempt;
    is_run && asked.began == began && has_words(&asked.words)
}

/// Whether a spawner was asked for these starts, in order, each with the words of its job.
pub fn has_asked(spawner: &MemorySpawner, starts: &[Start]) -> bool {
    for (asked, start) in spawner.asked().iter().zip(starts.iter()) {
        if !is_asked(asked, *start) {
            return false;
        }
    }
    spawner.told() && spawner.asked().len() == starts.len()
}
