//! A spawner that plays fates.
use child_spawner::{Child, Fate, FateList, MemorySpawner, Spawner};
use drmaa_types::{Exit, Failed, JobId, PlaceList, SignalKind, TextList};
use std::alloc::Global;

const PLAYED: Fate = Fate {
    polls: 2,
    exit: Exit::Code(3),
    failing_poll: Some(2),
    failing_signal: Some(1),
};

/// A spawner of two fates, whose third start fails. Where memory is wanting fates are left out, and then no test passes.
fn spawner(alloc: Global) -> MemorySpawner {
    let mut fates = Vec::new(alloc);
    let _ = fates.push(PLAYED);
    let _ = fates.push(PLAYED);
    let mut failing = Vec::new(alloc);
    let _ = failing.push(3);
    MemorySpawner::new(
        alloc,
        FateList::from_vec(fates),
        PlaceList::from_vec(failing),
    )
}

/// What is asked of a child, with what it answers.
#[derive(Clone, Copy)]
enum Step {
    Polls(Result<Option<Exit>, Failed>),
    Kills(bool),
}

/// Whether the child answers so.
fn goes<C: Child>(child: &mut C, steps: &[Step]) -> bool {
    for step in steps {
        let is_met = match step {
            Step::Polls(answer) => child.poll() == *answer,
            Step::Kills(delivered) => child.signal(SignalKind::Kill).is_ok() == *delivered,
        };
        if !is_met {
            return false;
        }
    }
    true
}

/// A job, an attempt, and what is asked of the child, where one starts.
type Start = (u64, u32, Option<&'static [Step]>);

/// Beyond the list of fates a child ends at once.
const STARTS: &[Start] = &[
    (
        7,
        1,
        Some(&[
            Step::Polls(Ok(None)),
            Step::Polls(Err(Failed)),
            Step::Polls(Ok(None)),
            Step::Polls(Ok(Some(Exit::Code(3)))),
        ]),
    ),
    (
        8,
        1,
        Some(&[
            Step::Kills(false),
            Step::Kills(true),
            Step::Polls(Ok(Some(Exit::Signal(9)))),
        ]),
    ),
    (9, 1, None),
    (9, 2, Some(&[Step::Polls(Ok(Some(Exit::Code(0))))])),
];

/// Whether a child starts as it says, and plays its fate.
fn plays(spawner: &mut MemorySpawner, words: &TextList, start: &Start) -> bool {
    let (job, attempt, steps) = start;
    match spawner.start(JobId(*job), *attempt, words) {
        Ok(mut child) => match steps {
            Some(steps) => goes(&mut child, steps),
            None => false,
        },
        Err(_) => steps.is_none(),
    }
}

/// Whether the starts are as they are listed, and the spawner tells them.
fn are_played(alloc: Global, starts: &[Start]) -> bool {
    let words = TextList::new(alloc);
    let mut spawner = spawner(alloc);
    for start in starts {
        if !plays(&mut spawner, &words, start) {
            return false;
        }
    }
    spawner.told() && spawner.asked().len() == starts.len()
}

#[test]
fn starts_are_listed_and_children_play_their_fates(rt: HostRuntime) {
    assert!(rt; are_played(rt.alloc(), STARTS));
}
