//! What runs are made on, and what is asked of what a run leaves.
use byte_streams::{MemorySink, MemorySource};
use call_history::Bell;
use change_callbacks::{Callbacks, MemoryCallback};
use child_spawner::{Fate, FateList, MemorySpawner};
use drmaa_script::{Outcome, run};
use drmaa_types::{
    Bytes, CallerId, CallersClock, Clocks, Moment, PlaceList, StepClock, Text, TextList,
};
use std::alloc::Global;
use std::process::Abort;
use std::sync::Wait;
use std::thread::Threads;
use std::time::Clock as Pause;

/// A text. Where memory is wanting it is empty, and then no test passes.
fn text(alloc: Global, characters: &str) -> Text {
    match String::from_str(alloc, characters) {
        Ok(whole) => Text::from_string(whole),
        Err(_) => Text::from_string(String::new(alloc)),
    }
}

/// The words between spaces; none of an empty line.
pub fn words(alloc: Global, line: &str) -> TextList {
    let mut words = Vec::new(alloc);
    for word in line.split(' ') {
        if !word.is_empty() {
            let _ = words.push(text(alloc, word));
        }
    }
    TextList::from_vec(words)
}

/// A list of these numbers. Where memory is wanting it is empty, and then no test passes.
pub fn places(alloc: Global, numbers: &[u64]) -> PlaceList {
    match Vec::from_slice(alloc, numbers) {
        Ok(list) => PlaceList::from_vec(list),
        Err(_) => PlaceList::new(alloc),
    }
}

/// A source of these bytes, which fails at these reads.
pub fn source(alloc: Global, bytes: &[u8], failing: &[u64]) -> MemorySource {
    let bytes = match Vec::from_slice(alloc, bytes) {
        Ok(bytes) => Bytes::from_vec(bytes),
        Err(_) => Bytes::from_vec(Vec::new(alloc)),
    };
    MemorySource::new(bytes, places(alloc, failing))
}

/// A sink for so many bytes, which fails at these writes.
pub fn sink(rt: &impl Abort, alloc: Global, room: usize, failing: &[u64]) -> MemorySink {
    match MemorySink::new(alloc, room, places(alloc, failing), false) {
        Ok(sink) => sink,
        Err(_) => panic!(rt; "there is memory"),
    }
}

/// A spawner that fails at these starts, and whose other children end at once with code 0.
pub fn spawner(alloc: Global, failing: &[u64]) -> MemorySpawner {
    fated_spawner(alloc, &[], failing)
}

/// A spawner that fails at these starts. Its children have these fates, in order; one without a fate ends at once with code 0. Where
/// memory is wanting there are no fates, and then no test passes.
pub fn fated_spawner(alloc: Global, fates: &[Fate], failing: &[u64]) -> MemorySpawner {
    let fates = match Vec::from_slice(alloc, fates) {
        Ok(fates) => FateList::from_vec(fates),
        Err(_) => FateList::new(alloc),
    };
    MemorySpawner::new(alloc, fates, places(alloc, failing))
}

/// Whether these starts were asked for, by whether they began.
pub fn has_begun(spawner: &MemorySpawner, begun: &[bool]) -> bool {
    let asked = spawner.asked();
    if !spawner.told() || asked.len() != begun.len() {
        return false;
    }
    for (one, began) in asked.iter().zip(begun.iter()) {
        if one.began != *began {
            return false;
        }
    }
    true
}

/// Clocks that stand at 0, but that of caller 1, which is a client's: it gives 10, 11 and so on.
pub struct ClientClocks {}

impl Clocks for ClientClocks {
    type One = CallersClock<StepClock>;

    fn clock(&self, caller: CallerId) -> CallersClock<StepClock> {
        let clock = if caller.0 == 1 {
            StepClock::new(Moment::new(10).unwrap_or(Moment::greatest()), 1)
        } else {
            StepClock::new(Moment::new(0).unwrap_or(Moment::greatest()), 0)
        };
        CallersClock::new(caller, clock)
    }
}

/// What a run of these words leaves.
pub fn outcome<E: Threads + Wait + Pause + Sync>(
    rt: &E,
    alloc: Global,
    line: &str,
    source: &mut MemorySource,
    sink: &mut MemorySink,
    spawner: &mut MemorySpawner,
    callbacks: Callbacks<MemoryCallback>,
) -> Outcome<CallersClock<StepClock>, MemoryCallback> {
    let words = words(alloc, line);
    let bell = Bell::new();
    run(
        rt,
        alloc,
        &words,
        source,
        sink,
        &ClientClocks {},
        spawner,
        &bell,
        callbacks,
    )
}

/// The number of the status with which a run ends that nobody hears, and how many clocks it gives back.
pub fn numbers<E: Threads + Wait + Pause + Sync>(
    rt: &E,
    alloc: Global,
    line: &str,
    source: &mut MemorySource,
    sink: &mut MemorySink,
    spawner: &mut MemorySpawner,
) -> (u8, usize) {
    let nobody = Callbacks::new(alloc);
    let Outcome { status, clocks, .. } = outcome(rt, alloc, line, source, sink, spawner, nobody);
    (status.number(), clocks.as_slice().len())
}

/// How often the bytes have this text.
pub fn times(bytes: &[u8], text: &str) -> usize {
    bytes
        .windows(text.len().max(1))
        .filter(|part| *part == text.as_bytes())
        .count()
}

/// Whether a check finds the journal legal.
pub fn is_legal<E: Abort + Threads + Wait + Pause + Sync>(
    rt: &E,
    alloc: Global,
    journal: &[u8],
) -> bool {
    let mut source = source(alloc, journal, &[]);
    let mut sink = sink(rt, alloc, 1000, &[]);
    let mut spawner = spawner(alloc, &[]);
    numbers(rt, alloc, "check", &mut source, &mut sink, &mut spawner) == (0, 0)
}
