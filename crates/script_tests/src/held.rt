//! A start that is held until a client has read its clock, and a callback has heard that the job is running.
ghost use Rattle.std.specs.Prelude.{None};
ghost use Rattle.drmaa_types.specs.Readings.{nobodys, step_reading};
ghost use Rattle.child_spawner.specs.Spawners.{plain_fate};

use crate::flags::Flags;
use crate::settings::{is_legal, sink, source, times, words};
use byte_streams::{MemorySink, MemorySource};
use call_history::Bell;
use change_callbacks::{Callback, Callbacks};
use child_spawner::{Child, Spawner};
use drmaa_script::{Outcome, run};
use drmaa_types::{
    CallerId, CallersClock, Clock, Clocks, Exit, Failed, JobId, JobState, Moment, Notification,
    SignalKind, StepClock, TextList,
};
use std::alloc::Global;
use std::sync::Wait;
use std::thread::Threads;
use std::time::Clock as Pause;

/// Setup registers a callback and runs a job. A client waits for its end, for 5,000,000 seconds at most.
const SCRIPT: &str =
    "machine 4 \"node1\" suspend\ntemplate t\ncommand \"true\"\nend\nsetup\ncreate-jobs s \"s\"\nregister\nrun j s t\nend\nclient\nwait-terminated s 5000000 j\nend\n";

/// A child that has ended with code 0.
#[derive(Drop)]
struct EndedChild;

impl Child for EndedChild {
    ghost faults = { λ _. 0 };

    ghost told = { λ _. None };

    fn poll(&mut self) -> Result<Option<Exit>, Failed> {
        Ok(Some(Exit::Code(0)))
    }

    fn signal(&mut self, _kind: SignalKind) -> Result<(), Failed> {
        Ok(())
    }
}

/// A spawner whose starts are held until its flags are raised.
#[derive(Drop)]
struct HeldSpawner<'a> {
    flags: &'a Flags,
    starts: u32,
    freed: bool,
}

impl<'a> HeldSpawner<'a> {
    /// Nothing was started.
    fn new(flags: &'a Flags) -> HeldSpawner<'a> {
        HeldSpawner {
            flags,
            starts: 0,
            freed: false,
        }
    }
}

impl Spawner for HeldSpawner<'_> {
    type One = EndedChild;

    ghost faults = { λ _. 0 };

    ghost asked = { λ _. None };

    ghost fate = { λ _ _. plain_fate };

    fn start(
        &mut self,
        _job: JobId,
        _attempt: u32,
        _words: &TextList,
    ) -> Result<EndedChild, Failed> {
        self.starts = self.starts.saturating_add(1);
        self.freed = self.flags.hold();
        Ok(EndedChild)
    }
}

/// A clock that gives 0, 1 and so on. A client's one raises a flag at each reading.
#[derive(Drop)]
struct RaisingClock<'a> {
    clock: StepClock,
    flags: Option<&'a Flags>,
}

impl Clock for RaisingClock<'_> {
    ghost given = { λ _. nobodys None };

    ghost least = { λ c. step_reading c.clock.first c.clock.step c.clock.count };

    fn now(&mut self) -> Moment {
        let reading = self.clock.now();
        if let Some(flags) = self.flags {
            flags.clock_read();
        }
        reading
    }
}

/// A clock for each caller, of which that of caller 1 is a client's.
#[derive(Drop)]
struct RaisingClocks<'a> {
    flags: &'a Flags,
}

impl<'a> Clocks for RaisingClocks<'a> {
    type One = CallersClock<RaisingClock<'a>>;

    fn clock(&self, caller: CallerId) -> CallersClock<RaisingClock<'a>> {
        let clock = StepClock::new(Moment::new(0).unwrap_or(Moment::greatest()), 1);
        let flags = if caller.0 == 1 {
            Some(self.flags)
        } else {
            None
        };
        CallersClock::new(caller, RaisingClock { clock, flags })
    }
}

/// A callback that raises a flag once it hears that a job is running. It tells the number of calls alone.
#[derive(Drop)]
struct RaisingCallback<'a> {
    flags: &'a Flags,
    calls: u64,
}

impl Callback for RaisingCallback<'_> {
    ghost counted = { λ c. c.calls };

    ghost told = { λ _. None };

    fn notify(&mut self, n: &Notification) {
        if n.state == JobState::Running {
            self.flags.callback_heard();
        }
        self.calls = self.calls.saturating_add(1);
    }

    fn calls(&self) -> u64 {
        self.calls
    }

    fn heard(&self, _n: u64) -> Option<Notification> {
        None
    }
}

/// The callback alone, which has heard nothing. Where memory is wanting there is none, and then no test passes.
fn callbacks(alloc: Global, flags: &Flags) -> Callbacks<RaisingCallback<'_>> {
    let mut callbacks = Vec::new(alloc);
    let _ = callbacks.push(RaisingCallback { flags, calls: 0 });
    Callbacks::from_vec(callbacks)
}

/// The status of a run with these flags, how many clocks it gives back, and how many calls there were of its callback.
fn held<E: Threads + Wait + Pause + Sync>(
    rt: &E,
    alloc: Global,
    flags: &Flags,
    source: &mut MemorySource,
    sink: &mut MemorySink,
    spawner: &mut HeldSpawner,
) -> (u8, usize, Option<u64>) {
    let words = words(alloc, "threads");
    let clocks = RaisingClocks { flags };
    let bell = Bell::silent();
    let Outcome {
        status,
        callbacks,
        clocks,
    } = run(
        rt,
        alloc,
        &words,
        source,
        sink,
        &clocks,
        spawner,
        &bell,
        callbacks(alloc, flags),
    );
    let calls = callbacks
        .as_slice()
        .first()
        .map(|callback| callback.calls());
    (status.number(), clocks.as_slice().len(), calls)
}

/// The launcher is within a start while the client reads its clock, and while the hub hands over that the job is running: without
/// both the start is not freed.
#[test]
fn others_go_on_while_a_start_is_held(rt: HostRuntime) {
    let alloc = rt.alloc();
    let flags = Flags::new();
    let mut spawner = HeldSpawner::new(&flags);
    let mut source = source(alloc, SCRIPT.as_bytes(), &[]);
    let mut sink = sink(&rt, alloc, 1000, &[]);
    let told = held(&rt, alloc, &flags, &mut source, &mut sink, &mut spawner);
    let reached = times(sink.bytes(), " = reached 1\n");
    let legal = is_legal(&rt, alloc, sink.bytes());
    assert!(rt; told == (0, 5, Some(2)));
    assert!(rt; (spawner.starts, spawner.freed) == (1, true));
    assert!(rt; (reached, legal) == (1, true));
}
