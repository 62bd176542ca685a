//! The command that plays a script in threads.
ghost use Rattle.std.specs.Prelude.{◌≡◌, ◌<◌, ◌≤◌, ℕ, [], length, None, IfSome, IfOk, Ok};
ghost use Rattle.std.specs.Io.KnownBytes.{IsAtEnd};
ghost use Rattle.drmaa_types.specs.Counts.{Rose};
ghost use Rattle.change_callbacks.specs.Ears.{HaveHeard};
ghost use Rattle.script_play.specs.Callbacks.{HearHistory};
ghost use Rattle.script_text.specs.declared.scripts.Mode.TheVariants as mode;
ghost use Rattle.thread_play.specs.Hubs.{HearRun};
ghost use Rattle.journal_commands.specs.Texts.{IsReadOut};
ghost use Rattle.script_commands.specs.Outcomes.{IsSpelled, IsOfScript};
ghost use Rattle.script_commands.specs.Registers.{registers_of, AreReturned};
ghost use Rattle.drmaa_script.specs.Runs.{RunEnds, RunIsWhole, LeavesClocks, AreCallersClocks, HadCallers, IsRunEnd};
ghost use Rattle.drmaa_script.specs.Running.{IsTextOfRun, RanEnds};
ghost use Rattle.journal_commands.specs.Statuses.{IsQuiet, HasRead, HasWritten, IsUnstarted};

use crate::outcomes::Outcome;
use byte_streams::{Sink, Source, write_all};
use call_history::Bell;
use change_callbacks::{Callback, Callbacks};
use child_spawner::Spawner;
use drmaa_types::{Bytes, Clocks};
use journal_commands::{Status, ended_as};
use journal_text::journal_bytes;
use notify_hub::Hub;
use script_commands::{are_enough, read_script};
use script_text::{Mode, Script};
use std::alloc::{AllocError, Global};
use std::sync::Wait;
use std::thread::Threads;
use std::time::Clock as Pause;
use thread_play::{ClockList, Run, a_run_is_printable, play_threads};

/// What is written of a run, and what it leaves.
#[derive(Drop)]
struct RunText<C> {
    bytes: Bytes,
    /// The size that stopped the run.
    full: Option<u64>,
    clocks: ClockList<C>,
}

/// The bytes of a run's journal, if there are, with what else the run leaves.
fn text_with<C: Drop>(
    bytes: Result<Bytes, AllocError>,
    run: Run<C>,
) -> Result<RunText<C>, AllocError>
    ensures { IfOk result (λ text. (bytes ≡ Ok text.bytes) × (text.full ≡ run.full) × (text.clocks ≡ run.clocks)) }
{
    Ok(RunText {
        bytes: bytes?,
        full: run.full,
        clocks: run.clocks,
    })
}

/// Plays a script in threads, which the hub's callbacks hear, and gives its journal.
fn run_text<E: Threads + Wait + Pause + Sync, K: Clocks, S: Spawner + Send, B: Callback + Send>(
    rt: &E,
    alloc: Global,
    script: &Script,
    clocks: &K,
    spawner: &mut S,
    bell: &Bell,
    hub: &mut Hub<B>,
) -> Result<RunText<K::One>, AllocError>
    requires spelled { IsSpelled mode.Threads script.now }
    requires new { hub.old.note ≡ None }
    ensures text { IfOk result (λ text. IsTextOfRun K.One.given script.now text.bytes (S.asked spawner.old) (S.asked spawner.new) (S.fate spawner.new) text.clocks text.full
        (λ history. HearRun script.now.config history hub.new)) }
    ensures fates { S.fate spawner.new ≡ S.fate spawner.old }
    ensures begun { hub.new.ears.begun ≡ hub.old.ears.begun }
    ensures heard { HaveHeard B.counted B.told hub.old.ears → HaveHeard B.counted B.told hub.new.ears }
{
    a_run_is_printable::<K>();
    let played = play_threads(rt, alloc, script, clocks, spawner, bell, hub)?;
    let machine = &played.machine;
    let bytes = journal_bytes(alloc, machine.config(), machine.entries());
    text_with(bytes, played)
}

/// How a run ended, and the clocks that it leaves.
#[derive(Drop)]
struct Ran<C> {
    status: Status,
    clocks: ClockList<C>,
}

/// Plays a script in threads, which the hub's callbacks hear, and writes its journal.
fn write_run<
    E: Threads + Wait + Pause + Sync,
    W: Sink,
    K: Clocks,
    S: Spawner + Send,
    B: Callback + Send,
>(
    rt: &E,
    alloc: Global,
    script: &Script,
    sink: &mut W,
    clocks: &K,
    spawner: &mut S,
    bell: &Bell,
    hub: &mut Hub<B>,
) -> Ran<K::One>
    requires spelled { IsSpelled mode.Threads script.now }
    requires new { hub.old.note ≡ None }
    requires enough { registers_of script.now ≤ length hub.old.ears.begun }
    ensures ends { RanEnds K.One.given script.now (length hub.old.ears.begun) (λ history. HearRun script.now.config history hub.new) (W.written sink.old) (W.written sink.new)
        (S.asked spawner.old) (S.asked spawner.new) (S.fate spawner.new) result.clocks result.status }
    ensures finished { HasWritten result.status → W.finished sink.new }
    ensures fault { result.status ≡ Status.WriteFault → Rose (W.faults sink.old) (W.faults sink.new) }
    ensures untouched { IsQuiet result.status → sink.new ≡ sink.old }
    ensures whole { (Rose (W.faults sink.old) (W.faults sink.new) → ⊥) → IsRunEnd result.status }
    ensures clocks { (LeavesClocks result.status → ⊥) → result.clocks ≡ [] }
    ensures begins { IsUnstarted result.status → ⊥ }
    ensures fates { S.fate spawner.new ≡ S.fate spawner.old }
    ensures begun { hub.new.ears.begun ≡ hub.old.ears.begun }
    ensures heard { HaveHeard B.counted B.told hub.old.ears → HaveHeard B.counted B.told hub.new.ears }
{
    let Ok(text) = run_text(rt, alloc, script, clocks, spawner, bell, hub) else {
        return Ran {
            status: Status::Memory,
            clocks: ClockList::new(alloc),
        };
    };
    let RunText {
        bytes,
        full,
        clocks,
    } = text;
    match write_all(sink, bytes.as_slice()) {
        Ok(()) => Ran {
            status: ended_as(full),
            clocks,
        },
        Err(_) => Ran {
            status: Status::WriteFault,
            clocks: ClockList::new(alloc),
        },
    }
}

/// Plays a script in threads to these callbacks, if there are enough, and writes its journal.
fn run_to<
    E: Threads + Wait + Pause + Sync,
    W: Sink,
    K: Clocks,
    S: Spawner + Send,
    B: Callback + Send,
>(
    rt: &E,
    alloc: Global,
    script: &Script,
    sink: &mut W,
    clocks: &K,
    spawner: &mut S,
    bell: &Bell,
    callbacks: Callbacks<B>,
) -> Outcome<K::One, B>
    requires { IsSpelled mode.Threads script.now }
    ensures possible { IsOfScript result.status }
    ensures ends { RanEnds K.One.given script.now (length callbacks) (λ history. HearHistory B.counted B.told script.now.config history callbacks result.callbacks)
        (W.written sink.old) (W.written sink.new) (S.asked spawner.old) (S.asked spawner.new) (S.fate spawner.new) result.clocks result.status }
    ensures finished { HasWritten result.status → W.finished sink.new }
    ensures fault { result.status ≡ Status.WriteFault → Rose (W.faults sink.old) (W.faults sink.new) }
    ensures untouched { IsQuiet result.status → sink.new ≡ sink.old }
    ensures enough { registers_of script.now ≤ length callbacks → (Rose (W.faults sink.old) (W.faults sink.new) → ⊥) → IsRunEnd result.status }
    ensures few { length callbacks < registers_of script.now → result.status ≡ Status.Words }
    ensures clocks { (LeavesClocks result.status → ⊥) → result.clocks ≡ [] }
    ensures unstarted { IsUnstarted result.status → spawner.new ≡ spawner.old }
    ensures fates { S.fate spawner.new ≡ S.fate spawner.old }
    ensures returned { AreReturned B.counted B.told callbacks result.callbacks }
    ensures unheard { IsUnstarted result.status → result.callbacks ≡ callbacks }
{
    if !are_enough(script, callbacks.as_slice().len()) {
        return Outcome {
            status: Status::Words,
            callbacks,
            clocks: ClockList::new(alloc),
        };
    }
    let mut hub = match Hub::new(alloc, callbacks) {
        Ok(hub) => hub,
        Err(callbacks) => {
            return Outcome {
                status: Status::Memory,
                callbacks,
                clocks: ClockList::new(alloc),
            };
        }
    };
    let Ran { status, clocks } = write_run(
        rt, alloc, script, sink, clocks, spawner, bell, &mut hub,
    );
    Outcome {
        status,
        callbacks: hub.take_back(),
        clocks,
    }
}

/// Reads a script, plays it in threads, which the callbacks hear, and writes its journal.
pub fn run_threads<
    E: Threads + Wait + Pause + Sync,
    R: Source,
    W: Sink,
    K: Clocks,
    S: Spawner + Send,
    B: Callback + Send,
>(
    rt: &E,
    alloc: Global,
    source: &mut R,
    sink: &mut W,
    clocks: &K,
    spawner: &mut S,
    bell: &Bell,
    callbacks: Callbacks<B>,
) -> Outcome<K::One, B>
    ensures ends { IfSome (R.left source.old) (λ bytes. RunEnds B.counted B.told K.One.given bytes (W.written sink.old) (W.written sink.new)
        (S.asked spawner.old) (S.asked spawner.new) (S.fate spawner.new) result.clocks callbacks result.callbacks result.status) }
    ensures possible { IsOfScript result.status }
    ensures words { result.status ≡ Status.Words → IsAtEnd (R.left source.new) }
    ensures read_whole { HasRead result.status → IsAtEnd (R.left source.new) }
    ensures read_out { (line : ℕ) → result.status ≡ Status.Text line → IsReadOut 16_777_216 (R.left source.old) (R.left source.new) }
    ensures finished { HasWritten result.status → W.finished sink.new }
    ensures read_fault { result.status ≡ Status.ReadFault → Rose (R.faults source.old) (R.faults source.new) }
    ensures write_fault { result.status ≡ Status.WriteFault → Rose (W.faults sink.old) (W.faults sink.new) }
    ensures untouched { IsQuiet result.status → sink.new ≡ sink.old }
    ensures whole { (Rose (R.faults source.old) (R.faults source.new) → ⊥) → (Rose (W.faults sink.old) (W.faults sink.new) → ⊥)
        → IfSome (R.left source.old) (λ bytes. RunIsWhole (length callbacks) bytes result.status) }
    ensures clocks { (LeavesClocks result.status → ⊥) → result.clocks ≡ [] }
    ensures whose { AreCallersClocks K.One.given result.clocks }
    ensures callers { HadCallers result.status (length result.clocks) }
    ensures unstarted { IsUnstarted result.status → spawner.new ≡ spawner.old }
    ensures fates { S.fate spawner.new ≡ S.fate spawner.old }
    ensures returned { AreReturned B.counted B.told callbacks result.callbacks }
    ensures unheard { IsUnstarted result.status → result.callbacks ≡ callbacks }
{
    match read_script(alloc, Mode::Threads, source) {
        Ok(script) => run_to(rt, alloc, &script, sink, clocks, spawner, bell, callbacks),
        Err(status) => Outcome {
            status,
            callbacks,
            clocks: ClockList::new(alloc),
        },
    }
}
