//! The commands of the program.
ghost use Rattle.std.specs.Prelude.{◌≡◌, ◌≢◌, ◌⊎◌, ℕ, [], true, length, IfOk, IfSome, MatchBool, MatchOption, Ok, None};
ghost use Rattle.std.specs.List.{list_any};
ghost use Rattle.std.specs.Io.KnownBytes.{IsAtEnd};
ghost use Rattle.drmaa_types.specs.Counts.{Rose};
ghost use Rattle.journal_commands.specs.Texts.{IsReadOut};
ghost use Rattle.script_asks.specs.Plays.{serial_play};
ghost use Rattle.script_play.specs.Callbacks.{HearHistory, HearFront};
ghost use Rattle.script_text.specs.declared.scripts.Mode.TheVariants as mode;
ghost use Rattle.script_text.specs.declared.scripts.Script.{Script};
ghost use Rattle.command_words.specs.Commands.{IsRanged, begins_dash};
ghost use Rattle.command_words.specs.declared.commands.SoakWords.{SoakWords};
ghost use Rattle.journal_commands.specs.Outcomes.{CameTo, JournalEnds, JournalIsWhole};
ghost use Rattle.drmaa_script.specs.Commands.{Asks, CanRun, NamesNone};
ghost use Rattle.drmaa_script.specs.Left.{LeftByCommand};
ghost use Rattle.drmaa_script.specs.Runs.{AreCallersClocks, HadCallers};
ghost use Rattle.drmaa_script.specs.Soaking.{SoakEnds};
ghost use Rattle.drmaa_script.specs.Endings.{Ends, IsWhole, MayEnd, PlaysAlone, IsDeaf, Reads, limit_of, WritesJournal, HandsClocks, Starts};
ghost use Rattle.script_commands.specs.Outcomes.{IsScriptText, IsWritten};
ghost use Rattle.script_commands.specs.Registers.{HasPlayed, AreReturned};
ghost use Rattle.journal_commands.specs.Statuses.{IsQuiet, HasRead, HasWritten, IsUnstarted};

use crate::outcomes::{Outcome, without_clocks};
use crate::soaks::run_soak;
use crate::threads::run_threads;
use byte_streams::{Sink, Source};
use call_history::Bell;
use change_callbacks::{Callback, Callbacks};
use child_spawner::Spawner;
use command_words::{Command, command_of};
use drmaa_types::{Clocks, TextList};
use journal_commands::{
    Check, Forecast, JournalCommand, Json, Migrate, OfLegal, Recur, Status, has_occurrences,
    run_journal,
};
use script_commands::{Ended, Output, run_continue, run_play};
use std::alloc::{AllocError, Global};
use std::sync::Wait;
use std::thread::Threads;
use std::time::Clock as Pause;

/// The command that the words ask for, if any. Where they ask for reservations that recur, there have to be some.
fn command_in(alloc: Global, words: &TextList) -> Result<Option<Command>, AllocError>
    ensures named { IfOk result (λ o. MatchOption o (NamesNone words.now) (Asks words.now)) }
    ensures dashed { list_any begins_dash words.now ≡ true → result ≡ Ok None }
    ensures wordless { words.now ≡ [] → result ≡ Ok None }
{
    let Some(command) = command_of(alloc, words)? else {
        return Ok(None);
    };
    if can_run(alloc, &command)? {
        Ok(Some(command))
    } else {
        Ok(None)
    }
}

/// Whether a command can be run: one that requests reservations, where there are some to request.
fn can_run(alloc: Global, command: &Command) -> Result<bool, AllocError>
    ensures { IfOk result (λ can. MatchBool can (CanRun command.now) (CanRun command.now → ⊥)) }
{
    match command {
        Command::Recur(words) => has_occurrences(alloc, words),
        _ => Ok(true),
    }
}

/// Runs a command on a journal. It has no callers, and callbacks hear nothing of it.
fn run_deaf<J: JournalCommand, R: Source, W: Sink, C, B: Callback>(
    alloc: Global,
    command: J,
    source: &mut R,
    sink: &mut W,
    callbacks: Callbacks<B>,
) -> Outcome<C, B>
    ensures ends { IfSome (R.left source.old) (λ bytes. JournalEnds (J.Writes command) (J.Refuses command) bytes result.status (W.written sink.old) (W.written sink.new)) }
    ensures came { CameTo (J.Writes command) (J.Refuses command) result.status }
    ensures words { result.status ≢ Status.Words }
    ensures read_whole { HasRead result.status → IsAtEnd (R.left source.new) }
    ensures read_out { (line : ℕ) → result.status ≡ Status.Text line → IsReadOut 268_435_456 (R.left source.old) (R.left source.new) }
    ensures finished { HasWritten result.status → W.finished sink.new }
    ensures read_fault { result.status ≡ Status.ReadFault → Rose (R.faults source.old) (R.faults source.new) }
    ensures write_fault { result.status ≡ Status.WriteFault → Rose (W.faults sink.old) (W.faults sink.new) }
    ensures untouched { IsQuiet result.status → sink.new ≡ sink.old }
    ensures whole { (Rose (R.faults source.old) (R.faults source.new) → ⊥) → (Rose (W.faults sink.old) (W.faults sink.new) → ⊥)
        → IfSome (R.left source.old) (λ bytes. JournalIsWhole (J.Decides command) bytes result.status) }
    ensures clocks { result.clocks ≡ [] }
    ensures returned { AreReturned B.counted B.told callbacks result.callbacks }
    ensures deaf { result.callbacks ≡ callbacks }
{
    let status = run_journal(alloc, command, source, sink);
    without_clocks(alloc, Ended { status, callbacks })
}

/// Runs a command on a source and a sink.
fn run_command<
    E: Threads + Wait + Pause + Sync,
    R: Source,
    W: Sink,
    K: Clocks,
    S: Spawner + Send,
    B: Callback + Send,
>(
    rt: &E,
    alloc: Global,
    command: Command,
    source: &mut R,
    sink: &mut W,
    clocks: &K,
    spawner: &mut S,
    bell: &Bell,
    callbacks: Callbacks<B>,
) -> Outcome<K::One, B>
    requires ranged { IsRanged command }
    ensures { LeftByCommand B.counted B.told K.One.given R.left R.faults W.written W.faults W.finished S.asked S.fate
        command source.old source.new sink.old sink.new spawner.old spawner.new callbacks result.callbacks result.clocks result.status }
{
    match command {
        Command::Serial => without_clocks(
            alloc,
            run_play(alloc, Output::Journal, source, sink, callbacks),
        ),
        Command::Threads => run_threads(rt, alloc, source, sink, clocks, spawner, bell, callbacks),
        Command::Table => without_clocks(
            alloc,
            run_play(alloc, Output::Listing, source, sink, callbacks),
        ),
        Command::Continue => { without_clocks(alloc, run_continue(alloc, source, sink, callbacks)) }
        Command::Check => run_deaf(alloc, OfLegal { command: Check }, source, sink, callbacks),
        Command::Migrate => run_deaf(alloc, Migrate, source, sink, callbacks),
        Command::Json => run_deaf(alloc, Json, source, sink, callbacks),
        Command::Forecast => run_deaf(
            alloc,
            OfLegal { command: Forecast },
            source,
            sink,
            callbacks,
        ),
        Command::Recur(words) => run_deaf(
            alloc,
            OfLegal {
                command: Recur { words },
            },
            source,
            sink,
            callbacks,
        ),
        Command::Soak(words) => {
            let status = run_soak(alloc, &words, sink);
            without_clocks(alloc, Ended { status, callbacks })
        }
    }
}

/// Nothing was begun, for want of a command or of memory.
fn unbegun<C, B: Callback>(alloc: Global, status: Status, callbacks: Callbacks<B>) -> Outcome<C, B>
    ensures status { result.status ≡ status }
    ensures clocks { result.clocks ≡ [] }
    ensures returned { AreReturned B.counted B.told callbacks result.callbacks }
    ensures deaf { result.callbacks ≡ callbacks }
{
    without_clocks(alloc, Ended { status, callbacks })
}

/// Runs the command that the words ask for. `serial`, `threads` and `table` read a script from the source. `serial` and `table` play
/// it on one thread: `serial` writes the journal to the sink, `table` the listing of all jobs. `threads` plays it by a thread for each
/// client, beside launcher and reaper, who start its jobs by the spawner, at the moments of the callers' clocks, and writes the
/// journal. Where the play stops for the journal's size, all three write the journal of the entries made. `check`, `migrate`, `json`,
/// `forecast` and `recur` read a journal of either version: `check` writes how many entries it has, where it is legal; `migrate`
/// writes it as version 2 and `json` its JSON form, legal or not; `forecast` writes when the jobs that wait would start, and `recur`
/// the journal with requests of reservations that recur, where it is legal. `continue` reads a journal and behind it a script of the
/// same machine and queues, plays the script on the machine that goes on from the journal, and writes the journal of all that this
/// machine has served then. `soak` reads nothing: it makes a script of so many steps, by numbers drawn from a seed, plays it on one
/// thread, and writes what came of it in numbers. With `threads` it may wait for good.
///
/// A callback hears each change of a job's state behind the `register` line that is answered its number: the nth callback behind the
/// nth such line, for the first 64. A script with more such lines than there are callbacks is not played: the status is Words.
///
/// The clauses speak of the bytes that the source had left and that the sink was given, of the readings that the clocks gave, of
/// what was asked of the spawner, and of what the callbacks heard, where these are told.
pub fn run<
    E: Threads + Wait + Pause + Sync,
    R: Source,
    W: Sink,
    K: Clocks,
    S: Spawner + Send,
    B: Callback + Send,
>(
    rt: &E,
    alloc: Global,
    words: &TextList,
    source: &mut R,
    sink: &mut W,
    clocks: &K,
    spawner: &mut S,
    bell: &Bell,
    callbacks: Callbacks<B>,
) -> Outcome<K::One, B>
    // What each status says of the bytes that were read, and what was written then.
    ensures ends { (command : Command) → Asks words.now command
        → IfSome (R.left source.old) (λ bytes. Ends B.counted B.told K.One.given command bytes (W.written sink.old) (W.written sink.new)
        (S.asked spawner.old) (S.asked spawner.new) (S.fate spawner.new) result.clocks callbacks result.callbacks result.status) }
    ensures read_whole { (command : Command) → Asks words.now command → Reads command → HasRead result.status → IsAtEnd (R.left source.new) }
    ensures read_out { (command : Command) (line : ℕ) → Asks words.now command → Reads command → result.status ≡ Status.Text line
        → IsReadOut (limit_of command) (R.left source.old) (R.left source.new) }
    ensures finished { HasWritten result.status → W.finished sink.new }
    ensures untouched { IsQuiet result.status → sink.new ≡ sink.old }

    // Words that are no command, and then nothing is read; or a script that was read whole. Whether words are a command may want
    // memory, but not where one begins with `-`, or where there are none.
    ensures words { NamesNone words.now → (result.status ≡ Status.Words) ⊎ (result.status ≡ Status.Memory) }
    ensures dashed { list_any begins_dash words.now ≡ true → result.status ≡ Status.Words }
    ensures wordless { words.now ≡ [] → result.status ≡ Status.Words }
    ensures unread { NamesNone words.now → source.new ≡ source.old }
    ensures words_read { result.status ≡ Status.Words → NamesNone words.now ⊎ IsAtEnd (R.left source.new) }

    // What `soak` comes to, which reads nothing; and what each command can come to at all, whatever the source tells.
    ensures soaks { (soak : SoakWords) → Asks words.now (Command.Soak soak) → SoakEnds soak (W.written sink.old) (W.written sink.new) result.status }
    ensures unread_soak { (soak : SoakWords) → Asks words.now (Command.Soak soak) → source.new ≡ source.old }
    ensures possible { (command : Command) → Asks words.now command → MayEnd command result.status }

    // The causes of faults.
    ensures read_fault { result.status ≡ Status.ReadFault → Rose (R.faults source.old) (R.faults source.new) }
    ensures write_fault { result.status ≡ Status.WriteFault → Rose (W.faults sink.old) (W.faults sink.new) }

    // Without a fault the bytes decide, unless memory runs out.
    ensures whole { (command : Command) → Asks words.now command
        → (Rose (R.faults source.old) (R.faults source.new) → ⊥) → (Rose (W.faults sink.old) (W.faults sink.new) → ⊥)
        → IfSome (R.left source.old) (λ bytes. IsWhole command (length callbacks) bytes result.status) }

    // A journal of a play on one thread that is written is legal, and can be read again, as no other.
    ensures writable { (command : Command) → Asks words.now command → WritesJournal command result.status
        → IfSome (R.left source.old) (λ bytes. (script : Script) → IsScriptText mode.Serial bytes script → IsWritten script) }

    // Clocks come back from a run of threads that was played, whatever the source tells: at each place the one that was handed out to
    // the caller of this number, and so many. Only such a run asks the spawner: not one whose words, reading or text stopped it. Its
    // fates stay.
    ensures clocks { ((command : Command) → Asks words.now command → HandsClocks command result.status → ⊥) → result.clocks ≡ [] }
    ensures whose { AreCallersClocks K.One.given result.clocks }
    ensures callers { (command : Command) → Asks words.now command → HandsClocks command result.status → HadCallers result.status (length result.clocks) }
    ensures unasked { ((command : Command) → Asks words.now command → Starts command → ⊥) → spawner.new ≡ spawner.old }
    ensures unstarted { IsUnstarted result.status → spawner.new ≡ spawner.old }
    ensures fates { S.fate spawner.new ≡ S.fate spawner.old }

    // Each callback heard, of a play on one thread, what its history has for its number, and nothing else; where memory ran out, what a
    // beginning of that history has, the same one for all. Of a run in threads `ends` says what was heard. At each status as
    // many come back, each with more heard or not, and as they were where words, reading or text stopped it.
    ensures heard { (command : Command) → Asks words.now command → PlaysAlone command → HasPlayed result.status
        → IfSome (R.left source.old) (λ bytes. (script : Script) → IsScriptText mode.Serial bytes script
        → HearHistory B.counted B.told script.config (serial_play script).entries callbacks result.callbacks) }
    ensures heard_front { (command : Command) → Asks words.now command → PlaysAlone command → result.status ≡ Status.Memory
        → IfSome (R.left source.old) (λ bytes. (script : Script) → IsScriptText mode.Serial bytes script
        → HearFront B.counted B.told script.config (serial_play script).entries callbacks result.callbacks) }
    ensures returned { AreReturned B.counted B.told callbacks result.callbacks }
    ensures unheard { IsUnstarted result.status → result.callbacks ≡ callbacks }
    ensures unnamed { NamesNone words.now → result.callbacks ≡ callbacks }
    ensures deaf { (command : Command) → Asks words.now command → IsDeaf command → result.callbacks ≡ callbacks }
{
    match command_in(alloc, words) {
        Ok(Some(command)) => run_command(
            rt, alloc, command, source, sink, clocks, spawner, bell, callbacks,
        ),
        Ok(None) => unbegun(alloc, Status::Words, callbacks),
        Err(_) => unbegun(alloc, Status::Memory, callbacks),
    }
}
