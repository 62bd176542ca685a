//! The command that goes on from a journal.
ghost use Rattle.std.specs.Prelude.{◌≡◌, ◌≤◌, ◌⊎◌, ℕ, length, Option, Err, IfOk, IfSome, IsOk, OnOk};
ghost use Rattle.std.specs.Io.KnownBytes.{IsAtEnd};
ghost use Rattle.drmaa_types.specs.Counts.{Rose};
ghost use Rattle.drmaa_model.specs.History.{IsLegal};
ghost use Rattle.drmaa_model.specs.declared.replies.Reply.{Reply};
ghost use Rattle.journal_check.specs.Faults.{FirstFault};
ghost use Rattle.journal_text.specs.Journals.{IsWritable};
ghost use Rattle.journal_text.specs.Printing.{IsPrintable};
ghost use Rattle.script_text.specs.declared.scripts.Mode.TheVariants as mode;
ghost use Rattle.journal_commands.specs.Statuses.{IsQuiet, IsUnstarted, HasRead, HasWritten};
ghost use Rattle.journal_commands.specs.Texts.{IsReadOut};
ghost use Rattle.script_commands.specs.Continuing as continuing;
ghost use Rattle.script_commands.specs.Continuing.{ContinueEnds, ContinueIsWhole, Continues, ReadEnds, revived};
ghost use Rattle.script_commands.specs.Outcomes.{IsSpelled};
ghost use Rattle.script_commands.specs.Plays.{served_behind};
ghost use Rattle.script_commands.specs.Registers.{AreReturned};

use crate::ended::Ended;
use crate::inputs::read_continuation;
use crate::plays::{Output, play_to};
use crate::registers::are_enough;
use byte_streams::{Sink, Source};
use change_callbacks::{Callback, Callbacks};
use continued_text::Continued;
use drmaa_machine::Machine;
use journal_commands::Status;
use journal_text::Journal;
use revival::{ReviveFault, revive};
use script_play::each_script_can_be_played;
use script_text::Script;
use std::alloc::Global;

/// Why no machine goes on from a journal, as a status.
fn fault_status(fault: ReviveFault) -> Status
    ensures { result ≡ continuing.fault_status fault }
{
    match fault {
        ReviveFault::OutOfMemory => Status::Memory,
        ReviveFault::NotLegal {
            entry,
            given,
            machine,
        } => Status::NotLegal {
            entry,
            given,
            machine,
        },
    }
}

/// The machine that goes on from a journal, on which a script of the same machine may be played, and its journal printed then.
fn machine_from(alloc: Global, journal: Journal, script: &Script) -> Result<Machine, ReviveFault>
    requires writable { IsWritable journal.config journal.entries }
    requires spelled { IsSpelled mode.Serial script.now }
    requires same { script.now.config ≡ journal.config }
    ensures ok { IfOk result (λ machine. machine.ledger ≡ revived journal) }
    ensures legal { OnOk result (IsLegal journal.config journal.entries) }
    ensures few { length script.now.clients ≤ 32 }
    ensures printable { OnOk result (IsPrintable journal.config (served_behind (revived journal) script.now).history) }
    ensures fault { (entry : ℕ) (given : Reply) (machine : Option Reply) → result ≡ Err (ReviveFault.NotLegal entry given machine)
        → FirstFault journal.config journal.entries entry given machine }
    ensures only_legal { IsLegal journal.config journal.entries → IsOk result ⊎ (result ≡ Err ReviveFault.OutOfMemory) }
    ensures only_fault { (entry : ℕ) (given : Reply) (machine : Option Reply) → FirstFault journal.config journal.entries entry given machine
        → (result ≡ Err (ReviveFault.NotLegal entry given machine)) ⊎ (result ≡ Err ReviveFault.OutOfMemory) }
{
    each_script_can_be_played();
    revive(alloc, journal)
}

/// Plays a script on the machine that goes on from a journal, to these callbacks, if there are enough, and writes the journal then.
fn go_on<B: Callback, W: Sink>(
    alloc: Global,
    read: Continued,
    sink: &mut W,
    callbacks: Callbacks<B>,
) -> Ended<B>
    requires writable { IsWritable read.journal.config read.journal.entries }
    requires spelled { IsSpelled mode.Serial read.script }
    requires same { read.script.config ≡ read.journal.config }
    ensures ends { ReadEnds B.counted B.told read (W.written sink.old) (W.written sink.new) callbacks result.callbacks result.status }
    ensures finished { HasWritten result.status → W.finished sink.new }
    ensures fault { result.status ≡ Status.WriteFault → Rose (W.faults sink.old) (W.faults sink.new) }
    ensures untouched { IsQuiet result.status → sink.new ≡ sink.old }
    ensures whole { (Rose (W.faults sink.old) (W.faults sink.new) → ⊥) → (result.status ≡ Status.Memory) ⊎ Continues (length callbacks) read result.status }
    ensures returned { AreReturned B.counted B.told callbacks result.callbacks }
    ensures unheard { IsUnstarted result.status → result.callbacks ≡ callbacks }
{
    let Continued { journal, script } = read;
    if !are_enough(&script, callbacks.as_slice().len()) {
        return Ended {
            status: Status::Words,
            callbacks,
        };
    }
    match machine_from(alloc, journal, &script) {
        Ok(machine) => play_to(alloc, Output::Journal, &script, machine, sink, callbacks),
        Err(fault) => Ended {
            status: fault_status(fault),
            callbacks,
        },
    }
}

/// Reads a journal and a script of the same machine and queues behind it, plays the script on the machine that goes on from the
/// journal, which the callbacks hear, and writes the journal of all that this machine has served then. The jobs that the journal left
/// started are ended first, since their processes are gone.
pub fn run_continue<B: Callback, R: Source, W: Sink>(
    alloc: Global,
    source: &mut R,
    sink: &mut W,
    callbacks: Callbacks<B>,
) -> Ended<B>
    ensures ends { IfSome (R.left source.old) (λ bytes. ContinueEnds B.counted B.told bytes (W.written sink.old) (W.written sink.new) callbacks result.callbacks result.status) }
    ensures words { result.status ≡ Status.Words → IsAtEnd (R.left source.new) }
    ensures read_whole { HasRead result.status → IsAtEnd (R.left source.new) }
    ensures read_out { (line : ℕ) → result.status ≡ Status.Text line → IsReadOut 268_435_456 (R.left source.old) (R.left source.new) }
    ensures finished { HasWritten result.status → W.finished sink.new }
    ensures read_fault { result.status ≡ Status.ReadFault → Rose (R.faults source.old) (R.faults source.new) }
    ensures write_fault { result.status ≡ Status.WriteFault → Rose (W.faults sink.old) (W.faults sink.new) }
    ensures untouched { IsQuiet result.status → sink.new ≡ sink.old }
    ensures whole { (Rose (R.faults source.old) (R.faults source.new) → ⊥) → (Rose (W.faults sink.old) (W.faults sink.new) → ⊥)
        → IfSome (R.left source.old) (λ bytes. ContinueIsWhole (length callbacks) bytes result.status) }
    ensures returned { AreReturned B.counted B.told callbacks result.callbacks }
    ensures unheard { IsUnstarted result.status → result.callbacks ≡ callbacks }
{
    match read_continuation(alloc, source) {
        Ok(read) => go_on(alloc, read, sink, callbacks),
        Err(status) => Ended { status, callbacks },
    }
}
