//! The commands that play a script.
ghost use Rattle.std.specs.Prelude.{◌≡◌, ◌≤◌, ◌⊎◌, ℕ, length, IfSome, IfOk, OnOk, OnErr};
ghost use Rattle.std.specs.Io.KnownBytes.{IsAtEnd};
ghost use Rattle.drmaa_types.specs.Counts.{Rose};
ghost use Rattle.drmaa_model.specs.History.{now_of};
ghost use Rattle.drmaa_model.specs.Infos.{infos};
ghost use Rattle.journal_text.specs.Printing.{IsPrintable};
ghost use Rattle.monitor_session.specs.Listings.{listing_text};
ghost use Rattle.change_callbacks.specs.Ears.{HaveHeard, silent};
ghost use Rattle.change_callbacks.specs.Places.{registrations_of};
ghost use Rattle.script_asks.specs.Plays.{serial_play};
ghost use Rattle.script_play.specs.Callbacks.{AreCurrentAfter, HaveFrontAfter, HearHistory, HearFront, HearHistoryAfter, HearFrontAfter};
ghost use Rattle.script_play.specs.View.{start_of};
ghost use Rattle.script_text.specs.declared.scripts.Mode.TheVariants as mode;
ghost use Rattle.script_text.specs.declared.scripts.Script.{Script};
ghost use Rattle.text_codec.specs.Formats.{choose};
ghost use Rattle.journal_commands.specs.Statuses.{IsQuiet, IsUnstarted, HasRead, HasWritten, ended_as};
ghost use Rattle.journal_commands.specs.Texts.{IsReadOut};
ghost use Rattle.script_commands.specs.Outcomes.{IsSpelled, IsScriptText, IsWritten, HasJournal, WritesPlay, IsOfScript, PlayEnds, PlayIsWhole, PlayedEnds, own_of};
ghost use Rattle.script_commands.specs.Plays.{new_machine, play_behind, served_behind, ledger_text, own_text, own_behind, text_behind, IsWrittenBy};
ghost use Rattle.script_commands.specs.Registers.{registers_of, end_behind, HasPlayed, AreReturned};

use crate::ended::Ended;
use crate::inputs::read_script;
use crate::registers::are_enough;
use byte_streams::{Sink, Source, write_all};
use change_callbacks::{Callback, Callbacks, Ears};
use drmaa_machine::Machine;
use drmaa_types::Bytes;
use journal_commands::{Status, ended_as};
use journal_text::journal_bytes;
use monitor_session::listing;
use script_journals::a_play_is_printable;
use script_play::{Played, each_script_can_be_played, new_machine, play_on};
use script_text::{Mode, Script};
use std::alloc::{AllocError, Global};

/// What is written of a play that was whole.
#[derive(Clone, Copy, Debug, PartialEq, Eq)]
pub enum Output {
    Journal,
    Listing,
}

/// What is written of a play.
#[derive(Drop)]
struct PlayText {
    bytes: Bytes,
    /// The size that stopped the play.
    full: Option<u64>,
}

/// The journal of all that a machine has served. It is writable and legal.
fn journal_of(alloc: Global, machine: &Machine) -> Result<Bytes, AllocError>
    requires printable { IsPrintable machine.now.ledger.config machine.now.ledger.history }
    ensures text { IfOk result (λ bytes. bytes ≡ ledger_text machine.now.ledger) }
    ensures writable { OnOk result (IsWrittenBy machine.now.ledger) }
{
    journal_bytes(alloc, machine.config(), machine.entries())
}

/// The listing of all jobs of a machine.
fn listing_of(alloc: Global, machine: &Machine) -> Result<Bytes, AllocError>
    ensures { IfOk result (λ bytes. bytes ≡ listing_text (infos (now_of machine.now.ledger))) }
{
    let Ok(infos) = machine.infos() else {
        return Err(AllocError);
    };
    let Ok(text) = listing(alloc, &infos) else {
        return Err(AllocError);
    };
    Ok(Bytes::from_vec(Vec::from_slice(alloc, text.as_str().as_bytes())?))
}

/// What is written of a play that was whole.
fn own_text(alloc: Global, output: Output, machine: &Machine) -> Result<Bytes, AllocError>
    requires printable { IsPrintable machine.now.ledger.config machine.now.ledger.history }
    ensures text { IfOk result (λ bytes. bytes ≡ own_text output machine.now.ledger) }
    ensures writable { output ≡ Output.Journal → OnOk result (IsWrittenBy machine.now.ledger) }
{
    match output {
        Output::Journal => journal_of(alloc, machine),
        Output::Listing => listing_of(alloc, machine),
    }
}

/// What is written of a play: the journal where the play stopped.
fn play_bytes(
    alloc: Global,
    output: Output,
    machine: &Machine,
    full: Option<u64>,
) -> Result<Bytes, AllocError>
    requires printable { IsPrintable machine.now.ledger.config machine.now.ledger.history }
    ensures text { IfOk result (λ bytes. bytes ≡ choose full (λ (size : ℕ). ledger_text machine.now.ledger) (own_text output machine.now.ledger)) }
    ensures writable { HasJournal output full → OnOk result (IsWrittenBy machine.now.ledger) }
{
    match full {
        Some(_) => journal_of(alloc, machine),
        None => own_text(alloc, output, machine),
    }
}

/// What is written of a play, and the size that stopped it.
fn text_of(alloc: Global, output: Output, played: &Played) -> Result<PlayText, AllocError>
    requires printable { IsPrintable played.now.machine.ledger.config played.now.machine.ledger.history }
    ensures text { IfOk result (λ text. text.bytes ≡ choose played.now.full (λ (size : ℕ). ledger_text played.now.machine.ledger) (own_text output played.now.machine.ledger)) }
    ensures full { IfOk result (λ text. text.full ≡ played.now.full) }
    ensures writable { HasJournal output played.now.full → OnOk result (IsWrittenBy played.now.machine.ledger) }
{
    let full = played.full;
    let bytes = play_bytes(alloc, output, &played.machine, full)?;
    Ok(PlayText { bytes, full })
}

/// Plays a script on a machine, which callbacks hear, and gives what is written of the play.
fn played_text<B: Callback>(
    alloc: Global,
    output: Output,
    script: &Script,
    machine: Machine,
    ears: &mut Ears<B>,
) -> Result<PlayText, AllocError>
    requires few { length script.now.clients ≤ 32 }
    requires printable { IsPrintable machine.ledger.config (served_behind machine.ledger script.now).history }
    requires silent { ears.old ≡ silent ears.old.begun }
    requires unheard { HaveHeard B.counted B.told ears.old }
    ensures text { IfOk result (λ text. text.bytes ≡ text_behind (own_behind output machine.ledger script.now) machine.ledger script.now) }
    ensures full { IfOk result (λ text. text.full ≡ (play_behind machine.ledger script.now).full) }
    ensures writable { HasJournal output (play_behind machine.ledger script.now).full → OnOk result (IsWrittenBy (served_behind machine.ledger script.now)) }
    ensures current { OnOk result (AreCurrentAfter B.counted B.told (registrations_of machine.ledger.config machine.ledger.history) (served_behind machine.ledger script.now) ears.new) }
    ensures front { OnErr result (HaveFrontAfter B.counted B.told machine.ledger.config (start_of machine.ledger) (play_behind machine.ledger script.now).entries ears.new) }
    ensures begun { ears.new.begun ≡ ears.old.begun }
    ensures heard { HaveHeard B.counted B.told ears.new }
{
    let played = play_on(alloc, script, machine, ears)?;
    text_of(alloc, output, &played)
}

/// Plays a script on a machine, which callbacks hear, and writes what is written of it.
fn write_play<B: Callback, W: Sink>(
    alloc: Global,
    output: Output,
    script: &Script,
    machine: Machine,
    sink: &mut W,
    ears: &mut Ears<B>,
) -> Status
    requires few { length script.now.clients ≤ 32 }
    requires printable { IsPrintable machine.ledger.config (served_behind machine.ledger script.now).history }
    requires enough { registers_of script.now ≤ length ears.old.begun }
    requires silent { ears.old ≡ silent ears.old.begun }
    requires unheard { HaveHeard B.counted B.told ears.old }
    ensures ends { PlayedEnds (own_behind output machine.ledger script.now) (length ears.old.begun) machine.ledger script.now result (W.written sink.old) (W.written sink.new) }
    ensures finished { HasWritten result → W.finished sink.new }
    ensures fault { result ≡ Status.WriteFault → Rose (W.faults sink.old) (W.faults sink.new) }
    ensures untouched { IsQuiet result → sink.new ≡ sink.old }
    ensures whole { (Rose (W.faults sink.old) (W.faults sink.new) → ⊥)
        → (result ≡ ended_as (play_behind machine.ledger script.now).full) ⊎ (result ≡ Status.Memory) }
    ensures begins { IsUnstarted result → ⊥ }
    ensures writable { WritesPlay output result → IsWrittenBy (served_behind machine.ledger script.now) }
    ensures current { HasPlayed result → AreCurrentAfter B.counted B.told (registrations_of machine.ledger.config machine.ledger.history) (served_behind machine.ledger script.now) ears.new }
    ensures front { result ≡ Status.Memory → HaveFrontAfter B.counted B.told machine.ledger.config (start_of machine.ledger) (play_behind machine.ledger script.now).entries ears.new }
    ensures begun { ears.new.begun ≡ ears.old.begun }
    ensures heard { HaveHeard B.counted B.told ears.new }
{
    let Ok(text) = played_text(alloc, output, script, machine, ears) else {
        return Status::Memory;
    };
    match write_all(sink, text.bytes.as_slice()) {
        Ok(()) => ended_as(text.full),
        Err(_) => Status::WriteFault,
    }
}

/// Plays a script on a machine to these callbacks, which are enough, and writes what is written of it. The first callback is that of
/// the first number that the machine has not given yet.
pub(crate) fn play_to<B: Callback, W: Sink>(
    alloc: Global,
    output: Output,
    script: &Script,
    machine: Machine,
    sink: &mut W,
    callbacks: Callbacks<B>,
) -> Ended<B>
    requires few { length script.now.clients ≤ 32 }
    requires printable { IsPrintable machine.ledger.config (served_behind machine.ledger script.now).history }
    requires enough { registers_of script.now ≤ length callbacks }
    ensures ends { PlayedEnds (own_behind output machine.ledger script.now) (length callbacks) machine.ledger script.now result.status (W.written sink.old) (W.written sink.new) }
    ensures finished { HasWritten result.status → W.finished sink.new }
    ensures fault { result.status ≡ Status.WriteFault → Rose (W.faults sink.old) (W.faults sink.new) }
    ensures untouched { IsQuiet result.status → sink.new ≡ sink.old }
    ensures whole { (Rose (W.faults sink.old) (W.faults sink.new) → ⊥)
        → (result.status ≡ ended_as (play_behind machine.ledger script.now).full) ⊎ (result.status ≡ Status.Memory) }
    ensures begins { IsUnstarted result.status → ⊥ }
    ensures writable { WritesPlay output result.status → IsWrittenBy (served_behind machine.ledger script.now) }
    ensures heard { HasPlayed result.status
        → HearHistoryAfter B.counted B.told (registrations_of machine.ledger.config machine.ledger.history) machine.ledger.config (served_behind machine.ledger script.now).history callbacks result.callbacks }
    ensures heard_front { result.status ≡ Status.Memory → (result.callbacks ≡ callbacks)
        ⊎ HearFrontAfter B.counted B.told machine.ledger.config (start_of machine.ledger) (play_behind machine.ledger script.now).entries callbacks result.callbacks }
    ensures returned { AreReturned B.counted B.told callbacks result.callbacks }
{
    let mut ears = match Ears::new(alloc, callbacks) {
        Ok(ears) => ears,
        Err(callbacks) => {
            return Ended {
                status: Status::Memory,
                callbacks,
            };
        }
    };
    let status = write_play(alloc, output, script, machine, sink, &mut ears);
    Ended {
        status,
        callbacks: ears.take_back(),
    }
}

/// A machine as the script wants it, on which its play may be printed.
fn machine_for(alloc: Global, script: &Script) -> Result<Machine, AllocError>
    requires { IsSpelled mode.Serial script.now }
    ensures new { IfOk result (λ machine. machine.ledger ≡ new_machine script.now) }
    ensures few { length script.now.clients ≤ 32 }
    ensures printable { IsPrintable script.now.config (serial_play script.now).entries }
{
    each_script_can_be_played();
    a_play_is_printable();
    new_machine(alloc, script)
}

/// Plays a script on a new machine to these callbacks, if there are enough, and writes what is written of it.
fn play_new<B: Callback, W: Sink>(
    alloc: Global,
    output: Output,
    script: &Script,
    sink: &mut W,
    callbacks: Callbacks<B>,
) -> Ended<B>
    requires { IsSpelled mode.Serial script.now }
    ensures possible { IsOfScript result.status }
    ensures ends { PlayedEnds (own_of output script.now) (length callbacks) (new_machine script.now) script.now result.status (W.written sink.old) (W.written sink.new) }
    ensures finished { HasWritten result.status → W.finished sink.new }
    ensures fault { result.status ≡ Status.WriteFault → Rose (W.faults sink.old) (W.faults sink.new) }
    ensures untouched { IsQuiet result.status → sink.new ≡ sink.old }
    ensures whole { (Rose (W.faults sink.old) (W.faults sink.new) → ⊥)
        → (result.status ≡ end_behind (length callbacks) (new_machine script.now) script.now) ⊎ (result.status ≡ Status.Memory) }
    ensures writable { WritesPlay output result.status → IsWritten script.now }
    ensures heard { HasPlayed result.status → HearHistory B.counted B.told script.now.config (serial_play script.now).entries callbacks result.callbacks }
    ensures heard_front { result.status ≡ Status.Memory → HearFront B.counted B.told script.now.config (serial_play script.now).entries callbacks result.callbacks }
    ensures returned { AreReturned B.counted B.told callbacks result.callbacks }
    ensures unheard { IsUnstarted result.status → result.callbacks ≡ callbacks }
{
    if !are_enough(script, callbacks.as_slice().len()) {
        return Ended {
            status: Status::Words,
            callbacks,
        };
    }
    match machine_for(alloc, script) {
        Ok(machine) => play_to(alloc, output, script, machine, sink, callbacks),
        Err(_) => Ended {
            status: Status::Memory,
            callbacks,
        },
    }
}

/// Reads a script, plays it to these callbacks, and writes what is written of it.
pub fn run_play<B: Callback, R: Source, W: Sink>(
    alloc: Global,
    output: Output,
    source: &mut R,
    sink: &mut W,
    callbacks: Callbacks<B>,
) -> Ended<B>
    ensures ends { IfSome (R.left source.old) (λ bytes. PlayEnds (own_of output) (length callbacks) bytes result.status (W.written sink.old) (W.written sink.new)) }
    ensures possible { IsOfScript result.status }
    ensures words { result.status ≡ Status.Words → IsAtEnd (R.left source.new) }
    ensures read_whole { HasRead result.status → IsAtEnd (R.left source.new) }
    ensures read_out { (line : ℕ) → result.status ≡ Status.Text line → IsReadOut 16_777_216 (R.left source.old) (R.left source.new) }
    ensures finished { HasWritten result.status → W.finished sink.new }
    ensures read_fault { result.status ≡ Status.ReadFault → Rose (R.faults source.old) (R.faults source.new) }
    ensures write_fault { result.status ≡ Status.WriteFault → Rose (W.faults sink.old) (W.faults sink.new) }
    ensures untouched { IsQuiet result.status → sink.new ≡ sink.old }
    ensures whole { (Rose (R.faults source.old) (R.faults source.new) → ⊥) → (Rose (W.faults sink.old) (W.faults sink.new) → ⊥)
        → IfSome (R.left source.old) (λ bytes. PlayIsWhole (length callbacks) bytes result.status) }
    ensures writable { WritesPlay output result.status → IfSome (R.left source.old) (λ bytes. (script : Script) → IsScriptText mode.Serial bytes script → IsWritten script) }
    ensures heard { HasPlayed result.status → IfSome (R.left source.old) (λ bytes. (script : Script) → IsScriptText mode.Serial bytes script
        → HearHistory B.counted B.told script.config (serial_play script).entries callbacks result.callbacks) }
    ensures heard_front { result.status ≡ Status.Memory → IfSome (R.left source.old) (λ bytes. (script : Script) → IsScriptText mode.Serial bytes script
        → HearFront B.counted B.told script.config (serial_play script).entries callbacks result.callbacks) }
    ensures returned { AreReturned B.counted B.told callbacks result.callbacks }
    ensures unheard { IsUnstarted result.status → result.callbacks ≡ callbacks }
{
    match read_script(alloc, Mode::Serial, source) {
        Ok(script) => play_new(alloc, output, &script, sink, callbacks),
        Err(status) => Ended { status, callbacks },
    }
}
