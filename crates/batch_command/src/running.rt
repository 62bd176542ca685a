//! The script of the commands that a source has is written to a sink.
ghost use Rattle.std.specs.Prelude.{◌≡◌, ◌⊎◌, ℕ, List, true, None, IfSome, IfOk, IfErr, OnOk, Err};
ghost use Rattle.std.specs.Io.KnownBytes.{IsAtEnd};
ghost use Rattle.drmaa_types.specs.Counts.{Rose};
ghost use Rattle.text_lines.specs.Lines.{IsFirstBad};
ghost use Rattle.script_text.specs.Header.{is_machine};
ghost use Rattle.command_scripts.specs.declared.batches.Batch.{Batch};
ghost use Rattle.command_scripts.specs.Batches.{SpellsBatch};
ghost use Rattle.command_scripts.specs.Texts.{script_text};
ghost use Rattle.command_scripts.specs.Written.{IsWritten};
ghost use Rattle.journal_commands.specs.Outcomes.{OutputEnds};
ghost use Rattle.journal_commands.specs.Statuses.{IsQuiet, HasRead, HasWritten, IsUnread};
ghost use Rattle.journal_commands.specs.Texts.{IsReadAs, IsReadOut};
ghost use Rattle.batch_command.specs.Ends.{AreCommands, BatchEnds, BatchIsWhole};

use byte_streams::{Input, Sink, Source, read_all};
use command_scripts::{Machine, write_script};
use drmaa_types::Bytes;
use journal_commands::{Status, read_status, status_of, write_output};
use std::alloc::Global;

/// The greatest number of bytes of the commands.
const BATCH_LIMIT: usize = 16_777_216;

/// The script of the commands that all bytes of the source are.
fn read_commands<R: Source>(
    alloc: Global,
    machine: Machine,
    source: &mut R,
) -> Result<Bytes, Status>
    requires { is_machine machine.slots machine.name ≡ true }
    ensures written { IfOk result (λ script. IfSome (R.left source.old) (λ bytes. IsWritten machine bytes script)) }
    ensures end { OnOk result (IsAtEnd (R.left source.new)) }
    ensures only { IfSome (R.left source.old) (λ bytes. (batch : Batch) → AreCommands machine bytes batch → IsReadAs (script_text batch) result) }
    ensures line { (n : ℕ) → result ≡ Err (Status.Text n) → IfSome (R.left source.old) (λ bytes. IsFirstBad (SpellsBatch machine) 16_777_216 bytes n) }
    ensures read_out { (n : ℕ) → result ≡ Err (Status.Text n) → IsReadOut 16_777_216 (R.left source.old) (R.left source.new) }
    ensures causes { IfErr result IsUnread }
    ensures fault { result ≡ Err Status.ReadFault → Rose (R.faults source.old) (R.faults source.new) }
{
    let Input { bytes, whole } = match read_all(alloc, source, BATCH_LIMIT) {
        Ok(input) => input,
        Err(error) => return Err(read_status(error)),
    };
    match write_script(alloc, machine, bytes.as_slice(), whole) {
        Ok(script) => Ok(script),
        Err(fault) => Err(status_of(fault)),
    }
}

/// Reads commands for a shell, one a line, and writes the script for threads that runs them on this machine. The source is read to
/// its end, or past the greatest number of bytes, 16,777,216, and the whole script is made before its first byte is written.
pub fn run_batch<R: Source, W: Sink>(
    alloc: Global,
    machine: Machine,
    source: &mut R,
    sink: &mut W,
) -> Status
    requires { is_machine machine.slots machine.name ≡ true }
    ensures ends { IfSome (R.left source.old) (λ bytes. BatchEnds machine bytes result (W.written sink.old) (W.written sink.new)) }
    ensures read_whole { HasRead result → IsAtEnd (R.left source.new) }
    ensures read_out { (line : ℕ) → result ≡ Status.Text line → IsReadOut 16_777_216 (R.left source.old) (R.left source.new) }
    ensures finished { HasWritten result → W.finished sink.new }
    ensures read_fault { result ≡ Status.ReadFault → Rose (R.faults source.old) (R.faults source.new) }
    ensures write_fault { result ≡ Status.WriteFault → Rose (W.faults sink.old) (W.faults sink.new) }
    ensures untouched { IsQuiet result → sink.new ≡ sink.old }
    ensures whole { (Rose (R.faults source.old) (R.faults source.new) → ⊥) → (Rose (W.faults sink.old) (W.faults sink.new) → ⊥)
        → IfSome (R.left source.old) (λ bytes. BatchIsWhole machine bytes result) }
{
    match read_commands(alloc, machine, source) {
        Ok(script) => write_output(script.as_slice(), None, sink),
        Err(status) => status,
    }
}
