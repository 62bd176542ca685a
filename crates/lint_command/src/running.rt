//! What is said of the script that a source has is written to a sink.
ghost use Rattle.std.specs.Prelude.{◌≡◌, ◌⊎◌, ℕ, List, None, IfSome, IfOk, IfErr, OnOk};
ghost use Rattle.std.specs.Io.KnownBytes.{IsAtEnd};
ghost use Rattle.drmaa_types.specs.Counts.{Rose};
ghost use Rattle.script_text.specs.declared.scripts.Script.{Script};
ghost use Rattle.script_advice.specs.WarningTexts.{lint_text};
ghost use Rattle.journal_commands.specs.Outcomes.{OutputEnds};
ghost use Rattle.journal_commands.specs.Statuses.{IsQuiet, HasRead, HasWritten, IsUnread};
ghost use Rattle.journal_commands.specs.Texts.{IsReadOut};
ghost use Rattle.lint_command.specs.Ends.{LintEnds, LintIsWhole};
ghost use Rattle.lint_command.specs.Kinds.{IsBadLine, IsJudged, IsLinted};
ghost use Rattle.lint_command.specs.Outcomes.{IsAdvised, IsMadeAs, status_at};
ghost use Rattle.lint_command.specs.Refusals.{advice_at};

use crate::judging::{Refused, lint_first};
use crate::outcomes::Outcome;
use byte_streams::{Input, Sink, Source, read_all};
use drmaa_types::Text;
use journal_commands::{Status, read_status, write_output};
use std::alloc::Global;

/// The greatest number of bytes of a script.
const SCRIPT_LIMIT: usize = 16_777_216;

/// The end with this status, of which there is no advice.
fn plain(status: Status) -> Outcome
    ensures status { result.status ≡ status }
    ensures advice { result.advice ≡ None }
{
    Outcome {
        status,
        advice: None,
    }
}

/// How a run ends that has nothing to write.
fn refused_as(refused: Refused) -> Outcome
    ensures status { result.status ≡ status_at refused }
    ensures advice { result.advice ≡ advice_at refused }
{
    match refused {
        Refused::Line { line, advice } => Outcome {
            status: Status::Text { line },
            advice,
        },
        Refused::OutOfMemory => plain(Status::Memory),
    }
}

/// What is written of the script that all bytes of the source are.
fn lint_source<R: Source>(alloc: Global, source: &mut R) -> Result<Text, Outcome>
    ensures written { IfOk result (λ text. IfSome (R.left source.old) (λ bytes. IsLinted bytes text)) }
    ensures end { OnOk result (IsAtEnd (R.left source.new)) }
    ensures only { IfSome (R.left source.old) (λ bytes. (script : Script) → IsJudged bytes script → IsMadeAs (lint_text script) result) }
    ensures line { IfErr result (λ outcome. (n : ℕ) → outcome.status ≡ Status.Text n → IfSome (R.left source.old) (λ bytes. IsBadLine bytes n)) }
    ensures read_out { IfErr result (λ outcome. (n : ℕ) → outcome.status ≡ Status.Text n → IsReadOut 16_777_216 (R.left source.old) (R.left source.new)) }
    ensures causes { IfErr result (λ outcome. IsUnread outcome.status) }
    ensures fault { IfErr result (λ outcome. outcome.status ≡ Status.ReadFault → Rose (R.faults source.old) (R.faults source.new)) }
    ensures advice { IfErr result (λ outcome. IsAdvised outcome.status outcome.advice) }
{
    let Input { bytes, whole } = match read_all(alloc, source, SCRIPT_LIMIT) {
        Ok(input) => input,
        Err(error) => return Err(plain(read_status(error))),
    };
    match lint_first(alloc, bytes.as_slice(), whole) {
        Ok(text) => Ok(text),
        Err(refused) => Err(refused_as(refused)),
    }
}

/// Reads a script, of the kind for one thread, or else of that for threads, and writes its warnings, a line for each, or
/// `no warnings`. The source is read to its end, or past the greatest number of bytes, 16,777,216, and the whole text is made before
/// its first byte is written.
pub fn run_lint<R: Source, W: Sink>(alloc: Global, source: &mut R, sink: &mut W) -> Outcome
    ensures ends { IfSome (R.left source.old) (λ bytes. LintEnds bytes result.status (W.written sink.old) (W.written sink.new)) }
    ensures advice { IsAdvised result.status result.advice }
    ensures read_whole { HasRead result.status → IsAtEnd (R.left source.new) }
    ensures read_out { (line : ℕ) → result.status ≡ Status.Text line → IsReadOut 16_777_216 (R.left source.old) (R.left source.new) }
    ensures finished { HasWritten result.status → W.finished sink.new }
    ensures read_fault { result.status ≡ Status.ReadFault → Rose (R.faults source.old) (R.faults source.new) }
    ensures write_fault { result.status ≡ Status.WriteFault → Rose (W.faults sink.old) (W.faults sink.new) }
    ensures untouched { IsQuiet result.status → sink.new ≡ sink.old }
    ensures whole { (Rose (R.faults source.old) (R.faults source.new) → ⊥) → (Rose (W.faults sink.old) (W.faults sink.new) → ⊥)
        → IfSome (R.left source.old) (λ bytes. LintIsWhole bytes result.status) }
{
    match lint_source(alloc, source) {
        Ok(text) => plain(write_output(text.as_str().as_bytes(), None, sink)),
        Err(outcome) => outcome,
    }
}
