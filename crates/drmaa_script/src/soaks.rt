//! The command that makes its own script.
ghost use Rattle.std.specs.Prelude.{◌≡◌};
ghost use Rattle.drmaa_types.specs.Counts.{Rose};
ghost use Rattle.command_words.specs.Commands.{AreSoakWords};
ghost use Rattle.command_words.specs.declared.commands.SoakWords.{SoakWords};
ghost use Rattle.soak.specs.Soaks.{soak_summary};
ghost use Rattle.journal_commands.specs.Statuses.{HasWritten, IsQuiet};
ghost use Rattle.drmaa_script.specs.Soaking.{SoakEnds};

use byte_streams::{Sink, write_all};
use command_words::SoakWords;
use journal_commands::Status;
use soak::{Summary, print_summary, soak};
use std::alloc::Global;

/// Writes the summary of a soak.
fn write_soak<W: Sink>(alloc: Global, summary: &Summary, sink: &mut W) -> Status
    ensures ends { (words : SoakWords) → summary.now ≡ soak_summary words.steps words.seed → SoakEnds words (W.written sink.old) (W.written sink.new) result }
    ensures finished { HasWritten result → W.finished sink.new }
    ensures fault { result ≡ Status.WriteFault → Rose (W.faults sink.old) (W.faults sink.new) }
    ensures untouched { IsQuiet result → sink.new ≡ sink.old }
{
    let Ok(text) = print_summary(alloc, summary) else {
        return Status::Memory;
    };
    match write_all(sink, text.as_str().as_bytes()) {
        Ok(()) => Status::Done,
        Err(_) => Status::WriteFault,
    }
}

/// Makes the script of a soak, plays it on one thread, and writes what came of it, a word and a number a line. It reads nothing.
pub(crate) fn run_soak<W: Sink>(alloc: Global, words: &SoakWords, sink: &mut W) -> Status
    requires { AreSoakWords words.now }
    ensures ends { SoakEnds words.now (W.written sink.old) (W.written sink.new) result }
    ensures finished { HasWritten result → W.finished sink.new }
    ensures fault { result ≡ Status.WriteFault → Rose (W.faults sink.old) (W.faults sink.new) }
    ensures untouched { IsQuiet result → sink.new ≡ sink.old }
{
    match soak(alloc, words.steps, words.seed) {
        Ok(summary) => write_soak(alloc, &summary, sink),
        Err(_) => Status::Memory,
    }
}
