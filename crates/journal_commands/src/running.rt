//! What a command makes of a journal, and how it is run.
ghost use Rattle.std.specs.Prelude.{◌≡◌, ◌≢◌, ◌⊎◌, ℕ, List, Option, IfSome};
ghost use Rattle.std.specs.Io.KnownBytes.{IsAtEnd};
ghost use Rattle.drmaa_types.specs.Counts.{Rose};
ghost use Rattle.drmaa_model.specs.declared.replies.Reply.{Reply};
ghost use Rattle.journal_text.specs.Journals.{IsWritable};
ghost use Rattle.journal_text.specs.declared.journals.Journal.{Journal};
ghost use Rattle.journal_commands.specs.declared.status.Status.{Status};
ghost use Rattle.journal_commands.specs.Outcomes.{Makes, MadeEnds, OutputEnds, JournalEnds, JournalIsWhole, CameTo, end_of};
ghost use Rattle.journal_commands.specs.Statuses.{IsQuiet, HasRead, HasWritten, ended_as};
ghost use Rattle.journal_commands.specs.Texts.{IsReadOut};

use crate::inputs::read_journal;
use crate::status::{Status, ended_as};
use byte_streams::{Sink, Source, write_all};
use drmaa_model::Reply;
use drmaa_types::Text;
use journal_text::Journal;
use std::alloc::Global;

/// What a command writes.
#[derive(Drop)]
pub struct Output {
    pub text: Text,
    /// The size that the journal would have had, where the command stopped for it.
    pub full: Option<u64>,
}

/// What a command has made of a journal.
#[derive(Drop)]
pub enum Made {
    Written(Output),
    /// The journal is not legal: its first entry that is no step, as `Status::NotLegal` has it.
    NotLegal {
        entry: u64,
        given: Reply,
        machine: Option<Reply>,
    },
    /// Memory ran out.
    OutOfMemory,
}

/// A command that reads a journal and writes a text.
pub trait JournalCommand: Drop + Sized {
    /// What may be written of a journal, and the size that stopped the command, if any.
    ghost Writes: { Self → Journal → List ℕ → Option ℕ → Type 0 };

    /// For which entry a journal may be refused, with the reply that stands there and the machine's.
    ghost Refuses: { Self → Journal → ℕ → Reply → Option Reply → Type 0 };

    /// How a journal decides the status, where nothing fails and memory suffices.
    ghost Decides: { Self → Journal → Status → Type 0 };

    /// What the command makes of a journal.
    fn make(self, alloc: Global, journal: Journal) -> Made
        requires { IsWritable journal.config journal.entries }
        ensures makes { Makes (Writes self) (Refuses self) journal result }
        ensures decides { (result ≡ Made.OutOfMemory) ⊎ Decides self journal (end_of result) };
}

/// Writes a text, of a command that stopped for this size of the journal, if for any, and finishes the sink.
pub fn write_output<W: Sink>(text: &[u8], full: Option<u64>, sink: &mut W) -> Status
    ensures ends { OutputEnds text.now full result (W.written sink.old) (W.written sink.new) }
    ensures finished { HasWritten result → W.finished sink.new }
    ensures fault { result ≡ Status.WriteFault → Rose (W.faults sink.old) (W.faults sink.new) }
    ensures untouched { IsQuiet result → sink.new ≡ sink.old }
    ensures whole { (Rose (W.faults sink.old) (W.faults sink.new) → ⊥) → result ≡ ended_as full }
{
    match write_all(sink, text) {
        Ok(()) => ended_as(full),
        Err(_) => Status::WriteFault,
    }
}

/// Writes what was made, where that is a text, and finishes the sink then.
pub fn write_made<W: Sink>(made: Made, sink: &mut W) -> Status
    ensures ends { MadeEnds made result (W.written sink.old) (W.written sink.new) }
    ensures finished { HasWritten result → W.finished sink.new }
    ensures fault { result ≡ Status.WriteFault → Rose (W.faults sink.old) (W.faults sink.new) }
    ensures untouched { IsQuiet result → sink.new ≡ sink.old }
    ensures whole { (Rose (W.faults sink.old) (W.faults sink.new) → ⊥) → result ≡ end_of made }
{
    match made {
        Made::Written(Output { text, full }) => {
            write_output(text.as_str().as_bytes(), full, sink)
        }
        Made::NotLegal {
            entry,
            given,
            machine,
        } => Status::NotLegal {
            entry,
            given,
            machine,
        },
        Made::OutOfMemory => Status::Memory,
    }
}

/// Runs a command on the journal that a source has. The source is read to its end, or past the greatest number of bytes,
/// 268,435,456, and the whole text is made before its first byte is written.
pub fn run_journal<C: JournalCommand, R: Source, W: Sink>(
    alloc: Global,
    command: C,
    source: &mut R,
    sink: &mut W,
) -> Status
    ensures ends { IfSome (R.left source.old) (λ bytes. JournalEnds (C.Writes command) (C.Refuses command) bytes result (W.written sink.old) (W.written sink.new)) }
    ensures came { CameTo (C.Writes command) (C.Refuses command) result }
    ensures words { result ≢ Status.Words }
    ensures read_whole { HasRead result → IsAtEnd (R.left source.new) }
    ensures read_out { (line : ℕ) → result ≡ Status.Text line → IsReadOut 268_435_456 (R.left source.old) (R.left source.new) }
    ensures finished { HasWritten result → W.finished sink.new }
    ensures read_fault { result ≡ Status.ReadFault → Rose (R.faults source.old) (R.faults source.new) }
    ensures write_fault { result ≡ Status.WriteFault → Rose (W.faults sink.old) (W.faults sink.new) }
    ensures untouched { IsQuiet result → sink.new ≡ sink.old }
    ensures whole { (Rose (R.faults source.old) (R.faults source.new) → ⊥) → (Rose (W.faults sink.old) (W.faults sink.new) → ⊥)
        → IfSome (R.left source.old) (λ bytes. JournalIsWhole (C.Decides command) bytes result) }
{
    match read_journal(alloc, source) {
        Ok(journal) => write_made(command.make(alloc, journal), sink),
        Err(status) => status,
    }
}
