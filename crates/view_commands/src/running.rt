//! A view is shown of the journal that a source has.
ghost use Rattle.std.specs.Prelude.{◌≡◌, ◌≢◌, ◌⊎◌, ℕ, IfSome, Some, None};
ghost use Rattle.std.specs.Io.KnownBytes.{IsAtEnd};
ghost use Rattle.drmaa_types.specs.Counts.{Rose};
ghost use Rattle.journal_commands.specs.Statuses.{IsQuiet, HasRead, HasWritten};
ghost use Rattle.journal_commands.specs.Texts.{IsReadOut};
ghost use Rattle.view_commands.specs.Views.{ViewEnds, ViewIsWhole, IsVerdictOf};
ghost use Rattle.view_commands.specs.Words.{asked};

use crate::judging::{Judgement, judge};
use crate::outcomes::Outcome;
use crate::views::{View, view_of};
use byte_streams::{Sink, Source};
use drmaa_types::TextList;
use journal_commands::{Status, read_journal, write_made};
use run_views::Verdict;
use std::alloc::Global;

/// Shows a view of the journal that a source has.
fn run_view<R: Source, W: Sink>(alloc: Global, view: View, source: &mut R, sink: &mut W) -> Outcome
    ensures ends { IfSome (R.left source.old) (λ bytes. ViewEnds view bytes result.status (W.written sink.old) (W.written sink.new)) }
    ensures judged { result.status ≡ Status.Done → IfSome (R.left source.old) (λ bytes. IsVerdictOf view bytes result.verdict) }
    ensures words { result.status ≢ Status.Words }
    ensures read_whole { HasRead result.status → IsAtEnd (R.left source.new) }
    ensures read_out { (line : ℕ) → result.status ≡ Status.Text line → IsReadOut 268_435_456 (R.left source.old) (R.left source.new) }
    ensures finished { HasWritten result.status → W.finished sink.new }
    ensures read_fault { result.status ≡ Status.ReadFault → Rose (R.faults source.old) (R.faults source.new) }
    ensures write_fault { result.status ≡ Status.WriteFault → Rose (W.faults sink.old) (W.faults sink.new) }
    ensures untouched { IsQuiet result.status → sink.new ≡ sink.old }
    ensures whole { (Rose (R.faults source.old) (R.faults source.new) → ⊥) → (Rose (W.faults sink.old) (W.faults sink.new) → ⊥)
        → IfSome (R.left source.old) (λ bytes. ViewIsWhole view bytes result.status) }
{
    match read_journal(alloc, source) {
        Ok(journal) => {
            let Judgement { made, verdict } = judge(alloc, view, journal);
            Outcome {
                status: write_made(made, sink),
                verdict,
            }
        }
        Err(status) => Outcome {
            status,
            verdict: Verdict::AllEnded,
        },
    }
}

/// Shows what the words ask for of the journal that a source has. The source is read to its end, or past the greatest number of
/// bytes, 268,435,456, and the whole text is made before its first byte is written. Other words read and write nothing.
pub fn run<R: Source, W: Sink>(
    alloc: Global,
    words: &TextList,
    source: &mut R,
    sink: &mut W,
) -> Outcome
    ensures ends { IfSome (asked words.now) (λ view. IfSome (R.left source.old) (λ bytes.
        ViewEnds view bytes result.status (W.written sink.old) (W.written sink.new))) }
    ensures judged { result.status ≡ Status.Done → IfSome (asked words.now) (λ view. IfSome (R.left source.old) (λ bytes.
        IsVerdictOf view bytes result.verdict)) }
    ensures unasked { asked words.now ≡ None → (result.status ≡ Status.Words) × (source.new ≡ source.old) }
    ensures words { result.status ≡ Status.Words → asked words.now ≡ None }
    ensures read_whole { HasRead result.status → IsAtEnd (R.left source.new) }
    ensures read_out { (line : ℕ) → result.status ≡ Status.Text line → IsReadOut 268_435_456 (R.left source.old) (R.left source.new) }
    ensures finished { HasWritten result.status → W.finished sink.new }
    ensures read_fault { result.status ≡ Status.ReadFault → Rose (R.faults source.old) (R.faults source.new) }
    ensures write_fault { result.status ≡ Status.WriteFault → Rose (W.faults sink.old) (W.faults sink.new) }
    ensures untouched { IsQuiet result.status → sink.new ≡ sink.old }
    ensures whole { (Rose (R.faults source.old) (R.faults source.new) → ⊥) → (Rose (W.faults sink.old) (W.faults sink.new) → ⊥)
        → IfSome (asked words.now) (λ view. IfSome (R.left source.old) (λ bytes. ViewIsWhole view bytes result.status)) }
{
    match view_of(words) {
        Some(view) => run_view(alloc, view, source, sink),
        None => Outcome {
            status: Status::Words,
            verdict: Verdict::AllEnded,
        },
    }
}
