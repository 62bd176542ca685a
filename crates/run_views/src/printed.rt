//! The text of a log: a line for each run.
ghost use Rattle.std.specs.Prelude.{◌≡◌, ◌++◌, IfOk, OnOk, string_bytes};
ghost use Rattle.run_views.specs.Texts as texts;

use crate::runs::{Ending, Run, RunEnd, RunList};
use drmaa_types::{Exit, Text, TextList};
use itoa::Buffer;
use std::alloc::{AllocError, Global};
use text_codec::push_list;

/// Room for the words of a launch of usual length, in bytes.
const ROOM: usize = 64;

/// Words as a journal spells them.
fn words_text(alloc: Global, words: &TextList) -> Result<String, AllocError>
    ensures { IfOk result (λ text. string_bytes text ≡ texts.words_text words.now) }
{
    let mut out = Vec::with_capacity(alloc, ROOM)?;
    push_list(&mut out, words.as_slice())?;
    let Ok(text) = String::from_utf8(out) else {
        unreachable!();
    };
    Ok(text)
}

/// Writes how a run ended.
pub(crate) fn push_ending(out: &mut String, how: Ending) -> Result<(), AllocError>
    ensures { OnOk result (string_bytes out.new ≡ string_bytes out.old ++ texts.ending_text how) }
{
    let mut digits = Buffer::new();
    match how {
        Ending::Exited(Exit::Code(code)) => {
            out.push_str("code ")?;
            out.push_str(digits.format(code))
        }
        Ending::Exited(Exit::Signal(signal)) => {
            out.push_str("signal ")?;
            out.push_str(digits.format(signal))
        }
        Ending::Unknown => out.push_str("unknown"),
        Ending::NotStarted => out.push_str("notStarted"),
    }
}

/// Writes the moment of an end.
fn push_ended(out: &mut String, end: Option<RunEnd>) -> Result<(), AllocError>
    ensures { OnOk result (string_bytes out.new ≡ string_bytes out.old ++ texts.ended_text end) }
{
    let mut digits = Buffer::new();
    match end {
        Some(end) => out.push_str(digits.format(end.at.number())),
        None => out.push_str("-"),
    }
}

/// Writes how an end was.
fn push_exit(out: &mut String, end: Option<RunEnd>) -> Result<(), AllocError>
    ensures { OnOk result (string_bytes out.new ≡ string_bytes out.old ++ texts.exit_text end) }
{
    match end {
        Some(end) => push_ending(out, end.how),
        None => out.push_str("-"),
    }
}

/// Writes job, attempt and the moment of the launch, each with a tab behind it.
fn push_launch(out: &mut String, run: &Run) -> Result<(), AllocError>
    ensures { OnOk result (string_bytes out.new ≡ string_bytes out.old ++ texts.launch_text run.now) }
{
    let mut digits = Buffer::new();
    out.push_str(digits.format(run.job.0))?;
    out.push_str("\t")?;
    out.push_str(digits.format(run.attempt))?;
    out.push_str("\t")?;
    out.push_str(digits.format(run.launched.number()))?;
    out.push_str("\t")
}

/// Writes the end, the slots and the exit, each with a tab behind it.
fn push_course(out: &mut String, run: &Run) -> Result<(), AllocError>
    ensures { OnOk result (string_bytes out.new ≡ string_bytes out.old ++ texts.course_text run.now) }
{
    let mut digits = Buffer::new();
    push_ended(out, run.end)?;
    out.push_str("\t")?;
    out.push_str(digits.format(run.slots))?;
    out.push_str("\t")?;
    push_exit(out, run.end)?;
    out.push_str("\t")
}

/// Writes the line of a run.
fn push_run(out: &mut String, alloc: Global, run: &Run) -> Result<(), AllocError>
    ensures { OnOk result (string_bytes out.new ≡ string_bytes out.old ++ texts.run_line run.now) }
{
    push_launch(out, run)?;
    push_course(out, run)?;
    let words = words_text(alloc, &run.words)?;
    out.push_str(words.as_str())?;
    out.push_str("\n")
}

/// Writes the lines of these runs.
fn printed(alloc: Global, runs: &[Run]) -> Result<String, AllocError>
    ensures { IfOk result (λ text. string_bytes text ≡ texts.log_text runs.now) }
{
    let mut out = String::new(alloc);
    for run in runs {
        push_run(&mut out, alloc, run)?;
    }
    Ok(out)
}

/// The text of a log: a line for each run, with its job, attempt, launch, end, slots, exit and words, and a tab between two of them.
///
/// # Errors
///
/// Want of memory.
pub fn print_log(alloc: Global, runs: &RunList) -> Result<Text, AllocError>
    ensures { IfOk result (λ text. text ≡ texts.log_text runs.now) }
{
    let text = printed(alloc, runs.as_slice())?;
    Ok(Text::from_string(text))
}
