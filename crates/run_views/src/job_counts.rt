//! The counts behind the rows of jobs.
ghost use Rattle.std.specs.Prelude.{◌≡◌, ◌++◌, IfOk, OnOk, codes, decimal, string_bytes};
ghost use Rattle.run_views.specs.JobTexts as texts;

use crate::all_rows::push_rows;
use crate::jobs::{come_to, how_many, kept_in, left, reaped, refusals};
use drmaa_model::Entry;
use drmaa_types::{Change, JobInfo, JobState, Moment, Text};
use itoa::Buffer;
use std::alloc::{AllocError, Global};

/// Writes a word and how many, where there are some.
#[tactic(auto, unfolding(crate::specs::JobTexts::count_line))]
fn push_count(out: &mut String, word: &str, count: u128) -> Result<(), AllocError>
    ensures { OnOk result (string_bytes out.new ≡ string_bytes out.old ++ texts.count_line word.now count) }
{
    if count == 0 {
        return Ok(());
    }
    let mut digits = Buffer::new();
    out.push_str(word)?;
    out.push_str(" ")?;
    out.push_str(digits.format(count))?;
    out.push_str("\n")
}

/// Writes how many kept jobs are in a state.
fn push_kept(out: &mut String, infos: &[JobInfo], state: JobState) -> Result<(), AllocError>
    ensures { OnOk result (string_bytes out.new ≡ string_bytes out.old ++ texts.kept_line state infos.now) }
{
    push_count(out, state.name(), kept_in(infos, state) as u128)
}

/// Writes how many jobs wait, by state.
#[tactic(auto, unfolding(crate::specs::JobTexts::waiting_lines))]
fn push_waiting(out: &mut String, infos: &[JobInfo]) -> Result<(), AllocError>
    ensures { OnOk result (string_bytes out.new ≡ string_bytes out.old ++ texts.waiting_lines infos.now) }
{
    push_kept(out, infos, JobState::Queued)?;
    push_kept(out, infos, JobState::QueuedHeld)?;
    push_kept(out, infos, JobState::Requeued)?;
    push_kept(out, infos, JobState::RequeuedHeld)
}

/// Writes how many jobs are started, by state.
#[tactic(auto, unfolding(crate::specs::JobTexts::started_lines))]
fn push_started(out: &mut String, infos: &[JobInfo]) -> Result<(), AllocError>
    ensures { OnOk result (string_bytes out.new ≡ string_bytes out.old ++ texts.started_lines infos.now) }
{
    push_kept(out, infos, JobState::Running)?;
    push_kept(out, infos, JobState::Suspended)
}

/// Writes how many jobs have come to a state.
fn push_come(out: &mut String, changes: &[Change], state: JobState) -> Result<(), AllocError>
    ensures { OnOk result (string_bytes out.new ≡ string_bytes out.old ++ texts.ended_line state changes.now) }
{
    push_count(out, state.name(), come_to(changes, state) as u128)
}

/// Writes how many jobs have ended, and how many have been reaped.
#[tactic(auto, unfolding(crate::specs::JobTexts::ended_lines))]
fn push_ended(out: &mut String, infos: &[JobInfo], changes: &[Change]) -> Result<(), AllocError>
    ensures { OnOk result (string_bytes out.new ≡ string_bytes out.old ++ texts.ended_lines infos.now changes.now) }
{
    push_come(out, changes, JobState::Done)?;
    push_come(out, changes, JobState::Failed)?;
    push_count(out, "reaped", reaped(infos, changes))
}

/// Writes how many calls got the refusal of a number, behind words.
fn push_refusal(out: &mut String, numbers: &[u8], words: &str, number: u8) -> Result<(), AllocError>
    ensures { OnOk result (string_bytes out.new ≡ string_bytes out.old ++ texts.refused_line words.now number numbers.now) }
{
    push_count(out, words, how_many(numbers, number) as u128)
}

/// Writes how many calls got each of the first refusals.
#[tactic(auto, unfolding(crate::specs::JobTexts::first_refused_lines))]
fn push_first_refusals(out: &mut String, numbers: &[u8]) -> Result<(), AllocError>
    ensures { OnOk result (string_bytes out.new ≡ string_bytes out.old ++ texts.first_refused_lines numbers.now) }
{
    push_refusal(out, numbers, "refused 1", 1)?;
    push_refusal(out, numbers, "refused 3", 3)?;
    push_refusal(out, numbers, "refused 4", 4)?;
    push_refusal(out, numbers, "refused 5", 5)
}

/// Writes how many calls got each of the other refusals.
#[tactic(auto, unfolding(crate::specs::JobTexts::last_refused_lines))]
fn push_last_refusals(out: &mut String, numbers: &[u8]) -> Result<(), AllocError>
    ensures { OnOk result (string_bytes out.new ≡ string_bytes out.old ++ texts.last_refused_lines numbers.now) }
{
    push_refusal(out, numbers, "refused 6", 6)?;
    push_refusal(out, numbers, "refused 7", 7)?;
    push_refusal(out, numbers, "refused 9", 9)?;
    push_refusal(out, numbers, "refused 10", 10)
}

/// Writes how many calls got each refusal.
#[tactic(auto, unfolding(crate::specs::JobTexts::refused_lines))]
fn push_refusals(out: &mut String, numbers: &[u8]) -> Result<(), AllocError>
    ensures { OnOk result (string_bytes out.new ≡ string_bytes out.old ++ texts.refused_lines numbers.now) }
{
    push_first_refusals(out, numbers)?;
    push_last_refusals(out, numbers)
}

/// Writes how many jobs are left.
#[tactic(auto, unfolding(crate::specs::JobTexts::left_line))]
fn push_left(out: &mut String, infos: &[JobInfo]) -> Result<(), AllocError>
    ensures { OnOk result (string_bytes out.new ≡ string_bytes out.old ++ texts.left_line infos.now) }
{
    push_count(out, "left", left(infos) as u128)
}

/// Writes how many jobs there are, by state.
#[tactic(auto, unfolding(crate::specs::JobTexts::job_lines))]
fn push_jobs(out: &mut String, infos: &[JobInfo], changes: &[Change]) -> Result<(), AllocError>
    ensures { OnOk result (string_bytes out.new ≡ string_bytes out.old ++ texts.job_lines infos.now changes.now) }
{
    push_waiting(out, infos)?;
    push_started(out, infos)?;
    push_ended(out, infos, changes)
}

/// Writes all counts.
fn push_counts(
    out: &mut String,
    alloc: Global,
    infos: &[JobInfo],
    changes: &[Change],
    entries: &[Entry],
) -> Result<(), AllocError>
    ensures { OnOk result (string_bytes out.new ≡ string_bytes out.old ++ texts.count_lines infos.now changes.now entries.now) }
{
    let numbers = refusals(alloc, entries)?;
    push_jobs(out, infos, changes)?;
    push_refusals(out, numbers.as_slice())?;
    push_left(out, infos)
}

/// The rows of all jobs that ever were, by number, and the counts of the jobs by state, of the refused calls by refusal, and of the
/// jobs that are left. `infos` are those of the kept jobs, in order of number; of a job that is kept no more the row says what the
/// entries tell, and the changes, which are those of the states of all jobs.
///
/// # Errors
///
/// Want of memory.
pub fn print_jobs(
    alloc: Global,
    now: Moment,
    infos: &[JobInfo],
    changes: &[Change],
    entries: &[Entry],
) -> Result<Text, AllocError>
    ensures { IfOk result (λ text. text ≡ texts.jobs_text now infos.now changes.now entries.now) }
{
    let mut out = String::new(alloc);
    push_rows(&mut out, alloc, now, infos, changes, entries)?;
    push_counts(&mut out, alloc, infos, changes, entries)?;
    Ok(Text::from_string(out))
}
