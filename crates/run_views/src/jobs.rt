//! The jobs of a history, counted.
ghost use Rattle.std.specs.Prelude.{◌≡◌, IfOk};
ghost use Rattle.run_views.specs.Jobs as jobs;

use drmaa_model::{Call, Entry, Reply};
use drmaa_types::{Change, JobInfo, JobState, Refusal};
use plan_book::states::{is_started, is_state, is_waiting};
use std::alloc::{AllocError, Global};

/// What a script tests of the jobs of a history.
#[derive(Clone, Copy, Debug, PartialEq, Eq)]
pub enum Verdict {
    AllEnded,
    /// A job FAILED.
    SomeFailed,
    /// None did, and a job waits or is started, or could not be submitted.
    SomeLeft,
}

/// How many kept jobs are in a state.
pub(crate) fn kept_in(infos: &[JobInfo], state: JobState) -> usize
    ensures { result ≡ jobs.kept_in state infos.now }
{
    infos
        .iter()
        .filter(|info| is_state(info.state, state))
        .count()
}

/// How many jobs have come to a state.
pub(crate) fn come_to(changes: &[Change], state: JobState) -> usize
    ensures { result ≡ jobs.come_to state changes.now }
{
    changes
        .iter()
        .filter(|change| is_state(change.to, state))
        .count()
}

/// How many jobs have been reaped.
pub(crate) fn reaped(infos: &[JobInfo], changes: &[Change]) -> u128
    ensures { result ≡ jobs.reaped infos.now changes.now }
{
    let ended = come_to(changes, JobState::Done) as u128
        + come_to(changes, JobState::Failed) as u128;
    let kept = kept_in(infos, JobState::Done) as u128 + kept_in(infos, JobState::Failed) as u128;
    ended.saturating_sub(kept)
}

/// Whether a job in this state waits or is started.
fn is_left(state: JobState) -> bool
    ensures { result ≡ jobs.is_left state }
{
    is_waiting(state) || is_started(state)
}

/// How many jobs wait or are started.
pub(crate) fn left(infos: &[JobInfo]) -> usize
    ensures { result ≡ jobs.left infos.now }
{
    infos.iter().filter(|info| is_left(info.state)).count()
}

/// The number of a refusal.
fn refusal_number(refusal: Refusal) -> u8
    ensures { result ≡ jobs.refusal_number refusal }
{
    match refusal {
        Refusal::DeniedByDrms(_) => 1,
        Refusal::TryLater { .. } => 2,
        Refusal::Timeout => 3,
        Refusal::InvalidArgument(_) => 4,
        Refusal::InvalidSession => 5,
        Refusal::InvalidState(_) => 6,
        Refusal::OutOfResource(_) => 7,
        Refusal::OutOfMemory => 8,
        Refusal::UnsupportedAttribute(_) => 9,
        Refusal::UnsupportedOperation => 10,
    }
}

/// The number of the refusal that a reply is, and 0 where it is none.
fn refused_for(reply: &Reply) -> u8
    ensures { result ≡ jobs.refused_for reply.now }
{
    match reply {
        Reply::Refused(refusal) => refusal_number(*refusal),
        _ => 0,
    }
}

/// The number of the refusal that each call got, and 0 where it got none: so that they are looked up once.
pub(crate) fn refusals(alloc: Global, entries: &[Entry]) -> Result<Vec<u8>, AllocError>
    ensures { IfOk result (λ numbers. numbers.items ≡ jobs.refusals entries.now) }
{
    let mut numbers = Vec::with_capacity(alloc, entries.len())?;
    for entry in entries {
        numbers.push(refused_for(&entry.reply))?;
    }
    Ok(numbers)
}

/// How many of these numbers are this one.
pub(crate) fn how_many(numbers: &[u8], number: u8) -> usize
    ensures { result ≡ jobs.how_many number numbers.now }
{
    numbers.iter().filter(|n| **n == number).count()
}

/// Whether a call submits jobs.
fn is_submission(call: &Call) -> bool
    ensures { result ≡ jobs.is_submission call.now }
{
    matches!(call, Call::RunJob { .. } | Call::RunBulk { .. })
}

/// Whether a call is a submission that was refused.
#[tactic(auto, unfolding(crate::specs::Jobs::is_unsubmitted))]
fn is_unsubmitted(call: &Call, reply: &Reply) -> bool
    ensures { result ≡ jobs.is_unsubmitted call.now reply.now }
{
    is_submission(call) && 0 < refused_for(reply)
}

/// Whether a submission was refused.
fn has_unsubmitted(entries: &[Entry]) -> bool
    ensures { result ≡ jobs.has_unsubmitted entries.now }
{
    entries
        .iter()
        .any(|entry| is_unsubmitted(&entry.call, &entry.reply))
}

/// Whether a job FAILED; where none did, whether one is left or could not be submitted. `infos` are those of the kept jobs, and
/// `changes` what became of the states of all.
pub fn verdict_of(infos: &[JobInfo], changes: &[Change], entries: &[Entry]) -> Verdict
    ensures { result ≡ jobs.verdict infos.now changes.now entries.now }
{
    if 0 < come_to(changes, JobState::Failed) {
        Verdict::SomeFailed
    } else if 0 < left(infos) || has_unsubmitted(entries) {
        Verdict::SomeLeft
    } else {
        Verdict::AllEnded
    }
}
