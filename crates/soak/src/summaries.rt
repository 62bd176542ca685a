//! What a machine has come to, in numbers.
ghost use Rattle.std.specs.Prelude.{◌≡◌, length, filter, IfOk};
ghost use Rattle.drmaa_model.specs.History.{IsLegal, now_of};
ghost use Rattle.soak.specs.Summaries as summaries;

use drmaa_machine::Machine;
use drmaa_model::{Entry, Reply};
use drmaa_types::{Change, JobState};
use std::alloc::AllocError;

/// What a play came to.
#[derive(Clone, Copy, Debug, PartialEq, Eq)]
pub struct Summary {
    /// How many entries there are.
    pub entries: u64,
    /// How many changes of jobs' states.
    pub changes: u64,
    /// How many changes to `DONE`.
    pub done: u64,
    /// How many changes to `FAILED`.
    pub failed: u64,
    /// How many entries are refusals.
    pub refused: u64,
    /// How many slots jobs hold.
    pub held: u32,
    /// How many accepted reservations there are.
    pub reservations: u64,
    /// The size of the journal.
    pub size: u64,
}

/// Whether a change leads to this state.
fn leads_to(change: &Change, state: JobState) -> bool
    ensures { result ≡ summaries.leads_to state change.now }
{
    change.to == state
}

/// How many changes lead to this state.
fn count_to(changes: &[Change], state: JobState) -> u64
    ensures { result ≡ length (filter (summaries.leads_to state) changes.now) }
{
    changes
        .iter()
        .filter(|change| leads_to(change, state))
        .count() as u64
}

/// Whether a reply is a refusal.
fn is_refusal(reply: &Reply) -> bool
    ensures { result ≡ summaries.is_refusal reply.now }
{
    match reply {
        Reply::Refused(_) => true,
        _ => false,
    }
}

/// Whether an entry is a refusal.
fn is_refused(entry: &Entry) -> bool
    ensures { result ≡ summaries.is_refused entry.now }
{
    is_refusal(&entry.reply)
}

/// How many entries are refusals.
fn count_refusals(entries: &[Entry]) -> u64
    ensures { result ≡ length (filter summaries.is_refused entries.now) }
{
    let mut count = 0;
    for entry in entries {
        if is_refused(entry) {
            count += 1;
        }
    }
    count
}

/// How many accepted reservations there are.
fn count_reservations(machine: &Machine) -> Result<u64, AllocError>
    requires { IsLegal machine.now.ledger.config machine.now.ledger.history }
    ensures { IfOk result (λ count. count ≡ length (now_of machine.now.ledger).plan.reservations) }
{
    match machine.reservations(machine.moment()) {
        Ok(list) => Ok(list.as_slice().len() as u64),
        Err(_) => Err(AllocError),
    }
}

/// What a machine has come to.
///
/// # Errors
///
/// Want of memory.
pub fn summary_of(machine: &Machine) -> Result<Summary, AllocError>
    ensures { IfOk result (λ s. s ≡ summaries.summary machine.now.ledger.history (now_of machine.now.ledger)) }
{
    let entries = machine.entries();
    let changes = machine.changes();
    Ok(Summary {
        entries: entries.len() as u64,
        changes: changes.len() as u64,
        done: count_to(changes, JobState::Done),
        failed: count_to(changes, JobState::Failed),
        refused: count_refusals(entries),
        held: machine.held(),
        reservations: count_reservations(machine)?,
        size: machine.size(),
    })
}
