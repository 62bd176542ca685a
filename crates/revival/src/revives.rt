//! A machine from a journal, in a process that has none of the old ones.
ghost use Rattle.std.specs.Prelude.{◌≡◌, ◌≤◌, ◌⊎◌, ◌++◌, ℕ, false, List, [], map, Option, Err, IfOk, OnOk, IsOk};
ghost use Rattle.std.specs.List.{AllByRecursion};
ghost use Rattle.drmaa_types.specs.declared.identifiers.JobId.{JobId};
ghost use Rattle.drmaa_model.specs.Fit.{number_of};
ghost use Rattle.drmaa_model.specs.History.{IsLegal, now_of, replay};
ghost use Rattle.drmaa_model.specs.RecordedCalls.{recorded};
ghost use Rattle.drmaa_model.specs.Rows.{row_of};
ghost use Rattle.drmaa_model.specs.Size.{size};
ghost use Rattle.drmaa_model.specs.declared.entries.Entry.{Entry};
ghost use Rattle.drmaa_model.specs.declared.replies.Reply.{Reply};
ghost use Rattle.journal_check.specs.Faults.{FirstFault};
ghost use Rattle.journal_check.specs.Verdicts.{Replays, IsMachine};
ghost use Rattle.journal_text.specs.Journals.{IsWritable};
ghost use Rattle.revival.specs.Stops.{stops};
ghost use Rattle.revival.specs.Stopping.{NoneStarted, was_started, IsStopped};

use crate::ends::end_started;
use drmaa_machine::Machine;
use drmaa_model::Reply;
use journal_check::{Replayed, replay_history};
use journal_text::{Journal, a_writable_journal_has_recorded_calls};
use std::alloc::Global;
use std::error::Error;
use std::fmt;

/// Why no machine goes on from a journal.
#[derive(Drop)]
pub enum ReviveFault {
    /// Memory ran out.
    OutOfMemory,
    /// The entry with this number, counted from 1, is the first that is no step: the reply that it has, and the one that the
    /// machine gives at its place. None where the machine makes no entry there, or the journal would be too large.
    NotLegal {
        entry: u64,
        given: Reply,
        machine: Option<Reply>,
    },
}

impl fmt::Debug for ReviveFault {
    fn fmt<W: fmt::Write>(&self, f: &mut fmt::Formatter<W>) -> fmt::Result {
        match self {
            ReviveFault::OutOfMemory => write!(f, "OutOfMemory"),
            ReviveFault::NotLegal { entry, .. } => write!(f, "NotLegal {{ entry: {entry}, .. }}"),
        }
    }
}

impl fmt::Display for ReviveFault {
    ghost use Rattle.std.specs.Prelude.{Some};
    ghost use Rattle.revival.specs.Said.{fault_text};

    ghost output = { λ why. Some (fault_text why) };

    fn fmt<W: fmt::Write>(&self, f: &mut fmt::Formatter<W>) -> fmt::Result {
        match self {
            ReviveFault::OutOfMemory => write!(f, "out of memory"),
            ReviveFault::NotLegal { entry, .. } => write!(f, "entry {entry} is not legal"),
        }
    }
}

impl Error for ReviveFault {}

/// Replays a journal.
fn replayed_journal(alloc: Global, journal: Journal) -> Replayed
    requires { IsWritable journal.config journal.entries }
    ensures replays { Replays journal.config journal.entries result }
    ensures recorded { AllByRecursion (λ (e : Entry). recorded e.call ≡ e.call) journal.entries }
    ensures only_legal { IsLegal journal.config journal.entries → IsMachine result ⊎ (result ≡ Replayed.OutOfMemory) }
    ensures only_fault { (number : ℕ) (given : Reply) (machine : Option Reply)
        → FirstFault journal.config journal.entries number given machine → (result ≡ Replayed.NotLegal number given machine) ⊎ (result ≡ Replayed.OutOfMemory) }
{
    a_writable_journal_has_recorded_calls();
    replay_history(alloc, journal.config, journal.entries)
}

/// The machine after its started jobs have ended.
fn stopped(mut machine: Machine) -> Machine
    ensures stopped { IsStopped machine.ledger result.ledger }
{
    end_started(&mut machine);
    machine
}

/// The machine that goes on from a journal in a new process, which has none of the processes that the journal tells of. Each
/// started job is ended by a report, at the journal's last moment and by caller 0, in order of number: with exit code 99, which
/// queues it again, where it is rerunnable and no kill of it was asked; and otherwise as one whose end can't be learnt. All else
/// goes on as it was.
///
/// # Errors
///
/// `NotLegal` exactly where the journal is not the history of a machine, as `journal_check` finds it; and want of memory. The
/// journal is never too large for the ends.
pub fn revive(alloc: Global, journal: Journal) -> Result<Machine, ReviveFault>
    requires { IsWritable journal.config journal.entries }
    ensures ok { IfOk result (λ machine. machine.ledger ≡
        record { config = journal.config; history = journal.entries ++ stops (replay journal.config journal.entries) }) }

    // The history is legal, and so is the machine's; each of its calls is as a journal keeps it.
    ensures legal { OnOk result (IsLegal journal.config journal.entries) }
    ensures legal_still { IfOk result (λ machine. IsLegal machine.ledger.config machine.ledger.history) }
    ensures recorded { IfOk result (λ machine. AllByRecursion (λ (e : Entry). recorded e.call ≡ e.call) machine.ledger.history) }
    ensures fault { (number : ℕ) (given : Reply) (machine : Option Reply) →
        result ≡ Err (ReviveFault.NotLegal number given machine) → FirstFault journal.config journal.entries number given machine }
    // exactly where
    ensures only_legal { IsLegal journal.config journal.entries → IsOk result ⊎ (result ≡ Err ReviveFault.OutOfMemory) }
    ensures only_fault { (number : ℕ) (given : Reply) (machine : Option Reply) → FirstFault journal.config journal.entries number given machine →
        (result ≡ Err (ReviveFault.NotLegal number given machine)) ⊎ (result ≡ Err ReviveFault.OutOfMemory) }

    // No job is started, and no signal is still to be delivered.
    ensures stopped { IfOk result (λ machine. NoneStarted (now_of machine.ledger).plan.rows) }
    ensures orders { IfOk result (λ machine. (now_of machine.ledger).plan.orders ≡ []) }

    // All else is as it was: each job that was not started, and which jobs there are, the sessions, the reservations, the moment.
    ensures rows { IfOk result (λ machine. (job : JobId) → was_started job (replay journal.config journal.entries).plan.rows ≡ false →
        row_of job (now_of machine.ledger).plan.rows ≡ row_of job (replay journal.config journal.entries).plan.rows) }
    ensures jobs { IfOk result (λ machine. map number_of (now_of machine.ledger).plan.rows ≡ map number_of (replay journal.config journal.entries).plan.rows) }
    ensures sessions { IfOk result (λ machine. (now_of machine.ledger).sessions ≡ (replay journal.config journal.entries).sessions) }
    ensures reservations { IfOk result (λ machine. (now_of machine.ledger).plan.reservations ≡ (replay journal.config journal.entries).plan.reservations) }
    ensures moment { IfOk result (λ machine. (now_of machine.ledger).plan.moment ≡ (replay journal.config journal.entries).plan.moment) }

    // The ends take no more room than was promised for them.
    ensures size { IfOk result (λ machine. size (now_of machine.ledger) ≤ size (replay journal.config journal.entries)) }
{
    match replayed_journal(alloc, journal) {
        Replayed::Legal(machine) => Ok(stopped(machine)),
        Replayed::NotLegal {
            entry,
            given,
            machine,
        } => Err(ReviveFault::NotLegal {
            entry,
            given,
            machine,
        }),
        Replayed::OutOfMemory => Err(ReviveFault::OutOfMemory),
    }
}
