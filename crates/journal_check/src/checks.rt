//! The check of a whole journal.
ghost use Rattle.std.specs.Prelude.{◌≡◌, ◌≤◌, ◌⊎◌, ℕ, true, [], Option};
ghost use Rattle.std.specs.List.{AllByRecursion};
ghost use Rattle.drmaa_types.specs.Queues.{are_queues};
ghost use Rattle.drmaa_model.specs.RecordedCalls.{recorded};
ghost use Rattle.drmaa_model.specs.History.{IsLegal};
ghost use Rattle.drmaa_model.specs.declared.entries.Entry.{Entry};
ghost use Rattle.drmaa_model.specs.declared.replies.Reply.{Reply};
ghost use Rattle.journal_check.specs.Faults.{FirstFault};
ghost use Rattle.journal_check.specs.Verdicts.{Judges, Replays, IsMachine};

use crate::steps::{Finding, replay};
use drmaa_machine::Machine;
use drmaa_model::{Config, Entry, EntryList, Reply};
use std::alloc::Global;

/// What becomes of a check.
#[derive(Drop)]
pub enum Verdict {
    /// Each entry is a step.
    Legal,
    /// The entry with this number, counted from 1, is the first that is none: the reply that it has, and the one that the
    /// machine gives at its place. None where the machine makes no entry there, or the journal would be too large.
    NotLegal {
        entry: u64,
        given: Reply,
        machine: Option<Reply>,
    },
    /// Memory ran out.
    OutOfMemory,
}

/// What becomes of a replay.
#[derive(Drop)]
pub enum Replayed {
    /// Each entry is a step, which this machine has made.
    Legal(Machine),
    /// The first entry that is none, as `Verdict` has it.
    NotLegal {
        entry: u64,
        given: Reply,
        machine: Option<Reply>,
    },
    /// Memory ran out.
    OutOfMemory,
}

/// Replays entries one after another by a machine that has served nothing.
fn replay_all(machine: &mut Machine, entries: Vec<Entry>) -> Verdict
    requires fresh { machine.old.ledger.history ≡ [] }
    requires recorded { AllByRecursion (λ (e : Entry). recorded e.call ≡ e.call) entries.items }
    ensures judges { Judges machine.old.ledger.config entries.items result }
    ensures served { result ≡ Verdict.Legal → machine.new.ledger ≡ record { config = machine.old.ledger.config; history = entries.items } }
{
    for entry in entries {
        let number = machine.entries().len() as u64 + 1;
        match replay(machine, entry) {
            Finding::Step => {}
            Finding::Fault { given, machine } => {
                return Verdict::NotLegal {
                    entry: number,
                    given,
                    machine,
                };
            }
            Finding::OutOfMemory => return Verdict::OutOfMemory,
        }
    }
    Verdict::Legal
}

/// The machine of this configuration whose history these entries are: each the step that it makes, with its reply. Each call is its
/// own recorded call, as it is in every journal that was read.
///
/// Want of memory says nothing of the entries.
pub fn replay_history(alloc: Global, config: Config, entries: EntryList) -> Replayed
    requires least_slots { 1 ≤ config.slots }
    requires most_slots { config.slots ≤ 65_535 }
    requires least_journal { 1 ≤ config.journal }
    requires most_journal { config.journal ≤ 4_000_000 }
    requires queues { are_queues config.slots config.queues ≡ true }
    requires recorded { AllByRecursion (λ (e : Entry). recorded e.call ≡ e.call) entries }
    ensures replays { Replays config entries result }
    // exactly where
    ensures only_legal { IsLegal config entries → IsMachine result ⊎ (result ≡ Replayed.OutOfMemory) }
    ensures only_fault { (number : ℕ) (given : Reply) (machine : Option Reply)
        → FirstFault config entries number given machine → (result ≡ Replayed.NotLegal number given machine) ⊎ (result ≡ Replayed.OutOfMemory) }
{
    let Ok(mut machine) = Machine::new(alloc, config) else {
        return Replayed::OutOfMemory;
    };
    match replay_all(&mut machine, entries.into_vec()) {
        Verdict::Legal => Replayed::Legal(machine),
        Verdict::NotLegal {
            entry,
            given,
            machine,
        } => Replayed::NotLegal {
            entry,
            given,
            machine,
        },
        Verdict::OutOfMemory => Replayed::OutOfMemory,
    }
}

/// Whether these entries are the history of a machine of this configuration: the verdict that a replay of them comes to.
///
/// Want of memory is a verdict of its own, and says nothing of the entries.
pub fn check(alloc: Global, config: Config, entries: EntryList) -> Verdict
    requires least_slots { 1 ≤ config.slots }
    requires most_slots { config.slots ≤ 65_535 }
    requires least_journal { 1 ≤ config.journal }
    requires most_journal { config.journal ≤ 4_000_000 }
    requires queues { are_queues config.slots config.queues ≡ true }
    requires recorded { AllByRecursion (λ (e : Entry). recorded e.call ≡ e.call) entries }
    ensures legal { result ≡ Verdict.Legal → IsLegal config entries }
    ensures fault { (number : ℕ) (given : Reply) (machine : Option Reply)
        → result ≡ Verdict.NotLegal number given machine → FirstFault config entries number given machine }
    // exactly where
    ensures only_legal { IsLegal config entries → (result ≡ Verdict.Legal) ⊎ (result ≡ Verdict.OutOfMemory) }
    ensures only_fault { (number : ℕ) (given : Reply) (machine : Option Reply)
        → FirstFault config entries number given machine → (result ≡ Verdict.NotLegal number given machine) ⊎ (result ≡ Verdict.OutOfMemory) }
{
    match replay_history(alloc, config, entries) {
        Replayed::Legal(_) => Verdict::Legal,
        Replayed::NotLegal {
            entry,
            given,
            machine,
        } => Verdict::NotLegal {
            entry,
            given,
            machine,
        },
        Replayed::OutOfMemory => Verdict::OutOfMemory,
    }
}
