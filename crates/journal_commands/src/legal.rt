//! Commands on journals that have to be legal.
ghost use Rattle.std.specs.Prelude.{◌≡◌, ℕ, List, Option, IfOk};
ghost use Rattle.drmaa_model.specs.History.{Ledger};
ghost use Rattle.journal_text.specs.Journals.{IsWritable};
ghost use Rattle.journal_text.specs.declared.journals.Journal.{Journal};
ghost use Rattle.journal_commands.specs.Replays.{IsReplayOf, AreRecorded};

use crate::running::{JournalCommand, Made, Output};
use drmaa_machine::Machine;
use journal_check::{Replayed, replay_history};
use journal_text::{Journal, a_writable_journal_has_recorded_calls};
use std::alloc::{AllocError, Global};

/// A command that writes what it makes of the machine that has made a journal's entries.
pub trait LegalCommand: Drop + Sized {
    /// What may be made of a machine and its history, and the size that stopped the command, if any.
    ghost Makes: { Self → Ledger → List ℕ → Option ℕ → Type 0 };

    /// What the command makes of the machine.
    fn make(self, alloc: Global, machine: Machine) -> Result<Output, AllocError>
        requires { AreRecorded machine.ledger.history }
        ensures { IfOk result (λ o. Makes self machine.ledger o.text o.full) };
}

/// A command on a journal, which is refused where it is not legal.
#[derive(Drop)]
pub struct OfLegal<C: LegalCommand> {
    pub command: C,
}

/// Replays a journal.
pub fn replayed_journal(alloc: Global, journal: Journal) -> Replayed
    requires { IsWritable journal.config journal.entries }
    ensures replay { IsReplayOf journal result }
    ensures recorded { AreRecorded journal.entries }
{
    a_writable_journal_has_recorded_calls();
    replay_history(alloc, journal.config, journal.entries)
}

impl<C: LegalCommand> JournalCommand for OfLegal<C> {
    ghost use Rattle.journal_commands.specs.Commands as commands;
    ghost use Rattle.journal_commands.specs.Outcomes.{Makes, end_of};

    ghost Writes = { λ c j text full. commands.OfLegal (C.Makes c.command) j text full };

    ghost Refuses = { λ _ j entry given machine. commands.RefusesFault j entry given machine };

    ghost Decides = { λ c j status. commands.Judged (C.Makes c.command) j status };

    fn make(self, alloc: Global, journal: Journal) -> Made {
        let OfLegal { command } = self;
        match replayed_journal(alloc, journal) {
            Replayed::Legal(machine) => match command.make(alloc, machine) {
                Ok(output) => Made::Written(output),
                Err(_) => Made::OutOfMemory,
            },
            Replayed::NotLegal {
                entry,
                given,
                machine,
            } => Made::NotLegal {
                entry,
                given,
                machine,
            },
            Replayed::OutOfMemory => Made::OutOfMemory,
        }
    }
}
