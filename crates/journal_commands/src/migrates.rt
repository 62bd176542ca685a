//! The command that writes a journal as version 2.
ghost use Rattle.std.specs.Prelude.{◌≡◌, ◌≤◌, ◌↔◌, List, ℕ, length};
ghost use Rattle.journal_text.specs.declared.journals.Journal.{Journal};
ghost use Rattle.journal_commands.specs.Commands.{Migrates};
ghost use Rattle.journal_commands.specs.Texts.{IsTextOfJournal, IsLegalText};

use crate::running::{JournalCommand, Made, Output};
use journal_text::{Journal, print_journal};
use std::alloc::Global;

/// `migrate`: writes a journal of either version, legal or not, as version 2.
#[derive(Drop)]
pub struct Migrate;

/// What `migrate` writes is a text of the journal that it has read; within the byte limit, migrating it again leaves it as it is.
pub fn migrating_keeps_the_journal()
    ensures same { (bytes text : List ℕ) (journal : Journal) → Migrates bytes text → (IsTextOfJournal bytes journal ↔ IsTextOfJournal text journal) }
    // What is written is legal exactly where the text that was read is.
    ensures legal { (bytes text : List ℕ) → Migrates bytes text → (IsLegalText bytes ↔ IsLegalText text) }
    // Within the byte limit it is migrated to the same bytes, and to no others.
    ensures again { (bytes text again : List ℕ) → Migrates bytes text → length text ≤ 268_435_456 → (Migrates text again ↔ (again ≡ text)) }
{}

impl JournalCommand for Migrate {
    ghost use Rattle.journal_commands.specs.Commands.{WritesSecond, RefusesNone, WritesAll};
    ghost use Rattle.journal_commands.specs.Outcomes.{Makes, end_of};

    ghost Writes = { λ _ j text full. WritesSecond j text full };

    ghost Refuses = { λ _ j entry given machine. RefusesNone j entry given machine };

    ghost Decides = { λ _ j status. WritesAll j status };

    fn make(self, alloc: Global, journal: Journal) -> Made {
        let Migrate = self;
        match print_journal(alloc, &journal) {
            Ok(text) => Made::Written(Output { text, full: None }),
            Err(_) => Made::OutOfMemory,
        }
    }
}
