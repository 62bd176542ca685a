//! The command that checks a journal.
ghost use Rattle.std.specs.Prelude.{◌≡◌, IfOk, string_bytes};
ghost use Rattle.journal_commands.specs.Commands.{legal_line};

use crate::legal::LegalCommand;
use crate::running::Output;
use drmaa_machine::Machine;
use drmaa_types::Text;
use std::alloc::{AllocError, Global};

/// `check`: says of a legal journal how many entries it has.
#[derive(Drop)]
pub struct Check;

/// What is written of a legal history of so many entries.
fn legal_text(alloc: Global, count: u64) -> Result<String, AllocError>
    ensures { IfOk result (λ text. string_bytes text ≡ legal_line count) }
{
    format!(in alloc; "legal {count}\n")
}

impl LegalCommand for Check {
    ghost use Rattle.journal_commands.specs.Commands.{WritesCount};

    ghost Makes = { λ _ ledger text full. WritesCount ledger text full };

    fn make(self, alloc: Global, machine: Machine) -> Result<Output, AllocError> {
        let Check = self;
        let text = legal_text(alloc, machine.entries().len() as u64)?;
        Ok(Output {
            text: Text::from_string(text),
            full: None,
        })
    }
}
