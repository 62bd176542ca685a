//! The command that writes the JSON form of a journal.
ghost use Rattle.std.specs.Prelude.{◌≡◌, IfOk};
ghost use Rattle.journal_text.specs.Journals.{IsWritable};
ghost use Rattle.journal_commands.specs.Commands.{json_line};

use crate::running::{JournalCommand, Made, Output};
use drmaa_types::Text;
use journal_json::json_journal;
use journal_text::Journal;
use std::alloc::{AllocError, Global};

/// `json`: writes the JSON form of a journal of either version, legal or not, and a line feed.
#[derive(Drop)]
pub struct Json;

/// The JSON form of a journal, and a line feed.
fn line_of(alloc: Global, journal: &Journal) -> Result<Text, AllocError>
    requires { IsWritable journal.now.config journal.now.entries }
    ensures { IfOk result (λ text. text ≡ json_line journal.now) }
{
    let Ok(form) = json_journal(alloc, journal) else {
        return Err(AllocError);
    };
    let mut line = form.into_string();
    line.push_str("\n")?;
    Ok(Text::from_string(line))
}

impl JournalCommand for Json {
    ghost use Rattle.journal_commands.specs.Commands.{WritesJson, RefusesNone, WritesAll};
    ghost use Rattle.journal_commands.specs.Outcomes.{Makes, end_of};

    ghost Writes = { λ _ j text full. WritesJson j text full };

    ghost Refuses = { λ _ j entry given machine. RefusesNone j entry given machine };

    ghost Decides = { λ _ j status. WritesAll j status };

    fn make(self, alloc: Global, journal: Journal) -> Made {
        let Json = self;
        match line_of(alloc, &journal) {
            Ok(text) => Made::Written(Output { text, full: None }),
            Err(_) => Made::OutOfMemory,
        }
    }
}
