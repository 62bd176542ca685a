//! The words that ask for a script.
ghost use Rattle.std.specs.Prelude.{◌≡◌, ◌≤◌, true, decimal, codes, IfOk};
ghost use Rattle.script_text.specs.Header.{is_machine};
ghost use Rattle.command_scripts.specs.declared.batches.Machine.{Machine};
ghost use Rattle.command_words.specs.Commands.{Finds};
ghost use Rattle.batch_command.specs.Words.{AsksFor};

use command_scripts::Machine;
use drmaa_types::{Text, TextList};
use std::alloc::{AllocError, Global};
use text_codec::number_of;

/// The number of slots that a word spells, where a machine may have so many.
fn slots_in(word: &[u8]) -> Option<u32>
    ensures { Finds (λ slots. (1 ≤ slots) × (slots ≤ 65_535) × (word.now ≡ decimal slots)) result }
{
    match number_of(word) {
        Some(slots) if 1 <= slots && slots <= 65_535 => Some(slots as u32),
        _ => None,
    }
}

/// The machine of this name with the slots that a word spells, where a script may have it.
fn machine_with(alloc: Global, slots: &str, name: &str) -> Result<Option<Machine>, AllocError>
    ensures { IfOk result (Finds (λ (m : Machine). (slots.now ≡ decimal m.slots) × (m.name ≡ name.now) × (is_machine m.slots m.name ≡ true))) }
{
    let Some(slots) = slots_in(slots.as_bytes()) else {
        return Ok(None);
    };
    let name = Text::from_string(String::from_str(alloc, name)?);
    let machine = Machine { slots, name };
    if machine.is_valid() {
        Ok(Some(machine))
    } else {
        Ok(None)
    }
}

/// The machine for which the words ask for a script: `script`, its number of slots, and its name, which is `local` where none is
/// given. None where they don't, or where a script can't have such a machine; want of memory is the only error.
pub fn machine_of(alloc: Global, words: &TextList) -> Result<Option<Machine>, AllocError>
    ensures { IfOk result (Finds (AsksFor words.now)) }
{
    match words.as_slice() {
        [word, slots] if word.as_str() == "script" => machine_with(alloc, slots.as_str(), "local"),
        [word, slots, name] if word.as_str() == "script" => {
            machine_with(alloc, slots.as_str(), name.as_str())
        }
        _ => Ok(None),
    }
}
