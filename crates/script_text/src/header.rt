//! The first lines of a script: its machine, and the queues.
ghost use Rattle.std.specs.Prelude.{◌≡◌, []};
ghost use Rattle.text_codec.specs.Formats.{Answers, Says, first_spelled};
ghost use Rattle.text_codec.specs.Formats as form;
ghost use Rattle.script_text.specs.Automaton as automaton;
ghost use Rattle.script_text.specs.Header as header;
ghost use Rattle.script_text.specs.declared.header.TheConstants.{SUSPENDS};

use drmaa_model::Config;
use drmaa_types::{ListOf, QueueSpec, Text};
use std::alloc::Global;
use text_codec::{Cursor, Form, Unread};

/// Slots, a name, and whether jobs can be suspended.
pub(crate) type Machine = (u32, (Text, bool));

/// Whether jobs can be suspended: both answers.
const SUSPENDS: [bool; 2] = [true, false];

/// The greatest journal size.
const JOURNAL: u64 = 4_000_000;

fn spell_suspend(suspend: bool) -> &'static str
    ensures { result.now ≡ header.suspend_word suspend }
{
    if suspend { "suspend" } else { "nosuspend" }
}

/// Whether jobs can be suspended, by this word.
fn suspend_of(word: &[u8]) -> Option<bool>
    ensures { result ≡ first_spelled header.suspend_word SUSPENDS word.now }
{
    SUSPENDS
        .iter()
        .copied()
        .find(|suspend| spell_suspend(*suspend).as_bytes() == word)
}

/// Whether a machine may have so many slots and this name.
fn is_machine(slots: u32, name: &Text) -> bool
    ensures { result ≡ header.is_machine slots name.now }
{
    let length = name.as_str().len();
    1 <= slots && slots <= 65_535 && 1 <= length && length <= 255
}

#[tactic(auto, unfolding(crate::specs::Header::header, crate::specs::Header::suspend, text_codec::specs::Formats::checked, text_codec::specs::Formats::behind, text_codec::specs::Formats::pair))]
fn machine_at(cursor: &mut Cursor) -> Result<Machine, Unread>
    ensures { Answers header.header.read cursor.old result cursor.new }
{
    cursor.expect(b"machine ")?;
    let slots = cursor.u32()?;
    cursor.expect(b" ")?;
    let name = cursor.text()?;
    cursor.expect(b" ")?;
    let Some(suspend) = suspend_of(cursor.word()) else {
        return Err(Unread::Unspelled);
    };
    if is_machine(slots, &name) {
        Ok((slots, (name, suspend)))
    } else {
        Err(Unread::Unspelled)
    }
}

/// What the first line of a script says.
pub(crate) fn read_header(alloc: Global, line: &[u8]) -> Result<Machine, Unread>
    ensures { Says (form.read_line header.header line.now) result }
{
    let mut cursor = Cursor::new(alloc, line);
    let machine = machine_at(&mut cursor)?;
    cursor.end()?;
    Ok(machine)
}

/// The queue that ends a line, behind its key word.
#[tactic(auto, unfolding(crate::specs::Automaton::read_queue))]
pub(crate) fn read_queue(cursor: &mut Cursor) -> Result<QueueSpec, Unread>
    ensures { Says (automaton.read_queue cursor.old) result }
{
    let queue = QueueSpec::read(cursor)?;
    cursor.end()?;
    Ok(queue)
}

/// The configuration of such a machine, without queues.
pub(crate) fn config_of(alloc: Global, machine: Machine) -> Config
    ensures { result ≡ header.config_of machine [] }
{
    let (slots, (name, suspend)) = machine;
    Config {
        slots,
        name,
        suspend,
        journal: JOURNAL,
        queues: ListOf::new(alloc),
    }
}
