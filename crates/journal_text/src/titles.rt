//! The first line of a journal: the machine. Both versions are read, and version 2 is printed.
ghost use Rattle.std.specs.Prelude.{◌≡◌, ◌∷◌, [], ◌++◌, true, OnOk};
ghost use Rattle.text_codec.specs.Formats.{Answers, Says, first_spelled, pair, read_line};
ghost use Rattle.text_codec.specs.Lexical.{IsClean};
ghost use Rattle.text_codec.specs.Quotes.{text};
ghost use Rattle.journal_text.specs.Journals as journals;
ghost use Rattle.journal_text.specs.Queues.{queues};
ghost use Rattle.journal_text.specs.Reading as lines;

use crate::queues::{push_queues, queues_at};
use drmaa_model::Config;
use drmaa_types::{ListOf, QueueList, Text, are_queues};
use std::alloc::{AllocError, Global};
use text_codec::{Cursor, Print, Unread};

/// Slots, a name, and whether jobs can be suspended.
type Machine = (u32, (Text, bool));

/// Whether jobs can be suspended: both answers.
pub const SUSPENDS: [bool; 2] = [true, false];

/// The greatest journal size of a machine whose journal is read.
const JOURNAL_SIZE: u64 = 4_000_000;

/// How it is spelled whether jobs can be suspended.
fn spell_suspend(suspend: bool) -> &'static str
    ensures { result.now ≡ journals.suspend_text suspend }
{
    if suspend { "suspend" } else { "nosuspend" }
}

/// Whether jobs can be suspended, as a word says.
fn suspend_of(word: &[u8]) -> Option<bool>
    ensures { result ≡ first_spelled journals.suspend_text SUSPENDS word.now }
{
    SUSPENDS
        .iter()
        .copied()
        .find(|suspend| spell_suspend(*suspend).as_bytes() == word)
}

/// Reads whether jobs can be suspended.
#[tactic(auto, unfolding(crate::specs::Journals::suspend))]
fn suspend_at(cursor: &mut Cursor) -> Result<bool, Unread>
    ensures { Answers journals.suspend.read cursor.old result cursor.new }
{
    match suspend_of(cursor.word()) {
        Some(suspend) => Ok(suspend),
        None => Err(Unread::Unspelled),
    }
}

/// Whether a machine of a journal may be so, its queues apart.
fn is_machine(config: &Config) -> bool
    ensures { result ≡ journals.is_machine (journals.machine_of config.now) }
{
    let name = config.name.as_str().as_bytes();
    1 <= config.slots && config.slots <= 65535 && 1 <= name.len() && name.len() <= 255
}

/// Whether a machine of a journal may be so, with its queues.
fn is_title(config: &Config) -> bool
    ensures { result ≡ journals.is_title (journals.title_of config.now) }
{
    is_machine(config) && are_queues(config.slots, &config.queues)
}

/// Reads a machine without its queues.
#[tactic(auto, unfolding(crate::specs::Journals::machine, text_codec::specs::Formats::pair))]
fn machine_at(cursor: &mut Cursor) -> Result<Machine, Unread>
    ensures { Answers journals.machine.read cursor.old result cursor.new }
{
    let slots = cursor.u32()?;
    cursor.expect(b" ")?;
    let name = cursor.text()?;
    cursor.expect(b" ")?;
    let suspend = suspend_at(cursor)?;
    Ok((slots, (name, suspend)))
}

/// This machine, with these queues.
fn config_of(machine: Machine, queues: QueueList) -> Config
    ensures { result ≡ journals.config_of (machine, queues) }
{
    let (slots, (name, suspend)) = machine;
    Config {
        slots,
        name,
        suspend,
        journal: JOURNAL_SIZE,
        queues,
    }
}

/// Reads the first line of version 2.
#[tactic(auto, unfolding(crate::specs::Journals::header, crate::specs::Journals::title, text_codec::specs::Formats::checked, text_codec::specs::Formats::behind, text_codec::specs::Formats::pair))]
fn header_at(cursor: &mut Cursor) -> Result<Config, Unread>
    ensures { Answers journals.header.read cursor.old result cursor.new }
{
    cursor.expect(b"drmaa-journal 2 ")?;
    let machine = machine_at(cursor)?;
    cursor.expect(b" ")?;
    let queues = queues_at(cursor)?;
    let config = config_of(machine, queues);
    if is_title(&config) {
        Ok(config)
    } else {
        Err(Unread::Unspelled)
    }
}

/// Reads the first line of version 1.
#[tactic(auto, unfolding(crate::specs::Journals::old_header, crate::specs::Journals::old_title, text_codec::specs::Formats::checked, text_codec::specs::Formats::behind))]
fn old_header_at(cursor: &mut Cursor) -> Result<Config, Unread>
    ensures { Answers journals.old_header.read cursor.old result cursor.new }
{
    cursor.expect(b"drmaa-journal 1 ")?;
    let machine = machine_at(cursor)?;
    let config = config_of(machine, ListOf::new(cursor.alloc()));
    if is_machine(&config) {
        Ok(config)
    } else {
        Err(Unread::Unspelled)
    }
}

/// The machine that a first line of version 2 says.
fn new_header_of(alloc: Global, line: &[u8]) -> Result<Config, Unread>
    ensures { Says (read_line journals.header line.now) result }
{
    let mut cursor = Cursor::new(alloc, line);
    let config = header_at(&mut cursor)?;
    cursor.end()?;
    Ok(config)
}

/// The machine that a first line of version 1 says.
fn old_header_of(alloc: Global, line: &[u8]) -> Result<Config, Unread>
    ensures { Says (read_line journals.old_header line.now) result }
{
    let mut cursor = Cursor::new(alloc, line);
    let config = old_header_at(&mut cursor)?;
    cursor.end()?;
    Ok(config)
}

/// The machine that the first line says, of either version.
pub(crate) fn header_of(alloc: Global, line: &[u8]) -> Result<Config, Unread>
    ensures { Says (lines.header_of line.now) result }
{
    match new_header_of(alloc, line) {
        Err(Unread::Unspelled) => old_header_of(alloc, line),
        read => read,
    }
}

/// Prints whether jobs can be suspended.
#[tactic(auto, unfolding(crate::specs::Journals::suspend), using(crate::specs::PrintLaws::suspend_stands))]
fn push_suspend(out: &mut Vec<u8>, suspend: bool) -> Result<(), AllocError>
    ensures text { OnOk result (out.new.items ≡ out.old.items ++ journals.suspend.spell suspend) }
    ensures valid { OnOk result (journals.suspend.valid suspend) }
{
    out.extend_from_slice(spell_suspend(suspend).as_bytes())
}

/// Prints the machine's name, and whether jobs can be suspended.
#[tactic(auto, unfolding(text_codec::specs::Formats::pair))]
fn push_name(out: &mut Vec<u8>, config: &Config) -> Result<(), AllocError>
    ensures text { OnOk result (out.new.items ≡ out.old.items ++ (pair text journals.suspend).spell (config.now.name, config.now.suspend)) }
    ensures valid { OnOk result ((pair text journals.suspend).valid (config.now.name, config.now.suspend)) }
{
    config.name.push(out)?;
    out.extend_from_slice(b" ")?;
    push_suspend(out, config.suspend)
}

/// Prints the machine without its queues.
#[tactic(auto, unfolding(crate::specs::Journals::machine, text_codec::specs::Formats::pair))]
fn push_machine(out: &mut Vec<u8>, config: &Config) -> Result<(), AllocError>
    ensures text { OnOk result (out.new.items ≡ out.old.items ++ journals.machine.spell (journals.machine_of config.now)) }
    ensures valid { OnOk result (journals.machine.valid (journals.machine_of config.now)) }
{
    config.slots.push(out)?;
    out.extend_from_slice(b" ")?;
    push_name(out, config)
}

/// Prints the machine, and its queues.
#[tactic(auto, unfolding(text_codec::specs::Formats::pair))]
fn push_parts(out: &mut Vec<u8>, config: &Config) -> Result<(), AllocError>
    ensures text { OnOk result (out.new.items ≡ out.old.items ++ (pair journals.machine queues).spell (journals.title_of config.now)) }
    ensures valid { OnOk result ((pair journals.machine queues).valid (journals.title_of config.now)) }
{
    push_machine(out, config)?;
    out.extend_from_slice(b" ")?;
    push_queues(out, &config.queues)
}

/// Prints the version, which is 2, the machine and its queues.
#[tactic(auto, unfolding(crate::specs::Journals::title, text_codec::specs::Formats::checked, text_codec::specs::Formats::behind))]
fn push_title(out: &mut Vec<u8>, config: &Config) -> Result<(), AllocError>
    ensures text { OnOk result (out.new.items ≡ out.old.items ++ journals.title.spell (journals.title_of config.now)) }
    ensures valid { journals.is_title (journals.title_of config.now) ≡ true → OnOk result (journals.title.valid (journals.title_of config.now)) }
    ensures clean { OnOk result (IsClean (journals.title.spell (journals.title_of config.now))) }
{
    out.extend_from_slice(b"drmaa-journal 2 ")?;
    push_parts(out, config)
}

/// Prints the first line.
#[tactic(auto, unfolding(crate::specs::Journals::header))]
pub(crate) fn push_header(out: &mut Vec<u8>, config: &Config) -> Result<(), AllocError>
    ensures text { OnOk result (out.new.items ≡ out.old.items ++ (journals.header.spell config.now ++ 10 ∷ [])) }
    ensures valid { journals.is_title (journals.title_of config.now) ≡ true → OnOk result (journals.title.valid (journals.title_of config.now)) }
    ensures clean { OnOk result (IsClean (journals.header.spell config.now)) }
{
    push_title(out, config)?;
    out.extend_from_slice(b"\n")
}
