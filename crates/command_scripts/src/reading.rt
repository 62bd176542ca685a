//! Reads commands, one a line.
ghost use Rattle.std.specs.Prelude.{◌≡◌, ◌<◌, ◌⊎◌, ℕ, List, true, IfOk, OnOk, IsTrue, Ok, Err};
ghost use Rattle.std.specs.Str.{is_utf8};
ghost use Rattle.text_codec.specs.Formats.{Says};
ghost use Rattle.text_lines.specs.Lines.{IsFront, IsTextOf, IsFirstBad};
ghost use Rattle.text_lines.specs.declared.reading.TextFault.{TextFault};
ghost use Rattle.script_text.specs.Header.{is_machine};
ghost use Rattle.command_scripts.specs.Batches.{SpellsBatch};
ghost use Rattle.command_scripts.specs.Batches as batches;
ghost use Rattle.command_scripts.specs.BatchLaws.{reads_batches};
ghost use Rattle.command_scripts.specs.Reading as reading;
ghost use Rattle.command_scripts.specs.declared.batches.Batch.{Batch};

use crate::sizes::{command_size, digits, frame_size};
use crate::{Batch, Machine};
use drmaa_types::{ListOf, Text, TextList};
use std::alloc::{AllocError, Global};
use text_codec::Unread;
use text_lines::{LineReader, TextFault, read_lines};

/// The most lines.
const MOST_LINES: u32 = 65_536;

/// The most bytes of a script.
const MOST_BYTES: usize = 16_777_216;

/// The most bytes of a template's text.
const MOST_TEXT: usize = 65_536;

/// How much the text of a command's template counts beside the command and its number, which stands there twice.
const TEXT_FRAME: usize = 25;

/// What was read so far.
#[derive(Drop)]
pub(crate) struct Reader {
    machine: Machine,
    /// How many lines, the empty ones too.
    lines: u32,
    /// By how many bytes the script may still grow.
    room: usize,
    commands: TextList,
}

impl Reader {
    /// Nothing was read.
    fn new(alloc: Global, machine: Machine) -> Reader
        requires { is_machine machine.slots machine.name ≡ true }
        ensures first { reading.IsFirst result }
        ensures machine { result.machine ≡ machine }
    {
        let room = MOST_BYTES - frame_size(&machine);
        Reader {
            machine,
            lines: 0,
            room,
            commands: ListOf::new(alloc),
        }
    }

    /// With a line more, which is empty.
    fn with_empty(self) -> Reader
        requires { self.lines < 65_536 }
        ensures { result ≡ reading.with_empty self }
    {
        Reader {
            lines: self.lines + 1,
            ..self
        }
    }

    /// With a line more, which is to be a command.
    fn with_command(self, alloc: Global, line: &[u8]) -> Result<Reader, Unread>
        requires { self.lines < 65_536 }
        ensures { Says (reading.with_command self line.now) result }
    {
        let number = self.commands.as_slice().len() as u64 + 1;
        if !is_command(number, line) {
            drop(self);
            return Err(Unread::Unspelled);
        }
        let Reader {
            machine,
            lines,
            room,
            mut commands,
        } = self;
        let Some(room) = room.checked_sub(command_size(number, line)) else {
            return Err(Unread::Unspelled);
        };
        commands.push(command_of(alloc, line)?)?;
        Ok(Reader {
            machine,
            lines: lines + 1,
            room,
            commands,
        })
    }
}

/// Whether a line is UTF-8.
#[tactic(auto, using(text_lines::specs::SkippingLaws::no_utf8, text_lines::specs::SkippingLaws::yes_utf8))]
fn is_readable(line: &[u8]) -> bool
    ensures { result ≡ is_utf8 line.now }
{
    std::str::from_utf8(line).is_ok()
}

/// Whether a line is a command, the one with this number.
fn is_command(number: u64, line: &[u8]) -> bool
    ensures { result ≡ batches.is_command number line.now }
{
    is_readable(line)
        && !line.contains(&0)
        && line.len() + 2 * digits(number) + TEXT_FRAME <= MOST_TEXT
}

/// The text of a line.
fn command_of(alloc: Global, line: &[u8]) -> Result<Text, AllocError>
    requires { is_utf8 line.now ≡ true }
    ensures { IfOk result (λ text. text ≡ line.now) }
{
    let Ok(line) = std::str::from_utf8(line) else {
        unreachable!();
    };
    Ok(Text::from_string(String::from_str(alloc, line)?))
}

impl LineReader for Reader {
    type Read = Batch;

    ghost stepping = { reading.batches_stepping };

    ghost reads = { reads_batches };

    fn next(self, alloc: Global, line: &[u8]) -> Result<Reader, Unread> {
        if self.lines >= MOST_LINES {
            drop(self);
            Err(Unread::Unspelled)
        } else if line.is_empty() {
            Ok(self.with_empty())
        } else {
            self.with_command(alloc, line)
        }
    }

    fn ends(self) -> Option<Batch> {
        let Reader {
            machine,
            lines: _,
            room: _,
            commands,
        } = self;
        Some(Batch { machine, commands })
    }
}

/// Reads the commands for a machine, one a line, of a text whose first bytes these are: all of it where it is `whole`, and
/// else as many as 16,777,216. An empty line is skipped; each other line is a command as it stands.
///
/// # Errors
/// `Line` exactly where the text has more bytes than that, or is not of whole lines, or a line is no command (which is in
/// UTF-8, has no character U+0000, and is not too long for a template), or there are more than 65,536 lines, or the script
/// would have more than 16,777,216 bytes, with the number of the first line after which no such text goes on.
pub fn read_batch(
    alloc: Global,
    machine: Machine,
    front: &[u8],
    whole: bool,
) -> Result<Batch, TextFault>
    requires { is_machine machine.slots machine.name ≡ true }
    ensures whole { OnOk result (IsTrue whole) }
    ensures found { (all : List ℕ) → IsFront 16_777_216 all front.now whole → IfOk result (IsTextOf (SpellsBatch machine) 16_777_216 all) }
    ensures only { (all : List ℕ) (batch : Batch) → IsFront 16_777_216 all front.now whole
        → IsTextOf (SpellsBatch machine) 16_777_216 all batch → (result ≡ Ok batch) ⊎ (result ≡ Err TextFault.OutOfMemory) }
    ensures line { (all : List ℕ) (n : ℕ) → IsFront 16_777_216 all front.now whole → result ≡ Err (TextFault.Line n)
        → IsFirstBad (SpellsBatch machine) 16_777_216 all n }
{
    let first = Reader::new(alloc, machine);
    read_lines(alloc, first, front, whole)
}
