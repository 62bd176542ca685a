//! How many bytes the lines of a script take.
ghost use Rattle.std.specs.Prelude.{◌≡◌, ◌≤◌, ◌*◌, [], true, length, decimal};
ghost use Rattle.std.specs.List.{flat_map};
ghost use Rattle.text_codec.specs.Lexical.{escaped};
ghost use Rattle.script_text.specs.Header.{is_machine};
ghost use Rattle.command_scripts.specs.Reading as reading;

use crate::Machine;
use itoa::Buffer;

/// The bytes of a command's lines beside its text and its number.
const COMMAND_FRAME: usize = 127;

/// How often a command's number stands in its lines.
const NUMBERS: usize = 7;

/// The bytes of a script without commands, beside the machine's name and its slots.
const SCRIPT_FRAME: usize = 56;

/// How many bytes a byte of a text takes between the quotes.
#[tactic(auto, unfolding(text_codec::specs::Lexical::escaped))]
fn escaped_size(byte: u8) -> usize
    ensures exact { result ≡ length (escaped byte) }
    ensures most { result ≤ 4 }
{
    match byte {
        b'"' | b'\\' => 2,
        0..32 | 127 => 4,
        _ => 1,
    }
}

/// How many bytes a text takes between its quotes.
fn text_size(text: &[u8]) -> usize
    requires { length text.now ≤ 65_536 }
    ensures exact { result ≡ length (flat_map escaped text.now) }
    ensures most { result ≤ 4 * length text.now }
{
    let mut size = 0;
    for byte in text {
        size += escaped_size(*byte);
    }
    size
}

/// How many decimal digits a number has.
pub(crate) fn digits(number: u64) -> usize
    ensures exact { result ≡ length (decimal number) }
    ensures most { result ≤ 40 }
{
    let mut buffer = Buffer::new();
    buffer.format(number).len()
}

/// How many bytes a script has more with a command more, which has this number.
pub(crate) fn command_size(number: u64, command: &[u8]) -> usize
    requires { length command.now ≤ 65_536 }
    ensures { result ≡ reading.command_size number command.now }
{
    COMMAND_FRAME + NUMBERS * digits(number) + text_size(command)
}

/// How many bytes a script without commands has.
pub(crate) fn frame_size(machine: &Machine) -> usize
    requires { is_machine machine.now.slots machine.now.name ≡ true }
    ensures exact { result ≡ reading.frame_size machine.now }
    ensures most { result ≤ 2_000 }
{
    let name = machine.name.as_str().as_bytes();
    SCRIPT_FRAME + digits(u64::from(machine.slots)) + text_size(name)
}
