//! The scripts that commands read from a source.
ghost use Rattle.std.specs.Prelude.{◌≡◌, ◌⊎◌, ℕ, List, IfSome, IfOk, IfErr, OnOk, IsTrue, Ok, Err};
ghost use Rattle.std.specs.Io.KnownBytes.{IsAtEnd};
ghost use Rattle.drmaa_types.specs.Counts.{Rose};
ghost use Rattle.script_text.specs.declared.scripts.Script.{Script};
ghost use Rattle.continued_text.specs.Texts.{Spells, IsContinued, byte_limit};
ghost use Rattle.continued_text.specs.declared.texts.Continued.{Continued};
ghost use Rattle.journal_text.specs.Journals.{IsWritable};
ghost use Rattle.script_text.specs.declared.scripts.Mode.TheVariants as mode;
ghost use Rattle.text_lines.specs.Lines.{IsFront, IsTextOf, IsFirstBad};
ghost use Rattle.text_lines.specs.declared.reading.TextFault.{TextFault};
ghost use Rattle.journal_commands.specs.Texts.{IsReadAs, IsReadOut};
ghost use Rattle.script_commands.specs.Outcomes.{SpellsScript, IsScriptText, IsSpelled};
ghost use Rattle.journal_commands.specs.Statuses.{IsUnread};

use byte_streams::{Input, Source, read_all};
use continued_text::{Continued, WHOLE_LIMIT};
use journal_commands::{Status, read_status, status_of};
use script_text::{Mode, Script, read_first};
use std::alloc::Global;

/// The greatest number of bytes of a script.
const SCRIPT_LIMIT: usize = 16_777_216;

/// The script of this grammar that all bytes of the source spell.
pub fn read_script<R: Source>(
    alloc: Global,
    grammar: Mode,
    source: &mut R,
) -> Result<Script, Status>
    ensures spelled { IfOk result (IsSpelled grammar) }
    ensures found { IfOk result (λ script. IfSome (R.left source.old) (λ bytes. IsScriptText grammar bytes script)) }
    ensures end { OnOk result (IsAtEnd (R.left source.new)) }
    ensures only { IfSome (R.left source.old) (λ bytes. (script : Script) → IsScriptText grammar bytes script → IsReadAs script result) }
    ensures line { (n : ℕ) → result ≡ Err (Status.Text n) → IfSome (R.left source.old) (λ bytes. IsFirstBad (SpellsScript grammar) 16_777_216 bytes n) }
    ensures read_out { (n : ℕ) → result ≡ Err (Status.Text n) → IsReadOut 16_777_216 (R.left source.old) (R.left source.new) }
    ensures causes { IfErr result IsUnread }
    ensures fault { result ≡ Err Status.ReadFault → Rose (R.faults source.old) (R.faults source.new) }
{
    let Input { bytes, whole } = match read_all(alloc, source, SCRIPT_LIMIT) {
        Ok(input) => input,
        Err(error) => return Err(read_status(error)),
    };
    match read_first(alloc, bytes.as_slice(), whole, grammar) {
        Ok(script) => Ok(script),
        Err(fault) => Err(status_of(fault)),
    }
}

/// The journal and the script behind it that all bytes of the source spell.
pub(crate) fn read_continuation<R: Source>(
    alloc: Global,
    source: &mut R,
) -> Result<Continued, Status>
    ensures writable { IfOk result (λ c. IsWritable c.journal.config c.journal.entries) }
    ensures spelled { IfOk result (λ c. IsSpelled mode.Serial c.script) }
    ensures same { IfOk result (λ c. c.script.config ≡ c.journal.config) }
    ensures found { IfOk result (λ c. IfSome (R.left source.old) (λ bytes. IsContinued bytes c)) }
    ensures end { OnOk result (IsAtEnd (R.left source.new)) }
    ensures only { IfSome (R.left source.old) (λ bytes. (c : Continued) → IsContinued bytes c → IsReadAs c result) }
    ensures line { (n : ℕ) → result ≡ Err (Status.Text n) → IfSome (R.left source.old) (λ bytes. IsFirstBad Spells (byte_limit bytes) bytes n) }
    ensures read_out { (n : ℕ) → result ≡ Err (Status.Text n) → IsReadOut 268_435_456 (R.left source.old) (R.left source.new) }
    ensures causes { IfErr result IsUnread }
    ensures fault { result ≡ Err Status.ReadFault → Rose (R.faults source.old) (R.faults source.new) }
{
    let Input { bytes, whole } = match read_all(alloc, source, WHOLE_LIMIT) {
        Ok(input) => input,
        Err(error) => return Err(read_status(error)),
    };
    match continued_text::read_first(alloc, bytes.as_slice(), whole) {
        Ok(read) => Ok(read),
        Err(fault) => Err(status_of(fault)),
    }
}
