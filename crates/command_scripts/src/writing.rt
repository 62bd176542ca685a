//! From commands to their script.
ghost use Rattle.std.specs.Prelude.{◌≡◌, ◌⊎◌, ℕ, List, true, IfOk, IfErr, OnOk, IsTrue, Ok, Err};
ghost use Rattle.text_lines.specs.Lines.{IsFront, IsTextOf, IsFirstBad};
ghost use Rattle.text_lines.specs.declared.reading.TextFault.{TextFault};
ghost use Rattle.script_text.specs.Header.{is_machine};
ghost use Rattle.command_scripts.specs.declared.batches.Batch.{Batch};
ghost use Rattle.command_scripts.specs.Batches.{SpellsBatch};
ghost use Rattle.command_scripts.specs.Texts.{script_text};
ghost use Rattle.command_scripts.specs.Written.{IsWritten};

use crate::{Batch, Machine, print_script, read_batch};
use drmaa_types::Bytes;
use std::alloc::Global;
use text_lines::TextFault;

/// The script of what was read.
fn printed(alloc: Global, batch: Batch) -> Result<Bytes, TextFault>
    ensures text { IfOk result (λ bytes. bytes ≡ script_text batch) }
    ensures memory { IfErr result (λ fault. fault ≡ TextFault.OutOfMemory) }
{
    match print_script(alloc, &batch) {
        Ok(bytes) => Ok(bytes),
        Err(_) => Err(TextFault::OutOfMemory),
    }
}

/// Reads the commands for a machine, one a line, as `read_batch` does, and prints the script that runs them.
///
/// # Errors
/// As `read_batch`.
pub fn write_script(
    alloc: Global,
    machine: Machine,
    front: &[u8],
    whole: bool,
) -> Result<Bytes, TextFault>
    requires { is_machine machine.slots machine.name ≡ true }
    ensures whole { OnOk result (IsTrue whole) }
    ensures written { (all : List ℕ) → IsFront 16_777_216 all front.now whole → IfOk result (IsWritten machine all) }
    ensures only { (all : List ℕ) (batch : Batch) → IsFront 16_777_216 all front.now whole
        → IsTextOf (SpellsBatch machine) 16_777_216 all batch → (result ≡ Ok (script_text batch)) ⊎ (result ≡ Err TextFault.OutOfMemory) }
    ensures line { (all : List ℕ) (n : ℕ) → IsFront 16_777_216 all front.now whole → result ≡ Err (TextFault.Line n)
        → IsFirstBad (SpellsBatch machine) 16_777_216 all n }
{
    // What is lent as a `&str` is UTF-8, which the contract says.
    let _utf8 = machine.name.as_str();
    match read_batch(alloc, machine, front, whole) {
        Ok(batch) => printed(alloc, batch),
        Err(fault) => Err(fault),
    }
}
