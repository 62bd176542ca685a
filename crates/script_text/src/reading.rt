//! Reads a script, line by line.
ghost use Rattle.std.specs.Prelude.{◌≡◌, List, ℕ, ◌⊎◌, IfOk, OnOk, IsTrue, Ok, Err};
ghost use Rattle.text_lines.specs.Lines.{IsFront, IsTextOf, IsFirstBad};
ghost use Rattle.text_lines.specs.Skipping.{SpellsUnskipped};
ghost use Rattle.text_lines.specs.declared.reading.TextFault.{TextFault};
ghost use Rattle.script_text.specs.Scripts.{Spells};
ghost use Rattle.script_text.specs.declared.scripts.Mode.{Mode};
ghost use Rattle.script_text.specs.declared.scripts.Script.{Script};

use crate::{Mode, Reader, Script};
use std::alloc::Global;
use text_lines::{Skipping, TextFault, read_lines, read_text};

/// The greatest number of bytes of a script.
const BYTE_LIMIT: usize = 16_777_216;

/// Reads the script whose first bytes these are: all of it where it is `whole`, and else as many as the limit.
///
/// # Errors
/// As `read_script`, on all bytes of the script.
pub fn read_first(alloc: Global, front: &[u8], whole: bool, mode: Mode) -> Result<Script, TextFault>
    ensures whole { OnOk result (IsTrue whole) }
    ensures found { (all : List ℕ) → IsFront 16_777_216 all front.now whole → IfOk result (IsTextOf (SpellsUnskipped (Spells mode)) 16_777_216 all) }
    ensures only { (all : List ℕ) (script : Script) → IsFront 16_777_216 all front.now whole
        → IsTextOf (SpellsUnskipped (Spells mode)) 16_777_216 all script → (result ≡ Ok script) ⊎ (result ≡ Err TextFault.OutOfMemory) }
    ensures line { (all : List ℕ) (n : ℕ) → IsFront 16_777_216 all front.now whole → result ≡ Err (TextFault.Line n)
        → IsFirstBad (SpellsUnskipped (Spells mode)) 16_777_216 all n }
{
    let first = Skipping {
        reader: Reader::Start { mode },
    };
    read_lines(alloc, first, front, whole)
}

/// The script that these bytes spell, all of them.
///
/// # Errors
/// `Line` exactly where they spell none or pass 16,777,216 bytes, with the least number n such that no script begins with
/// the first n lines.
pub fn read_script(alloc: Global, bytes: &[u8], mode: Mode) -> Result<Script, TextFault>
    ensures found { IfOk result (IsTextOf (SpellsUnskipped (Spells mode)) 16_777_216 bytes.now) }
    ensures only { (script : Script) → IsTextOf (SpellsUnskipped (Spells mode)) 16_777_216 bytes.now script
        → (result ≡ Ok script) ⊎ (result ≡ Err TextFault.OutOfMemory) }
    ensures line { (n : ℕ) → result ≡ Err (TextFault.Line n) → IsFirstBad (SpellsUnskipped (Spells mode)) 16_777_216 bytes.now n }
{
    let first = Skipping {
        reader: Reader::Start { mode },
    };
    read_text(alloc, first, bytes, BYTE_LIMIT)
}

/// No lines spell two scripts, and no bytes are two.
pub fn one_script()
    ensures lines { (mode : Mode) (lines : List (List ℕ)) (a b : Script) → Spells mode lines a → Spells mode lines b → a ≡ b }
    ensures bytes { (mode : Mode) (bytes : List ℕ) (a b : Script) → IsTextOf (SpellsUnskipped (Spells mode)) 16_777_216 bytes a
        → IsTextOf (SpellsUnskipped (Spells mode)) 16_777_216 bytes b → a ≡ b }
{}
