//! What is said of bytes as a script of either kind.
ghost use Rattle.std.specs.Prelude.{◌≡◌, ◌⊎◌, ℕ, max, List, IfOk, IfErr, IfSome, OnOk, IsTrue, Ok, Err};
ghost use Rattle.text_lines.specs.Lines.{IsFront};
ghost use Rattle.script_text.specs.declared.scripts.Mode.TheVariants.{Serial, Threads};
ghost use Rattle.script_text.specs.declared.scripts.Script.{Script};
ghost use Rattle.script_advice.specs.WarningTexts.{lint_text};
ghost use Rattle.lint_command.specs.Kinds.{IsBadAt, IsJudged, IsLinted};
ghost use Rattle.lint_command.specs.Refusals.{IsOneLine, IsRefusedBy, advice_at};

use drmaa_types::Text;
use script_advice::{advice_for, lint};
use script_text::{Mode, Script, TextFault, read_first};
use std::alloc::Global;

/// Why bytes are a script of neither kind.
#[derive(Clone, Copy, Debug, PartialEq, Eq)]
pub enum Unread {
    /// The numbers of the first lines after which no script of the one kind goes on, and none of the other.
    Lines { serial: u64, threads: u64 },
    /// Memory ran out.
    OutOfMemory,
}

/// Why nothing is written of bytes.
#[derive(Drop)]
pub enum Refused {
    /// The number of the first bad line, and what is wrong with it, where memory suffices to say so.
    Line { line: u64, advice: Option<Text> },
    /// Memory ran out.
    OutOfMemory,
}

/// The script for threads that these first bytes are, where they are none for one thread.
fn read_threads(alloc: Global, front: &[u8], whole: bool, serial: u64) -> Result<Script, Unread>
    ensures whole { OnOk result (IsTrue whole) }
    ensures found { (all : List ℕ) → IsFront 16_777_216 all front.now whole → IsBadAt Serial all serial → IfOk result (IsJudged all) }
    ensures only { (all : List ℕ) (script : Script) → IsFront 16_777_216 all front.now whole → IsBadAt Serial all serial
        → IsJudged all script → (result ≡ Ok script) ⊎ (result ≡ Err Unread.OutOfMemory) }
    ensures lines { (all : List ℕ) (m n : ℕ) → IsFront 16_777_216 all front.now whole → IsBadAt Serial all serial
        → result ≡ Err (Unread.Lines m n) → IsBadAt Serial all m × IsBadAt Threads all n }
{
    match read_first(alloc, front, whole, Mode::Threads) {
        Ok(script) => Ok(script),
        Err(TextFault::Line(threads)) => Err(Unread::Lines { serial, threads }),
        Err(TextFault::OutOfMemory) => Err(Unread::OutOfMemory),
    }
}

/// The script that these first bytes are: one for one thread, or else one for threads.
fn read_either(alloc: Global, front: &[u8], whole: bool) -> Result<Script, Unread>
    ensures whole { OnOk result (IsTrue whole) }
    ensures found { (all : List ℕ) → IsFront 16_777_216 all front.now whole → IfOk result (IsJudged all) }
    ensures only { (all : List ℕ) (script : Script) → IsFront 16_777_216 all front.now whole
        → IsJudged all script → (result ≡ Ok script) ⊎ (result ≡ Err Unread.OutOfMemory) }
    ensures lines { (all : List ℕ) (m n : ℕ) → IsFront 16_777_216 all front.now whole
        → result ≡ Err (Unread.Lines m n) → IsBadAt Serial all m × IsBadAt Threads all n }
{
    match read_first(alloc, front, whole, Mode::Serial) {
        Ok(script) => Ok(script),
        Err(TextFault::Line(serial)) => read_threads(alloc, front, whole, serial),
        Err(TextFault::OutOfMemory) => Err(Unread::OutOfMemory),
    }
}

/// The later of two lines.
fn later(serial: u64, threads: u64) -> u64
    ensures { result ≡ max serial threads }
{
    if serial < threads { threads } else { serial }
}

/// What is said of the later line, where memory suffices.
fn advice_on(alloc: Global, front: &[u8], whole: bool, serial: u64, threads: u64) -> Option<Text>
    ensures { IfSome result IsOneLine }
{
    match advice_for(alloc, front, whole, serial, threads) {
        Ok(advice) => Some(advice),
        Err(_) => None,
    }
}

/// What is written of the script that these first bytes are: its warnings.
pub(crate) fn lint_first(alloc: Global, front: &[u8], whole: bool) -> Result<Text, Refused>
    ensures whole { OnOk result (IsTrue whole) }
    ensures found { (all : List ℕ) → IsFront 16_777_216 all front.now whole → IfOk result (IsLinted all) }
    ensures only { (all : List ℕ) (script : Script) → IsFront 16_777_216 all front.now whole → IsJudged all script
        → (result ≡ Ok (lint_text script)) ⊎ (result ≡ Err Refused.OutOfMemory) }
    ensures line { (all : List ℕ) → IsFront 16_777_216 all front.now whole → IfErr result (IsRefusedBy all) }
    ensures advice { IfErr result (λ refused. IfSome (advice_at refused) IsOneLine) }
{
    match read_either(alloc, front, whole) {
        Ok(script) => match lint(alloc, &script) {
            Ok(text) => Ok(text),
            Err(_) => Err(Refused::OutOfMemory),
        },
        Err(Unread::Lines { serial, threads }) => Err(Refused::Line {
            line: later(serial, threads),
            advice: advice_on(alloc, front, whole, serial, threads),
        }),
        Err(Unread::OutOfMemory) => Err(Refused::OutOfMemory),
    }
}
