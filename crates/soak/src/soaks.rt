//! The script of a soak is made, read and played.
ghost use Rattle.std.specs.Prelude.{◌≡◌, ◌≤◌, IfOk, None};
ghost use Rattle.script_asks.specs.Plays.{serial_play};
ghost use Rattle.soak_laws.specs.Scripts.{soak_of};
ghost use Rattle.soak.specs.Soaks as soaks;
ghost use Rattle.soak.specs.Soaks.{IsSpelled, soak_summary};

use crate::{Summary, summary_of};
use change_callbacks::{Callbacks, Ears, MemoryCallback};
use script_play::{each_script_can_be_played, play};
use script_text::{Mode, Script, read_script};
use soak_laws::{each_soak_is_one_script, no_soak_fills_the_journal};
use soak_script::soak_script;
use std::alloc::{AllocError, Global};
use text_lines::TextFault;

/// The script of a soak: each has one.
fn script_of(alloc: Global, steps: u32, seed: u32) -> Result<Script, AllocError>
    requires steps { steps ≤ 100_000 }
    requires seed { seed ≤ 2_147_483_647 }
    ensures spelled { IfOk result IsSpelled }
    ensures script { IfOk result (λ script. script ≡ soak_of steps seed) }
{
    each_soak_is_one_script();
    let text = soak_script(alloc, steps, seed)?;
    match read_script(alloc, text.as_str().as_bytes(), Mode::Serial) {
        Ok(script) => Ok(script),
        Err(TextFault::OutOfMemory) => Err(AllocError),
        Err(TextFault::Line(_)) => unreachable!(),
    }
}

/// What the play of a script comes to, that nobody hears.
fn played(alloc: Global, script: &Script) -> Result<Summary, AllocError>
    requires { IsSpelled script.now }
    ensures { IfOk result (λ summary. summary ≡ soaks.summary_of script.now) }
{
    each_script_can_be_played();
    let mut ears = match Ears::new(alloc, Callbacks::<MemoryCallback>::new(alloc)) {
        Ok(ears) => ears,
        Err(_) => return Err(AllocError),
    };
    let played = play(alloc, script, &mut ears)?;
    summary_of(&played.machine)
}

/// Makes the script of a soak of so many steps, which the draws from a seed decide, plays all of it on one thread, and counts what
/// came of it. No callback hears of it.
///
/// # Errors
///
/// Want of memory.
pub fn soak(alloc: Global, steps: u32, seed: u32) -> Result<Summary, AllocError>
    requires steps { steps ≤ 100_000 }
    requires seed { seed ≤ 2_147_483_647 }
    ensures summary { IfOk result (λ summary. summary ≡ soak_summary steps seed) }
    ensures whole { (serial_play (soak_of steps seed)).full ≡ None }
{
    no_soak_fills_the_journal();
    let script = script_of(alloc, steps, seed)?;
    played(alloc, &script)
}
