//! How many callbacks a script asks for.
ghost use Rattle.std.specs.Prelude.{◌≡◌, ◌+◌, ◌<◌, ◌≤◌, ◌↔◌, cond, drop, length, IsTrue, MatchOption};
ghost use Rattle.script_text.specs.Follows as follows;
ghost use Rattle.script_commands.specs.Registers.{registers_in, registers_of};

use script_text::{Block, Script};

/// Whether the line at this place of a block registers a callback.
fn registers_at(block: &Block, place: usize) -> bool
    requires { place < length block.now }
    ensures { registers_in (drop place block.now) ≡ cond result 1 0 + registers_in (drop (place + 1) block.now) }
{
    block.registers_at(place)
}

/// How many of so many callbacks are left behind the lines of a block, each of which may register one; None where they are too few.
fn left_behind(callbacks: usize, block: &Block) -> Option<usize>
    ensures { MatchOption result (callbacks < registers_in block.now) (λ left. left + registers_in block.now ≡ callbacks) }
{
    let mut left = callbacks;
    for place in 0..block.len() {
        if registers_at(block, place) {
            left = left.checked_sub(1)?;
        }
    }
    Some(left)
}

/// How many of so many callbacks are left behind a setup block.
fn left_behind_setup(script: &Script, callbacks: usize) -> Option<usize>
    ensures { MatchOption result (callbacks < registers_in (follows.lines_of script.now.setup)) (λ left. left + registers_in (follows.lines_of script.now.setup) ≡ callbacks) }
{
    match &script.setup {
        Some(block) => left_behind(callbacks, block),
        None => Some(callbacks),
    }
}

/// Whether so many callbacks are enough for all lines of a script that register one.
pub fn are_enough(script: &Script, callbacks: usize) -> bool
    ensures { IsTrue result ↔ (registers_of script.now ≤ callbacks) }
{
    let Some(mut left) = left_behind_setup(script, callbacks) else {
        return false;
    };
    for block in script.clients.as_slice() {
        let Some(rest) = left_behind(left, block) else {
            return false;
        };
        left = rest;
    }
    true
}
