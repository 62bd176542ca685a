//! The play of a line of the setup block, which may register a callback.
ghost use Rattle.std.specs.Prelude.{◌<◌, ◌^◌};
ghost use Rattle.turn_lock.specs.Tokens.{IsFree};
ghost use Rattle.notify_hub.specs.Hubs.{IsNoteOf, RegistersOn};
ghost use Rattle.script_lines.specs.declared.lines.Line.TheVariants as line;
ghost use Rattle.script_text.specs.declared.scripts.Script.{Script};
ghost use Rattle.block_play.specs.Played.{LeftByLine};

use crate::lines::play_line;
use crate::stops::Stopped;
use call_history::Desk;
use change_callbacks::Callback;
use drmaa_types::{Clock, Limit, Refusal};
use notify_hub::Hub;
use script_lines::Line;
use script_play::Names;
use script_text::{Script, is_register};
use std::alloc::Global;
use std::sync::Wait;
use std::time::Clock as Pause;

/// Registers a callback by the hub, with one entry of the desk's client; where 64 are registered the entry is refused. The names
/// stay as they are.
///
/// # Errors
///
/// Why the line made no entry.
fn play_register<R: Wait, C: Clock, B: Callback>(
    rt: &R,
    desk: &mut Desk<C>,
    hub: &mut Hub<B>,
    names: Names,
) -> Result<Names, Stopped>
    requires client { IsFree desk.old.shared.now desk.old.client }
    requires note { IsNoteOf desk.old.shared.now hub.old.note }
    requires size { desk.old.shared.now.fixed.journal < 2 ^ 64 }
    ensures line { (script : Script) → LeftByLine C.given C.least script names line.Register desk.old desk.new result }
    ensures hub { RegistersOn B.counted B.told desk.old.shared.now hub.old desk.old.client hub.new desk.new.client }
{
    match hub.register(rt, desk.shared, &mut desk.client, &mut desk.clock) {
        Ok(_) => Ok(names),
        Err(Refusal::OutOfResource(Limit::Callbacks)) => Ok(names),
        Err(Refusal::OutOfResource(Limit::Journal { size })) => Err(Stopped::Full { size }),
        Err(_) => Err(Stopped::Memory),
    }
}

/// Plays one line of a setup block, with at most one entry, and gives the names after it. One that registers a callback does so by
/// the hub.
///
/// # Errors
///
/// Why the line made no entry, or want of memory for its reply.
pub(crate) fn play_first_line<R: Wait + Pause, C: Clock, B: Callback>(
    rt: &R,
    alloc: Global,
    script: &Script,
    desk: &mut Desk<C>,
    hub: &mut Hub<B>,
    names: Names,
    line: &Line,
) -> Result<Names, Stopped>
    requires client { IsFree desk.old.shared.now desk.old.client }
    requires note { IsNoteOf desk.old.shared.now hub.old.note }
    requires size { desk.old.shared.now.fixed.journal < 2 ^ 64 }
    ensures line { LeftByLine C.given C.least script.now names line.now desk.old desk.new result }
    ensures hub { RegistersOn B.counted B.told desk.old.shared.now hub.old desk.old.client hub.new desk.new.client }
{
    if is_register(line) {
        play_register(rt, desk, hub, names)
    } else {
        play_line(rt, alloc, script, desk, names, line)
    }
}
