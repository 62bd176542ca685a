//! The play of a block.
ghost use Rattle.std.specs.Prelude.{◌≡◌, ℕ, ◌<◌, ◌^◌, List, [], ◌∷◌, length, drop, IfOk, IfErr};
ghost use Rattle.turn_lock.specs.Tokens.{IsFree};
ghost use Rattle.call_history.specs.Clients.{mine_of, IsStillAt};
ghost use Rattle.call_history.specs.Timed.{StaysTimed};
ghost use Rattle.notify_hub.specs.Hubs.{IsNoteOf, RegistersOn};
ghost use Rattle.script_lines.specs.declared.lines.Line.{Line};
ghost use Rattle.script_text.specs.Follows.{lines_of};
ghost use Rattle.block_play.specs.Played.{LeftByLine, PlayedLines, StopsLines};

use crate::lines::play_line;
use crate::registering::play_first_line;
use crate::stops::Stopped;
use call_history::Desk;
use change_callbacks::Callback;
use drmaa_types::Clock;
use notify_hub::Hub;
use script_play::Names;
use script_text::{Block, Script};
use std::alloc::Global;
use std::sync::Wait;
use std::time::Clock as Pause;

/// Plays the line at this place of a block, with at most one entry, and gives the names after it.
///
/// # Errors
///
/// Why the line made no entry, or want of memory for it or its reply.
fn play_at<R: Wait + Pause, C: Clock>(
    rt: &R,
    alloc: Global,
    script: &Script,
    desk: &mut Desk<C>,
    names: Names,
    block: &Block,
    place: usize,
) -> Result<Names, Stopped>
    requires client { IsFree desk.old.shared.now desk.old.client }
    requires within { place < length block.now }
    ensures { (line : Line) (rest : List Line) → drop place block.now ≡ line ∷ rest → LeftByLine C.given C.least script.now names line desk.old desk.new result }
{
    match block.line(place) {
        Ok(line) => {
            let left = play_line(rt, alloc, script, desk, names, &line);
            drop(line);
            left
        }
        Err(_) => Err(Stopped::Memory),
    }
}

/// Plays the lines of a block, in order, up to the first one that makes no entry for want of memory or the journal's size, and
/// gives the names after them. The client's own entries go on by what these lines ask, one each.
///
/// # Errors
///
/// Why the play stopped before the block's end.
pub fn play_block<R: Wait + Pause, C: Clock>(
    rt: &R,
    alloc: Global,
    script: &Script,
    desk: &mut Desk<C>,
    names: Names,
    block: &Block,
) -> Result<Names, Stopped>
    requires { IsFree desk.old.shared.now desk.old.client }
    ensures desk { IsStillAt desk.old.shared.now desk.old.client desk.new.shared.now desk.new.client }
    ensures timed { StaysTimed (mine_of desk.old.client) (C.given desk.old.clock) (mine_of desk.new.client) (C.given desk.new.clock) }
    ensures ok { IfOk result (λ after. PlayedLines script.now names block.now 0 (mine_of desk.old.client) (mine_of desk.new.client) after (C.least desk.new.clock)) }
    ensures err { IfErr result (λ why. StopsLines desk.old.shared.now.fixed script.now names block.now 0 desk.old.client desk.new.client (C.given desk.old.clock) (C.given desk.new.clock) why) }
{
    let mut names = names;
    for place in 0..block.len() {
        match play_at(rt, alloc, script, desk, names, block, place) {
            Ok(after) => names = after,
            Err(why) => return Err(why),
        }
    }
    Ok(names)
}

/// Plays the line at this place of a setup block, as `play_at` does; one that registers a callback does so by the hub.
///
/// # Errors
///
/// Why the line made no entry, or want of memory for it or its reply.
fn play_first_at<R: Wait + Pause, C: Clock, B: Callback>(
    rt: &R,
    alloc: Global,
    script: &Script,
    desk: &mut Desk<C>,
    hub: &mut Hub<B>,
    names: Names,
    block: &Block,
    place: usize,
) -> Result<Names, Stopped>
    requires client { IsFree desk.old.shared.now desk.old.client }
    requires note { IsNoteOf desk.old.shared.now hub.old.note }
    requires size { desk.old.shared.now.fixed.journal < 2 ^ 64 }
    requires within { place < length block.now }
    ensures line { (line : Line) (rest : List Line) → drop place block.now ≡ line ∷ rest → LeftByLine C.given C.least script.now names line desk.old desk.new result }
    ensures hub { RegistersOn B.counted B.told desk.old.shared.now hub.old desk.old.client hub.new desk.new.client }
{
    match block.line(place) {
        Ok(line) => {
            let left = play_first_line(rt, alloc, script, desk, hub, names, &line);
            drop(line);
            left
        }
        Err(_) => Err(Stopped::Memory),
    }
}

/// Plays the lines of a setup block, in order, as `play_block` does; the hub's callbacks are registered by its lines. There are no
/// names before it.
fn play_first_lines<R: Wait + Pause, C: Clock, B: Callback>(
    rt: &R,
    alloc: Global,
    script: &Script,
    desk: &mut Desk<C>,
    hub: &mut Hub<B>,
    block: &Block,
) -> Result<Names, Stopped>
    requires client { IsFree desk.old.shared.now desk.old.client }
    requires note { IsNoteOf desk.old.shared.now hub.old.note }
    requires size { desk.old.shared.now.fixed.journal < 2 ^ 64 }
    ensures desk { IsStillAt desk.old.shared.now desk.old.client desk.new.shared.now desk.new.client }
    ensures timed { StaysTimed (mine_of desk.old.client) (C.given desk.old.clock) (mine_of desk.new.client) (C.given desk.new.clock) }
    ensures ok { IfOk result (λ after. PlayedLines script.now [] block.now 0 (mine_of desk.old.client) (mine_of desk.new.client) after (C.least desk.new.clock)) }
    ensures err { IfErr result (λ why. StopsLines desk.old.shared.now.fixed script.now [] block.now 0 desk.old.client desk.new.client (C.given desk.old.clock) (C.given desk.new.clock) why) }
    ensures hub { RegistersOn B.counted B.told desk.old.shared.now hub.old desk.old.client hub.new desk.new.client }
{
    let mut names = Names::new(alloc);
    for place in 0..block.len() {
        match play_first_at(rt, alloc, script, desk, hub, names, block, place) {
            Ok(next) => names = next,
            Err(why) => return Err(why),
        }
    }
    Ok(names)
}

/// Plays the setup block of a script, if there is one, with no names before it. The hub's callbacks are registered by its lines:
/// each that is given a number has its place then.
///
/// # Errors
///
/// Why the play stopped before the block's end.
pub fn play_setup<R: Wait + Pause, C: Clock, B: Callback>(
    rt: &R,
    alloc: Global,
    script: &Script,
    desk: &mut Desk<C>,
    hub: &mut Hub<B>,
) -> Result<Names, Stopped>
    requires client { IsFree desk.old.shared.now desk.old.client }
    requires note { IsNoteOf desk.old.shared.now hub.old.note }
    requires size { desk.old.shared.now.fixed.journal < 2 ^ 64 }
    ensures desk { IsStillAt desk.old.shared.now desk.old.client desk.new.shared.now desk.new.client }
    ensures timed { StaysTimed (mine_of desk.old.client) (C.given desk.old.clock) (mine_of desk.new.client) (C.given desk.new.clock) }
    ensures ok { IfOk result (λ after. PlayedLines script.now [] (lines_of script.now.setup) 0 (mine_of desk.old.client) (mine_of desk.new.client) after (C.least desk.new.clock)) }
    ensures err { IfErr result (λ why. StopsLines desk.old.shared.now.fixed script.now [] (lines_of script.now.setup) 0 desk.old.client desk.new.client (C.given desk.old.clock) (C.given desk.new.clock) why) }
    ensures hub { RegistersOn B.counted B.told desk.old.shared.now hub.old desk.old.client hub.new desk.new.client }
{
    match &script.setup {
        Some(block) => play_first_lines(rt, alloc, script, desk, hub, block),
        None => Ok(Names::new(alloc)),
    }
}
