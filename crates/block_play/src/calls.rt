//! The play of a line that does not wait.
ghost use Rattle.std.specs.Prelude.{◌≡◌, false, IfOk, IfErr, Some};
ghost use Rattle.turn_lock.specs.Tokens.{IsFree};
ghost use Rattle.script_text.specs.Follows.{is_wait};
ghost use Rattle.script_asks.specs.Asks.{asks};
ghost use Rattle.script_asks.specs.Plays.{no_attempt};
ghost use Rattle.script_asks.specs.Replies.{names_after};
ghost use Rattle.block_play.specs.Played.{LeftByLine, stop_for};

use crate::stops::Stopped;
use call_history::{Call, Desk, NoEntry, Reply};
use drmaa_types::Clock;
use script_asks::{Attempts, ask};
use script_lines::Line;
use script_play::{Names, beginning};
use script_text::Script;
use std::alloc::{AllocError, Global};
use std::sync::Wait;

/// Makes the one call that a line asks, if it asks one, and gives the names after its reply.
///
/// # Errors
///
/// Why the call made no entry, or want of memory for its reply.
pub(crate) fn play_call<R: Wait, C: Clock>(
    rt: &R,
    alloc: Global,
    script: &Script,
    desk: &mut Desk<C>,
    names: Names,
    line: &Line,
) -> Result<Names, Stopped>
    requires client { IsFree desk.old.shared.now desk.old.client }
    requires line { is_wait line.now ≡ false }
    ensures { LeftByLine C.given C.least script.now names line.now desk.old desk.new result }
{
    let Ok(asked) = asked_by(alloc, script, &names, line) else {
        return Err(Stopped::Memory);
    };
    match asked {
        Some(call) => make_call(rt, script, desk, names, line, call),
        None => Ok(names),
    }
}

/// The call that a line asks of a client that knows of no launch.
///
/// # Errors
///
/// Want of memory.
fn asked_by(
    alloc: Global,
    script: &Script,
    names: &Names,
    line: &Line,
) -> Result<Option<Call>, AllocError>
    ensures { IfOk result (λ asked. asked ≡ asks script.now names.now no_attempt 0 line.now) }
{
    let attempts = Attempts::new(alloc);
    ask(alloc, script, names.given(), &attempts, beginning(), line)
}

/// Makes a call that a line asks.
fn make_call<R: Wait, C: Clock>(
    rt: &R,
    script: &Script,
    desk: &mut Desk<C>,
    names: Names,
    line: &Line,
    call: Call,
) -> Result<Names, Stopped>
    requires client { IsFree desk.old.shared.now desk.old.client }
    requires line { is_wait line.now ≡ false }
    requires asked { asks script.now names no_attempt 0 line.now ≡ Some call }
    ensures { LeftByLine C.given C.least script.now names line.now desk.old desk.new result }
{
    match desk.call(rt, call) {
        Ok(reply) => names_with(names, line, reply),
        Err(fault) => Err(stop_for(fault)),
    }
}

/// The names after the reply to a line.
///
/// # Errors
///
/// Want of memory.
fn names_with(names: Names, line: &Line, reply: Reply) -> Result<Names, Stopped>
    ensures ok { IfOk result (λ after. after ≡ names_after line.now reply names) }
    ensures err { IfErr result (λ why. why ≡ Stopped.Memory) }
{
    match names.with(line, &reply) {
        Ok(after) => Ok(after),
        Err(_) => Err(Stopped::Memory),
    }
}

/// Why a client stops where its call made no entry.
fn stop_for(fault: NoEntry) -> Stopped
    ensures { result ≡ stop_for fault }
{
    match fault {
        NoEntry::Journal { size } => Stopped::Full { size },
        NoEntry::OutOfMemory | NoEntry::NotYet | NoEntry::Nothing => Stopped::Memory,
    }
}
