//! The play of one line.
ghost use Rattle.turn_lock.specs.Tokens.{IsFree};
ghost use Rattle.block_play.specs.Played.{LeftByLine};

use crate::calls::play_call;
use crate::stops::Stopped;
use crate::waits::play_wait;
use call_history::Desk;
use drmaa_types::{Clock, WaitKind};
use script_lines::Line;
use script_play::Names;
use script_text::Script;
use std::alloc::Global;
use std::sync::Wait;
use std::time::Clock as Pause;

/// Plays one line, with at most one entry, and gives the names after it.
///
/// # Errors
///
/// Why the line made no entry, or want of memory for its reply.
pub(crate) fn play_line<R: Wait + Pause, C: Clock>(
    rt: &R,
    alloc: Global,
    script: &Script,
    desk: &mut Desk<C>,
    names: Names,
    line: &Line,
) -> Result<Names, Stopped>
    requires { IsFree desk.old.shared.now desk.old.client }
    ensures { LeftByLine C.given C.least script.now names line.now desk.old desk.new result }
{
    match line {
        Line::WaitStarted {
            session,
            timeout,
            jobs,
        } => play_wait(
            rt,
            alloc,
            script,
            desk,
            names,
            session.get(),
            jobs.as_slice(),
            WaitKind::Started,
            *timeout,
        ),
        Line::WaitTerminated {
            session,
            timeout,
            jobs,
        } => play_wait(
            rt,
            alloc,
            script,
            desk,
            names,
            session.get(),
            jobs.as_slice(),
            WaitKind::Terminated,
            *timeout,
        ),
        _ => play_call(rt, alloc, script, desk, names, line),
    }
}
