//! The play of a line that waits.
ghost use Rattle.std.specs.Prelude.{◌≡◌};
ghost use Rattle.turn_lock.specs.Tokens.{IsFree};
ghost use Rattle.block_play.specs.Played.{LeftByLine};
ghost use Rattle.block_play.specs.Waits.{wait_line, stop_of};

use crate::stops::Stopped;
use call_history::Desk;
use drmaa_types::{Clock, Limit, Refusal, SessionId, Timeout, WaitKind};
use script_asks::{number_of, numbers_of};
use script_lines::Ref;
use script_play::Names;
use script_text::Script;
use std::alloc::Global;
use std::sync::Wait;
use std::time::Clock as Pause;
use wait_calls::wait;

/// Why a client stops after such a refusal of a wait, which makes no entry; none after another.
fn stop_of(why: Refusal) -> Option<Stopped>
    ensures { result ≡ stop_of why }
{
    match why {
        Refusal::OutOfMemory => Some(Stopped::Memory),
        Refusal::OutOfResource(Limit::Journal { size }) => Some(Stopped::Full { size }),
        _ => None,
    }
}

/// Waits as a line asks, if each of its names has a number, and gives the names back, as they were.
///
/// # Errors
///
/// Why the wait made no entry.
pub(crate) fn play_wait<R: Wait + Pause, C: Clock>(
    rt: &R,
    alloc: Global,
    script: &Script,
    desk: &mut Desk<C>,
    names: Names,
    session: &Ref,
    jobs: &[Ref],
    kind: WaitKind,
    timeout: Timeout,
) -> Result<Names, Stopped>
    requires { IsFree desk.old.shared.now desk.old.client }
    ensures { LeftByLine C.given C.least script.now names (wait_line kind session.now timeout jobs.now) desk.old desk.new result }
{
    let Some(session) = number_of(names.given(), session) else {
        return Ok(names);
    };
    let Ok(jobs) = numbers_of(alloc, names.given(), jobs) else {
        return Err(Stopped::Memory);
    };
    let Some(jobs) = jobs else {
        return Ok(names);
    };
    match wait(rt, desk, SessionId(session), jobs, kind, timeout) {
        Ok(_) => Ok(names),
        Err(why) => match stop_of(why) {
            Some(stopped) => Err(stopped),
            None => Ok(names),
        },
    }
}
