//! The wait of a client.
ghost use Rattle.std.specs.Prelude.{◌≡◌, IfOk, IfErr, Ok};
ghost use Rattle.drmaa_model.specs.declared.calls.Call.{Call};
ghost use Rattle.drmaa_model.specs.declared.replies.Reply.{Reply};
ghost use Rattle.turn_lock.specs.Histories.{BeginsWith};
ghost use Rattle.turn_lock.specs.Tokens.{IsFree};
ghost use Rattle.call_history.specs.Clients.{seen_of, mine_of, StaysAt};
ghost use Rattle.call_history.specs.Clocks.{dial};
ghost use Rattle.call_history.specs.Timed.{StaysTimed};
ghost use Rattle.wait_calls.specs.Waited.{IsWaited, Reaches, Refuses, Tells};

use call_history::{Awaited, Desk, NoEntry, Reply, WaitLook};
use drmaa_types::{Clock, IdList, JobId, Refusal, SessionId, Timeout, WaitKind};
use std::sync::Wait;
use std::time::Clock as Pause;

/// Waits until one of the listed jobs of a session has reached a state, and answers the first listed one that has. It looks at
/// readings of the clock, with a rest after each look that comes too early, and makes one entry, at the last. Seconds of the
/// timeout count from the first reading (waitAnyStarted and waitAnyTerminated of the standard).
///
/// # Errors
///
/// The refusal of its one entry: `Timeout`, `InvalidSession`, `InvalidArgument` or `OutOfResource`. Or, with no entry, want of
/// memory, or a journal that would be too large.
pub fn wait<R: Wait + Pause, C: Clock>(
    rt: &R,
    desk: &mut Desk<C>,
    session: SessionId,
    jobs: IdList,
    kind: WaitKind,
    timeout: Timeout,
) -> Result<JobId, Refusal>
    requires { IsFree desk.old.shared.now desk.old.client }
    ensures desk { StaysAt desk.old.shared.now desk.old.client desk.new.shared.now desk.new.client }
    ensures ok { IfOk result (λ job. IsWaited desk.old.shared.now.fixed (dial (C.given desk.old.clock) (C.least desk.old.clock)) desk.old.client
        (λ begun. Call.Wait session jobs kind begun timeout) (Reaches desk.old.shared.now.fixed desk.old.client job desk.new.client)
        (dial (C.given desk.new.clock) (C.least desk.new.clock)) desk.new.client) }
    ensures err { IfErr result (λ why. IsWaited desk.old.shared.now.fixed (dial (C.given desk.old.clock) (C.least desk.old.clock)) desk.old.client
        (λ begun. Call.Wait session jobs kind begun timeout) (Refuses desk.old.shared.now.fixed desk.old.client why desk.new.client)
        (dial (C.given desk.new.clock) (C.least desk.new.clock)) desk.new.client) }
    ensures begins { BeginsWith (seen_of desk.new.client) (seen_of desk.old.client) }
    ensures timed { StaysTimed (mine_of desk.old.client) (C.given desk.old.clock) (mine_of desk.new.client) (C.given desk.new.clock) }
{
    let begun = desk.clock.now();
    let mut awaited = Awaited {
        session,
        jobs,
        kind,
        begun,
        timeout,
    };
    for _ in rt.forever() {
        let strokes = desk.bell.strokes(rt, kind);
        match desk.look_at_wait(rt, awaited) {
            WaitLook::NotYet(back) => awaited = back,
            WaitLook::Over(made) => return told(made),
        }
        desk.bell.rest_since(rt, strokes);
    }
    unreachable!()
}

/// What a wait that is over tells.
fn told(made: Result<Reply, NoEntry>) -> Result<JobId, Refusal>
    ensures ok { IfOk result (λ job. made ≡ Ok (Reply.Reached job)) }
    ensures err { IfErr result (λ why. Tells made why) }
{
    match &made {
        Ok(Reply::Reached(job)) => Ok(*job),
        Ok(Reply::Refused(why)) => Err(*why),
        Ok(_) => Err(Refusal::OutOfMemory),
        Err(fault) => Err(Refusal::from(*fault)),
    }
}
