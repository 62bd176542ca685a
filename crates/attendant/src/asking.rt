//! One call of the launcher or the reaper.
ghost use Rattle.std.specs.Prelude.{◌≡◌, IfOk, IfErr};
ghost use Rattle.turn_lock.specs.Tokens.{IsFree};
ghost use Rattle.call_history.specs.Clients.{number_of};
ghost use Rattle.attendant.specs.Acts.{own_acts};
ghost use Rattle.attendant.specs.Posts.{post, IsStillAt, Succeeds, Fails};
ghost use Rattle.attendant.specs.Steps.{Answers};

use call_history::{Call, Desk, NoEntry, Reply};
use drmaa_types::Clock;
use std::sync::Wait;

/// Makes a call through a desk.
///
/// # Errors
///
/// As the machine answers; then there is no entry.
pub(crate) fn ask<R: Wait, C: Clock>(
    rt: &R,
    desk: &mut Desk<C>,
    call: Call,
) -> Result<Reply, NoEntry>
    requires { IsFree desk.old.shared.now desk.old.client }
    ensures desk { IsStillAt (post C.given C.least desk.old) (post C.given C.least desk.new) }
    ensures ok { IfOk result (λ reply. Answers (number_of desk.old.client) call reply (own_acts desk.old.client) (own_acts desk.new.client)) }
    ensures served { IfOk result (λ reply. Succeeds (post C.given C.least desk.old) call reply (post C.given C.least desk.new)) }
    ensures err { IfErr result (λ fault. (own_acts desk.new.client ≡ own_acts desk.old.client)
        × Fails (post C.given C.least desk.old) call fault (post C.given C.least desk.new)) }
{
    desk.call(rt, call)
}
