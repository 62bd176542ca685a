//! The callbacks that the hub's client registers.
ghost use Rattle.std.specs.Prelude.{◌≡◌, ◌<◌, ◌^◌, [], IfErr, OnOk};
ghost use Rattle.turn_lock.specs.Tokens.{IsFree};
ghost use Rattle.call_history.specs.Clients.{mine_of, KnowsItsOwn};
ghost use Rattle.notify_hub.specs.Hubs.{IsNoteOf};
ghost use Rattle.drmaa.specs.Closed.{CannotBegin};
ghost use Rattle.drmaa.specs.Hubs.{HasRegistered, HaveRegistered};

use beside_clients::Seated;
use call_history::SharedMachine;
use change_callbacks::Callback;
use drmaa_types::{Clock, Limit, Refusal};
use notify_hub::Hub;
use std::sync::Wait;

/// Registers the callback with this number. A number that is given to another caller first is refused as too many callbacks are; the
/// hub's client is the first to ask.
fn register_number<R: Wait, C: Clock, B: Callback>(
    rt: &R,
    shared: &SharedMachine,
    hub: &mut Hub<B>,
    hub_seat: &mut Seated<C>,
    number: usize,
) -> Result<(), Refusal>
    requires client { IsFree shared.now hub_seat.old.client }
    requires own { KnowsItsOwn hub_seat.old.client }
    requires note { IsNoteOf shared.now hub.old.note }
    requires size { shared.now.fixed.journal < 2 ^ 64 }
    ensures ok { OnOk result (HasRegistered B.counted B.told shared.now hub.old hub_seat.old.client number hub.new hub_seat.new.client) }
    ensures err { IfErr result CannotBegin }
{
    let given = hub.register(rt, shared, &mut hub_seat.client, &mut hub_seat.clock)?;
    if given as usize == number {
        Ok(())
    } else {
        Err(Refusal::OutOfResource(Limit::Callbacks))
    }
}

/// Registers so many callbacks, in their order.
///
/// # Errors
///
/// Want of memory, a journal that would be too large, or too many callbacks.
pub(crate) fn register_all<R: Wait, C: Clock, B: Callback>(
    rt: &R,
    shared: &SharedMachine,
    hub: &mut Hub<B>,
    hub_seat: &mut Seated<C>,
    count: usize,
) -> Result<(), Refusal>
    requires client { IsFree shared.now hub_seat.old.client }
    requires own { KnowsItsOwn hub_seat.old.client }
    requires new { mine_of hub_seat.old.client ≡ [] }
    requires note { IsNoteOf shared.now hub.old.note }
    requires size { shared.now.fixed.journal < 2 ^ 64 }
    ensures ok { OnOk result (HaveRegistered B.counted B.told shared.now hub.old hub_seat.old.client count hub.new hub_seat.new.client) }
    ensures err { IfErr result CannotBegin }
{
    for place in 0..count {
        register_number(rt, shared, hub, hub_seat, place + 1)?;
    }
    Ok(())
}
