//! The hub at its client.
ghost use Rattle.std.specs.Prelude.{◌≡◌, ◌<◌, ◌^◌};
ghost use Rattle.turn_lock.specs.Histories.{BeginsWith};
ghost use Rattle.turn_lock.specs.Tokens.{IsFree};
ghost use Rattle.call_history.specs.Clients.{seen_of, mine_of};
ghost use Rattle.call_history.specs.Timed.{StaysTimed};
ghost use Rattle.attendant.specs.Pairs.{ArePlaced};
ghost use Rattle.notify_hub.specs.Hubs.{IsNoteOf};
ghost use Rattle.beside_clients.specs.HubClients.{FollowsAll, GoesOn, IsStillBeside, KeepsTime};

use attendant::{Done, Pair};
use call_history::{Bell, Client, Pace, SharedMachine};
use change_callbacks::Callback;
use drmaa_types::{Clock, WaitKind};
use notify_hub::Hub;
use std::sync::Wait;
use std::time::Clock as Pause;

/// A client, and its clock.
#[derive(Drop)]
pub struct Seated<C> {
    pub client: Client,
    pub clock: C,
}

/// Hands over all that has changed.
pub fn pump_once<R: Wait, C: Clock, B: Callback>(
    rt: &R,
    shared: &SharedMachine,
    hub: &mut Hub<B>,
    hub_seat: &mut Seated<C>,
)
    requires client { IsFree shared.now hub_seat.old.client }
    requires note { IsNoteOf shared.now hub.old.note }
    requires size { shared.now.fixed.journal < 2 ^ 64 }
    ensures on { GoesOn B.counted B.told shared.now hub.old hub_seat.old.client hub.new hub_seat.new.client }
    ensures follows { FollowsAll shared.now (seen_of hub_seat.new.client) hub.new }
    ensures timed { StaysTimed (mine_of hub_seat.old.client) (C.given hub_seat.old.clock) (mine_of hub_seat.new.client) (C.given hub_seat.new.clock) }
{
    hub.pump(rt, shared, &mut hub_seat.client, &mut hub_seat.clock);
}

/// Hands over what changes, until the clients are over; nothing, where no number has a place. It may go on for good.
pub fn follow<R: Wait + Pause, C: Clock, B: Callback>(
    rt: &R,
    shared: &SharedMachine,
    bell: &Bell,
    hub: &mut Hub<B>,
    hub_seat: &mut Seated<C>,
    done: &Done,
)
    requires client { IsFree shared.now hub_seat.old.client }
    requires note { IsNoteOf shared.now hub.old.note }
    requires size { shared.now.fixed.journal < 2 ^ 64 }
    ensures on { GoesOn B.counted B.told shared.now hub.old hub_seat.old.client hub.new hub_seat.new.client }
    ensures timed { KeepsTime (mine_of hub_seat.old.client) (C.given hub_seat.old.clock) (mine_of hub_seat.new.client) (C.given hub_seat.new.clock) }
{
    if !hub.listens() {
        return;
    }
    let mut pace = Pace::new();
    for _ in rt.forever() {
        let strokes = bell.strokes(rt, WaitKind::Started);
        pump_once(rt, shared, hub, hub_seat);
        if done.clients_over(rt) {
            return;
        }
        bell.rest_at(rt, strokes, &mut pace);
    }
    unreachable!()
}

/// Lets the hub's client know what launcher and reaper have seen.
fn tell<C>(shared: &SharedMachine, pair: &mut Pair<C>, hub_seat: &mut Seated<C>)
    requires pair { ArePlaced shared.now pair.old }
    requires hub_seat { IsFree shared.now hub_seat.old.client }
    ensures pair { pair.new ≡ pair.old }
    ensures clock { hub_seat.new.clock ≡ hub_seat.old.clock }
    ensures still { IsStillBeside shared.now hub_seat.old.client hub_seat.new.client }
    ensures launcher { BeginsWith (seen_of hub_seat.new.client) (seen_of pair.old.launcher) }
    ensures reaping { BeginsWith (seen_of hub_seat.new.client) (seen_of pair.old.reaping) }
{
    shared.hand_over(&mut pair.launcher, &mut hub_seat.client);
    shared.hand_over(&mut pair.reaping, &mut hub_seat.client);
}

/// Hands over all that has changed, after all that launcher and reaper have seen.
pub fn pump_last<R: Wait, C: Clock, B: Callback>(
    rt: &R,
    shared: &SharedMachine,
    hub: &mut Hub<B>,
    pair: &mut Pair<C>,
    hub_seat: &mut Seated<C>,
)
    requires pair { ArePlaced shared.now pair.old }
    requires client { IsFree shared.now hub_seat.old.client }
    requires note { IsNoteOf shared.now hub.old.note }
    requires size { shared.now.fixed.journal < 2 ^ 64 }
    ensures pair { pair.new ≡ pair.old }
    ensures on { GoesOn B.counted B.told shared.now hub.old hub_seat.old.client hub.new hub_seat.new.client }
    ensures follows { FollowsAll shared.now (seen_of hub_seat.new.client) hub.new }
    ensures launcher { BeginsWith (seen_of hub_seat.new.client) (seen_of pair.old.launcher) }
    ensures reaping { BeginsWith (seen_of hub_seat.new.client) (seen_of pair.old.reaping) }
    ensures timed { StaysTimed (mine_of hub_seat.old.client) (C.given hub_seat.old.clock) (mine_of hub_seat.new.client) (C.given hub_seat.new.clock) }
{
    tell(shared, pair, hub_seat);
    pump_once(rt, shared, hub, hub_seat);
}
