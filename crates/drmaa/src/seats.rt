//! How the clients of a machine are opened.
ghost use Rattle.std.specs.Prelude.{◌≡◌, ◌≤◌, ◌<◌, [], length, IfOk};
ghost use Rattle.turn_lock.specs.Tokens.{BelongsTo};
ghost use Rattle.call_history.specs.Clients.{seen_of, retired_of};
ghost use Rattle.drmaa.specs.Crews.{IsSeated, IsBegun, AreBegun, AreOpened, IsOpened};
ghost use Rattle.drmaa.specs.Works.{IsUnread};

use crate::crews::Crew;
use attendant::Pair;
use beside_clients::Seated;
use call_history::{Bell, Desk, MachineOpener, SharedMachine};
use drmaa_types::{CallerId, Clock, Clocks};
use std::alloc::{AllocError, Global};

/// The client with this number, and its clock.
fn seat<K: Clocks>(
    shared: &SharedMachine,
    opener: &mut MachineOpener,
    clocks: &K,
    number: u32,
) -> Seated<K::One>
    requires opener { BelongsTo shared.now opener.old }
    requires next { length (retired_of opener.old) ≡ number }
    requires few { number < 4_294_967_295 }
    ensures seated { IsSeated shared.now opener.old opener.new number result.client }
    ensures clock { IsUnread K.One.given number result.clock }
{
    Seated {
        client: shared.open_client(opener),
        clock: clocks.clock(CallerId(number)),
    }
}

/// The first clients of a machine.
struct Seats<C> {
    own: Seated<C>,
    pair: Pair<C>,
    hub_seat: Seated<C>,
}

/// The clients of the work's first desk, of the launcher, of the reaper and of the hub, in this order.
fn open_seats<K: Clocks>(
    shared: &SharedMachine,
    opener: &mut MachineOpener,
    clocks: &K,
) -> Seats<K::One>
    requires opener { BelongsTo shared.now opener.old }
    requires seen { seen_of opener.old ≡ [] }
    requires retired { retired_of opener.old ≡ [] }
    ensures { AreBegun K.One.given shared.now opener.new result }
{
    let own = seat(shared, opener, clocks, 0);
    let launcher = seat(shared, opener, clocks, 1);
    let reaping = seat(shared, opener, clocks, 2);
    let hub_seat = seat(shared, opener, clocks, 3);
    Seats {
        own,
        pair: Pair {
            launcher: launcher.client,
            launcher_clock: launcher.clock,
            reaping: reaping.client,
            reaping_clock: reaping.clock,
        },
        hub_seat,
    }
}

/// The desk of this client, with its clock.
fn desk_of<'a, C: Clock>(shared: &'a SharedMachine, bell: &'a Bell, seat: Seated<C>) -> Desk<'a, C>
    ensures shared { result.shared.now ≡ shared.now }
    ensures client { result.client ≡ seat.client }
    ensures clock { result.clock ≡ seat.clock }
{
    let Seated { client, clock } = seat;
    Desk {
        shared,
        client,
        clock,
        bell,
    }
}

/// The desks of a work, of which the first has this client, and the others have those behind the hub's.
///
/// # Errors
///
/// Want of memory.
fn open_desks<'a, K: Clocks>(
    alloc: Global,
    shared: &'a SharedMachine,
    bell: &'a Bell,
    opener: &mut MachineOpener,
    clocks: &K,
    own: Seated<K::One>,
    clients: u32,
) -> Result<Vec<Desk<'a, K::One>>, AllocError>
    requires begun { IsBegun K.One.given shared.now opener.old own }
    requires least { 1 ≤ clients }
    requires most { clients ≤ 65_535 }
    ensures { IfOk result (λ desks. AreOpened K.One.given shared.now opener.new clients desks.items) }
{
    let mut desks = Vec::new(alloc);
    desks.push(desk_of(shared, bell, own))?;
    for place in 1..clients {
        let seat = seat(shared, opener, clocks, place + 3);
        desks.push(desk_of(shared, bell, seat))?;
    }
    Ok(desks)
}

/// The desks of the work, so many, and the clients of launcher, reaper and hub. The first desk's is opened before these, and the others'
/// behind them.
///
/// # Errors
///
/// Want of memory.
pub(crate) fn open_crew<'a, K: Clocks>(
    alloc: Global,
    shared: &'a SharedMachine,
    bell: &'a Bell,
    opener: &mut MachineOpener,
    clocks: &K,
    clients: u32,
) -> Result<Crew<'a, K::One>, AllocError>
    requires opener { BelongsTo shared.now opener.old }
    requires seen { seen_of opener.old ≡ [] }
    requires retired { retired_of opener.old ≡ [] }
    requires least { 1 ≤ clients }
    requires most { clients ≤ 65_535 }
    ensures { IfOk result (IsOpened K.One.given shared.now opener.new clients) }
{
    let Seats {
        own,
        pair,
        hub_seat,
    } = open_seats(shared, opener, clocks);
    let desks = open_desks(alloc, shared, bell, opener, clocks, own, clients)?;
    Ok(Crew {
        desks,
        pair,
        hub_seat,
    })
}
