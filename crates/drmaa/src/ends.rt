//! How the clients come back.
ghost use Rattle.std.specs.Prelude.{◌≡◌, All};
ghost use Rattle.turn_lock.specs.Histories.{BeginsWith};
ghost use Rattle.turn_lock.specs.Tokens.{BelongsTo, IsFree};
ghost use Rattle.call_history.specs.Clients.{seen_of, retired_of, KnowsItsOwn};
ghost use Rattle.attendant.specs.Pairs.{ArePlaced};
ghost use Rattle.beside_clients.specs.HubClients.{IsStillBeside};
ghost use Rattle.drmaa.specs.Crews.{AreOut, AreTakenBack, AreReleased};

use attendant::Pair;
use call_history::{Client, Desk, MachineOpener, SharedMachine};
use drmaa_types::Clock;

/// Takes the clients of a work's desks back, after the launcher's has been told what each had seen.
pub(crate) fn take_back<C: Clock + Drop>(
    shared: &SharedMachine,
    opener: &mut MachineOpener,
    launcher: &mut Client,
    desks: Vec<Desk<C>>,
)
    requires opener { BelongsTo shared.now opener.old }
    requires out { AreOut (retired_of opener.old) }
    requires launcher { IsFree shared.now launcher.old }
    requires each { All (λ d. IsFree shared.now d.client) desks.items }
    ensures { AreTakenBack shared.now opener.old opener.new launcher.old launcher.new desks.entry.items }
{
    for desk in desks {
        let Desk { client, .. } = desk;
        let mut client = client;
        shared.hand_over(&mut client, launcher);
        shared.retire(opener, client);
    }
}

/// Lets the launcher's client know what the hub's has seen.
pub(crate) fn tell_launcher(shared: &SharedMachine, hub_seat: &mut Client, launcher: &mut Client)
    requires hub_seat { IsFree shared.now hub_seat.old }
    requires launcher { IsFree shared.now launcher.old }
    ensures hub_seat { hub_seat.new ≡ hub_seat.old }
    ensures still { IsStillBeside shared.now launcher.old launcher.new }
    ensures knows { KnowsItsOwn launcher.new }
    ensures from_hub_seat { BeginsWith (seen_of launcher.new) (seen_of hub_seat.old) }
{
    shared.hand_over(hub_seat, launcher);
}

/// Takes the clients of launcher, reaper and hub back.
pub(crate) fn release<C: Drop>(
    shared: &SharedMachine,
    opener: &mut MachineOpener,
    pair: Pair<C>,
    hub_seat: Client,
)
    requires opener { BelongsTo shared.now opener.old }
    requires pair { ArePlaced shared.now pair }
    requires hub_seat { IsFree shared.now hub_seat }
    ensures { AreReleased shared.now opener.old opener.new pair.launcher pair.reaping hub_seat }
{
    let Pair {
        launcher,
        launcher_clock: _,
        reaping,
        reaping_clock: _,
    } = pair;
    shared.retire(opener, launcher);
    shared.retire(opener, reaping);
    shared.retire(opener, hub_seat);
}
