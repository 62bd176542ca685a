//! The play of the setup block.
ghost use Rattle.std.specs.Prelude.{◌≡◌, ◌<◌, ◌≤◌, ◌^◌, [], length, None};
ghost use Rattle.turn_lock.specs.Tokens.{BelongsTo};
ghost use Rattle.call_history.specs.Clients.{retired_of};
ghost use Rattle.thread_play.specs.Stages.{IsFirstHeard};

use beside_clients::{Seated, pump_once};
use block_play::{Names, Stopped, play_setup};
use call_history::{Bell, Desk, MachineOpener, SharedMachine};
use change_callbacks::Callback;
use drmaa_types::{CallerId, Clocks};
use notify_hub::Hub;
use script_text::Script;
use std::alloc::Global;
use std::sync::Wait;
use std::time::Clock as Pause;

/// What the play of the setup block leaves: its client's clock, and the names that it gave, or why it stopped.
#[derive(Drop)]
pub(crate) struct First<C> {
    pub clock: C,
    pub played: Result<Names, Stopped>,
}

/// Plays the setup block by a client of its own, by whose lines the hub's callbacks are registered, hands them over what it changed
/// behind their places, and takes the client back. The hub reads a clock of its own for that, so that setup's ends with what its lines
/// read.
pub(crate) fn play_first<R: Wait + Pause, K: Clocks, B: Callback>(
    rt: &R,
    alloc: Global,
    script: &Script,
    shared: &SharedMachine,
    opener: &mut MachineOpener,
    clocks: &K,
    bell: &Bell,
    hub: &mut Hub<B>,
) -> First<K::One>
    requires opener { BelongsTo shared.now opener.old }
    requires fresh { retired_of opener.old ≡ [] }
    requires note { hub.old.note ≡ None }
    requires size { shared.now.fixed.journal < 2 ^ 64 }
    requires few { length script.now.clients ≤ 32 }
    ensures { IsFirstHeard B.counted B.told K.One.given script.now shared.now opener.new result hub.old hub.new }
{
    let mut desk = Desk {
        shared,
        client: shared.open_client(opener),
        clock: clocks.clock(CallerId(0)),
        bell,
    };
    let played = play_setup(rt, alloc, script, &mut desk, hub);
    let Desk { client, clock, .. } = desk;
    let mut hub_seat = Seated {
        client,
        clock: clocks.clock(CallerId(script.clients.as_slice().len() as u32 + 3)),
    };
    pump_once(rt, shared, hub, &mut hub_seat);
    let Seated { client, .. } = hub_seat;
    shared.retire(opener, client);
    First { clock, played }
}
