//! The call that hands out the next signal.
ghost use Rattle.std.specs.Prelude.{◌≡◌, ◌≢◌, ◌+◌, ◌≤◌, OnOk, Some, Err};
ghost use Rattle.drmaa_model.specs.declared.calls.Call.{Call};
ghost use Rattle.drmaa_model.specs.declared.replies.Reply.{Reply};
ghost use Rattle.drmaa_model.specs.Launching.{signal};
ghost use Rattle.drmaa_model.specs.Size.{weight};
ghost use Rattle.drmaa_model.specs.Time.{advance_plan};
ghost use Rattle.drmaa_model.specs.World.{counted};
ghost use Rattle.scheduler_core.specs.Signals.{IsNext, signal_for};
ghost use Rattle.machine_readings.specs.Stores.{world_of, IsStore};
ghost use Rattle.machine_calls.specs.Serving.{AreBoth, Comes, Keeps, HasPlace, spare_of};

use crate::places::{make_room, next_occasion};
use crate::replies::Replies;
use drmaa_model::NoEntry;
use drmaa_types::Moment;
use machine_readings::Store;
use scheduler_core::NextSignal;

/// Hands out the signal that is next: the first in order of asking that was not handed out and whose job has a process.
///
/// # Errors
///
/// The first of these that holds: `Nothing` where there is no such signal; `Journal` where the journal would be too large. Want
/// of memory is told only where neither holds.
pub fn take_signal(store: &mut Store, at: Moment) -> Result<Replies, NoEntry>
    requires store { IsStore store.old }
    ensures comes { Comes (world_of store.old) at Call.TakeSignal result (world_of store.new) }
    ensures keeps { Keeps store.old store.new }
    ensures place { OnOk result (HasPlace 1 store.new) }
    ensures memory { 1 ≤ spare_of store.old → result ≢ Err NoEntry.OutOfMemory }
    ensures spare { spare_of store.old ≤ spare_of store.new }
{
    match store.core.next_signal(at) {
        Some(next) => match make_room(store, 0, 0) {
            Ok(()) => Ok(hand_out(store, at, &next)),
            Err(why) => Err(why),
        },
        None => Err(NoEntry::Nothing),
    }
}

/// Hands out this signal, which is the next. The journal has room for its entry, and there is memory for it.
fn hand_out(store: &mut Store, at: Moment, next: &NextSignal) -> Replies
    requires journal { store.old.config.journal ≤ 4_000_000 }
    requires next { IsNext (advance_plan 0 at store.old.core.plan) next.now }
    requires within { store.old.entries + 1 + weight store.old.core.plan ≤ store.old.config.journal }
    requires room { HasPlace 1 store.old }
    ensures world { world_of store.new ≡ counted (record (world_of store.old) { plan = signal.effect (store.old.entries + 1) (advance_plan (store.old.entries + 1) at store.old.core.plan) }) }
    ensures replies { AreBoth result (Reply.Signal (signal_for next.now)) }
    ensures keeps { Keeps store.old store.new }
    ensures place { HasPlace 1 store.new }
    ensures spare { spare_of store.old ≤ spare_of store.new }
{
    let occasion = next_occasion(store, at, true);
    match store.core.take_signal(occasion, next) {
        Ok(()) => {
            store.entries += 1;
            Replies::signal(next.signal())
        }
        Err(_) => unreachable!(),
    }
}
