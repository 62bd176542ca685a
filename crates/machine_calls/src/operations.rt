//! Calls that an operation of the core serves.
ghost use Rattle.std.specs.Prelude.{◌≡◌, ◌≢◌, ◌+◌, ◌≤◌, true, OnOk, OnErr, Err};
ghost use Rattle.drmaa_model.specs.declared.calls.Call.{Call};
ghost use Rattle.scheduler_core.specs.Targets.{is_one_quiet};
ghost use Rattle.machine_readings.specs.Stores.{world_of, IsStore};
ghost use Rattle.machine_calls.specs.Serving.{Comes, Keeps, HasPlace, spare_of, left_of};

use crate::concludes::conclude;
use crate::places::occasion_for;
use crate::replies::Replies;
use crate::settles::refuse;
use drmaa_model::{NoEntry, Target};
use drmaa_types::{Control, Moment, ReservationId, SessionId};
use machine_readings::Store;

/// Forgets ended jobs.
pub fn reap(
    store: &mut Store,
    at: Moment,
    session: SessionId,
    target: Target,
) -> Result<Replies, NoEntry>
    requires store { IsStore store.old }
    ensures comes { Comes (world_of store.old) at (Call.Reap session target) result (world_of store.new) }
    ensures keeps { Keeps store.old store.new }
    ensures place { OnOk result (HasPlace 1 store.new) }
    ensures spare { spare_of store.old ≤ spare_of store.new }
{
    match store.reap_refusal(at, session, &target) {
        Some(why) => refuse(store, at, &why),
        None => {
            let occasion = occasion_for(store, at);
            let done = store.core.reap(occasion, target);
            conclude(store, done)
        }
    }
}

/// Holds, releases, suspends, resumes or terminates jobs. A hold or a release of one job takes no memory where `spare` is at
/// least 1, and uses one of it.
pub fn control(
    store: &mut Store,
    at: Moment,
    session: SessionId,
    target: Target,
    what: Control,
) -> Result<Replies, NoEntry>
    requires store { IsStore store.old }
    ensures comes { Comes (world_of store.old) at (Call.Control session target what) result (world_of store.new) }
    ensures keeps { Keeps store.old store.new }
    ensures place { OnOk result (HasPlace 1 store.new) }
    ensures memory { is_one_quiet target what ≡ true → 1 ≤ spare_of store.old → result ≢ Err NoEntry.OutOfMemory }
    ensures spare { is_one_quiet target what ≡ true → spare_of store.old ≤ left_of store.new + 1 }
    ensures unspent { OnErr result (spare_of store.old ≤ spare_of store.new) }
{
    match store.control_refusal(at, session, &target, what) {
        Some(why) => refuse(store, at, &why),
        None => {
            let occasion = occasion_for(store, at);
            let done = store.core.control(occasion, target, what);
            conclude(store, done)
        }
    }
}

/// Ends a reservation.
pub fn end_reservation(
    store: &mut Store,
    at: Moment,
    session: SessionId,
    number: ReservationId,
) -> Result<Replies, NoEntry>
    requires store { IsStore store.old }
    ensures comes { Comes (world_of store.old) at (Call.EndReservation session number) result (world_of store.new) }
    ensures keeps { Keeps store.old store.new }
    ensures place { OnOk result (HasPlace 1 store.new) }
    ensures spare { spare_of store.old ≤ spare_of store.new }
{
    match store.reservation_refusal(at, session, number) {
        Some(why) => refuse(store, at, &why),
        None => {
            let occasion = occasion_for(store, at);
            let done = store.core.end_reservation(occasion, number);
            conclude(store, done)
        }
    }
}
