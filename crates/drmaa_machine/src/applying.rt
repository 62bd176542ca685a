//! A call is served, and its entry is made.
ghost use Rattle.std.specs.Prelude.{◌≡◌, ◌≢◌, ◌+◌, ◌≤◌, ◌++◌, [], ◌∷◌, true, None, Err, IsOk, OnErr, vec_len, vec_capacity};
ghost use Rattle.drmaa_model.specs.declared.rows.Row.{Row};
ghost use Rattle.drmaa_model.specs.Honoured.{IsOnTime, IsDueInside};
ghost use Rattle.drmaa_model.specs.RecordedCalls.{recorded};
ghost use Rattle.drmaa_model.specs.NextLaunch.{held};
ghost use Rattle.drmaa_model.specs.Refusals.{refusal};
ghost use Rattle.machine_readings.specs.Stores.{world_of, world_at};
ghost use Rattle.machine_calls.specs.Serving.{HasPlace, spare_of};
ghost use Rattle.drmaa_machine.specs.Applies.{Applies, entry_of};
ghost use Rattle.drmaa_machine.specs.Applying.{is_foreseen, is_frugal, is_run_report};
ghost use Rattle.drmaa_machine.specs.Invariant.{IsMachine, ledger_of};

use crate::performs::perform;
use crate::recorded_calls::recorded_call;
use drmaa_model::{Call, Entry, NoEntry, Reply};
use drmaa_types::{CallerId, Moment, a_moment_is_within};
use machine_calls::Replies;
use machine_readings::Store;

/// Serves a call, as one step and one entry.
pub fn serve(store: &mut Store, caller: CallerId, at: Moment, call: Call) -> Result<Reply, NoEntry>
    requires machine { IsMachine store.old }
    ensures machine { IsMachine store.new }
    ensures applies { Applies (ledger_of store.old) caller at (recorded call) result (ledger_of store.new) }
    ensures memory { is_foreseen (recorded call) ≡ true → 1 ≤ spare_of store.old → result ≢ Err NoEntry.OutOfMemory }
    ensures spare { is_frugal (recorded call) ≡ true → spare_of store.old ≤ spare_of store.new + 1 }
    ensures reports { is_run_report (recorded call) ≡ true → refusal (world_at at store.old) (recorded call) ≡ None → IsOk result }
    ensures promised { is_run_report (recorded call) ≡ true → refusal (world_at at store.old) (recorded call) ≡ None → spare_of store.old ≤ spare_of store.new }
    ensures unspent { OnErr result (spare_of store.old ≤ spare_of store.new) }
    ensures honoured_slots { (row : Row) → IsOnTime (world_at at store.old).plan → IsDueInside (world_at at store.old).plan row
        → held (world_at at store.old).plan.rows + row.wants.min ≤ (world_at at store.old).plan.total }
{
    a_moment_is_within(at);
    match recorded_call(store.alloc, call) {
        Ok(recorded) => match perform(store, at, &recorded) {
            Ok(replies) => Ok(push(store, caller, at, recorded, replies)),
            Err(why) => Err(why),
        },
        Err(_) => Err(NoEntry::OutOfMemory),
    }
}

/// Makes the entry, whose memory is there.
fn push(store: &mut Store, caller: CallerId, at: Moment, call: Call, replies: Replies) -> Reply
    requires place { HasPlace 1 store.old }
    ensures told { result ≡ replies.told }
    ensures world { world_of store.new ≡ world_of store.old }
    ensures core { store.new.core ≡ store.old.core }
    ensures items { store.new.history.items ≡ store.old.history.items ++ entry_of caller at call replies.recorded ∷ [] }
    ensures len { vec_len store.new.history ≡ vec_len store.old.history + 1 }
    ensures capacity { vec_capacity store.new.history ≡ vec_capacity store.old.history }
{
    store.history.push_reserved(Entry {
        caller,
        at,
        call,
        reply: replies.recorded,
    });
    replies.told
}
