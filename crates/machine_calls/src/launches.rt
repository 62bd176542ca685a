//! The call that hands out the next launch.
ghost use Rattle.std.specs.Prelude.{◌≡◌, ◌+◌, ◌≤◌, OnOk, OnErr, Some};
ghost use Rattle.drmaa_model.specs.declared.calls.Call.{Call};
ghost use Rattle.drmaa_model.specs.Fit.{IsFit};
ghost use Rattle.drmaa_model.specs.Launching.{launch};
ghost use Rattle.drmaa_model.specs.Size.{weight};
ghost use Rattle.drmaa_model.specs.Time.{advance_plan};
ghost use Rattle.scheduler_core.specs.Launches.{IsNext};
ghost use Rattle.machine_readings.specs.Stores.{world_of, IsStore};
ghost use Rattle.machine_calls.specs.Serving.{Comes, Keeps, HasPlace, spare_of};

use crate::copies::copied_launch;
use crate::places::{hindrance, make_room, next_occasion, size_with};
use crate::replies::Replies;
use drmaa_model::{NoEntry, Reply};
use drmaa_types::Moment;
use machine_readings::Store;
use scheduler_core::NextLaunch;

/// What a launch adds to the journal's size beside its entry: the change of its job, and three more that are promised to it.
const ADDED: u32 = 4;

/// How many reports a launched job's process may bring: its start and its end.
const REPORTS: u32 = 2;

/// Hands out the job that is next in order, and takes the memory for the entries of its reports.
///
/// # Errors
///
/// The first of these that holds: `Nothing` where no job is ready; `Journal` where the journal would be too large. Want of memory
/// is told only where neither holds.
pub fn take_launch(store: &mut Store, at: Moment) -> Result<Replies, NoEntry>
    requires store { IsStore store.old }
    ensures comes { Comes (world_of store.old) at Call.TakeLaunch result (world_of store.new) }
    ensures keeps { Keeps store.old store.new }
    ensures place { OnOk result (HasPlace 1 store.new) }
    ensures unspent { OnErr result (spare_of store.old ≤ spare_of store.new) }
{
    match store.core.next_launch(at) {
        Ok(None) => Err(NoEntry::Nothing),
        Ok(Some(next)) => match make_room(store, ADDED, REPORTS) {
            Ok(()) => hand_out(store, at, next),
            Err(why) => Err(why),
        },
        Err(_) => Err(hindrance(store, size_with(store, ADDED))),
    }
}

/// Hands out this launch, which is the next. The journal has room for it, and there is memory for its entry.
fn hand_out(store: &mut Store, at: Moment, next: NextLaunch) -> Result<Replies, NoEntry>
    requires fit { IsFit store.old.core.plan }
    requires journal { store.old.config.journal ≤ 4_000_000 }
    requires next { IsNext (advance_plan 0 at store.old.core.plan) next }
    requires told { launch.told (advance_plan 0 at store.old.core.plan) ≡ Some next.launch }
    requires within { store.old.entries + 1 + weight store.old.core.plan + 4 ≤ store.old.config.journal }
    requires room { HasPlace 3 store.old }
    ensures comes { Comes (world_of store.old) at Call.TakeLaunch result (world_of store.new) }
    ensures keeps { Keeps store.old store.new }
    ensures place { OnOk result (HasPlace 1 store.new) }
    ensures unspent { OnErr result (spare_of store.old ≤ spare_of store.new) }
{
    let recorded = copied_launch(&next.launch)?;
    let occasion = next_occasion(store, at, true);
    match store.core.take_launch(occasion, &next) {
        Ok(()) => {
            store.entries += 1;
            Ok(Replies {
                told: Reply::Launch(next.launch),
                recorded: Reply::Launch(recorded),
            })
        }
        Err(fault) => Err(fault),
    }
}
