//! The calls that make session numbers invalid, and the registration of callbacks.
ghost use Rattle.std.specs.Prelude.{◌≡◌, ◌+◌, ◌≤◌, ◌<◌, IsTrue, OnOk, true, [], ◌∷◌};
ghost use Rattle.session_table.specs.Sessions.{closed, has_names};
ghost use Rattle.drmaa_types.specs.declared.sessions.SessionKind.{SessionKind};
ghost use Rattle.drmaa_model.specs.declared.calls.Call.{Call};
ghost use Rattle.drmaa_model.specs.declared.replies.Reply.{Reply};
ghost use Rattle.drmaa_model.specs.Effects.{gives};
ghost use Rattle.drmaa_model.specs.Homes.{is_open};
ghost use Rattle.drmaa_model.specs.Size.{size, weight};
ghost use Rattle.drmaa_model.specs.Steps.{answer};
ghost use Rattle.drmaa_model.specs.Time.{advance};
ghost use Rattle.drmaa_model.specs.World.{counted};
ghost use Rattle.machine_readings.specs.Stores.{world_of, IsStore};
ghost use Rattle.machine_calls.specs.Opening.{destroy_call};
ghost use Rattle.machine_calls.specs.Serving.{AreBoth, Comes, Keeps, HasPlace, spare_of};

use crate::places::make_room;
use crate::replies::Replies;
use crate::settles::{go_on, refuse};
use drmaa_model::NoEntry;
use drmaa_types::{Limit, Moment, Refusal, SessionId, SessionKind, Text};
use machine_readings::Store;

/// The most registered callbacks.
const MOST_CALLBACKS: u32 = 64;

/// Makes one session number invalid.
pub fn close(store: &mut Store, at: Moment, session: SessionId) -> Result<Replies, NoEntry>
    requires store { IsStore store.old }
    ensures comes { Comes (world_of store.old) at (Call.CloseSession session) result (world_of store.new) }
    ensures keeps { Keeps store.old store.new }
    ensures place { OnOk result (HasPlace 1 store.new) }
    ensures spare { spare_of store.old ≤ spare_of store.new }
{
    match store.number_refusal(at, session) {
        Some(why) => refuse(store, at, &why),
        None => match make_room(store, 0, 0) {
            Ok(()) => Ok(close_now(store, at, session)),
            Err(why) => Err(why),
        },
    }
}

fn close_now(store: &mut Store, at: Moment, session: SessionId) -> Replies
    requires few { store.old.entries < 4_000_001 }
    requires room { HasPlace 1 store.old }
    requires valid { is_open (SessionKind.Jobs ∷ SessionKind.Reservations ∷ SessionKind.Monitoring ∷ []) session store.old.sessions ≡ true }
    ensures world { world_of store.new ≡ counted (record (advance (world_of store.old) at) { sessions = closed session.0 store.old.sessions }) }
    ensures unit { AreBoth result Reply.Unit }
    ensures keeps { Keeps store.old store.new }
    ensures place { HasPlace 1 store.new }
    ensures spare { spare_of store.old ≤ spare_of store.new }
{
    let _ = store.sessions.close(session);
    go_on(store, at, Replies::unit())
}

/// Destroys a named session: its ended jobs go, and its other jobs and its reservations are left without one.
pub fn destroy(
    store: &mut Store,
    at: Moment,
    kind: SessionKind,
    name: &Text,
) -> Result<Replies, NoEntry>
    requires store { IsStore store.old }
    requires kind { IsTrue (has_names kind) }
    ensures comes { Comes (world_of store.old) at (destroy_call kind name.now) result (world_of store.new) }
    ensures keeps { Keeps store.old store.new }
    ensures place { OnOk result (HasPlace 1 store.new) }
    ensures spare { spare_of store.old ≤ spare_of store.new }
{
    match make_room(store, 0, 0) {
        Ok(()) => Ok(destroy_now(store, at, kind, name)),
        Err(why) => Err(why),
    }
}

fn destroy_now(store: &mut Store, at: Moment, kind: SessionKind, name: &Text) -> Replies
    requires few { store.old.entries < 4_000_001 }
    requires kind { IsTrue (has_names kind) }
    requires room { HasPlace 1 store.old }
    ensures answered { answer (world_of store.old) at (destroy_call kind name.now) ≡ gives result.told (world_of store.new) }
    ensures twice { result.recorded ≡ result.told }
    ensures size { size (world_of store.new) ≡ store.old.entries + 1 + weight store.old.core.plan }
    ensures keeps { Keeps store.old store.new }
    ensures place { HasPlace 1 store.new }
    ensures spare { spare_of store.old ≤ spare_of store.new }
{
    match store.sessions.destroy(kind, name) {
        Ok(home) => {
            let entry = store.entries + 1;
            store.core.forget_home(at, entry, home);
            store.entries = entry;
            Replies::unit()
        }
        Err(why) => go_on(store, at, Replies::refused(&why)),
    }
}

/// Registers a callback.
pub fn register(store: &mut Store, at: Moment) -> Result<Replies, NoEntry>
    requires store { IsStore store.old }
    ensures comes { Comes (world_of store.old) at Call.Register result (world_of store.new) }
    ensures keeps { Keeps store.old store.new }
    ensures place { OnOk result (HasPlace 1 store.new) }
    ensures spare { spare_of store.old ≤ spare_of store.new }
{
    if store.registrations >= MOST_CALLBACKS {
        return refuse(store, at, &Refusal::OutOfResource(Limit::Callbacks));
    }
    match make_room(store, 0, 0) {
        Ok(()) => {
            let number = store.registrations + 1;
            store.registrations = number;
            Ok(go_on(store, at, Replies::callback(number)))
        }
        Err(why) => Err(why),
    }
}
