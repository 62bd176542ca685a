//! The calls of the session manager.
ghost use Rattle.std.specs.Prelude.{◌<◌, ◌≤◌, IsTrue, OnOk};
ghost use Rattle.session_table.specs.Sessions.{has_names};
ghost use Rattle.drmaa_model.specs.declared.calls.Call.{Call};
ghost use Rattle.machine_readings.specs.Stores.{world_of, IsStore};
ghost use Rattle.machine_calls.specs.Opening.{Opens, create_call, open_call};
ghost use Rattle.machine_calls.specs.Serving.{Comes, Keeps, HasPlace, spare_of};

use crate::places::{hindrance, make_room, size_with};
use crate::replies::Replies;
use crate::settles::go_on;
use drmaa_model::NoEntry;
use drmaa_types::{Moment, Refusal, SessionId, SessionKind, Text};
use machine_readings::{Store, copied};

/// Makes a named session, and a number that stands for it.
pub fn create(
    store: &mut Store,
    at: Moment,
    kind: SessionKind,
    name: &Option<Text>,
) -> Result<Replies, NoEntry>
    requires store { IsStore store.old }
    requires kind { IsTrue (has_names kind) }
    ensures comes { Comes (world_of store.old) at (create_call kind name.now) result (world_of store.new) }
    ensures keeps { Keeps store.old store.new }
    ensures place { OnOk result (HasPlace 1 store.new) }
    ensures spare { spare_of store.old ≤ spare_of store.new }
{
    match copied(name) {
        Ok(name) => create_named(store, at, kind, name),
        Err(_) => Err(hindrance(store, size_with(store, 0))),
    }
}

/// Makes a named session with a name of its own: the one in the call becomes part of the entry.
fn create_named(
    store: &mut Store,
    at: Moment,
    kind: SessionKind,
    name: Option<Text>,
) -> Result<Replies, NoEntry>
    requires store { IsStore store.old }
    requires kind { IsTrue (has_names kind) }
    ensures comes { Comes (world_of store.old) at (create_call kind name) result (world_of store.new) }
    ensures keeps { Keeps store.old store.new }
    ensures place { OnOk result (HasPlace 1 store.new) }
    ensures spare { spare_of store.old ≤ spare_of store.new }
{
    match make_room(store, 0, 0) {
        Ok(()) => {
            let made = store.sessions.create(kind, name);
            open_up(store, at, made)
        }
        Err(why) => Err(why),
    }
}

/// Opens a named session.
pub fn attach(
    store: &mut Store,
    at: Moment,
    kind: SessionKind,
    name: &Text,
) -> Result<Replies, NoEntry>
    requires store { IsStore store.old }
    requires kind { IsTrue (has_names kind) }
    ensures comes { Comes (world_of store.old) at (open_call kind name.now) result (world_of store.new) }
    ensures keeps { Keeps store.old store.new }
    ensures place { OnOk result (HasPlace 1 store.new) }
    ensures spare { spare_of store.old ≤ spare_of store.new }
{
    match make_room(store, 0, 0) {
        Ok(()) => {
            let made = store.sessions.attach(kind, name);
            open_up(store, at, made)
        }
        Err(why) => Err(why),
    }
}

/// Opens a monitoring session.
pub fn monitor(store: &mut Store, at: Moment) -> Result<Replies, NoEntry>
    requires store { IsStore store.old }
    ensures comes { Comes (world_of store.old) at Call.OpenMonitoring result (world_of store.new) }
    ensures keeps { Keeps store.old store.new }
    ensures place { OnOk result (HasPlace 1 store.new) }
    ensures spare { spare_of store.old ≤ spare_of store.new }
{
    match make_room(store, 0, 0) {
        Ok(()) => {
            let made = store.sessions.monitor();
            open_up(store, at, made)
        }
        Err(why) => Err(why),
    }
}

/// The replies to a call that made a session number, or was refused one.
fn open_up(
    store: &mut Store,
    at: Moment,
    made: Result<SessionId, Refusal>,
) -> Result<Replies, NoEntry>
    requires few { store.old.entries < 4_000_001 }
    requires room { HasPlace 1 store.old }
    ensures opens { Opens made (world_of store.old) at result (world_of store.new) }
    ensures keeps { Keeps store.old store.new }
    ensures place { HasPlace 1 store.new }
    ensures spare { spare_of store.old ≤ spare_of store.new }
{
    match made {
        Ok(session) => Ok(go_on(store, at, Replies::session(session))),
        Err(Refusal::OutOfMemory) => Err(NoEntry::OutOfMemory),
        Err(why) => Ok(go_on(store, at, Replies::refused(&why))),
    }
}
