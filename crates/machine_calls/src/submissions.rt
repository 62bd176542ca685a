//! The calls that submit jobs, and that ask for reservations.
ghost use Rattle.std.specs.Prelude.{◌≡◌, ◌≤◌, [], ◌∷◌, OnOk, OnErr, None};
ghost use Rattle.drmaa_types.specs.Refusals.{first_refusal};
ghost use Rattle.drmaa_types.specs.declared.sessions.SessionKind.{SessionKind};
ghost use Rattle.drmaa_model.specs.declared.calls.Call.{Call};
ghost use Rattle.drmaa_model.specs.Homes.{home_number, session_test};
ghost use Rattle.machine_readings.specs.Stores.{world_of, world_at, IsStore};
ghost use Rattle.machine_calls.specs.Runs.{run_call};
ghost use Rattle.machine_calls.specs.Serving.{Comes, Keeps, HasPlace, spare_of};

use crate::concludes::{conclude_reserved, conclude_submitted};
use crate::places::{hindrance, occasion_for, size_with};
use crate::replies::Replies;
use crate::settles::refuse;
use drmaa_model::{Indices, NoEntry};
use drmaa_types::{Moment, SessionId};
use job_template::{JobTemplate, ReservationTemplate};
use machine_readings::Store;

/// Submits a job, or with indices an array of jobs. Memory is asked for before it is known whether the journal has room.
pub fn submit(
    store: &mut Store,
    at: Moment,
    session: SessionId,
    template: &JobTemplate,
    indices: Option<Indices>,
) -> Result<Replies, NoEntry>
    requires store { IsStore store.old }
    ensures comes { Comes (world_of store.old) at (run_call session template.now indices) result (world_of store.new) }
    ensures keeps { Keeps store.old store.new }
    ensures place { OnOk result (HasPlace 1 store.new) }
    ensures unspent { OnErr result (spare_of store.old ≤ spare_of store.new) }
{
    match store.jobs_refusal(at, session) {
        Some(why) => refuse(store, at, &why),
        None => match template.clone() {
            Ok(copy) => submit_now(store, at, session, copy, indices),
            Err(_) => Err(NoEntry::OutOfMemory),
        },
    }
}

/// Submits with a template of its own, which the job keeps: the one in the call becomes part of the entry.
fn submit_now(
    store: &mut Store,
    at: Moment,
    session: SessionId,
    template: JobTemplate,
    indices: Option<Indices>,
) -> Result<Replies, NoEntry>
    requires store { IsStore store.old }
    requires own { first_refusal (session_test (SessionKind.Jobs ∷ []) session (world_at at store.old) ∷ []) ≡ None }
    ensures comes { Comes (world_of store.old) at (run_call session template indices) result (world_of store.new) }
    ensures keeps { Keeps store.old store.new }
    ensures place { OnOk result (HasPlace 1 store.new) }
    ensures unspent { OnErr result (spare_of store.old ≤ spare_of store.new) }
{
    let home = home_number(store, session);
    let occasion = occasion_for(store, at);
    let done = store.core.submit(occasion, home, template, indices);
    conclude_submitted(store, done)
}

/// Asks for a reservation. A reservation adds no more to the journal than its entry, so that a journal would be too large is
/// told where it is, and want of memory only where it is not.
pub fn request_reservation(
    store: &mut Store,
    at: Moment,
    session: SessionId,
    template: &ReservationTemplate,
) -> Result<Replies, NoEntry>
    requires store { IsStore store.old }
    ensures comes { Comes (world_of store.old) at (Call.RequestReservation session template.now) result (world_of store.new) }
    ensures keeps { Keeps store.old store.new }
    ensures place { OnOk result (HasPlace 1 store.new) }
    ensures spare { spare_of store.old ≤ spare_of store.new }
{
    match store.reservations_refusal(at, session) {
        Some(why) => refuse(store, at, &why),
        None => match template.clone() {
            Ok(copy) => request_now(store, at, session, copy),
            Err(_) => Err(hindrance(store, size_with(store, 0))),
        },
    }
}

/// Asks with a template of its own: the one in the call becomes part of the entry.
fn request_now(
    store: &mut Store,
    at: Moment,
    session: SessionId,
    template: ReservationTemplate,
) -> Result<Replies, NoEntry>
    requires store { IsStore store.old }
    requires own { first_refusal (session_test (SessionKind.Reservations ∷ []) session (world_at at store.old) ∷ []) ≡ None }
    ensures comes { Comes (world_of store.old) at (Call.RequestReservation session template) result (world_of store.new) }
    ensures keeps { Keeps store.old store.new }
    ensures place { OnOk result (HasPlace 1 store.new) }
    ensures spare { spare_of store.old ≤ spare_of store.new }
{
    let home = home_number(store, session);
    let occasion = occasion_for(store, at);
    let done = store.core.request_reservation(occasion, home, template);
    conclude_reserved(store, done)
}

/// The named session that a number stands for; 0 where it stands for none, which is no session's number.
fn home_number(store: &Store, session: SessionId) -> u64
    ensures { result ≡ home_number session (world_of store.now) }
{
    store.home_in(session).unwrap_or(0)
}
