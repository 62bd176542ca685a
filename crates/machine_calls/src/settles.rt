//! Calls that change no more than time: refusals, and what only reads.
ghost use Rattle.std.specs.Prelude.{◌≡◌, ◌≢◌, ◌<◌, ◌≤◌, IfOk, IsOk, OnOk, Some, None, Err, true};
ghost use Rattle.drmaa_types.specs.declared.identifiers.JobId.{JobId};
ghost use Rattle.drmaa_types.specs.declared.identifiers.SessionId.{SessionId};
ghost use Rattle.drmaa_model.specs.declared.calls.Call.{Call};
ghost use Rattle.drmaa_model.specs.Effects.{makes};
ghost use Rattle.drmaa_model.specs.Refusals.{refusal};
ghost use Rattle.drmaa_model.specs.Steps.{answer};
ghost use Rattle.drmaa_model.specs.Time.{advance};
ghost use Rattle.drmaa_model.specs.World.{counted};
ghost use Rattle.machine_readings.specs.Stores.{world_of, world_at, IsStore};
ghost use Rattle.machine_readings.specs.Telling.{IsReply, is_reading};
ghost use Rattle.machine_calls.specs.Serving.{Comes, IsLooked, Keeps, HasPlace, spare_of};

use crate::places::{hindrance, make_room, size_with};
use crate::replies::Replies;
use drmaa_model::{Call, NoEntry};
use drmaa_types::{IdList, JobId, Moment, Refusal, SessionId, Timeout, WaitKind};
use machine_readings::{Store, is_timed_out};
use std::alloc::AllocError;

/// Answers what changes no more than time, where the journal has room for it.
pub fn settle(store: &mut Store, at: Moment, replies: Replies) -> Result<Replies, NoEntry>
    requires store { IsStore store.old }
    requires twice { replies.recorded ≡ replies.told }
    ensures comes { (asked : Call) → answer (world_of store.old) at asked ≡ makes replies.told (world_at at store.old)
        → Comes (world_of store.old) at asked result (world_of store.new) }
    ensures keeps { Keeps store.old store.new }
    ensures place { OnOk result (HasPlace 1 store.new) }
    ensures memory { 1 ≤ spare_of store.old → result ≢ Err NoEntry.OutOfMemory }
    ensures spare { spare_of store.old ≤ spare_of store.new }
{
    match make_room(store, 0, 0) {
        Ok(()) => Ok(go_on(store, at, replies)),
        Err(why) => Err(why),
    }
}

/// Time goes on, and an entry is made.
pub fn go_on(store: &mut Store, at: Moment, replies: Replies) -> Replies
    requires few { store.old.entries < 4_000_001 }
    requires room { HasPlace 1 store.old }
    ensures replies { result ≡ replies }
    ensures world { world_of store.new ≡ counted (advance (world_of store.old) at) }
    ensures keeps { Keeps store.old store.new }
    ensures place { HasPlace 1 store.new }
    ensures spare { spare_of store.old ≤ spare_of store.new }
{
    let entry = store.entries + 1;
    store.core.advance(at, entry);
    store.entries = entry;
    replies
}

/// Refuses a call.
pub fn refuse(store: &mut Store, at: Moment, why: &Refusal) -> Result<Replies, NoEntry>
    requires store { IsStore store.old }
    ensures comes { (asked : Call) → refusal (world_at at store.old) asked ≡ Some why.now
        → Comes (world_of store.old) at asked result (world_of store.new) }
    ensures keeps { Keeps store.old store.new }
    ensures place { OnOk result (HasPlace 1 store.new) }
    ensures memory { 1 ≤ spare_of store.old → result ≢ Err NoEntry.OutOfMemory }
    ensures spare { spare_of store.old ≤ spare_of store.new }
{
    settle(store, at, Replies::refused(why))
}

/// Serves a call that only reads. What asks for a job's state takes no memory where `spare` is at least 1.
pub fn read(store: &mut Store, at: Moment, call: &Call) -> Result<Replies, NoEntry>
    requires store { IsStore store.old }
    requires reading { is_reading call.now ≡ true }
    ensures comes { Comes (world_of store.old) at call.now result (world_of store.new) }
    ensures keeps { Keeps store.old store.new }
    ensures place { OnOk result (HasPlace 1 store.new) }
    ensures memory { (session : SessionId) (job : JobId) → call.now ≡ Call.GetState session job → 1 ≤ spare_of store.old
        → result ≢ Err NoEntry.OutOfMemory }
    ensures spare { spare_of store.old ≤ spare_of store.new }
{
    match replies_to(store, at, call) {
        Ok(replies) => settle(store, at, replies),
        Err(_) => Err(hindrance(store, size_with(store, 0))),
    }
}

/// The reply to a call that only reads, twice. What asks for a job's state takes no memory.
fn replies_to(store: &Store, at: Moment, call: &Call) -> Result<Replies, AllocError>
    requires store { IsStore store.now }
    requires reading { is_reading call.now ≡ true }
    ensures reply { IfOk result (λ replies. IsReply store.now at call.now replies.told) }
    ensures twice { IfOk result (λ replies. replies.recorded ≡ replies.told) }
    ensures memory { (session : SessionId) (job : JobId) → call.now ≡ Call.GetState session job → IsOk result }
{
    match call {
        Call::GetState { session, job } => Ok(state(store, at, *session, *job)),
        _ => told_of(store, at, call),
    }
}

/// The state of a job, twice, or why it is not told.
fn state(store: &Store, at: Moment, session: SessionId, job: JobId) -> Replies
    requires store { IsStore store.now }
    ensures reply { IsReply store.now at (Call.GetState session job) result.told }
    ensures twice { result.recorded ≡ result.told }
{
    match store.state(at, session, job) {
        Ok(state) => Replies::job_state(state),
        Err(why) => Replies::refused(&why),
    }
}

/// The reply to any call that only reads, and a copy of it.
fn told_of(store: &Store, at: Moment, call: &Call) -> Result<Replies, AllocError>
    requires store { IsStore store.now }
    requires reading { is_reading call.now ≡ true }
    ensures reply { IfOk result (λ replies. IsReply store.now at call.now replies.told) }
    ensures twice { IfOk result (λ replies. replies.recorded ≡ replies.told) }
{
    let told = store.reply_to(at, call)?;
    Replies::twice(store.alloc, told)
}

/// Serves a wait: it answers what is reached, or that its timeout is over.
pub fn wait(
    store: &mut Store,
    at: Moment,
    session: SessionId,
    jobs: &IdList,
    kind: WaitKind,
    begun: Moment,
    timeout: Timeout,
) -> Result<Replies, NoEntry>
    requires store { IsStore store.old }
    ensures comes { Comes (world_of store.old) at (Call.Wait session jobs.now kind begun timeout) result (world_of store.new) }
    ensures keeps { Keeps store.old store.new }
    ensures place { OnOk result (HasPlace 1 store.new) }
    ensures spare { spare_of store.old ≤ spare_of store.new }
{
    match store.wait_refusal(at, session, jobs) {
        Some(why) => refuse(store, at, &why),
        None => {
            let job = store.first_reached(at, kind, jobs);
            let over = is_timed_out(at, begun, timeout);
            match looked(job, over) {
                Some(replies) => settle(store, at, replies),
                None => Err(NoEntry::NotYet),
            }
        }
    }
}

/// What a look is answered, if it is answered.
fn looked(job: Option<u64>, over: bool) -> Option<Replies>
    ensures { IsLooked job over result }
{
    match job {
        Some(job) => Some(Replies::reached(JobId(job))),
        None => {
            if over {
                return Some(Replies::refused(&Refusal::Timeout));
            }
            None
        }
    }
}
