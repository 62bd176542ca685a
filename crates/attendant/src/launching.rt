//! The launcher.
ghost use Rattle.std.specs.Prelude.{◌≡◌, ◌≢◌, ◌++◌, ◌∷◌, [], true, false, IfOk, IfErr, IfSome, IfNone, Some, None, IsTrue, is_ok, IsOk, List, ℕ};
ghost use Rattle.drmaa_model.specs.declared.calls.Call.{Call};
ghost use Rattle.drmaa_model.specs.declared.faults.NoEntry.{NoEntry};
ghost use Rattle.drmaa_model.specs.declared.replies.Reply.{Reply};
ghost use Rattle.turn_lock.specs.Tokens.{IsFree};
ghost use Rattle.call_history.specs.Clients.{number_of};
ghost use Rattle.attendant.specs.Acts.{Act, launch_reply, duty_of, own_acts};
ghost use Rattle.attendant.specs.Posts.{post, IsStillAt, Succeeds, Fails};
ghost use Rattle.drmaa_types.specs.Counts.{Rose};
ghost use Rattle.slab.specs.Slab.{get, SameValues, HasRoomFor};
ghost use Rattle.attendant.specs.Outside.{Tends, Keeps, AgreesOf};
ghost use Rattle.attendant.specs.Steps.{entry_of, report_call, asked_start, Takes, Reports, PutsAt, LaunchSteps, MayFail, IsNothing, IsFailedStart, CountsStart, IsLaunchRefused};

use crate::asking::ask;
use crate::{Held, Reaper};
use call_history::{Call, Desk, NoEntry, Reply};
use child_spawner::Spawner;
use drmaa_model::Launch;
use drmaa_types::{Clock, Failed, JobId, Refusal};
use slab::Slab;
use std::sync::Wait;

/// What a round of the launcher came to.
#[derive(Clone, Copy, Debug, PartialEq, Eq)]
pub enum Launched {
    /// The machine has no launch.
    Nothing,
    /// The child of this job was started.
    Began(JobId),
    /// The child of this job could not be started.
    StartFailed(JobId),
}

fn launch_of(reply: Reply) -> Option<Launch>
    ensures { result ≡ launch_reply reply }
{
    match reply {
        Reply::Launch(launch) => Some(launch),
        _ => None,
    }
}

/// Takes a launch, where there is one.
fn take_launch<R: Wait, C: Clock>(rt: &R, desk: &mut Desk<C>) -> Result<Option<Launch>, Refusal>
    requires { IsFree desk.old.shared.now desk.old.client }
    ensures desk { IsStillAt (post C.given C.least desk.old) (post C.given C.least desk.new) }
    ensures taken { IfOk result (λ launch. IfSome launch (Takes (number_of desk.old.client) (own_acts desk.old.client) (own_acts desk.new.client))) }
    ensures served { IfOk result (λ launch. IfSome launch (λ l. Succeeds (post C.given C.least desk.old) Call.TakeLaunch (Reply.Launch l) (post C.given C.least desk.new))) }
    ensures nothing { IfOk result (λ launch. IfNone launch
        ((own_acts desk.new.client ≡ own_acts desk.old.client) × Fails (post C.given C.least desk.old) Call.TakeLaunch NoEntry.Nothing (post C.given C.least desk.new))) }
    ensures err { IfErr result (λ why. (own_acts desk.new.client ≡ own_acts desk.old.client)
        × (fault : NoEntry) × (fault ≢ NoEntry.Nothing) × Fails (post C.given C.least desk.old) Call.TakeLaunch fault (post C.given C.least desk.new) × MayFail fault why) }
{
    match ask(rt, desk, Call::TakeLaunch) {
        Ok(reply) => {
            let Some(launch) = launch_of(reply) else {
                unreachable!()
            };
            Ok(Some(launch))
        }
        Err(NoEntry::Nothing) => Ok(None),
        Err(fault) => Err(Refusal::from(fault)),
    }
}

/// Reports whether a launch began. Whether the report is an entry.
fn report_start<R: Wait, C: Clock>(rt: &R, desk: &mut Desk<C>, launch: &Launch, began: bool) -> bool
    requires { IsFree desk.old.shared.now desk.old.client }
    ensures desk { IsStillAt (post C.given C.least desk.old) (post C.given C.least desk.new) }
    ensures made { Reports (post C.given C.least desk.old) began launch.now result (post C.given C.least desk.new) }
    ensures cause { result ≡ false → (fault : NoEntry) × Fails (post C.given C.least desk.old) (asked_start began launch.now) fault (post C.given C.least desk.new) }
{
    let call = start_report(launch, began);
    ask(rt, desk, call).is_ok()
}

fn start_report(launch: &Launch, began: bool) -> Call
    ensures call { result ≡ asked_start began launch.now }
    ensures duty { duty_of result ≡ report_call began launch.now }
{
    let (job, attempt) = (launch.job, launch.attempt);
    if began {
        Call::Started { job, attempt }
    } else {
        Call::StartFailed { job, attempt }
    }
}

/// Keeps a child in the place that was reserved for it.
fn put<T>(children: &mut Slab<Held<T>>, launch: &Launch, child: T)
    requires { HasRoomFor children.old 1 }
    ensures { PutsAt launch.now child children.old children.new }
{
    children.insert_reserved(Held {
        job: launch.job,
        attempt: launch.attempt,
        child,
    });
}

/// The steps of a round of the launcher.
fn launch_round<R: Wait, S: Spawner, C: Clock>(
    rt: &R,
    desk: &mut Desk<C>,
    spawner: &mut S,
    reaper: &mut Reaper<S::One>,
) -> Result<Launched, Refusal>
    requires { IsFree desk.old.shared.now desk.old.client }
    ensures desk { IsStillAt (post C.given C.least desk.old) (post C.given C.least desk.new) }
    ensures order { reaper.new.order ≡ reaper.old.order }
    ensures steps { LaunchSteps S.One.told (post C.given C.least desk.old) (post C.given C.least desk.new)
        (S.asked spawner.old) (S.asked spawner.new) (S.fate spawner.old) (S.fate spawner.new)
        reaper.old.children reaper.new.children result }
    ensures failed { IfOk result (λ launched. IsFailedStart launched → Rose (S.faults spawner.old) (S.faults spawner.new)) }
    ensures counted { IfOk result (λ launched. CountsStart launched (S.faults spawner.old) (S.faults spawner.new)) }
    ensures nothing { IfOk result (λ launched. IsNothing launched → Fails (post C.given C.least desk.old) Call.TakeLaunch NoEntry.Nothing (post C.given C.least desk.new)) }
{
    if reaper.children.reserve(1).is_err() {
        return Err(Refusal::OutOfMemory);
    }
    let taken = match take_launch(rt, desk) {
        Ok(taken) => taken,
        Err(why) => return Err(why),
    };
    let Some(launch) = taken else {
        return Ok(Launched::Nothing);
    };
    match spawner.start(launch.job, launch.attempt, launch.words.get()) {
        Ok(child) => {
            let made = report_start(rt, desk, &launch, true);
            put(&mut reaper.children, &launch, child);
            if !made {
                return Err(Refusal::OutOfMemory);
            }
            Ok(Launched::Began(launch.job))
        }
        Err(Failed) => {
            if !report_start(rt, desk, &launch, false) {
                return Err(Refusal::OutOfMemory);
            }
            Ok(Launched::StartFailed(launch.job))
        }
    }
}

/// One round of the launcher: takes a launch, starts its child with exactly its words, reports the start, and keeps the child.
/// Room for the child is made before all this, so want of memory loses none. It may wait for the turn.
///
/// # Errors
///
/// `OutOfResource` with the journal's size, where the journal has no room for the entry of the take. `OutOfMemory` where the list
/// has no room, where memory runs out for the take, and where the report of the start makes no entry, as only a stray one may; a
/// child that began is in the list then too.
pub fn launch_once<R: Wait, S: Spawner, C: Clock>(
    rt: &R,
    desk: &mut Desk<C>,
    spawner: &mut S,
    reaper: &mut Reaper<S::One>,
) -> Result<Launched, Refusal>
    requires { IsFree desk.old.shared.now desk.old.client }
    ensures desk { IsStillAt (post C.given C.least desk.old) (post C.given C.least desk.new) }
    ensures order { reaper.new.order ≡ reaper.old.order }
    ensures steps { LaunchSteps S.One.told (post C.given C.least desk.old) (post C.given C.least desk.new)
        (S.asked spawner.old) (S.asked spawner.new) (S.fate spawner.old) (S.fate spawner.new)
        reaper.old.children reaper.new.children result }
    ensures fates { S.fate spawner.new ≡ S.fate spawner.old }
    ensures tends { (reaped : List Act) → Tends (own_acts desk.old.client) reaped (get reaper.old.children) reaper.old.order →
        Tends (own_acts desk.new.client) reaped (get reaper.new.children) reaper.new.order }
    ensures keeps { (reaped : List Act) →
        Keeps S.One.told (S.asked spawner.old) (S.fate spawner.old) (own_acts desk.old.client) reaped (get reaper.old.children) reaper.old.order →
        Keeps S.One.told (S.asked spawner.new) (S.fate spawner.new) (own_acts desk.new.client) reaped (get reaper.new.children) reaper.new.order }
    ensures agrees { (reaped : List Act) → IsOk result →
        Keeps S.One.told (S.asked spawner.old) (S.fate spawner.old) (own_acts desk.old.client) reaped (get reaper.old.children) reaper.old.order →
        AgreesOf (S.asked spawner.old) (S.fate spawner.old) (own_acts desk.old.client) reaped →
        AgreesOf (S.asked spawner.new) (S.fate spawner.new) (own_acts desk.new.client) reaped }
    ensures failed { IfOk result (λ launched. IsFailedStart launched → Rose (S.faults spawner.old) (S.faults spawner.new)) }
    ensures counted { IfOk result (λ launched. CountsStart launched (S.faults spawner.old) (S.faults spawner.new)) }
    ensures err { IfErr result (IsLaunchRefused (post C.given C.least desk.old) (post C.given C.least desk.new)) }
    ensures nothing { IfOk result (λ launched. IsNothing launched → Fails (post C.given C.least desk.old) Call.TakeLaunch NoEntry.Nothing (post C.given C.least desk.new)) }
{
    launch_round(rt, desk, spawner, reaper)
}
