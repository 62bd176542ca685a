//! The work beside the hub, and beside launcher and reaper. What its desks are is left open here: nothing looks at them.
ghost use Rattle.std.specs.Prelude.{◌≡◌, ◌<◌, ◌^◌, IfSome, IsSome};
ghost use Rattle.slab.specs.Slab.{get};
ghost use Rattle.turn_lock.specs.Tokens.{IsFree};
ghost use Rattle.attendant.specs.Pairs.{ArePlaced, HasAttended};
ghost use Rattle.notify_hub.specs.Hubs.{IsNoteOf};
ghost use Rattle.beside_clients.specs.HubClients.{GoesOn};

use crate::works::work_there;
use attendant::{Attended, Done, Pair, Reaper, attend_there};
use beside_clients::{Seated, follow};
use call_history::{Bell, Desk, SharedMachine};
use change_callbacks::Callback;
use child_spawner::Spawner;
use drmaa_types::Clock;
use notify_hub::Hub;
use std::sync::Wait;
use std::thread::{Threads, join_mut};
use std::time::Clock as Pause;

/// The clients of a machine, and their clocks: at the desks of the work, of launcher and reaper, and of the hub.
#[derive(Drop)]
pub(crate) struct Crew<'a, C: Clock> {
    pub desks: Vec<Desk<'a, C>>,
    pub pair: Pair<C>,
    pub hub_seat: Seated<C>,
}

/// The work, beside the hub in a thread of its own.
fn work_beside_hub<
    R: Threads + Wait + Pause + Sync,
    C: Clock + Send + Drop,
    B: Callback + Send,
    D,
    T: Drop,
    F: FnOnce(&mut [D]) -> T + Drop,
>(
    rt: &R,
    shared: &SharedMachine,
    bell: &Bell,
    done: &Done,
    desks: &mut Vec<D>,
    work: &mut Option<F>,
    hub: &mut Hub<B>,
    hub_seat: &mut Seated<C>,
) -> Option<T>
    requires callable { IfSome work.old (λ f. (x : _) → x.now ≡ desks.old.items → F.pre f x) }
    requires client { IsFree shared.now hub_seat.old.client }
    requires note { IsNoteOf shared.now hub.old.note }
    requires size { shared.now.fixed.journal < 2 ^ 64 }
    ensures some { IsSome work.old → IsSome result }
    ensures worked { IfSome result (λ value. IfSome work.old (λ f. (x : _) × (y : _) × F.post f x value y × (x.now ≡ desks.old.items) × (y.now ≡ desks.new.items))) }
    ensures hub { GoesOn B.counted B.told shared.now hub.old hub_seat.old.client hub.new hub_seat.new.client }
{
    let ((), worked) = join_mut(
        rt,
        &mut ||
            requires client { IsFree shared.now hub_seat.now.client }
            requires note { IsNoteOf shared.now hub.now.note }
            requires size { shared.now.fixed.journal < 2 ^ 64 }
        { follow(rt, shared, bell, hub, hub_seat, done) },
        &mut || -> Option<T>
            requires { IfSome work.now (λ f. (x : _) → x.now ≡ desks.now.items → F.pre f x) }
        { work_there(rt, desks, work, done) },
    );
    worked
}

/// The work and the hub, beside launcher and reaper in a thread of their own.
fn join_all<
    R: Threads + Wait + Pause + Sync,
    S: Spawner + Send,
    C: Clock + Send + Drop,
    B: Callback + Send,
    D,
    T: Drop,
    F: FnOnce(&mut [D]) -> T + Drop,
>(
    rt: &R,
    shared: &SharedMachine,
    bell: &Bell,
    done: &Done,
    pair: &mut Option<Pair<C>>,
    spawner: &mut S,
    reaper: &mut Reaper<S::One>,
    desks: &mut Vec<D>,
    work: &mut Option<F>,
    hub: &mut Hub<B>,
    hub_seat: &mut Seated<C>,
) -> (Option<Attended<C>>, Option<T>)
    requires pair { IfSome pair.old (ArePlaced shared.now) }
    requires callable { IfSome work.old (λ f. (x : _) → x.now ≡ desks.old.items → F.pre f x) }
    requires client { IsFree shared.now hub_seat.old.client }
    requires note { IsNoteOf shared.now hub.old.note }
    requires size { shared.now.fixed.journal < 2 ^ 64 }
    ensures attends { IsSome pair.old → IsSome result.0 }
    ensures attended { IfSome pair.old (λ p. IfSome result.0 (λ a. HasAttended C.given C.least S.One.told shared.now p a.pair
        (S.asked spawner.old) (S.asked spawner.new) (S.fate spawner.old) (S.fate spawner.new)
        (get reaper.old.children) (get reaper.new.children) reaper.old.order reaper.new.order a.ended)) }
    ensures works { IsSome work.old → IsSome result.1 }
    ensures worked { IfSome result.1 (λ value. IfSome work.old (λ f. (x : _) × (y : _) × F.post f x value y × (x.now ≡ desks.old.items) × (y.now ≡ desks.new.items))) }
    ensures hub { GoesOn B.counted B.told shared.now hub.old hub_seat.old.client hub.new hub_seat.new.client }
{
    join_mut(
        rt,
        &mut || -> Option<Attended<C>>
            requires { IfSome pair.now (ArePlaced shared.now) }
        { attend_there(rt, shared, bell, pair, spawner, reaper, done) },
        &mut || -> Option<T>
            requires callable { IfSome work.now (λ f. (x : _) → x.now ≡ desks.now.items → F.pre f x) }
            requires client { IsFree shared.now hub_seat.now.client }
            requires note { IsNoteOf shared.now hub.now.note }
            requires size { shared.now.fixed.journal < 2 ^ 64 }
        { work_beside_hub(rt, shared, bell, done, desks, work, hub, hub_seat) },
    )
}

/// The work in the caller's thread, the hub in one, and launcher and reaper in one. The pair of these, how they ended, and what the
/// work answers.
pub(crate) fn work_beside<
    R: Threads + Wait + Pause + Sync,
    S: Spawner + Send,
    C: Clock + Send + Drop,
    B: Callback + Send,
    D,
    T: Drop,
    F: FnOnce(&mut [D]) -> T + Drop,
>(
    rt: &R,
    shared: &SharedMachine,
    bell: &Bell,
    pair: Pair<C>,
    spawner: &mut S,
    reaper: &mut Reaper<S::One>,
    desks: &mut Vec<D>,
    work: F,
    hub: &mut Hub<B>,
    hub_seat: &mut Seated<C>,
) -> (Attended<C>, T)
    requires pair { ArePlaced shared.now pair }
    requires callable { (x : _) → x.now ≡ desks.old.items → F.pre work x }
    requires client { IsFree shared.now hub_seat.old.client }
    requires note { IsNoteOf shared.now hub.old.note }
    requires size { shared.now.fixed.journal < 2 ^ 64 }
    ensures attended { HasAttended C.given C.least S.One.told shared.now pair result.0.pair (S.asked spawner.old) (S.asked spawner.new) (S.fate spawner.old) (S.fate spawner.new)
        (get reaper.old.children) (get reaper.new.children) reaper.old.order reaper.new.order result.0.ended }
    ensures worked { (x : _) × (y : _) × F.post work x result.1 y × (x.now ≡ desks.old.items) × (y.now ≡ desks.new.items) }
    ensures hub { GoesOn B.counted B.told shared.now hub.old hub_seat.old.client hub.new hub_seat.new.client }
{
    let done = Done::new(1);
    let mut pair = Some(pair);
    let mut work = Some(work);
    let (attended, worked) = join_all(
        rt, shared, bell, &done, &mut pair, spawner, reaper, desks, &mut work, hub, hub_seat,
    );
    let (Some(attended), Some(value)) = (attended, worked) else {
        unreachable!()
    };
    (attended, value)
}
