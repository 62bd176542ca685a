//! The clients' threads, beside that of launcher and reaper.
ghost use Rattle.std.specs.Prelude.{◌≡◌, ◌<◌, ◌^◌, All, IfOk, IfSome, IsSome};
ghost use Rattle.slab.specs.Slab.{get};
ghost use Rattle.turn_lock.specs.Tokens.{IsFree};
ghost use Rattle.call_history.specs.Clients.{mine_of};
ghost use Rattle.attendant.specs.Pairs.{ArePlaced, HasAttended};
ghost use Rattle.notify_hub.specs.Hubs.{IsNoteOf};
ghost use Rattle.beside_clients.specs.HubClients.{GoesOn, KeepsTime};
ghost use Rattle.thread_play.specs.Stages.{IsReady, HasPlayed, HavePlayed};

use crate::workers::{Worker, play_worker};
use attendant::{Attended, Done, Pair, Reaper, attend_there};
use beside_clients::{Seated, follow};
use block_play::Names;
use call_history::{Bell, SharedMachine};
use change_callbacks::Callback;
use child_spawner::Spawner;
use drmaa_types::Clock;
use notify_hub::Hub;
use script_text::Script;
use std::alloc::{AllocError, Global};
use std::mem;
use std::sync::Wait;
use std::thread::{self, Threads, join_mut};
use std::time::Clock as Pause;

/// Each client in a thread of its own. Then launcher, reaper and hub are told that all are over.
fn play_clients<R: Threads + Wait + Pause + Sync, C: Clock + Send + Drop>(
    rt: &R,
    alloc: Global,
    script: &Script,
    shared: &SharedMachine,
    bell: &Bell,
    names: &Names,
    done: &Done,
    workers: &mut Vec<Worker<C>>,
) -> Result<(), AllocError>
    requires { All (IsReady shared.now script.now) workers.old.items }
    ensures { IfOk result (λ end. HavePlayed C.given shared.now script.now names.now workers.old.items workers.new.items) }
{
    let jobs = mem::replace(workers, Vec::new(alloc));
    let played = thread::map_vec(
        rt,
        jobs,
        &|worker: Worker<C>| -> Worker<C>
            requires { IsReady shared.now script.now worker }
            ensures { HasPlayed C.given shared.entry.now script.entry.now names.entry.now worker result }
        { play_worker(rt, alloc, script, shared, bell, names, worker) },
    );
    done.client_ended(rt);
    *workers = played?;
    Ok(())
}

/// The clients in their threads, beside the hub in one.
fn play_all<R: Threads + Wait + Pause + Sync, C: Clock + Send + Drop, B: Callback + Send>(
    rt: &R,
    alloc: Global,
    script: &Script,
    shared: &SharedMachine,
    bell: &Bell,
    names: &Names,
    done: &Done,
    workers: &mut Vec<Worker<C>>,
    hub: &mut Hub<B>,
    hub_seat: &mut Seated<C>,
) -> Result<(), AllocError>
    requires workers { All (IsReady shared.now script.now) workers.old.items }
    requires client { IsFree shared.now hub_seat.old.client }
    requires note { IsNoteOf shared.now hub.old.note }
    requires size { shared.now.fixed.journal < 2 ^ 64 }
    ensures workers { IfOk result (λ end. HavePlayed C.given shared.now script.now names.now workers.old.items workers.new.items) }
    ensures hub { GoesOn B.counted B.told shared.now hub.old hub_seat.old.client hub.new hub_seat.new.client }
    ensures timed { KeepsTime (mine_of hub_seat.old.client) (C.given hub_seat.old.clock) (mine_of hub_seat.new.client) (C.given hub_seat.new.clock) }
{
    let (played, ()) = join_mut(
        rt,
        &mut || -> Result<(), AllocError>
            requires { All (IsReady shared.now script.now) workers.now.items }
        { play_clients(rt, alloc, script, shared, bell, names, done, workers) },
        &mut ||
            requires client { IsFree shared.now hub_seat.now.client }
            requires note { IsNoteOf shared.now hub.now.note }
            requires size { shared.now.fixed.journal < 2 ^ 64 }
        { follow(rt, shared, bell, hub, hub_seat, done) },
    );
    played
}

/// The clients in their threads and the hub in one, beside launcher and reaper in one, if they are there.
fn join_all<
    R: Threads + Wait + Pause + Sync,
    S: Spawner + Send,
    C: Clock + Send + Drop,
    B: Callback + Send,
>(
    rt: &R,
    alloc: Global,
    script: &Script,
    names: &Names,
    shared: &SharedMachine,
    bell: &Bell,
    done: &Done,
    pair: &mut Option<Pair<C>>,
    spawner: &mut S,
    reaper: &mut Reaper<S::One>,
    workers: &mut Vec<Worker<C>>,
    hub: &mut Hub<B>,
    hub_seat: &mut Seated<C>,
) -> (Option<Attended<C>>, Result<(), AllocError>)
    requires pair { IfSome pair.old (ArePlaced shared.now) }
    requires workers { All (IsReady shared.now script.now) workers.old.items }
    requires client { IsFree shared.now hub_seat.old.client }
    requires note { IsNoteOf shared.now hub.old.note }
    requires size { shared.now.fixed.journal < 2 ^ 64 }
    ensures some { IsSome pair.old → IsSome result.0 }
    ensures attended { IfSome pair.old (λ p. IfSome result.0 (λ a. HasAttended C.given C.least S.One.told shared.now p a.pair
        (S.asked spawner.old) (S.asked spawner.new) (S.fate spawner.old) (S.fate spawner.new)
        (get reaper.old.children) (get reaper.new.children) reaper.old.order reaper.new.order a.ended)) }
    ensures workers { IfOk result.1 (λ end. HavePlayed C.given shared.now script.now names.now workers.old.items workers.new.items) }
    ensures hub { GoesOn B.counted B.told shared.now hub.old hub_seat.old.client hub.new hub_seat.new.client }
    ensures timed { KeepsTime (mine_of hub_seat.old.client) (C.given hub_seat.old.clock) (mine_of hub_seat.new.client) (C.given hub_seat.new.clock) }
{
    join_mut(
        rt,
        &mut || -> Option<Attended<C>>
            requires { IfSome pair.now (ArePlaced shared.now) }
        { attend_there(rt, shared, bell, pair, spawner, reaper, done) },
        &mut || -> Result<(), AllocError>
            requires workers { All (IsReady shared.now script.now) workers.now.items }
            requires client { IsFree shared.now hub_seat.now.client }
            requires note { IsNoteOf shared.now hub.now.note }
            requires size { shared.now.fixed.journal < 2 ^ 64 }
        {
            play_all(
                rt, alloc, script, shared, bell, names, done, workers, hub, hub_seat,
            )
        },
    )
}

/// The clients in their threads and the hub in one, beside launcher and reaper in one. The pair of these, how they ended, and whether memory sufficed
/// for the threads of the clients.
pub(crate) fn play_beside<
    R: Threads + Wait + Pause + Sync,
    S: Spawner + Send,
    C: Clock + Send + Drop,
    B: Callback + Send,
>(
    rt: &R,
    alloc: Global,
    script: &Script,
    names: &Names,
    shared: &SharedMachine,
    bell: &Bell,
    pair: Pair<C>,
    spawner: &mut S,
    reaper: &mut Reaper<S::One>,
    workers: &mut Vec<Worker<C>>,
    hub: &mut Hub<B>,
    hub_seat: &mut Seated<C>,
) -> (Attended<C>, Result<(), AllocError>)
    requires pair { ArePlaced shared.now pair }
    requires workers { All (IsReady shared.now script.now) workers.old.items }
    requires client { IsFree shared.now hub_seat.old.client }
    requires note { IsNoteOf shared.now hub.old.note }
    requires size { shared.now.fixed.journal < 2 ^ 64 }
    ensures attended { HasAttended C.given C.least S.One.told shared.now pair result.0.pair (S.asked spawner.old) (S.asked spawner.new) (S.fate spawner.old) (S.fate spawner.new)
        (get reaper.old.children) (get reaper.new.children) reaper.old.order reaper.new.order result.0.ended }
    ensures workers { IfOk result.1 (λ end. HavePlayed C.given shared.now script.now names.now workers.old.items workers.new.items) }
    ensures hub { GoesOn B.counted B.told shared.now hub.old hub_seat.old.client hub.new hub_seat.new.client }
    ensures timed { KeepsTime (mine_of hub_seat.old.client) (C.given hub_seat.old.clock) (mine_of hub_seat.new.client) (C.given hub_seat.new.clock) }
{
    let done = Done::new(1);
    let mut pair = Some(pair);
    let (attended, played) = join_all(
        rt, alloc, script, names, shared, bell, &done, &mut pair, spawner, reaper, workers, hub,
        hub_seat,
    );
    let Some(attended) = attended else {
        unreachable!()
    };
    (attended, played)
}
