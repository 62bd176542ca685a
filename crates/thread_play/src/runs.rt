//! The run of a script.
ghost use Rattle.std.specs.Prelude.{◌≡◌, ◌+◌, ◌<◌, ◌≤◌, ◌^◌, ◌++◌, ◌∷◌, [], length, None, IfOk, vec_len, vec_capacity};
ghost use Rattle.slab.specs.Slab.{get};
ghost use Rattle.drmaa_model.specs.History.{IsLegal};
ghost use Rattle.turn_lock.specs.Tokens.{BelongsTo};
ghost use Rattle.call_history.specs.Clients.{seen_of, retired_of};
ghost use Rattle.attendant.specs.Pairs.{ArePlaced};
ghost use Rattle.change_callbacks.specs.Ears.{HaveHeard};
ghost use Rattle.notify_hub.specs.Hubs.{IsNoteOf};
ghost use Rattle.beside_clients.specs.HubClients.{KeepsCallbacks};
ghost use Rattle.thread_play.specs.Hubs.{HearRun};
ghost use Rattle.thread_play.specs.Runs.{IsForThreads, HasRun};
ghost use Rattle.thread_play.specs.Pairs.{HasEnded, AreReleased};
ghost use Rattle.thread_play.specs.Others.{OthersHeard, ArePlayed};

use crate::crews::play_beside;
use crate::ends::{dismiss, end_hub_seat, full_of, stopped_by, worse};
use crate::firsts::{First, play_first};
use crate::workers::hire;
use attendant::{Attended, Pair, Reaper, nothing_is_kept, settle, the_outside_agrees};
use beside_clients::{Seated, pump_last};
use block_play::{Names, Stopped};
use call_history::{Bell, Machine, MachineOpener, SharedMachine};
use change_callbacks::Callback;
use child_spawner::Spawner;
use drmaa_model::{
    a_legal_history_leads_to_a_consistent_world, a_settled_plan_is_quiet, each_prefix_is_legal,
};
use drmaa_types::{CallerId, Clock, Clocks, ListOf};
use notify_hub::Hub;
use script_journals::{no_client_asks_what_the_attendant_asks, no_client_registers};
use script_play::{copy_of, each_script_can_be_played};
use script_text::Script;
use std::alloc::{AllocError, Global};
use std::sync::Wait;
use std::thread::Threads;
use std::time::Clock as Pause;

/// Clocks, in the order of their callers' numbers.
pub type ClockList<C> = ListOf<C>;

/// What a run leaves.
#[derive(Drop)]
pub struct Run<C> {
    /// The machine that has served all callers.
    pub machine: Machine,
    /// The size that the journal would have had by a step that was not made. None where each block was played whole.
    pub full: Option<u64>,
    /// The clocks of the callers that there were: of the setup block, of the clients' blocks, of the launcher, of the reaper and of
    /// the hub.
    pub clocks: ClockList<C>,
}

/// Launcher and reaper alone, until the machine is settled; not where the run is stopped already. Why it is stopped then.
fn end_others<R: Wait + Pause, S: Spawner, C: Clock>(
    rt: &R,
    shared: &SharedMachine,
    bell: &Bell,
    pair: Pair<C>,
    spawner: &mut S,
    reaper: &mut Reaper<S::One>,
    ended: Option<Stopped>,
) -> (Pair<C>, Option<Stopped>)
    requires { ArePlaced shared.now pair }
    ensures { HasEnded C.given C.least S.One.told shared.now pair result.0 (S.asked spawner.old) (S.asked spawner.new) (S.fate spawner.old) (S.fate spawner.new)
        (get reaper.old.children) (get reaper.new.children) reaper.old.order reaper.new.order ended result.1 }
{
    if ended.is_some() {
        return (pair, ended);
    }
    let Attended { pair, ended } = settle(rt, shared, bell, pair, spawner, reaper);
    (pair, worse(None, stopped_by(ended)))
}

/// Takes launcher and reaper back, and their clocks.
fn release<C: Drop>(
    shared: &SharedMachine,
    opener: &mut MachineOpener,
    pair: Pair<C>,
    clocks: &mut Vec<C>,
)
    requires opener { BelongsTo shared.now opener.old }
    requires pair { ArePlaced shared.now pair }
    requires room { vec_len clocks.old + 2 ≤ vec_capacity clocks.old }
    ensures back { AreReleased shared.now opener.old opener.new pair }
    ensures clocks { clocks.new.items ≡ (clocks.old.items ++ pair.launcher_clock ∷ []) ++ pair.reaping_clock ∷ [] }
    ensures capacity { vec_capacity clocks.new ≡ vec_capacity clocks.old }
{
    let Pair {
        launcher,
        launcher_clock,
        reaping,
        reaping_clock,
    } = pair;
    shared.retire(opener, launcher);
    clocks.push_reserved(launcher_clock);
    shared.retire(opener, reaping);
    clocks.push_reserved(reaping_clock);
}

/// The clients' blocks, launcher and reaper, and all of them back. The size that the journal would have had, where the run was
/// stopped by it.
///
/// # Errors
///
/// Want of memory, of any of them.
fn play_others<R: Threads + Wait + Pause + Sync, K: Clocks, S: Spawner + Send, B: Callback + Send>(
    rt: &R,
    alloc: Global,
    script: &Script,
    names: &Names,
    shared: &SharedMachine,
    opener: &mut MachineOpener,
    clocks: &K,
    spawner: &mut S,
    bell: &Bell,
    hub: &mut Hub<B>,
    given: &mut Vec<K::One>,
) -> Result<Option<u64>, AllocError>
    requires opener { BelongsTo shared.now opener.old }
    requires first { length (retired_of opener.old) ≡ 1 }
    requires legal { IsLegal shared.now.fixed (seen_of opener.old) }
    requires few { length script.now.clients ≤ 32 }
    requires room { vec_len given.old + length script.now.clients + 3 ≤ vec_capacity given.old }
    requires note { IsNoteOf shared.now hub.old.note }
    requires size { shared.now.fixed.journal < 2 ^ 64 }
    ensures fates { S.fate spawner.new ≡ S.fate spawner.old }
    ensures keeps { KeepsCallbacks B.counted B.told hub.old hub.new }
    ensures others { IfOk result (λ full. OthersHeard K.One.given S.One.told script.now names.now shared.now opener.old opener.new
        (S.asked spawner.old) (S.asked spawner.new) (S.fate spawner.new) given.old.items given.new.items full hub.new) }
{
    let mut workers = hire(alloc, script, shared, opener, clocks)?;
    let number = script.clients.as_slice().len() as u32 + 1;
    let pair = Pair {
        launcher: shared.open_client(opener),
        launcher_clock: clocks.clock(CallerId(number)),
        reaping: shared.open_client(opener),
        reaping_clock: clocks.clock(CallerId(number + 1)),
    };
    let mut hub_seat = Seated {
        client: shared.open_client(opener),
        clock: clocks.clock(CallerId(number + 2)),
    };
    let mut reaper = Reaper::new(alloc);
    let (attended, played) = play_beside(
        rt,
        alloc,
        script,
        names,
        shared,
        bell,
        pair,
        spawner,
        &mut reaper,
        &mut workers,
        hub,
        &mut hub_seat,
    );
    played?;
    let Attended { pair, ended } = attended;
    let mut pair = pair;
    let ended = dismiss(
        shared,
        opener,
        &mut pair.launcher,
        workers,
        given,
        worse(None, stopped_by(ended)),
    );
    let (pair, ended) = end_others(rt, shared, bell, pair, spawner, &mut reaper, ended);
    let mut pair = pair;
    pump_last(rt, shared, hub, &mut pair, &mut hub_seat);
    release(shared, opener, pair, given);
    end_hub_seat(shared, opener, hub_seat, given);
    nothing_is_kept::<S::One>();
    full_of(ended)
}

/// The blocks of a script, on a machine that has served nothing: setup's, and where that was whole, the clients' beside launcher,
/// reaper and hub. The size that the journal would have had, where the run was stopped by it.
///
/// # Errors
///
/// Want of memory, of any caller.
fn play_blocks<R: Threads + Wait + Pause + Sync, K: Clocks, S: Spawner + Send, B: Callback + Send>(
    rt: &R,
    alloc: Global,
    script: &Script,
    shared: &SharedMachine,
    opener: &mut MachineOpener,
    clocks: &K,
    spawner: &mut S,
    bell: &Bell,
    hub: &mut Hub<B>,
    given: &mut Vec<K::One>,
) -> Result<Option<u64>, AllocError>
    requires opener { BelongsTo shared.now opener.old }
    requires fresh { retired_of opener.old ≡ [] }
    requires new { hub.old.note ≡ None }
    requires size { shared.now.fixed.journal < 2 ^ 64 }
    requires few { length script.now.clients ≤ 32 }
    requires none { given.old.items ≡ [] }
    requires room { length script.now.clients + 4 ≤ vec_capacity given.old }
    ensures fates { S.fate spawner.new ≡ S.fate spawner.old }
    ensures begun { hub.new.ears.begun ≡ hub.old.ears.begun }
    ensures heard { HaveHeard B.counted B.told hub.old.ears → HaveHeard B.counted B.told hub.new.ears }
    ensures blocks { IfOk result (λ full. ArePlayed B.counted B.told K.One.given S.One.told script.now shared.now opener.new
        (S.asked spawner.old) (S.asked spawner.new) (S.fate spawner.new) given.new.items full hub.old hub.new) }
{
    let First { clock, played } = play_first(rt, alloc, script, shared, opener, clocks, bell, hub);
    given.push_reserved(clock);
    match played {
        Ok(names) => play_others(
            rt, alloc, script, &names, shared, opener, clocks, spawner, bell, hub, given,
        ),
        Err(Stopped::Full { size }) => Ok(Some(size)),
        Err(Stopped::Memory) => Err(AllocError),
    }
}

/// A machine as the script wants it, which has served nothing.
fn machine_for(alloc: Global, script: &Script) -> Result<(SharedMachine, MachineOpener), AllocError>
    requires { IsForThreads script.now }
    ensures config { IfOk result (λ made. made.0.fixed ≡ script.now.config) }
    ensures opener { IfOk result (λ made. BelongsTo made.0 made.1) }
    ensures fresh { IfOk result (λ made. retired_of made.1 ≡ []) }
{
    each_script_can_be_played();
    let config = copy_of(&script.config)?;
    match SharedMachine::new(alloc, config) {
        Ok(made) => Ok(made),
        Err(_) => Err(AllocError),
    }
}

/// Plays a script: its setup block first; then its clients' blocks, each in a thread of its own, beside launcher and reaper in one,
/// who start the children of its jobs and report of them, and beside the hub in one, whose callbacks hear each change of a job's state
/// behind their Register entries. Where a thread can't be started, the caller does its work. It may wait for good.
///
/// A client stops at the first line that makes no entry for want of memory or the journal's size. Where setup stops so, nobody else
/// makes a call. The hub is a new one: it has made no call.
///
/// # Errors
///
/// Want of memory, of any caller; then what was asked of the spawner stays.
pub fn play_threads<
    R: Threads + Wait + Pause + Sync,
    K: Clocks,
    S: Spawner + Send,
    B: Callback + Send,
>(
    rt: &R,
    alloc: Global,
    script: &Script,
    clocks: &K,
    spawner: &mut S,
    bell: &Bell,
    hub: &mut Hub<B>,
) -> Result<Run<K::One>, AllocError>
    requires threads { IsForThreads script.now }
    requires new { hub.old.note ≡ None }
    ensures config { IfOk result (λ run. run.machine.ledger.config ≡ script.now.config) }
    ensures fates { S.fate spawner.new ≡ S.fate spawner.old }
    ensures run { IfOk result (λ run. HasRun K.One.given script.now run.machine.ledger.history
        (S.asked spawner.old) (S.asked spawner.new) (S.fate spawner.new) run.clocks run.full) }
    ensures hub { IfOk result (λ run. HearRun script.now.config run.machine.ledger.history hub.new) }
    ensures begun { hub.new.ears.begun ≡ hub.old.ears.begun }
    ensures heard { HaveHeard B.counted B.told hub.old.ears → HaveHeard B.counted B.told hub.new.ears }
{
    each_script_can_be_played();
    each_prefix_is_legal();
    a_legal_history_leads_to_a_consistent_world();
    a_settled_plan_is_quiet();
    no_client_asks_what_the_attendant_asks();
    no_client_registers();
    the_outside_agrees::<S::One>();
    let mut given = Vec::with_capacity(alloc, script.clients.as_slice().len() + 4)?;
    let (shared, mut opener) = machine_for(alloc, script)?;
    let full = play_blocks(
        rt,
        alloc,
        script,
        &shared,
        &mut opener,
        clocks,
        spawner,
        bell,
        hub,
        &mut given,
    )?;
    Ok(Run {
        machine: shared.close(opener),
        full,
        clocks: ClockList::from_vec(given),
    })
}
