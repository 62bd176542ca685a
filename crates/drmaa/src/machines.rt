//! A machine with its launcher, reaper and hub, at which a caller works.
ghost use Rattle.std.specs.Prelude.{◌≡◌, ◌<◌, ◌≤◌, ◌^◌, [], length, None, Some, true, IfOk, IfErr, IfSome, IsOk, slice_index_or};
ghost use Rattle.slab.specs.Slab.{get};
ghost use Rattle.drmaa_types.specs.Queues.{are_queues};
ghost use Rattle.drmaa_model.specs.declared.configs.Config.{Config};
ghost use Rattle.turn_lock.specs.Tokens.{Named, IsFree};
ghost use Rattle.call_history.specs.Callers.{calls_of};
ghost use Rattle.call_history.specs.Clients.{mine_of};
ghost use Rattle.attendant.specs.Acts.{acts_of};
ghost use Rattle.attendant.specs.Whole.{AgreesWithOutside};
ghost use Rattle.beside_clients.specs.Starts.{AreAsked};
ghost use Rattle.drmaa.specs.Closed.{IsShort, CannotBegin, IsHistory, IsAtRest, AsksAsClient, AllAskAsClients, HaveHeardAll};
ghost use Rattle.drmaa.specs.Crews.{IsOpened, IsLeft};
ghost use Rattle.drmaa.specs.Works.{Begins, IsUnread, AreLent, AreLeft, HaveMade};

use crate::crews::{Crew, work_beside};
use crate::ends::{release, take_back, tell_launcher};
use crate::hub_clients::register_all;
use crate::pairs::attend_last;
use crate::seats::open_crew;
use crate::works::work_at_first;
use attendant::{Attended, Reaper, nothing_is_kept, the_outside_agrees};
use beside_clients::pump_last;
use call_history::{Bell, Client, Config, Desk, Machine, MachineOpener, SharedMachine};
use change_callbacks::{Callback, Callbacks};
use child_spawner::Spawner;
use drmaa_model::{a_legal_history_leads_to_a_consistent_world, a_settled_plan_is_quiet};
use drmaa_types::{Clock, Clocks, Refusal};
use notify_hub::Hub;
use std::alloc::Global;
use std::marker::PhantomData;
use std::sync::Wait;
use std::thread::Threads;
use std::time::Clock as Pause;

/// What is left once the work is over, and the machine is closed.
#[derive(Drop)]
pub struct Ended<T, B> {
    /// What the work answered.
    pub value: T,
    /// The machine, with its history.
    pub machine: Machine,
    /// The callbacks, in their order, after all that they heard.
    pub callbacks: Callbacks<B>,
    /// How launcher and reaper ended: the machine is settled; or they were refused, for want of memory or by a full journal.
    pub attended: Result<(), Refusal>,
    /// The kind of its clients. It has no bytes: who lends the work a desk names that type by it.
    pub clients: PhantomData<Client>,
}

/// What the clients leave once all of them are back.
#[derive(Drop)]
struct Left<T> {
    value: T,
    attended: Result<(), Refusal>,
}

/// The callbacks are registered; then the work, beside hub, launcher and reaper, and all of them back.
///
/// # Errors
///
/// What registering a callback is refused with.
fn run_crew<
    R: Threads + Wait + Pause + Sync,
    C: Clock + Send + Drop,
    S: Spawner + Send,
    B: Callback + Send,
    T: Drop,
    F: FnOnce(&mut [Desk<C>]) -> T + Drop,
>(
    rt: &R,
    alloc: Global,
    shared: &SharedMachine,
    bell: &Bell,
    opener: &mut MachineOpener,
    crew: Crew<C>,
    spawner: &mut S,
    hub: &mut Hub<B>,
    count: usize,
    work: F,
) -> Result<Left<T>, Refusal>
    requires opened { IsOpened C.given shared.now opener.old (length crew.desks.items) crew }
    requires some { 1 ≤ length crew.desks.items }
    requires new { hub.old.note ≡ None }
    requires size { shared.now.fixed.journal < 2 ^ 64 }
    requires callable { (x : _) → AreLent C.given shared.now (length crew.desks.items) x.now → F.pre work x }
    requires leaves { (x : _) (r : _) (y : _) → AreLent C.given shared.now (length crew.desks.items) x.now → F.post work x r y → AreLeft x.now y.now }
    ensures fates { S.fate spawner.new ≡ S.fate spawner.old }
    ensures left { IfOk result (λ left. IsLeft B.counted B.told S.One.told
        (λ desks. (x : _) × (y : _) × F.post work x left.value y × AreLent C.given shared.now (length crew.entry.desks.items) x.now × (y.now ≡ desks)) shared.now opener.new (length crew.entry.desks.items)
        (S.asked spawner.old) (S.asked spawner.new) (S.fate spawner.new) hub.old hub.new count left.attended) }
    ensures err { IfErr result CannotBegin }
{
    let Crew {
        mut desks,
        pair,
        mut hub_seat,
    } = crew;
    register_all(rt, shared, hub, &mut hub_seat, count)?;
    let mut reaper = Reaper::new(alloc);
    let (attended, value) = work_beside(
        rt,
        shared,
        bell,
        pair,
        spawner,
        &mut reaper,
        &mut desks,
        work,
        hub,
        &mut hub_seat,
    );
    let Attended { mut pair, ended } = attended;
    take_back(shared, opener, &mut pair.launcher, desks);
    tell_launcher(shared, &mut hub_seat.client, &mut pair.launcher);
    let Attended {
        mut pair,
        ended: attended,
    } = attend_last(rt, shared, bell, pair, spawner, &mut reaper, ended);
    pump_last(rt, shared, hub, &mut pair, &mut hub_seat);
    release(shared, opener, pair, hub_seat.client);
    nothing_is_kept::<S::One>();
    Ok(Left { value, attended })
}

/// Makes a machine, registers these callbacks, and calls the work with so many desks of its own, in this thread; beside it launcher and
/// reaper start the children of its jobs and report of them in a thread, and a hub hands the callbacks each change of a job's state in
/// another. The work may lend the desks to threads of its own, as by `thread::for_each_mut` or `join_mut`. When it is over, launcher
/// and reaper go on until the machine is settled, or they are refused; then all clients come back, and the machine is closed. The
/// spawner is left as it is then.
///
/// Where a thread can't be started, this one does its work behind the caller's, so that a work which waits for its jobs may wait for
/// good.
///
/// The callers' numbers are: 0 the work's first desk, 1 the launcher, 2 the reaper, 3 the hub, and from 4 on the work's further desks.
/// There are from 1 to 65,535 desks. Slots are from 1 to 65,535, and the journal size from 1 to 4,000,000. There are at most 16 queues,
/// with distinct names of 1 to 255 bytes and limits from 1 to the slots.
///
/// # Errors
///
/// Before the work begins: `OutOfMemory`; `OutOfResource` with the journal's size, where that has no room for the entries which
/// register the callbacks; or `OutOfResource(callbacks)`, where there are more than 64.
pub fn with_clients<
    R: Threads + Wait + Pause + Sync,
    K: Clocks,
    S: Spawner + Send,
    B: Callback + Send,
    T: Drop,
    F: FnOnce(&mut [Desk<K::One>]) -> T + Drop,
>(
    rt: &R,
    alloc: Global,
    config: Config,
    clocks: &K,
    spawner: &mut S,
    callbacks: Callbacks<B>,
    clients: u32,
    work: F,
) -> Result<Ended<T, B>, Refusal>
    requires least_slots { 1 ≤ config.slots }
    requires most_slots { config.slots ≤ 65_535 }
    requires least_journal { 1 ≤ config.journal }
    requires most_journal { config.journal ≤ 4_000_000 }
    requires queues { are_queues config.slots config.queues ≡ true }
    requires least_clients { 1 ≤ clients }
    requires most_clients { clients ≤ 65_535 }
    requires callable { (shared : Named Config) (x : _) → AreLent K.One.given shared clients x.now → F.pre work x }
    requires leaves { (shared : Named Config) (x : _) (r : _) (y : _) → AreLent K.One.given shared clients x.now → F.post work x r y → AreLeft x.now y.now }
    ensures config { IfOk result (λ ended. ended.machine.ledger.config ≡ config) }
    ensures history { IfOk result (λ ended. IsHistory config (length callbacks) clients ended.machine.ledger.history) }
    ensures work { IfOk result (λ ended. (shared : Named Config) × (x : _) × (y : _) × F.post work x ended.value y × AreLent K.One.given shared clients x.now ×
        (shared.fixed ≡ config) × HaveMade clients ended.machine.ledger.history y.now) }
    ensures rest { IfOk result (λ ended. IsOk ended.attended → IsAtRest config ended.machine.ledger.history) }
    ensures short { IfOk result (λ ended. IfErr ended.attended IsShort) }
    ensures asked { IfOk result (λ ended. S.asked spawner.old ≡ Some [] →
        IfSome (S.asked spawner.new) (AreAsked (acts_of (calls_of ended.machine.ledger.history 1)))) }
    ensures outside { IfOk result (λ ended. S.asked spawner.old ≡ Some [] → IsOk ended.attended → AllAskAsClients clients ended.machine.ledger.history →
        IfSome (S.asked spawner.new) (λ starts. AgreesWithOutside starts (S.fate spawner.new) (acts_of ended.machine.ledger.history))) }
    ensures heard { IfOk result (λ ended. HaveHeardAll B.counted B.told config ended.machine.ledger.history callbacks ended.callbacks) }
    ensures fates { S.fate spawner.new ≡ S.fate spawner.old }
    ensures err { IfErr result CannotBegin }
{
    a_legal_history_leads_to_a_consistent_world();
    a_settled_plan_is_quiet();
    the_outside_agrees::<S::One>();
    let count = callbacks.as_slice().len();
    let (shared, mut opener) = SharedMachine::new(alloc, config)?;
    let Ok(mut hub) = Hub::new(alloc, callbacks) else {
        return Err(Refusal::OutOfMemory);
    };
    let bell = Bell::new();
    let Ok(crew) = open_crew(alloc, &shared, &bell, &mut opener, clocks, clients) else {
        return Err(Refusal::OutOfMemory);
    };
    let Left { value, attended } = run_crew::<R, K::One, S, B, T, F>(
        rt,
        alloc,
        &shared,
        &bell,
        &mut opener,
        crew,
        spawner,
        &mut hub,
        count,
        work,
    )?;
    Ok(Ended {
        value,
        machine: shared.close(opener),
        callbacks: hub.take_back(),
        attended,
        clients: PhantomData,
    })
}

/// As `with_clients`, for a work that wants one desk.
///
/// # Errors
///
/// As `with_clients`.
pub fn with_machine<
    R: Threads + Wait + Pause + Sync,
    K: Clocks,
    S: Spawner + Send,
    B: Callback + Send,
    T: Drop,
    F: FnOnce(&mut Desk<K::One>) -> T + Drop,
>(
    rt: &R,
    alloc: Global,
    config: Config,
    clocks: &K,
    spawner: &mut S,
    callbacks: Callbacks<B>,
    work: F,
) -> Result<Ended<T, B>, Refusal>
    requires least_slots { 1 ≤ config.slots }
    requires most_slots { config.slots ≤ 65_535 }
    requires least_journal { 1 ≤ config.journal }
    requires most_journal { config.journal ≤ 4_000_000 }
    requires queues { are_queues config.slots config.queues ≡ true }
    requires callable { (x : _) → Begins x.now.shared.now x.now.client → F.pre work x }
    requires leaves { (x : _) (r : _) (y : _) → Begins x.now.shared.now x.now.client → F.post work x r y → IsFree x.now.shared.now y.now.client }
    ensures config { IfOk result (λ ended. ended.machine.ledger.config ≡ config) }
    ensures history { IfOk result (λ ended. IsHistory config (length callbacks) 1 ended.machine.ledger.history) }
    ensures work { IfOk result (λ ended. (x : _) × (y : _) × F.post work x ended.value y × Begins x.now.shared.now x.now.client ×
        (x.now.shared.now.fixed ≡ config) × IsUnread K.One.given 0 x.now.clock × (mine_of y.now.client ≡ calls_of ended.machine.ledger.history 0)) }
    ensures rest { IfOk result (λ ended. IsOk ended.attended → IsAtRest config ended.machine.ledger.history) }
    ensures short { IfOk result (λ ended. IfErr ended.attended IsShort) }
    ensures asked { IfOk result (λ ended. S.asked spawner.old ≡ Some [] →
        IfSome (S.asked spawner.new) (AreAsked (acts_of (calls_of ended.machine.ledger.history 1)))) }
    ensures outside { IfOk result (λ ended. S.asked spawner.old ≡ Some [] → IsOk ended.attended → AsksAsClient (calls_of ended.machine.ledger.history 0) →
        IfSome (S.asked spawner.new) (λ starts. AgreesWithOutside starts (S.fate spawner.new) (acts_of ended.machine.ledger.history))) }
    ensures heard { IfOk result (λ ended. HaveHeardAll B.counted B.told config ended.machine.ledger.history callbacks ended.callbacks) }
    ensures fates { S.fate spawner.new ≡ S.fate spawner.old }
    ensures err { IfErr result CannotBegin }
{
    with_clients(
        rt,
        alloc,
        config,
        clocks,
        spawner,
        callbacks,
        1,
        |desks: &mut [Desk<K::One>]| -> T
            requires one { length desks.old ≡ 1 }
            requires begins { (d : _) → Begins (slice_index_or desks.old 0 d).shared.now (slice_index_or desks.old 0 d).client }
            requires callable { (x : _) → Begins x.now.shared.now x.now.client → F.pre work x }
            requires leaves { (x : _) (r : _) (y : _) → Begins x.now.shared.now x.now.client → F.post work x r y → IsFree x.now.shared.now y.now.client }
            ensures left { AreLeft desks.old desks.new }
            ensures worked { (x : _) × (y : _) × F.post work x result y × Begins x.now.shared.now x.now.client ×
                ((d : _) → x.now ≡ slice_index_or desks.old 0 d) × ((d : _) → y.now ≡ slice_index_or desks.new 0 d) }
        { work_at_first(desks, work) },
    )
}
