//! The same with the processes and the clock of this machine.
ghost use Rattle.std.specs.Prelude.{◌≡◌, ◌≤◌, length, true, IfOk, IfErr, IsOk};
ghost use Rattle.drmaa_types.specs.Queues.{are_queues};
ghost use Rattle.drmaa_types.specs.declared.refusals.Refusal.{Refusal};
ghost use Rattle.drmaa_model.specs.declared.configs.Config.{Config};
ghost use Rattle.turn_lock.specs.Tokens.{Named, IsFree};
ghost use Rattle.call_history.specs.Callers.{calls_of};
ghost use Rattle.call_history.specs.Clients.{mine_of};
ghost use Rattle.client_sessions.specs.Machines.{plain_config};
ghost use Rattle.drmaa.specs.Closed.{IsShort, CannotBegin, IsHistory, IsAtRest, HaveHeardAll};
ghost use Rattle.drmaa.specs.Works.{Begins, IsUnread, AreLent, AreLeft, HaveMade};

use crate::machines::{Ended, with_clients, with_machine};
use call_history::{Config, Desk};
use change_callbacks::{Callback, Callbacks};
use child_spawner::LocalSpawner;
use drmaa_types::{Clock, QueueList, Refusal, Text};
use std::alloc::Global;
use std::sync::Wait;
use std::thread::Threads;
use std::time::Clock as Pause;
use system_clock::{SystemClock, SystemClocks};

/// The greatest journal size that a machine may have.
const JOURNAL_SIZE: u64 = 4_000_000;

/// What a machine is made with, from its slots and its name alone: its jobs can be suspended, its journal may have the greatest size,
/// and it has no queues.
///
/// # Errors
///
/// Want of memory.
pub fn plain_config(alloc: Global, slots: u32, name: &str) -> Result<Config, Refusal>
    ensures ok { IfOk result (λ config. config ≡ plain_config slots name.now) }
    ensures err { IfErr result (λ why. why ≡ Refusal.OutOfMemory) }
{
    let Ok(name) = Text::of(alloc, name) else {
        return Err(Refusal::OutOfMemory);
    };
    Ok(Config {
        slots,
        name,
        suspend: true,
        journal: JOURNAL_SIZE,
        queues: QueueList::new(alloc),
    })
}

/// As `with_machine`, with real processes and the clock of this machine. The processes write their numbers into files of this folder,
/// one for each attempt of a job, which is removed when its end is seen.
///
/// # Errors
///
/// As `with_machine`.
pub fn with_local_machine<
    R: Threads + Wait + Pause + Sync,
    B: Callback + Send,
    T: Drop,
    F: FnOnce(&mut Desk<SystemClock>) -> T + Drop,
>(
    rt: &R,
    host: HostRuntime,
    config: Config,
    folder: Text,
    callbacks: Callbacks<B>,
    work: F,
) -> Result<Ended<T, B>, Refusal>
    requires least_slots { 1 ≤ config.slots }
    requires most_slots { config.slots ≤ 65_535 }
    requires least_journal { 1 ≤ config.journal }
    requires most_journal { config.journal ≤ 4_000_000 }
    requires queues { are_queues config.slots config.queues ≡ true }
    requires callable { (x : _) → Begins x.now.shared.now x.now.client → F.pre work x }
    requires leaves { (x : _) (r : _) (y : _) → Begins x.now.shared.now x.now.client → F.post work x r y → IsFree x.now.shared.now y.now.client }
    ensures config { IfOk result (λ ended. ended.machine.ledger.config ≡ config) }
    ensures history { IfOk result (λ ended. IsHistory config (length callbacks) 1 ended.machine.ledger.history) }
    ensures work { IfOk result (λ ended. (x : _) × (y : _) × F.post work x ended.value y × Begins x.now.shared.now x.now.client ×
        (x.now.shared.now.fixed ≡ config) × IsUnread ⟦<SystemClock as Clock>⟧.given 0 x.now.clock × (mine_of y.now.client ≡ calls_of ended.machine.ledger.history 0)) }
    ensures rest { IfOk result (λ ended. IsOk ended.attended → IsAtRest config ended.machine.ledger.history) }
    ensures short { IfOk result (λ ended. IfErr ended.attended IsShort) }
    ensures heard { IfOk result (λ ended. HaveHeardAll B.counted B.told config ended.machine.ledger.history callbacks ended.callbacks) }
    ensures err { IfErr result CannotBegin }
{
    let clocks = SystemClocks::new(host);
    let mut spawner = LocalSpawner::new(host, folder);
    with_machine(
        rt,
        host.alloc(),
        config,
        &clocks,
        &mut spawner,
        callbacks,
        work,
    )
}

/// As `with_clients`, with real processes and the clock of this machine, as `with_local_machine` has them.
///
/// # Errors
///
/// As `with_clients`.
pub fn with_local_clients<
    R: Threads + Wait + Pause + Sync,
    B: Callback + Send,
    T: Drop,
    F: FnOnce(&mut [Desk<SystemClock>]) -> T + Drop,
>(
    rt: &R,
    host: HostRuntime,
    config: Config,
    folder: Text,
    callbacks: Callbacks<B>,
    clients: u32,
    work: F,
) -> Result<Ended<T, B>, Refusal>
    requires least_slots { 1 ≤ config.slots }
    requires most_slots { config.slots ≤ 65_535 }
    requires least_journal { 1 ≤ config.journal }
    requires most_journal { config.journal ≤ 4_000_000 }
    requires queues { are_queues config.slots config.queues ≡ true }
    requires least_clients { 1 ≤ clients }
    requires most_clients { clients ≤ 65_535 }
    requires callable { (shared : Named Config) (x : _) → AreLent ⟦<SystemClock as Clock>⟧.given shared clients x.now → F.pre work x }
    requires leaves { (shared : Named Config) (x : _) (r : _) (y : _) → AreLent ⟦<SystemClock as Clock>⟧.given shared clients x.now → F.post work x r y → AreLeft x.now y.now }
    ensures config { IfOk result (λ ended. ended.machine.ledger.config ≡ config) }
    ensures history { IfOk result (λ ended. IsHistory config (length callbacks) clients ended.machine.ledger.history) }
    ensures work { IfOk result (λ ended. (shared : Named Config) × (x : _) × (y : _) × F.post work x ended.value y × AreLent ⟦<SystemClock as Clock>⟧.given shared clients x.now ×
        (shared.fixed ≡ config) × HaveMade clients ended.machine.ledger.history y.now) }
    ensures rest { IfOk result (λ ended. IsOk ended.attended → IsAtRest config ended.machine.ledger.history) }
    ensures short { IfOk result (λ ended. IfErr ended.attended IsShort) }
    ensures heard { IfOk result (λ ended. HaveHeardAll B.counted B.told config ended.machine.ledger.history callbacks ended.callbacks) }
    ensures err { IfErr result CannotBegin }
{
    let clocks = SystemClocks::new(host);
    let mut spawner = LocalSpawner::new(host, folder);
    with_clients(
        rt,
        host.alloc(),
        config,
        &clocks,
        &mut spawner,
        callbacks,
        clients,
        work,
    )
}
