//! A machine of one's own, and the desks at it.
ghost use Rattle.std.specs.Prelude.{◌≡◌, ◌≤◌, ◌<◌, ◌∷◌, [], ◌++◌, ℕ, length, IfOk, IfErr, None};
ghost use Rattle.drmaa_types.specs.declared.refusals.Refusal.{Refusal};
ghost use Rattle.turn_lock.specs.Tokens.{BelongsTo, IsFree};
ghost use Rattle.call_history.specs.Callers.{calls_of};
ghost use Rattle.call_history.specs.Clients.{seen_of, mine_of, number_of, retired_of, KnowsItsOwn};
ghost use Rattle.client_sessions.specs.Machines.{plain_config};

use crate::templates::text_of;
use call_history::{Bell, Config, Desk, MachineOpener, SharedMachine};
use drmaa_types::{Clock, Moment, QueueList, Refusal, StepClock};
use std::alloc::Global;

/// The greatest journal size that a machine may have.
const JOURNAL_SIZE: u64 = 4_000_000;

/// A machine that has served nothing, with so many slots, from 1 to 65,535, and this name, and its opener. Its jobs can be
/// suspended, its journal may have the greatest size, and it has no queues.
///
/// # Errors
///
/// Want of memory.
pub fn plain_machine(
    alloc: Global,
    slots: u32,
    name: &str,
) -> Result<(SharedMachine, MachineOpener), Refusal>
    requires least_slots { 1 ≤ slots }
    requires most_slots { slots ≤ 65_535 }
    ensures config { IfOk result (λ made. made.0.fixed ≡ plain_config slots name.now) }
    ensures opener { IfOk result (λ made. BelongsTo made.0 made.1) }
    ensures seen { IfOk result (λ made. seen_of made.1 ≡ []) }
    ensures retired { IfOk result (λ made. retired_of made.1 ≡ []) }
    ensures err { IfErr result (λ why. why ≡ Refusal.OutOfMemory) }
{
    let config = Config {
        slots,
        name: text_of(alloc, name)?,
        suspend: true,
        journal: JOURNAL_SIZE,
        queues: QueueList::new(alloc),
    };
    SharedMachine::new(alloc, config)
}

/// A clock that gives the moments 0, 1, 2 and so on, a second more at each reading. It takes no memory.
pub fn plain_clock() -> StepClock
    ensures { result ≡ record { first = 0; step = 1; count = 0 } }
{
    StepClock::new(Moment::new(0).unwrap(), 1)
}

/// The desk of the opener's next client, with this clock and bell. The client has seen what the opener has, and made nothing.
/// It takes no memory.
pub fn open_desk<'a, C: Clock>(
    shared: &'a SharedMachine,
    opener: &mut MachineOpener,
    clock: C,
    bell: &'a Bell,
) -> Desk<'a, C>
    requires opener { BelongsTo shared.now opener.old }
    requires room { length (retired_of opener.old) < 4294967295 }
    ensures opener { BelongsTo shared.now opener.new }
    ensures seen { seen_of opener.new ≡ seen_of opener.old }
    ensures retired { retired_of opener.new ≡ retired_of opener.old ++ None ∷ [] }
    ensures clean { (number : ℕ) → length (retired_of opener.new) ≤ number → calls_of (seen_of opener.new) number ≡ [] }
    ensures shared { result.shared.now ≡ shared.now }
    ensures clock { result.clock ≡ clock }
    ensures bell { result.bell.now ≡ bell.now }
    ensures client { IsFree shared.now result.client }
    ensures number { number_of result.client ≡ length (retired_of opener.old) }
    ensures begins { seen_of result.client ≡ seen_of opener.old }
    ensures mine { mine_of result.client ≡ [] }
    ensures own { KnowsItsOwn result.client }
{
    Desk {
        shared,
        client: shared.open_client(opener),
        clock,
        bell,
    }
}
