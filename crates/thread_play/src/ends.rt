//! How a run ends.
ghost use Rattle.std.specs.Prelude.{◌≡◌, ◌≤◌, ◌+◌, ◌++◌, ◌∷◌, [], All, IfOk, map, vec_len, vec_capacity};
ghost use Rattle.turn_lock.specs.Tokens.{BelongsTo, IsFree};
ghost use Rattle.thread_play.specs.Hubs.{IsReturned};
ghost use Rattle.thread_play.specs.Stages.{Dismissed, EndsAs, stop_at, worse, worst};

use crate::workers::Worker;
use beside_clients::Seated;
use block_play::Stopped;
use call_history::{Client, MachineOpener, SharedMachine};
use drmaa_types::{Limit, Refusal};
use std::alloc::AllocError;

/// Why a run is stopped, of two causes: want of memory, and else the first.
pub(crate) fn worse(kept: Option<Stopped>, ended: Result<(), Stopped>) -> Option<Stopped>
    ensures { result ≡ worse kept ended }
{
    match (kept, ended) {
        (_, Ok(())) => kept,
        (None, Err(why)) => Some(why),
        (Some(Stopped::Full { .. }), Err(Stopped::Memory)) => Some(Stopped::Memory),
        (Some(_), Err(_)) => kept,
    }
}

/// How launcher and reaper ended, as the end of a run.
pub(crate) fn stopped_by(ended: Result<(), Refusal>) -> Result<(), Stopped>
    ensures { EndsAs ended result }
{
    match ended {
        Ok(()) => Ok(()),
        Err(Refusal::OutOfResource(Limit::Journal { size })) => Err(Stopped::Full { size }),
        Err(_) => Err(Stopped::Memory),
    }
}

/// The size that the journal would have had, where a run was stopped by it.
///
/// # Errors
///
/// Want of memory, where that stopped the run.
pub(crate) fn full_of(ended: Option<Stopped>) -> Result<Option<u64>, AllocError>
    ensures { IfOk result (λ size. ended ≡ stop_at size) }
{
    match ended {
        None => Ok(None),
        Some(Stopped::Full { size }) => Ok(Some(size)),
        Some(Stopped::Memory) => Err(AllocError),
    }
}

/// Takes the clients back, after the launcher's has been told what each had seen, and their clocks. Why the run is stopped, with
/// the cause that there was.
pub(crate) fn dismiss<C: Drop>(
    shared: &SharedMachine,
    opener: &mut MachineOpener,
    launcher: &mut Client,
    workers: Vec<Worker<C>>,
    clocks: &mut Vec<C>,
    ended: Option<Stopped>,
) -> Option<Stopped>
    requires opener { BelongsTo shared.now opener.old }
    requires launcher { IsFree shared.now launcher.old }
    requires room { vec_len clocks.old + vec_len workers ≤ vec_capacity clocks.old }
    requires each { All (λ w. IsFree shared.now w.client) workers.items }
    ensures back { Dismissed shared.now opener.old opener.new launcher.old launcher.new workers.items }
    ensures clocks { clocks.new.items ≡ clocks.old.items ++ map (λ w. w.clock) workers.items }
    ensures capacity { vec_capacity clocks.new ≡ vec_capacity clocks.old }
    ensures ended { result ≡ worst ended workers.items }
{
    let mut ended = ended;
    for worker in workers {
        let Worker {
            client,
            clock,
            place: _,
            ended: end,
        } = worker;
        let mut client = client;
        shared.hand_over(&mut client, launcher);
        shared.retire(opener, client);
        clocks.push_reserved(clock);
        ended = worse(ended, end);
    }
    ended
}

/// Takes the hub's client back, and its clock.
pub(crate) fn end_hub_seat<C: Drop>(
    shared: &SharedMachine,
    opener: &mut MachineOpener,
    hub_seat: Seated<C>,
    clocks: &mut Vec<C>,
)
    requires opener { BelongsTo shared.now opener.old }
    requires client { IsFree shared.now hub_seat.client }
    requires room { vec_len clocks.old + 1 ≤ vec_capacity clocks.old }
    ensures back { IsReturned shared.now opener.old opener.new hub_seat.client }
    ensures clocks { clocks.new.items ≡ clocks.old.items ++ hub_seat.clock ∷ [] }
{
    let Seated { client, clock } = hub_seat;
    shared.retire(opener, client);
    clocks.push_reserved(clock);
}
