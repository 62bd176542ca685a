//! Clients that play a block each.
ghost use Rattle.std.specs.Prelude.{◌≡◌, ◌+◌, ◌≤◌, [], length, IfOk, vec_len};
ghost use Rattle.turn_lock.specs.Tokens.{BelongsTo, IsFree};
ghost use Rattle.call_history.specs.Clients.{seen_of, mine_of, retired_of, IsStillAt};
ghost use Rattle.call_history.specs.Timed.{StaysTimed};
ghost use Rattle.thread_play.specs.Stages.{PlaysOn, Hired, IsReady, HasPlayed};

use block_play::{Names, Stopped, play_block};
use call_history::{Bell, Client, Desk, MachineOpener, SharedMachine};
use drmaa_types::{CallerId, Clock, Clocks};
use script_text::{Block, Script};
use std::alloc::{AllocError, Global};
use std::sync::Wait;
use std::time::Clock as Pause;

/// A client that plays the block at a place of the script, and how that ended.
#[derive(Drop)]
pub(crate) struct Worker<C> {
    pub client: Client,
    pub clock: C,
    pub place: usize,
    pub ended: Result<(), Stopped>,
}

/// A client for each block, with a clock of its own.
pub(crate) fn hire<K: Clocks>(
    alloc: Global,
    script: &Script,
    shared: &SharedMachine,
    opener: &mut MachineOpener,
    clocks: &K,
) -> Result<Vec<Worker<K::One>>, AllocError>
    requires opener { BelongsTo shared.now opener.old }
    requires first { length (retired_of opener.old) ≡ 1 }
    requires few { length script.now.clients ≤ 32 }
    ensures hired { IfOk result (λ ws. Hired K.One.given shared.now opener.old opener.new ws.items) }
    ensures count { IfOk result (λ ws. vec_len ws ≡ length script.now.clients) }
{
    let mut workers = Vec::new(alloc);
    for place in 0..script.clients.as_slice().len() {
        workers.push(Worker {
            client: shared.open_client(opener),
            clock: clocks.clock(CallerId(place as u32 + 1)),
            place,
            ended: Ok(()),
        })?;
    }
    Ok(workers)
}

/// Plays the lines of a block with a copy of the names.
fn play_lines<R: Wait + Pause, C: Clock>(
    rt: &R,
    alloc: Global,
    script: &Script,
    names: &Names,
    desk: &mut Desk<C>,
    block: &Block,
) -> Result<(), Stopped>
    requires { IsFree desk.old.shared.now desk.old.client }
    ensures desk { IsStillAt desk.old.shared.now desk.old.client desk.new.shared.now desk.new.client }
    ensures timed { StaysTimed (mine_of desk.old.client) (C.given desk.old.clock) (mine_of desk.new.client) (C.given desk.new.clock) }
    ensures played { mine_of desk.old.client ≡ [] →
        PlaysOn desk.old.shared.now.fixed script.now names.now block.now (mine_of desk.new.client) (seen_of desk.new.client) (C.given desk.new.clock) result }
{
    let Ok(names) = names.copied() else {
        return Err(Stopped::Memory);
    };
    match play_block(rt, alloc, script, desk, names, block) {
        Ok(_) => Ok(()),
        Err(why) => Err(why),
    }
}

/// Plays a client's block.
pub(crate) fn play_worker<R: Wait + Pause, C: Clock>(
    rt: &R,
    alloc: Global,
    script: &Script,
    shared: &SharedMachine,
    bell: &Bell,
    names: &Names,
    worker: Worker<C>,
) -> Worker<C>
    requires { IsReady shared.now script.now worker }
    ensures { HasPlayed C.given shared.now script.now names.now worker result }
{
    let Worker {
        client,
        clock,
        place,
        ended: _,
    } = worker;
    let mut desk = Desk {
        shared,
        client,
        clock,
        bell,
    };
    let block = &script.clients.as_slice()[place];
    let ended = play_lines(rt, alloc, script, names, &mut desk, block);
    let Desk { client, clock, .. } = desk;
    Worker {
        client,
        clock,
        place,
        ended,
    }
}
