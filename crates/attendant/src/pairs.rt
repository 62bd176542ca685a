//! Launcher and reaper as a pair: their clients and clocks, which they take to their desks and bring back.
ghost use Rattle.std.specs.Prelude.{◌≡◌, IsOk, IsSome, IfSome};
ghost use Rattle.slab.specs.Slab.{get};
ghost use Rattle.turn_lock.specs.Tokens.{IsFree};
ghost use Rattle.attendant.specs.Pairs.{ArePlaced, HasAttended, HasSettled};

use crate::attending::{Done, finish, run_attendant};
use crate::reaper::Reaper;
use call_history::{Bell, Client, Desk, SharedMachine};
use child_spawner::Spawner;
use drmaa_types::{Clock, Refusal};
use std::sync::Wait;
use std::time::Clock as Pause;

/// The clients of launcher and reaper, and their clocks.
#[derive(Drop)]
pub struct Pair<C> {
    pub launcher: Client,
    pub launcher_clock: C,
    pub reaping: Client,
    pub reaping_clock: C,
}

/// The pair after its work, and how that ended.
#[derive(Drop)]
pub struct Attended<C> {
    pub pair: Pair<C>,
    pub ended: Result<(), Refusal>,
}

/// Launches and reaps until the clients are over and the machine is settled.
fn attend<R: Wait + Pause, S: Spawner, C: Clock>(
    rt: &R,
    shared: &SharedMachine,
    bell: &Bell,
    pair: Pair<C>,
    spawner: &mut S,
    reaper: &mut Reaper<S::One>,
    done: &Done,
) -> Attended<C>
    requires { ArePlaced shared.now pair }
    ensures { HasAttended C.given C.least S.One.told shared.now pair result.pair (S.asked spawner.old) (S.asked spawner.new) (S.fate spawner.old) (S.fate spawner.new)
        (get reaper.old.children) (get reaper.new.children) reaper.old.order reaper.new.order result.ended }
{
    let mut launcher = Desk {
        shared,
        client: pair.launcher,
        clock: pair.launcher_clock,
        bell,
    };
    let mut reaping = Desk {
        shared,
        client: pair.reaping,
        clock: pair.reaping_clock,
        bell,
    };
    let ended = run_attendant(rt, &mut launcher, &mut reaping, spawner, reaper, done);
    Attended {
        pair: Pair {
            launcher: launcher.client,
            launcher_clock: launcher.clock,
            reaping: reaping.client,
            reaping_clock: reaping.clock,
        },
        ended,
    }
}

/// Launches and reaps as `attend` does, with the pair that is there, if one is. It may go on for good.
pub fn attend_there<R: Wait + Pause, S: Spawner, C: Clock>(
    rt: &R,
    shared: &SharedMachine,
    bell: &Bell,
    pair: &mut Option<Pair<C>>,
    spawner: &mut S,
    reaper: &mut Reaper<S::One>,
    done: &Done,
) -> Option<Attended<C>>
    requires { IfSome pair.old (ArePlaced shared.now) }
    ensures some { IsSome pair.old → IsSome result }
    ensures attended { IfSome pair.old (λ p. IfSome result (λ a. HasAttended C.given C.least S.One.told shared.now p a.pair
        (S.asked spawner.old) (S.asked spawner.new) (S.fate spawner.old) (S.fate spawner.new)
        (get reaper.old.children) (get reaper.new.children) reaper.old.order reaper.new.order a.ended)) }
{
    let pair = pair.take()?;
    Some(attend(rt, shared, bell, pair, spawner, reaper, done))
}

/// Launches and reaps, with no clients to wait for, until the machine is settled. How that ended stands beside the pair: a refusal
/// is that of `finish`. It may go on for good.
pub fn settle<R: Wait + Pause, S: Spawner, C: Clock>(
    rt: &R,
    shared: &SharedMachine,
    bell: &Bell,
    pair: Pair<C>,
    spawner: &mut S,
    reaper: &mut Reaper<S::One>,
) -> Attended<C>
    requires { ArePlaced shared.now pair }
    ensures attended { HasAttended C.given C.least S.One.told shared.now pair result.pair (S.asked spawner.old) (S.asked spawner.new) (S.fate spawner.old) (S.fate spawner.new)
        (get reaper.old.children) (get reaper.new.children) reaper.old.order reaper.new.order result.ended }
    ensures settled { IsOk result.ended → HasSettled C.given C.least shared.now result.pair }
{
    let mut launcher = Desk {
        shared,
        client: pair.launcher,
        clock: pair.launcher_clock,
        bell,
    };
    let mut reaping = Desk {
        shared,
        client: pair.reaping,
        clock: pair.reaping_clock,
        bell,
    };
    let ended = finish(rt, &mut launcher, &mut reaping, spawner, reaper);
    Attended {
        pair: Pair {
            launcher: launcher.client,
            launcher_clock: launcher.clock,
            reaping: reaping.client,
            reaping_clock: reaping.clock,
        },
        ended,
    }
}
