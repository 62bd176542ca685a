//! Launcher and reaper, once the work is over.
ghost use Rattle.slab.specs.Slab.{get};
ghost use Rattle.attendant.specs.Pairs.{ArePlaced};
ghost use Rattle.drmaa.specs.Pairs.{HasEnded};

use attendant::{Attended, Pair, Reaper, settle};
use call_history::{Bell, SharedMachine};
use child_spawner::Spawner;
use drmaa_types::{Clock, Refusal};
use std::sync::Wait;
use std::time::Clock as Pause;

/// Launches and reaps alone, until the machine is settled; nothing where the two were refused before.
pub(crate) fn attend_last<R: Wait + Pause, S: Spawner, C: Clock>(
    rt: &R,
    shared: &SharedMachine,
    bell: &Bell,
    pair: Pair<C>,
    spawner: &mut S,
    reaper: &mut Reaper<S::One>,
    ended: Result<(), Refusal>,
) -> Attended<C>
    requires { ArePlaced shared.now pair }
    ensures { HasEnded C.given C.least S.One.told shared.now pair result.pair (S.asked spawner.old) (S.asked spawner.new) (S.fate spawner.old) (S.fate spawner.new)
        (get reaper.old.children) (get reaper.new.children) reaper.old.order reaper.new.order ended result.ended }
{
    match ended {
        Ok(()) => settle(rt, shared, bell, pair, spawner, reaper),
        Err(why) => Attended {
            pair,
            ended: Err(why),
        },
    }
}
