//! The loops of launcher and reaper.
ghost use Rattle.std.specs.Prelude.{◌≡◌, true, OnOk, IfOk, IfErr, IsOk, IsTrue, Some, None};
ghost use Rattle.slab.specs.Slab.{get};
ghost use Rattle.drmaa_model.specs.declared.looks.Answer.{Answer};
ghost use Rattle.turn_lock.specs.Histories.{BeginsWith};
ghost use Rattle.turn_lock.specs.Tokens.{IsFree};
ghost use Rattle.call_history.specs.Clients.{seen_of};
ghost use Rattle.attendant.specs.Acts.{own_acts};
ghost use Rattle.attendant.specs.Posts.{post, IsStillAt};
ghost use Rattle.attendant.specs.Loops.{stage, IsRound, ComesBetween, EndsAtFirst, KeepsFirst};
ghost use Rattle.attendant.specs.Outside.{Tends, Attending, EndsSettled, IsHeldUp};

use crate::launching::launch_once;
use crate::pauses::pause;
use crate::reaping::{first_of, reap_once};
use crate::{Launched, Reaper};
use call_history::{Answer, Desk, Pace, Question};
use child_spawner::Spawner;
use drmaa_types::{Clock, Refusal, WaitKind};
use std::sync::{Mutex, Wait};
use std::time::Clock as Pause;

/// How many clients are still at work. No contract rests on what it answers.
pub struct Done {
    clients: Mutex<u32>,
}

// By hand, so that how its parts are let go is proved here once, and not again in each crate that lets one go.
impl Drop for Done {
    fn drop(self) {
        let Done { clients: _ } = self;
    }
}

impl Done {
    /// So many clients are at work. It takes no memory.
    pub fn new(clients: u32) -> Done {
        Done {
            clients: Mutex::new(clients),
        }
    }

    /// One client less is at work.
    pub fn client_ended<R: Wait>(&self, rt: &R) {
        let mut clients = self.clients.lock(rt);
        *clients = clients.saturating_sub(1);
    }

    /// Whether no client is at work any more.
    pub fn clients_over<R: Wait>(&self, rt: &R) -> bool {
        *self.clients.lock(rt) == 0
    }
}

/// A round of the launcher, and one of the reaper. Whether there was nothing to do.
fn attend_once<R: Wait, S: Spawner, C: Clock>(
    rt: &R,
    launcher: &mut Desk<C>,
    reaping: &mut Desk<C>,
    spawner: &mut S,
    reaper: &mut Reaper<S::One>,
) -> Result<bool, Refusal>
    requires launcher { IsFree launcher.old.shared.now launcher.old.client }
    requires reaping { IsFree reaping.old.shared.now reaping.old.client }
    ensures launcher { IsStillAt (post C.given C.least launcher.old) (post C.given C.least launcher.new) }
    ensures reaping { IsStillAt (post C.given C.least reaping.old) (post C.given C.least reaping.new) }
    ensures attending { Attending S.One.told (S.asked spawner.old) (S.asked spawner.new) (S.fate spawner.old) (S.fate spawner.new)
        (own_acts launcher.old.client) (own_acts launcher.new.client) (own_acts reaping.old.client) (own_acts reaping.new.client)
        (get reaper.old.children) (get reaper.new.children) reaper.old.order reaper.new.order (IsOk result) }
    ensures served { IfOk result (λ idle. IsRound S.One.told S.One.faults (stage (post C.given C.least launcher.old) (post C.given C.least reaping.old) (S.asked spawner.old) (S.fate spawner.old) reaper.old.children reaper.old.order)
        (stage (post C.given C.least launcher.new) (post C.given C.least reaping.new) (S.asked spawner.new) (S.fate spawner.new) reaper.new.children reaper.new.order) None) }
    ensures refused { IfErr result (λ why. IsRound S.One.told S.One.faults (stage (post C.given C.least launcher.old) (post C.given C.least reaping.old) (S.asked spawner.old) (S.fate spawner.old) reaper.old.children reaper.old.order)
        (stage (post C.given C.least launcher.new) (post C.given C.least reaping.new) (S.asked spawner.new) (S.fate spawner.new) reaper.new.children reaper.new.order) (Some why)) }
    ensures err { IfErr result (IsHeldUp (post C.given C.least launcher.old) (post C.given C.least launcher.new) (post C.given C.least reaping.old) (post C.given C.least reaping.new)
        (Tends (own_acts launcher.old.client) (own_acts reaping.old.client) (get reaper.old.children) reaper.old.order)) }
{
    let launched = launch_once(rt, launcher, spawner, reaper);
    let reports = reap_once(rt, reaping, reaper);
    let nothing = matches!(launched?, Launched::Nothing);
    Ok(reports? == 0 && nothing)
}

/// Whether the machine is settled, after all that the reaper's client has seen. It is not asked behind a round that had something
/// to do.
fn is_settled<R: Wait, C: Clock>(
    rt: &R,
    idle: bool,
    launcher: &mut Desk<C>,
    reaping: &mut Desk<C>,
) -> bool
    requires lock { reaping.old.shared.now ≡ launcher.old.shared.now }
    requires launcher { IsFree launcher.old.shared.now launcher.old.client }
    requires reaping { IsFree reaping.old.shared.now reaping.old.client }
    ensures launcher { IsStillAt (post C.given C.least launcher.old) (post C.given C.least launcher.new) }
    ensures reaping { reaping.new ≡ reaping.old }
    ensures mine { own_acts launcher.new.client ≡ own_acts launcher.old.client }
    ensures between { ComesBetween (post C.given C.least launcher.old) (post C.given C.least launcher.new) }
    ensures settled { IsTrue result → EndsSettled launcher.old.shared.now.fixed (post C.given C.least launcher.new) }
    ensures begins { BeginsWith (seen_of launcher.new.client) (seen_of reaping.new.client) }
{
    launcher
        .shared
        .hand_over(&mut reaping.client, &mut launcher.client);
    if !idle {
        return false;
    }
    let answer = launcher.look(rt, Question::Settled);
    says_settled(&answer)
}

/// Whether an answer says that the machine is settled.
fn says_settled(answer: &Answer) -> bool
    ensures { IsTrue result → answer.now ≡ Answer.Settled true }
{
    matches!(answer, Answer::Settled(true))
}

/// Launches and reaps in turn, with rests, until the clients are over and a look says that the machine is settled. The look comes
/// after all that the reaper's client has seen. It may go on for good.
///
/// # Errors
///
/// The first refusal of a round, once the clients are over: `OutOfMemory`, or `OutOfResource` with the journal's size.
pub fn run_attendant<R: Wait + Pause, S: Spawner, C: Clock>(
    rt: &R,
    launcher: &mut Desk<C>,
    reaping: &mut Desk<C>,
    spawner: &mut S,
    reaper: &mut Reaper<S::One>,
    done: &Done,
) -> Result<(), Refusal>
    requires lock { reaping.old.shared.now ≡ launcher.old.shared.now }
    requires launcher { IsFree launcher.old.shared.now launcher.old.client }
    requires reaping { IsFree reaping.old.shared.now reaping.old.client }
    ensures launcher { IsStillAt (post C.given C.least launcher.old) (post C.given C.least launcher.new) }
    ensures reaping { IsStillAt (post C.given C.least reaping.old) (post C.given C.least reaping.new) }
    ensures attending { Attending S.One.told (S.asked spawner.old) (S.asked spawner.new) (S.fate spawner.old) (S.fate spawner.new)
        (own_acts launcher.old.client) (own_acts launcher.new.client) (own_acts reaping.old.client) (own_acts reaping.new.client)
        (get reaper.old.children) (get reaper.new.children) reaper.old.order reaper.new.order (IsOk result) }
    ensures rounds { KeepsFirst S.One.told S.One.faults (stage (post C.given C.least launcher.old) (post C.given C.least reaping.old) (S.asked spawner.old) (S.fate spawner.old) reaper.old.children reaper.old.order)
        (stage (post C.given C.least launcher.new) (post C.given C.least reaping.new) (S.asked spawner.new) (S.fate spawner.new) reaper.new.children reaper.new.order) result }
    ensures err { IfErr result (IsHeldUp (post C.given C.least launcher.old) (post C.given C.least launcher.new) (post C.given C.least reaping.old) (post C.given C.least reaping.new)
        (Tends (own_acts launcher.old.client) (own_acts reaping.old.client) (get reaper.old.children) reaper.old.order)) }
    ensures settled { OnOk result (EndsSettled launcher.old.shared.now.fixed (post C.given C.least launcher.new)) }
    ensures begins { OnOk result (BeginsWith (seen_of launcher.new.client) (seen_of reaping.new.client)) }
{
    let mut kept = None;
    let mut pace = Pace::new();
    for _ in rt.forever() {
        let before = launcher.bell.strokes(rt, WaitKind::Started);
        let over = done.clients_over(rt);
        let idle = match attend_once(rt, launcher, reaping, spawner, reaper) {
            Ok(idle) => idle,
            Err(why) => {
                kept = first_of(kept, why);
                true
            }
        };
        if over {
            if let Some(why) = kept {
                return Err(why);
            }
            if is_settled(rt, idle, launcher, reaping) {
                return Ok(());
            }
        }
        pause(rt, idle, launcher.bell, before, &mut pace);
    }
    unreachable!()
}

/// As `run_attendant`, with no clients to wait for.
///
/// # Errors
///
/// The first refusal of a round, at once: `OutOfMemory`, or `OutOfResource` with the journal's size.
pub fn finish<R: Wait + Pause, S: Spawner, C: Clock>(
    rt: &R,
    launcher: &mut Desk<C>,
    reaping: &mut Desk<C>,
    spawner: &mut S,
    reaper: &mut Reaper<S::One>,
) -> Result<(), Refusal>
    requires lock { reaping.old.shared.now ≡ launcher.old.shared.now }
    requires launcher { IsFree launcher.old.shared.now launcher.old.client }
    requires reaping { IsFree reaping.old.shared.now reaping.old.client }
    ensures launcher { IsStillAt (post C.given C.least launcher.old) (post C.given C.least launcher.new) }
    ensures reaping { IsStillAt (post C.given C.least reaping.old) (post C.given C.least reaping.new) }
    ensures attending { Attending S.One.told (S.asked spawner.old) (S.asked spawner.new) (S.fate spawner.old) (S.fate spawner.new)
        (own_acts launcher.old.client) (own_acts launcher.new.client) (own_acts reaping.old.client) (own_acts reaping.new.client)
        (get reaper.old.children) (get reaper.new.children) reaper.old.order reaper.new.order (IsOk result) }
    ensures rounds { EndsAtFirst S.One.told S.One.faults (stage (post C.given C.least launcher.old) (post C.given C.least reaping.old) (S.asked spawner.old) (S.fate spawner.old) reaper.old.children reaper.old.order)
        (stage (post C.given C.least launcher.new) (post C.given C.least reaping.new) (S.asked spawner.new) (S.fate spawner.new) reaper.new.children reaper.new.order) result }
    ensures err { IfErr result (IsHeldUp (post C.given C.least launcher.old) (post C.given C.least launcher.new) (post C.given C.least reaping.old) (post C.given C.least reaping.new)
        (Tends (own_acts launcher.old.client) (own_acts reaping.old.client) (get reaper.old.children) reaper.old.order)) }
    ensures settled { OnOk result (EndsSettled launcher.old.shared.now.fixed (post C.given C.least launcher.new)) }
    ensures begins { OnOk result (BeginsWith (seen_of launcher.new.client) (seen_of reaping.new.client)) }
{
    let mut pace = Pace::new();
    for _ in rt.forever() {
        let before = launcher.bell.strokes(rt, WaitKind::Started);
        let idle = attend_once(rt, launcher, reaping, spawner, reaper)?;
        if is_settled(rt, idle, launcher, reaping) {
            return Ok(());
        }
        pause(rt, idle, launcher.bell, before, &mut pace);
    }
    unreachable!()
}
