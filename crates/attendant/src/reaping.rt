//! The reaper.
ghost use Rattle.std.specs.Result.{result_ok};
ghost use Rattle.std.specs.Prelude.{◌≡◌, ◌+◌, ◌-◌, ◌^◌, ◌≤◌, min, unwrap_or, ◌++◌, ◌∷◌, [], true, false, IfOk, IfErr, IsErr, OnOk, IfSome, IfNone, Option, Some, None, IsTrue, is_ok, IsOk, IsSome, List, ℕ};
ghost use Rattle.drmaa_model.specs.declared.calls.Call.{Call};
ghost use Rattle.drmaa_model.specs.declared.faults.NoEntry.{NoEntry};
ghost use Rattle.drmaa_model.specs.declared.replies.Reply.{Reply};
ghost use Rattle.turn_lock.specs.Tokens.{IsFree};
ghost use Rattle.call_history.specs.Clients.{number_of};
ghost use Rattle.attendant.specs.Acts.{signal_reply, is_run, TakeSignal, duty_of, own_acts};
ghost use Rattle.attendant.specs.Posts.{post, IsStillAt, Succeeds, Fails};
ghost use Rattle.slab.specs.Slab.{get, SameValues};
ghost use Rattle.attendant.specs.declared.reaper.Held.{Held};
ghost use Rattle.child_spawner.specs.declared.fates.Asked.{Asked};
ghost use Rattle.child_spawner.specs.declared.fates.Fate.{Fate};
ghost use Rattle.attendant.specs.Outside.{Keeping, Agreeing, Agreed, Polling, Keeps, AgreesOf};
ghost use Rattle.attendant.specs.Runs.{IsUnanswered};
ghost use Rattle.attendant.specs.Steps.{entry_of, MayFail};
ghost use Rattle.attendant.specs.Rounds.{signal_report, asked_signal, asked_end, IsRefusedBy, SignalReports, Delivers, Serves, PollSteps, is_over, hand_without, EndReports, end_call, TakeSteps, PollsPlaces, LosesEnd, PollsAll, ServesHand, ServesOrder, ReapSteps, IsTaking, IsRoundRefused};

use crate::asking::ask;
use crate::{Hand, Held, Reaper};
use call_history::{Call, Desk, NoEntry, Reply};
use child_spawner::Child;
use drmaa_model::Signal;
use drmaa_types::{Clock, Exit, Failed, JobId, Refusal};
use slab::Slab;
use std::sync::Wait;

/// What a poll of a child came to.
pub enum Polled {
    /// There is no child, or it runs.
    Running,
    /// It has ended, and is out of the list.
    Ended(JobId, u32, Option<Exit>),
}

fn signal_of(reply: Reply) -> Option<Signal>
    ensures { result ≡ signal_reply reply }
{
    match reply {
        Reply::Signal(signal) => Some(signal),
        _ => None,
    }
}

/// Takes an order, where there is one.
fn take_signal<R: Wait, C: Clock>(rt: &R, desk: &mut Desk<C>) -> Result<Option<Signal>, Refusal>
    requires { IsFree desk.old.shared.now desk.old.client }
    ensures desk { IsStillAt (post C.given C.least desk.old) (post C.given C.least desk.new) }
    ensures taken { IfOk result (λ signal. IfSome signal (λ s. own_acts desk.new.client
        ≡ own_acts desk.old.client ++ entry_of (number_of desk.old.client) TakeSignal (Reply.Signal s) ∷ [])) }
    ensures served { IfOk result (λ signal. IfSome signal (λ s. Succeeds (post C.given C.least desk.old) Call.TakeSignal (Reply.Signal s) (post C.given C.least desk.new))) }
    ensures nothing { IfOk result (λ signal. IfNone signal
        ((own_acts desk.new.client ≡ own_acts desk.old.client) × Fails (post C.given C.least desk.old) Call.TakeSignal NoEntry.Nothing (post C.given C.least desk.new))) }
    ensures err { IfErr result (λ why. (own_acts desk.new.client ≡ own_acts desk.old.client)
        × IsRefusedBy (post C.given C.least desk.old) Call.TakeSignal (post C.given C.least desk.new) why) }
{
    match ask(rt, desk, Call::TakeSignal) {
        Ok(reply) => {
            let Some(signal) = signal_of(reply) else {
                unreachable!()
            };
            Ok(Some(signal))
        }
        Err(NoEntry::Nothing) => Ok(None),
        Err(fault) => Err(Refusal::from(fault)),
    }
}

/// The place of the child of a run.
fn find_child<T>(children: &Slab<Held<T>>, signal: Signal) -> Option<usize>
    ensures found { IfSome result (λ key. (held : Held T) × (get children.now key ≡ Some held)
        × (is_run signal.job signal.attempt held.job held.attempt ≡ true)) }
    ensures absent { IfNone result ((key : ℕ) (held : Held T) → get children.now key ≡ Some held
        → is_run signal.job signal.attempt held.job held.attempt ≡ false) }
{
    for key in 0..children.capacity() {
        if let Some(held) = children.get(key) {
            if signal.job.0 == held.job.0 && signal.attempt == held.attempt {
                return Some(key);
            }
        }
    }
    None
}

/// Signals the child at a place.
fn signal_at<T: Child>(children: &mut Slab<Held<T>>, key: usize, hand: &mut Hand)
    requires unanswered { hand.old.answer ≡ None }
    requires there { (held : Held T) × (get children.old key ≡ Some held)
        × (is_run hand.old.signal.job hand.old.signal.attempt held.job held.attempt ≡ true) }
    ensures { Delivers T.told T.faults hand.old hand.new children.old children.new }
{
    if let Some(held) = children.get_mut(key) {
        hand.answer = Some(held.child.signal(hand.signal.kind).is_ok());
    }
}

/// Delivers the order in hand, where it was not delivered and its child is in the list.
fn deliver<T: Child>(children: &mut Slab<Held<T>>, hand: &mut Hand)
    ensures { Serves T.told T.faults hand.old hand.new children.old children.new }
{
    if hand.answer.is_some() {
        return;
    }
    if let Some(key) = find_child(children, hand.signal) {
        signal_at(children, key, hand);
    }
}

fn report_of(signal: Signal, answer: bool) -> Call
    ensures call { result ≡ asked_signal answer signal }
    ensures duty { duty_of result ≡ signal_report answer signal }
{
    let Signal { job, attempt, kind } = signal;
    if answer {
        Call::SignalDone { job, attempt, kind }
    } else {
        Call::SignalFailed { job, attempt, kind }
    }
}

/// Reports what a delivery was answered.
fn report_signal<R: Wait, C: Clock>(
    rt: &R,
    desk: &mut Desk<C>,
    signal: Signal,
    answer: bool,
) -> Result<(), Refusal>
    requires { IsFree desk.old.shared.now desk.old.client }
    ensures desk { IsStillAt (post C.given C.least desk.old) (post C.given C.least desk.new) }
    ensures made { SignalReports (number_of desk.old.client) answer signal (is_ok result) (own_acts desk.old.client) (own_acts desk.new.client) }
    ensures served { OnOk result ((r : Reply) × Succeeds (post C.given C.least desk.old) (asked_signal answer signal) r (post C.given C.least desk.new)) }
    ensures err { IfErr result (IsRefusedBy (post C.given C.least desk.old) (asked_signal answer signal) (post C.given C.least desk.new)) }
{
    match ask(rt, desk, report_of(signal, answer)) {
        Ok(_) => Ok(()),
        Err(fault) => Err(Refusal::from(fault)),
    }
}

/// Polls the child at a place, and takes it out where it has ended.
fn poll_child<T: Child + Drop>(children: &mut Slab<Held<T>>, key: usize) -> Polled
    ensures { PollSteps T.told T.faults key children.old children.new result }
{
    let Some(held) = children.get_mut(key) else {
        return Polled::Running;
    };
    let (job, attempt) = (held.job, held.attempt);
    match held.child.poll() {
        Ok(None) => Polled::Running,
        Ok(Some(exit)) => {
            children.try_remove(key);
            Polled::Ended(job, attempt, Some(exit))
        }
        Err(Failed) => {
            children.try_remove(key);
            Polled::Ended(job, attempt, None)
        }
    }
}

fn end_of(job: JobId, attempt: u32, exit: Option<Exit>) -> Call
    ensures call { result ≡ asked_end job attempt exit }
    ensures duty { duty_of result ≡ end_call job attempt exit }
{
    match exit {
        Some(exit) => Call::Exited { job, attempt, exit },
        None => Call::ExitUnknown { job, attempt },
    }
}

/// Whether an order is over once a run has ended: it is of that run, and the end is reported or the order was not delivered.
fn is_over(hand: Hand, job: JobId, attempt: u32, reported: bool) -> bool
    ensures { result ≡ is_over reported job attempt hand }
{
    let is_of_run = hand.signal.job.0 == job.0 && hand.signal.attempt == attempt;
    is_of_run && (reported || hand.answer.is_none())
}

/// The order in hand, unless it is over.
fn without(order: Option<Hand>, job: JobId, attempt: u32, reported: bool) -> Option<Hand>
    ensures { result ≡ hand_without reported job attempt order }
{
    match order {
        Some(hand) if is_over(hand, job, attempt, reported) => None,
        _ => order,
    }
}

/// Reports an end. Whether the report is an entry. An order of the run is dropped if it is, or if it was not delivered.
fn report_end<R: Wait, C: Clock>(
    rt: &R,
    desk: &mut Desk<C>,
    order: &mut Option<Hand>,
    job: JobId,
    attempt: u32,
    exit: Option<Exit>,
) -> bool
    requires { IsFree desk.old.shared.now desk.old.client }
    ensures desk { IsStillAt (post C.given C.least desk.old) (post C.given C.least desk.new) }
    ensures made { EndReports (number_of desk.old.client) job attempt exit result (own_acts desk.old.client) (own_acts desk.new.client) order.old order.new }
    ensures cause { result ≡ false → (fault : NoEntry) × Fails (post C.given C.least desk.old) (asked_end job attempt exit) fault (post C.given C.least desk.new) }
{
    let reported = ask(rt, desk, end_of(job, attempt, exit)).is_ok();
    *order = without(*order, job, attempt, reported);
    reported
}

/// Takes an order, where none is in hand.
fn take_order<R: Wait, C: Clock>(
    rt: &R,
    desk: &mut Desk<C>,
    order: &mut Option<Hand>,
) -> Result<(), Refusal>
    requires { IsFree desk.old.shared.now desk.old.client }
    ensures desk { IsStillAt (post C.given C.least desk.old) (post C.given C.least desk.new) }
    ensures steps { TakeSteps (post C.given C.least desk.old) (post C.given C.least desk.new) order.old order.new result }
    ensures err { IsErr result → order.new ≡ None }
{
    if order.is_none() {
        if let Some(signal) = take_signal(rt, desk)? {
            *order = Some(Hand {
                signal,
                answer: None,
            });
        }
    }
    Ok(())
}

/// Delivers the order in hand, and reports what its delivery answered.
fn serve_hand<R: Wait, T: Child, C: Clock>(
    rt: &R,
    desk: &mut Desk<C>,
    reaper: &mut Reaper<T>,
    hand: Hand,
) -> Result<u32, Refusal>
    requires sits { IsFree desk.old.shared.now desk.old.client }
    requires hand { reaper.old.order ≡ Some hand }
    ensures desk { IsStillAt (post C.given C.least desk.old) (post C.given C.least desk.new) }
    ensures steps { ServesHand T.told T.faults (post C.given C.least desk.old) (post C.given C.least desk.new) hand reaper.old.children reaper.new.children reaper.new.order result }
    ensures keeping { Keeping T.told (own_acts desk.old.client) (own_acts desk.new.client) (get reaper.old.children) (get reaper.new.children) reaper.old.order reaper.new.order }
    ensures agreeing { Agreeing (own_acts desk.old.client) (own_acts desk.new.client) }
    ensures unanswered { OnOk result (IsUnanswered reaper.new.order) }
{
    let mut hand = hand;
    deliver(&mut reaper.children, &mut hand);
    reaper.order = Some(hand);
    let Some(answer) = hand.answer else {
        return Ok(0);
    };
    report_signal(rt, desk, hand.signal, answer)?;
    reaper.order = None;
    Ok(1)
}

/// Takes an order where none is kept, delivers it and reports that.
fn serve_order<R: Wait, T: Child, C: Clock>(
    rt: &R,
    desk: &mut Desk<C>,
    reaper: &mut Reaper<T>,
) -> Result<u32, Refusal>
    requires { IsFree desk.old.shared.now desk.old.client }
    ensures desk { IsStillAt (post C.given C.least desk.old) (post C.given C.least desk.new) }
    ensures steps { ServesOrder T.told T.faults (post C.given C.least desk.old) (post C.given C.least desk.new) reaper.old.children reaper.new.children reaper.old.order reaper.new.order result }
    ensures keeping { Keeping T.told (own_acts desk.old.client) (own_acts desk.new.client) (get reaper.old.children) (get reaper.new.children) reaper.old.order reaper.new.order }
    ensures agreeing { Agreeing (own_acts desk.old.client) (own_acts desk.new.client) }
    ensures unanswered { OnOk result (IsUnanswered reaper.new.order) }
{
    take_order(rt, desk, &mut reaper.order)?;
    match reaper.order {
        Some(hand) => serve_hand(rt, desk, reaper, hand),
        None => Ok(0),
    }
}

/// Polls the child at a place, and reports its end.
fn poll_at<R: Wait, T: Child + Drop, C: Clock>(
    rt: &R,
    desk: &mut Desk<C>,
    reaper: &mut Reaper<T>,
    key: usize,
) -> Result<u32, Refusal>
    requires { IsFree desk.old.shared.now desk.old.client }
    ensures place { PollsPlaces T.told T.faults key (key + 1) (own_acts desk.old.client) (own_acts desk.new.client) (get reaper.old.children) (get reaper.new.children) reaper.old.order reaper.new.order (unwrap_or (result_ok result) 0) (IsOk result) }
    ensures lost { IfErr result (LosesEnd T.told T.faults (post C.given C.least desk.old) (post C.given C.least desk.new) (get reaper.old.children) (get reaper.new.children)) }
    ensures one { IfOk result (λ count. count ≤ 1) }
    ensures desk { IsStillAt (post C.given C.least desk.old) (post C.given C.least desk.new) }
    ensures polling { Polling T.told (own_acts desk.old.client) (own_acts desk.new.client) (get reaper.old.children) (get reaper.new.children) reaper.old.order reaper.new.order }
{
    match poll_child(&mut reaper.children, key) {
        Polled::Running => Ok(0),
        Polled::Ended(job, attempt, exit) => {
            if report_end(rt, desk, &mut reaper.order, job, attempt, exit) {
                Ok(1)
            } else {
                Err(Refusal::OutOfMemory)
            }
        }
    }
}

/// Polls each child once, and reports each end.
fn poll_all<R: Wait, T: Child + Drop, C: Clock>(
    rt: &R,
    desk: &mut Desk<C>,
    reaper: &mut Reaper<T>,
) -> Result<u32, Refusal>
    requires { IsFree desk.old.shared.now desk.old.client }
    ensures desk { IsStillAt (post C.given C.least desk.old) (post C.given C.least desk.new) }
    ensures places { PollsAll T.told T.faults (post C.given C.least desk.old) (post C.given C.least desk.new) (get reaper.old.children) (get reaper.new.children) reaper.old.order reaper.new.order result }
    ensures polling { Polling T.told (own_acts desk.old.client) (own_acts desk.new.client) (get reaper.old.children) (get reaper.new.children) reaper.old.order reaper.new.order }
{
    let mut reports: u32 = 0;
    let mut refused = None;
    for key in 0..reaper.children.capacity() {
        match poll_at(rt, desk, reaper, key) {
            Ok(count) => reports = reports.saturating_add(count),
            Err(why) => refused = first_of(refused, why),
        }
    }
    match refused {
        Some(why) => Err(why),
        None => Ok(reports),
    }
}

/// The refusal that was met first.
pub(crate) fn first_of(kept: Option<Refusal>, why: Refusal) -> Option<Refusal>
    ensures { result ≡ Some (unwrap_or kept why) }
{
    match kept {
        Some(first) => Some(first),
        None => Some(why),
    }
}

/// The steps of a round of the reaper.
fn reap_round<R: Wait, T: Child + Drop, C: Clock>(
    rt: &R,
    desk: &mut Desk<C>,
    reaper: &mut Reaper<T>,
) -> Result<u32, Refusal>
    requires { IsFree desk.old.shared.now desk.old.client }
    ensures desk { IsStillAt (post C.given C.least desk.old) (post C.given C.least desk.new) }
    ensures steps { ReapSteps T.told T.faults (post C.given C.least desk.old) (post C.given C.least desk.new) reaper.old.children reaper.new.children reaper.old.order reaper.new.order result }
    ensures keeping { Keeping T.told (own_acts desk.old.client) (own_acts desk.new.client) (get reaper.old.children) (get reaper.new.children) reaper.old.order reaper.new.order }
    ensures agrees { OnOk result (Agreed T.told (own_acts desk.old.client) (own_acts desk.new.client) (get reaper.old.children) reaper.old.order) }
{
    let served = serve_order(rt, desk, reaper);
    let ended = poll_all(rt, desk, reaper);
    Ok(served?.saturating_add(ended?))
}

/// One round of the reaper: takes an order where none is in hand, delivers it where its child is there, and reports that; then
/// polls each child once, and reports each end. The answer is the number of reports. It may wait for the turn.
///
/// An order in hand is kept while its child is not in the list, and while its report makes no entry. It is delivered once, and no
/// other is taken meanwhile. It is dropped with the end of its child: where that is reported, and where it was not delivered.
///
/// # Errors
///
/// The refusal that was met first, once the polls are done. `OutOfResource` with the journal's size, where the journal has no room
/// for the entry by which the order is taken or its delivery reported. `OutOfMemory` where memory runs out for these, and where
/// the report of an end makes no entry, as only a stray one may.
pub fn reap_once<R: Wait, T: Child + Drop, C: Clock>(
    rt: &R,
    desk: &mut Desk<C>,
    reaper: &mut Reaper<T>,
) -> Result<u32, Refusal>
    requires { IsFree desk.old.shared.now desk.old.client }
    ensures desk { IsStillAt (post C.given C.least desk.old) (post C.given C.least desk.new) }
    ensures steps { ReapSteps T.told T.faults (post C.given C.least desk.old) (post C.given C.least desk.new) reaper.old.children reaper.new.children reaper.old.order reaper.new.order result }
    ensures keeping { Keeping T.told (own_acts desk.old.client) (own_acts desk.new.client) (get reaper.old.children) (get reaper.new.children) reaper.old.order reaper.new.order }
    ensures agrees { OnOk result (Agreed T.told (own_acts desk.old.client) (own_acts desk.new.client) (get reaper.old.children) reaper.old.order) }
    ensures taking { IsTaking (post C.given C.least desk.old) (post C.given C.least desk.new) reaper.old.order result }
    ensures err { IfErr result (IsRoundRefused (post C.given C.least desk.old) (post C.given C.least desk.new) reaper.old.order) }
{
    reap_round(rt, desk, reaper)
}
