//! How a hub's client looks at a machine: for changes from a place on, and for the place of a callback.
ghost use Rattle.std.specs.Prelude.{◌≡◌, ℕ, ◌≤◌, List, length, take, drop, IfOk, IfErr, Ok};
ghost use Rattle.std.specs.List.{prefix_len};
ghost use Rattle.drmaa_types.specs.declared.changes.Change.{Change};
ghost use Rattle.drmaa_model.specs.declared.calls.Call.{Call};
ghost use Rattle.drmaa_model.specs.declared.looks.Answer.{Answer};
ghost use Rattle.drmaa_model.specs.declared.replies.Reply.{Reply};
ghost use Rattle.drmaa_model.specs.History.{IsLegal};
ghost use Rattle.turn_lock.specs.Histories.{BeginsWith};
ghost use Rattle.turn_lock.specs.Tokens.{IsFree};
ghost use Rattle.call_history.specs.Calls.{IsServed};
ghost use Rattle.call_history.specs.Clients.{seen_of, mine_of, number_of, KnowsItsOwn};
ghost use Rattle.call_history.specs.Clocks.{dial};
ghost use Rattle.call_history.specs.Timed.{StaysTimed};
ghost use Rattle.notify_hub.specs.Hubs.{noted, IsNoteOf, LooksOn, IsUnregistered};
ghost use Rattle.change_callbacks.specs.Places.{changes_of, is_up_to};
ghost use Rattle.notify_hub.specs.Registered.{TellsNone, IsNew, IsCounted};

use call_history::{Answer, Call, Client, NoEntry, Note, Question, Reply, SharedMachine};
use drmaa_types::{Change, ChangeBatch, Clock, Refusal};
use std::sync::Wait;

/// The most changes that one look finds.
pub(crate) const LOOK: u64 = 64;

/// Lets the client know what was seen at the note, if there is one. A client knows its own entries: contracts see that where a note
/// is taken of it, and so one is taken first, and let go.
pub(crate) fn recall(shared: &SharedMachine, client: &mut Client, note: Option<Note>)
    requires client { IsFree shared.now client.old }
    requires note { IsNoteOf shared.now note }
    ensures client { IsFree shared.now client.new }
    ensures number { number_of client.new ≡ number_of client.old }
    ensures mine { mine_of client.new ≡ mine_of client.old }
    ensures knew { KnowsItsOwn client.old }
    ensures own { KnowsItsOwn client.new }
    ensures begins { BeginsWith (seen_of client.new) (seen_of client.old) }
    ensures recalled { BeginsWith (seen_of client.new) (noted note) }
    ensures changes { BeginsWith (changes_of shared.now.fixed (seen_of client.new)) (changes_of shared.now.fixed (noted note)) }
{
    shared.note(client);
    let Some(note) = note else {
        return;
    };
    shared.learn(client, note);
}

/// The changes from a place on, counted from 0, after all that the client has seen; at most 64 of them.
pub(crate) fn changes_from<R: Wait, C: Clock>(
    rt: &R,
    shared: &SharedMachine,
    client: &mut Client,
    clock: &mut C,
    from: u64,
) -> ChangeBatch
    requires { IsFree shared.now client.old }
    ensures looks { LooksOn shared.now (dial (C.given clock.old) (C.least clock.old)) client.old (dial (C.given clock.new) (C.least clock.new)) client.new }
    ensures batch { result ≡ take 64 (drop from (changes_of shared.now.fixed (seen_of client.new))) }
{
    let answer = shared.look(rt, client, clock, Question::Changes { from });
    batch_in(answer)
}

/// The changes that an answer tells, if it tells some.
fn batch_in(answer: Answer) -> ChangeBatch
    ensures { (batch : List Change) → answer ≡ Answer.Changes batch → result ≡ batch }
{
    match answer {
        Answer::Changes(batch) => batch,
        other => {
            drop(other);
            ChangeBatch::new()
        }
    }
}

/// How many changes at the front are of this entry or of earlier ones.
fn count_up_to(changes: &[Change], entry: u64) -> usize
    ensures { result ≡ prefix_len (is_up_to entry) changes.now }
{
    changes
        .iter()
        .take_while(|change| change.entry <= entry)
        .count()
}

/// How many changes there were right after an entry, which is the last one that the client has seen. They are counted by looks,
/// from a place on that is not behind them. None where a number of 64 bits does not tell how many there are.
pub(crate) fn place_after<R: Wait, C: Clock>(
    rt: &R,
    shared: &SharedMachine,
    client: &mut Client,
    clock: &mut C,
    entry: u64,
    from: u64,
) -> Option<u64>
    requires client { IsFree shared.now client.old }
    requires entry { entry ≡ length (seen_of client.old) }
    requires from { from ≤ length (changes_of shared.now.fixed (seen_of client.old)) }
    ensures looks { LooksOn shared.now (dial (C.given clock.old) (C.least clock.old)) client.old (dial (C.given clock.new) (C.least clock.new)) client.new }
    ensures counted { IsCounted shared.now.fixed (length (changes_of shared.now.fixed (seen_of client.old))) (seen_of client.new) result }
{
    let mut place = from;
    for _ in rt.forever() {
        let batch = changes_from(rt, shared, client, clock, place);
        let count = count_up_to(batch.as_slice(), entry) as u64;
        let Some(next) = place.checked_add(count) else {
            return None;
        };
        if count < LOOK {
            return Some(next);
        }
        place = next;
    }
    unreachable!()
}

/// What a Register is told: the number of its entry, and of the callback.
fn told(made: Result<(u64, Reply), NoEntry>) -> Result<(u64, u32), Refusal>
    ensures ok { IfOk result (λ told. made ≡ Ok (told.0, Reply.Callback told.1)) }
    ensures err { IfErr result (λ why. TellsNone made why) }
{
    match &made {
        Ok((entry, Reply::Callback(n))) => Ok((*entry, *n)),
        Ok((_, Reply::Refused(why))) => Err(*why),
        Ok(_) => Err(Refusal::OutOfMemory),
        Err(fault) => Err(Refusal::from(*fault)),
    }
}

/// Registers the next callback: the number of its entry, and its own.
///
/// # Errors
///
/// `OutOfResource(callbacks)` where 64 are registered; or, with no entry, want of memory, or a journal that would be too large.
pub(crate) fn register_next<R: Wait, C: Clock>(
    rt: &R,
    shared: &SharedMachine,
    client: &mut Client,
    clock: &mut C,
) -> Result<(u64, u32), Refusal>
    requires { IsFree shared.now client.old }
    ensures client { IsFree shared.now client.new }
    ensures number { number_of client.new ≡ number_of client.old }
    ensures begins { BeginsWith (seen_of client.new) (seen_of client.old) }
    ensures ok { IfOk result (λ told. IsServed (dial (C.given clock.old) (C.least clock.old)) client.old Call.Register (Reply.Callback told.1)
        (dial (C.given clock.new) (C.least clock.new)) client.new) }
    ensures entry { IfOk result (λ told. told.0 ≡ length (seen_of client.new)) }
    ensures new { IfOk result (λ told. IsNew shared.now.fixed (seen_of client.old) told.1 (seen_of client.new)) }
    ensures err { IfErr result (λ why. IsUnregistered shared.now.fixed (dial (C.given clock.old) (C.least clock.old)) client.old why
        (dial (C.given clock.new) (C.least clock.new)) client.new) }
    ensures own { KnowsItsOwn client.new }
    ensures legal { IsLegal shared.now.fixed (seen_of client.new) }
    ensures timed { StaysTimed (mine_of client.old) (C.given clock.old) (mine_of client.new) (C.given clock.new) }
{
    told(shared.call_numbered(rt, client, clock, Call::Register))
}
