//! A hub: a caller's callbacks follow the history of a shared machine.
ghost use Rattle.std.specs.Prelude.{◌≡◌, ℕ, ◌-◌, ◌^◌, ◌≤◌, min, length, take, None, Some, is_some, IfSome, IfNone, IfOk, IfErr, OnErr};
ghost use Rattle.std.specs.List.{list_any};
ghost use Rattle.drmaa_model.specs.declared.configs.Config.{Config};
ghost use Rattle.drmaa_model.specs.History.{IsLegal};
ghost use Rattle.turn_lock.specs.Histories.{BeginsWith};
ghost use Rattle.turn_lock.specs.Tokens.{IsFree};
ghost use Rattle.call_history.specs.Clients.{seen_of, mine_of, number_of, KnowsItsOwn, SeesMore};
ghost use Rattle.call_history.specs.Clocks.{dial};
ghost use Rattle.call_history.specs.Timed.{StaysTimed};
ghost use Rattle.change_callbacks.specs.Ears.{HaveHeard, EachHeard, silent, from_place, place_at};
ghost use Rattle.notify_hub.specs.Hubs.{Following, noted, IsNoteOf, IsNoteAt, MayBe, FollowsNote, IsHub, with_place, calls_made, LooksOn, IsRegistered, IsUnregistered};
ghost use Rattle.change_callbacks.specs.Places.{changes_of, place_of, AreCountable, HaveHeardAll};
ghost use Rattle.notify_hub.specs.Registered.{IsCounted};

use crate::following::{LOOK, changes_from, place_after, recall, register_next};
use call_history::{Client, Note, SharedMachine};
use change_callbacks::{Callback, Callbacks, Ears};
use drmaa_types::{Clock, Refusal};
use std::alloc::Global;
use std::marker::Model;
use std::sync::Wait;

/// Callbacks that follow the history of a shared machine; one thread at a time uses them. Contracts see the ears, and a note of
/// what the hub's calls have seen, none before the first call. A hub keeps `FollowsNote`: each place given is that of its
/// Register entry in the history of the note, and the changes handed over are the first ones of that history. Each call keeps
/// `HaveHeard`: each callback heard, since the hub was made, exactly those changes from its place on. So the struct has no
/// bound, and a callback may hold a boxed closure.
pub struct Hub<B> {
    ears: Ears<B>,
    handed: u64,
    note: Option<Note>,
}

// By hand, so that how its parts are let go is proved here once, and not again in each crate that lets one go.
impl<B: Drop> Drop for Hub<B> {
    fn drop(self) {
        let Hub {
            ears: _,
            handed: _,
            note: _,
        } = self;
    }
}

impl<B> Model for Hub<B> {
    ghost use Rattle.notify_hub.specs.Hubs.{Following, IsHub};

    ghost Value = { Following B };

    ghost view = { λ h. record { ears = h.ears; note = h.note } };

    ghost invariant = { λ h. IsHub h.ears h.note h.handed };
}

impl<B: Callback> Hub<B> {
    /// A hub of these callbacks: none has a place, nothing was handed over, and no call was made. All of the hub's memory is
    /// taken here; for want of it the callbacks come back.
    pub fn new(alloc: Global, callbacks: Callbacks<B>) -> Result<Hub<B>, Callbacks<B>>
        ensures ok { IfOk result (λ hub. hub ≡ record { ears = silent callbacks; note = None }) }
        ensures heard { IfOk result (λ hub. HaveHeard B.counted B.told hub.ears) }
        ensures err { IfErr result (λ back. back ≡ callbacks) }
    {
        match Ears::new(alloc, callbacks) {
            Ok(ears) => Ok(Hub {
                ears,
                handed: 0,
                note: None,
            }),
            Err(back) => Err(back),
        }
    }

    /// Registers a callback by one entry of the client, after all that this hub's calls and the client had seen, and gives the
    /// number that is answered its place: its callback, if there is one, hears the changes after that entry. It waits for the
    /// client's turns. The hub takes no memory.
    ///
    /// # Errors
    ///
    /// `OutOfResource(callbacks)`, the refusal of the entry, exactly where 64 callbacks are registered. Or, with no entry, want of
    /// memory, or a journal that would be too large. No number has another place then.
    pub fn register<R: Wait, C: Clock>(
        &mut self,
        rt: &R,
        shared: &SharedMachine,
        client: &mut Client,
        clock: &mut C,
    ) -> Result<u32, Refusal>
        requires client { IsFree shared.now client.old }
        requires note { IsNoteOf shared.now self.old.note }
        ensures client { IsFree shared.now client.new }
        ensures number { number_of client.new ≡ number_of client.old }
        ensures begins { BeginsWith (seen_of client.new) (seen_of client.old) }
        ensures recalls { BeginsWith (seen_of client.new) (noted self.old.note) }
        ensures note { IsNoteAt shared.now (seen_of client.new) self.new.note }
        ensures ok { IfOk result (λ n. IsRegistered shared.now.fixed (dial (C.given clock.old) (C.least clock.old)) client.old n
            (dial (C.given clock.new) (C.least clock.new)) client.new) }
        ensures err { IfErr result (λ why. IsUnregistered shared.now.fixed (dial (C.given clock.old) (C.least clock.old)) client.old why
            (dial (C.given clock.new) (C.least clock.new)) client.new) }
        ensures place { IfOk result (λ n. AreCountable shared.now.fixed (seen_of client.new) → self.new.ears ≡ with_place self.old.ears n (place_of shared.now.fixed (seen_of client.new) n)) }
        ensures unplaced { OnErr result (self.new.ears ≡ self.old.ears) }
        ensures follows { FollowsNote self.new.ears self.new.note }
        ensures heard { HaveHeard B.counted B.told self.old.ears → HaveHeard B.counted B.told self.new.ears }
        ensures own { KnowsItsOwn client.new }
        ensures legal { IsLegal shared.now.fixed (seen_of client.new) }
        ensures timed { StaysTimed (mine_of client.old) (C.given clock.old) (mine_of client.new) (C.given clock.new) }
    {
        recall(shared, client, self.note.take());
        match register_next(rt, shared, client, clock) {
            Ok((entry, n)) => {
                let place = place_after(rt, shared, client, clock, entry, self.handed);
                self.note = Some(shared.note(client));
                give_place(&mut self.ears, n, place);
                Ok(n)
            }
            Err(why) => {
                self.note = Some(shared.note(client));
                Err(why)
            }
        }
    }

    /// Hands each callback that has a place the changes from there on that it has not heard, in order, with all that this hub's
    /// calls and the client had seen, until a look finds no further ones. Answers the number of calls, which stays at its
    /// greatest value once it is there. It makes no entry, takes no memory, and waits for the client's turns.
    pub fn pump<R: Wait, C: Clock>(
        &mut self,
        rt: &R,
        shared: &SharedMachine,
        client: &mut Client,
        clock: &mut C,
    ) -> u64
        requires client { IsFree shared.now client.old }
        requires note { IsNoteOf shared.now self.old.note }
        ensures client { IsFree shared.now client.new }
        ensures number { number_of client.new ≡ number_of client.old }
        ensures begins { BeginsWith (seen_of client.new) (seen_of client.old) }
        ensures recalls { BeginsWith (seen_of client.new) (noted self.old.note) }
        ensures note { IsNoteAt shared.now (seen_of client.new) self.new.note }
        ensures mine { mine_of client.new ≡ mine_of client.old }
        ensures more { SeesMore client.old client.new }
        ensures ears { self.new.ears ≡ record self.old.ears { callbacks = self.new.ears.callbacks; handed = self.new.ears.handed } }
        ensures all { AreCountable shared.now.fixed (seen_of client.new) → self.new.ears.handed ≡ changes_of shared.now.fixed (seen_of client.new) }
        ensures follows { FollowsNote self.new.ears self.new.note }
        ensures heard { HaveHeard B.counted B.told self.old.ears → HaveHeard B.counted B.told self.new.ears }
        ensures answer { result ≡ min (calls_made self.new.ears - calls_made self.old.ears) (2 ^ 64 - 1) }
        ensures own { KnowsItsOwn client.new }
        ensures legal { IsLegal shared.now.fixed (seen_of client.new) }
        ensures timed { StaysTimed (mine_of client.old) (C.given clock.old) (mine_of client.new) (C.given clock.new) }
    {
        recall(shared, client, self.note.take());
        let (handed, calls) = hand_all(rt, shared, client, clock, &mut self.ears, self.handed);
        let seen = shared.note(client);
        self.handed = handed;
        self.note = Some(seen);
        calls
    }

    /// Whether any number has a place: else no callback hears anything, whatever changes, until one is registered. It takes no
    /// memory.
    pub fn listens(&self) -> bool
        ensures { result ≡ list_any is_some self.now.ears.places }
    {
        self.ears.listens()
    }

    /// The callbacks, as many as there were, in their order. Each heard, since the hub was made, exactly the changes of the
    /// note's history from its place up to the number handed; and all of what the history has for it, where all was handed over.
    /// It takes no memory.
    pub fn take_back(self) -> Callbacks<B>
        ensures callbacks { result ≡ self.ears.callbacks }
        ensures heard { (config : Config) → MayBe config self.note → HaveHeard B.counted B.told self.ears
            → EachHeard B.counted B.told (from_place (take (length self.ears.handed) (changes_of config (noted self.note)))) self.ears.places self.ears.begun result }
        ensures all { (config : Config) → MayBe config self.note → HaveHeard B.counted B.told self.ears → self.ears.handed ≡ changes_of config (noted self.note)
            → HaveHeardAll B.counted B.told config (noted self.note) self.ears.places self.ears.begun result }
    {
        let Hub {
            ears,
            handed: _,
            note: _,
        } = self;
        ears.take_back()
    }
}

/// Gives a number its place, where that is known.
fn give_place<B: Callback>(ears: &mut Ears<B>, n: u32, place: Option<u64>)
    requires number { (1 ≤ n) × (n ≤ 64) }
    requires unplaced { place_at ears.old.places (n - 1) ≡ None }
    requires ahead { IfSome place (λ place. length ears.old.handed ≤ place) }
    ensures placed { IfSome place (λ place. ears.new ≡ with_place ears.old n (Some place)) }
    ensures unknown { IfNone place (ears.new ≡ ears.old) }
    ensures heard { HaveHeard B.counted B.told ears.old → HaveHeard B.counted B.told ears.new }
{
    let Some(place) = place else {
        return;
    };
    ears.place(n, place);
}

/// Hands over the changes from this place on, the number handed over so far, until a look finds no further ones. Answers how many
/// were handed over then, and how many calls there were.
fn hand_all<R: Wait, C: Clock, B: Callback>(
    rt: &R,
    shared: &SharedMachine,
    client: &mut Client,
    clock: &mut C,
    ears: &mut Ears<B>,
    handed: u64,
) -> (u64, u64)
    requires client { IsFree shared.now client.old }
    requires handed { handed ≡ length ears.old.handed }
    requires begins { BeginsWith (changes_of shared.now.fixed (seen_of client.old)) ears.old.handed }
    ensures looks { LooksOn shared.now (dial (C.given clock.old) (C.least clock.old)) client.old (dial (C.given clock.new) (C.least clock.new)) client.new }
    ensures ears { ears.new ≡ record ears.old { callbacks = ears.new.callbacks; handed = ears.new.handed } }
    ensures handed { result.0 ≡ length ears.new.handed }
    ensures begins { BeginsWith (changes_of shared.now.fixed (seen_of client.new)) ears.new.handed }
    ensures all { AreCountable shared.now.fixed (seen_of client.new) → ears.new.handed ≡ changes_of shared.now.fixed (seen_of client.new) }
    ensures heard { HaveHeard B.counted B.told ears.old → HaveHeard B.counted B.told ears.new }
    ensures answer { result.1 ≡ min (calls_made ears.new - calls_made ears.old) (2 ^ 64 - 1) }
{
    let mut handed = handed;
    let mut calls: u64 = 0;
    for _ in rt.forever() {
        let batch = changes_from(rt, shared, client, clock, handed);
        let changes = batch.as_slice();
        let count = changes.len() as u64;
        let Some(next) = handed.checked_add(count) else {
            return (handed, calls);
        };
        calls = calls.saturating_add(ears.hand(handed, changes));
        handed = next;
        if count < LOOK {
            return (handed, calls);
        }
    }
    unreachable!()
}
