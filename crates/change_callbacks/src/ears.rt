//! Ears: a caller's callbacks with their places, and what each of them heard.
ghost use Rattle.std.specs.Prelude.{◌≡◌, ℕ, ◌+◌, ◌-◌, ◌≤◌, List, ◌++◌, length, slice_set, Some, None, is_some, IfOk, IfErr};
ghost use Rattle.std.specs.List.{list_any};
ghost use Rattle.drmaa_model.specs.declared.configs.Config.{Config};
ghost use Rattle.drmaa_model.specs.declared.entries.Entry.{Entry};
ghost use Rattle.change_callbacks.specs.Ears.{Listening, HaveHeard, EachHeard, silent, place_at, from_place, due, calls_for};
ghost use Rattle.change_callbacks.specs.Places.{changes_of, HaveHeardAll};

use crate::handed::Handed;
use crate::handing::tell_all;
use crate::{Callback, Callbacks};
use drmaa_types::Change;
use std::alloc::Global;
use std::marker::Model;
use std::snapshot::Snapshot;

/// How many numbers there are.
const NUMBERS: usize = 64;

/// Callbacks, the places from which they hear, and the number of changes that they were handed. Contracts
/// see the callbacks as they were at first and as they are, the places, and the changes handed over.
/// Each call keeps `HaveHeard`: each callback heard, since the ears were made, exactly the changes from its
/// place up to the number handed. The struct has no bound, so that a callback may hold a boxed closure.
pub struct Ears<B> {
    begun: Snapshot<Callbacks<B>>,
    callbacks: Vec<B>,
    places: Vec<Option<u64>>,
    /// Whether any number has a place.
    is_any_placed: bool,
    handed: Handed,
}

// By hand, so that how its parts are let go is proved here once, and not again in each crate that lets one go.
impl<B: Drop> Drop for Ears<B> {
    fn drop(self) {
        let Ears {
            begun: _,
            callbacks: _,
            places: _,
            is_any_placed: _,
            handed: _,
        } = self;
    }
}

impl<B> Model for Ears<B> {
    ghost use Rattle.std.specs.Prelude.{◌≡◌, is_some, vec_len};
    ghost use Rattle.std.specs.List.{list_any};
    ghost use Rattle.change_callbacks.specs.Ears.{Listening};

    ghost Value = { Listening B };

    ghost view = { λ e. record {
      begun = e.begun.value;
      callbacks = e.callbacks.items;
      places = e.places.items;
      handed = e.handed.changes;
    } };

    ghost invariant = { λ e. (vec_len e.places ≡ 64) × (e.is_any_placed ≡ list_any is_some e.places.items) };
}

impl<B: Callback> Ears<B> {
    /// Ears of these callbacks: no number has a place yet, and nothing was handed over. All of the
    /// ears' memory is taken here; for want of it the callbacks come back.
    pub fn new(alloc: Global, callbacks: Callbacks<B>) -> Result<Ears<B>, Callbacks<B>>
        ensures ok { IfOk result (λ ears. ears ≡ silent callbacks) }
        ensures heard { IfOk result (HaveHeard B.counted B.told) }
        ensures err { IfErr result (λ back. back ≡ callbacks) }
    {
        let Ok(places) = Vec::from_array(alloc, [None; NUMBERS]) else {
            return Err(callbacks);
        };
        let begun = Snapshot::of(&callbacks);
        Ok(Ears {
            begun,
            callbacks: callbacks.into_vec(),
            places,
            is_any_placed: false,
            handed: Handed::nothing(),
        })
    }

    /// Gives a number its place: its callback, if there is one, hears the changes from there on, counted
    /// from 0. A number without a callback is kept and hears nothing. It takes no memory.
    pub fn place(&mut self, n: u32, place: u64)
        requires number { (1 ≤ n) × (n ≤ 64) }
        requires unplaced { place_at self.old.places (n - 1) ≡ None }
        requires ahead { length self.old.handed ≤ place }
        ensures placed { self.new ≡ record self.old { places = slice_set self.old.places (n - 1) (Some place) } }
        ensures heard { HaveHeard B.counted B.told self.old → HaveHeard B.counted B.told self.new }
    {
        self.places[n as usize - 1] = Some(place);
        self.is_any_placed = true;
    }

    /// Whether any number has a place. It takes no memory.
    pub fn listens(&self) -> bool
        ensures { result ≡ list_any is_some self.now.places }
    {
        self.is_any_placed
    }

    /// Hands over at most 64 changes, of which the first has the place `from`, the number of changes
    /// handed over so far. Each placed callback hears those that stand at its place or later, in
    /// order. Answers the number of calls. It takes no memory.
    pub fn hand(&mut self, from: u64, changes: &[Change]) -> u64
        requires from { from ≡ length self.old.handed }
        requires few { length changes.now ≤ 64 }
        ensures handed { self.new ≡ record self.old { callbacks = self.new.callbacks; handed = self.old.handed ++ changes.now } }
        ensures hears { EachHeard B.counted B.told (due from changes.now) self.old.places self.old.callbacks self.new.callbacks }
        ensures heard { HaveHeard B.counted B.told self.old → HaveHeard B.counted B.told self.new }
        ensures answer { result ≡ calls_for self.old from changes.now }
    {
        let calls = tell_all(
            &mut self.callbacks,
            &self.places,
            self.is_any_placed,
            from,
            changes,
        );
        self.handed.follow(changes);
        calls
    }

    /// The callbacks, as many as there were, in their order. Where all changes of a history were handed over, each callback whose
    /// place is that of its Register entry heard exactly what the history has for it. It takes no memory.
    pub fn take_back(self) -> Callbacks<B>
        ensures callbacks { result ≡ self.callbacks }
        ensures heard { HaveHeard B.counted B.told self → EachHeard B.counted B.told (from_place self.handed) self.places self.begun result }
        ensures all { (config : Config) (history : List Entry) → HaveHeard B.counted B.told self → self.handed ≡ changes_of config history
            → HaveHeardAll B.counted B.told config history self.places self.begun result }
    {
        let Ears {
            begun: _,
            callbacks,
            places: _,
            is_any_placed: _,
            handed: _,
        } = self;
        Callbacks::from_vec(callbacks)
    }
}
