//! The opener gives passes out and takes them back.
ghost use Rattle.std.specs.Prelude.{◌≡◌, ℕ, ◌<◌, ◌≤◌, length, []};
ghost use Rattle.turn_lock.specs.Histories.{of, IsLegalSoFar, left_of};
ghost use Rattle.turn_lock.specs.Seats.{IsOpener};
ghost use Rattle.turn_lock.specs.Views.{hiring, hired};
ghost use Rattle.turn_lock.specs.Tokens.{Token, Named, BelongsTo, IsFree, Retires};

use crate::bench::Place;
use crate::locks::TurnLock;
use crate::passes::Pass;
use drmaa_types::Chronicle;
use std::marker::Model;

/// Who opens the passes of one lock. Contracts see its lock, what it has seen, and the list of its passes by
/// number: none where a pass is out, and its own entries where it was retired. No entry that the opener has
/// seen is of a number that is not yet given.
pub struct Opener<V: Chronicle> {
    pub(crate) seat: Place<V>,
    pub(crate) next: u32,
    pub(crate) gone: u32,
}

// By hand, so that how its parts are let go is proved here once, and not again in each crate that lets one go.
impl<V: Chronicle + Drop> Drop for Opener<V> {
    fn drop(self) {
        let Opener {
            seat: _,
            next: _,
            gone: _,
        } = self;
    }
}

impl<V: Chronicle> Model for Opener<V> {
    ghost use Rattle.turn_lock.specs.Tokens.{Token};
    ghost use Rattle.turn_lock.specs.Seats.{IsOpener};

    ghost Value = { Token V.Ask V.Answer V.Fixed };

    ghost view = { λ o. record { lock = o.seat.table_id; view = o.seat.me.0 } };

    ghost invariant = { λ o. IsOpener o.seat o.next o.gone };
}

impl<V: Chronicle + Drop> Opener<V> {
    /// The next pass. It has seen what the opener has, and has no entries of its own. It takes no memory.
    pub fn open_pass(&mut self, lock: &TurnLock<V>) -> Pass<V>
        requires belongs { BelongsTo lock.now self.old }
        requires room { length self.old.view.retired < 4294967295 }
        ensures opener { self.new ≡ record { lock = self.old.lock; view = hiring self.old.view } }
        ensures pass { result ≡ record { lock = self.old.lock; view = hired self.old.view } }
        ensures belongs { BelongsTo lock.now self.new }
        ensures free { IsFree lock.now result }
        ensures own { of result.view.seen result.view.number ≡ [] }
        ensures clean { (number : ℕ) → length self.new.view.retired ≤ number → of self.new.view.seen number ≡ [] }
    {
        let seat = lock.bench.hire(&mut self.seat);
        let number = self.next;
        self.next += 1;
        Pass { seat, number }
    }

    /// Takes a pass back, that holds no turn. The opener has then seen what the pass had seen, which is legal or empty, and has its entries. It takes no memory.
    pub fn retire(&mut self, lock: &TurnLock<V>, pass: Pass<V>)
        requires belongs { BelongsTo lock.now self.old }
        requires pass { IsFree lock.now pass }
        ensures retires { Retires self.old pass self.new }
        ensures belongs { BelongsTo lock.now self.new }
        ensures legal { IsLegalSoFar (V.legal lock.now.fixed) self.new.view.seen }
        ensures low { self.old.view.low ≤ self.new.view.low }
    {
        lock.bench.retire(&mut self.seat, pass.into_seat());
        lock.bench.look(&mut self.seat);
        self.gone += 1;
    }

    /// The seat of an opener whose lock is closed.
    pub(crate) fn into_seat(self) -> Place<V>
        ensures same { (result.table_id ≡ self.lock) × (result.me.0 ≡ self.view) }
        ensures opener { (next : ℕ) × (gone : ℕ) × IsOpener result next gone }
    {
        let Opener {
            seat,
            next: _,
            gone: _,
        } = self;
        seat
    }

    /// How many passes are open and not retired.
    pub fn left(&self) -> u32
        ensures { result ≡ left_of self.now.view.retired }
    {
        self.next - self.gone
    }
}
