//! Passes, each with a number of its own, and notes of what a pass had seen.
ghost use Rattle.std.specs.Prelude.{◌≡◌, ℕ};
ghost use Rattle.turn_lock.specs.Seats.{IsPass, IsNote};

use crate::bench::Place;
use drmaa_types::Chronicle;
use std::marker::Model;

/// A caller's leave to enter the lock. Contracts see its lock, and of its view the number, a beginning
/// of the history that it has seen, and its own entries, which are exactly those of its number in it.
pub struct Pass<V: Chronicle> {
    pub(crate) seat: Place<V>,
    pub(crate) number: u32,
}

// By hand, so that how its parts are let go is proved here once, and not again in each crate that lets one go.
impl<V: Chronicle + Drop> Drop for Pass<V> {
    fn drop(self) {
        let Pass { seat: _, number: _ } = self;
    }
}

impl<V: Chronicle> Model for Pass<V> {
    ghost use Rattle.turn_lock.specs.Tokens.{Token};
    ghost use Rattle.turn_lock.specs.Seats.{IsPass};

    ghost Value = { Token V.Ask V.Answer V.Fixed };

    ghost view = { λ p. record { lock = p.seat.table_id; view = p.seat.me.0 } };

    ghost invariant = { λ p. IsPass p.seat p.number };
}

impl<V: Chronicle> Pass<V> {
    /// The seat of a pass that is given up.
    pub(crate) fn into_seat(self) -> Place<V>
        ensures same { (result.table_id ≡ self.lock) × (result.me.0 ≡ self.view) }
        ensures pass { (number : ℕ) × IsPass result number }
    {
        let Pass { seat, number: _ } = self;
        seat
    }
}

/// What a pass had seen at one time. It takes no memory, and may be kept behind another lock.
pub struct NotePass<V: Chronicle> {
    pub(crate) seat: Place<V>,
}

// By hand, so that how its parts are let go is proved here once, and not again in each crate that lets one go.
impl<V: Chronicle + Drop> Drop for NotePass<V> {
    fn drop(self) {
        let NotePass { seat: _ } = self;
    }
}

impl<V: Chronicle> Model for NotePass<V> {
    ghost use Rattle.turn_lock.specs.Tokens.{Token};
    ghost use Rattle.turn_lock.specs.Seats.{IsNote};

    ghost Value = { Token V.Ask V.Answer V.Fixed };

    ghost view = { λ n. record { lock = n.seat.table_id; view = n.seat.me.0 } };

    ghost invariant = { λ n. IsNote n.seat };
}

impl<V: Chronicle> NotePass<V> {
    /// The seat of a note that is taken in.
    pub(crate) fn into_seat(self) -> Place<V>
        ensures same { (result.table_id ≡ self.lock) × (result.me.0 ≡ self.view) }
        ensures note { IsNote result }
    {
        let NotePass { seat } = self;
        seat
    }
}
