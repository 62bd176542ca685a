//! What each step of the lock tells. These types are for the proofs alone.
ghost use Rattle.turn_lock.specs.Views.{hiring, hired, note_of, learning, retiring, spent};
ghost use Rattle.turn_lock.specs.Plays.{Looks, Awaits, Draws, Tries, Raises, Serves};

use crate::views::View;
use atomic_table::{Join, Play, Split};
use drmaa_types::Chronicle;

/// A reading of the tickets served, by a seat that waits for none.
pub struct Look;

impl<V: Chronicle> Play<Option<V>, View<V::Ask, V::Answer, V::Fixed>> for Look {
    ghost then = { λ s m n w. Looks V.legal m n w };
}

/// A reading of the tickets served, by a seat that waits for its turn.
pub struct Await;

impl<V: Chronicle> Play<Option<V>, View<V::Ask, V::Answer, V::Fixed>> for Await {
    ghost then = { λ s m n w. Awaits V.entries V.fixed V.legal m n w };
}

/// A try to draw the next ticket, by a seat that will wait.
pub struct Draw;

impl<V: Chronicle> Play<Option<V>, View<V::Ask, V::Answer, V::Fixed>> for Draw {
    ghost then = { λ s m n w. Draws s.first m n w };
}

/// A try to draw the next ticket and to have the turn at once.
pub struct Attempt;

impl<V: Chronicle> Play<Option<V>, View<V::Ask, V::Answer, V::Fixed>> for Attempt {
    ghost then = { λ s m n w. Tries V.entries V.fixed V.legal s.first m n w };
}

/// The length of the history rises to that of the value in hand.
pub struct Raise;

impl<V: Chronicle> Play<Option<V>, View<V::Ask, V::Answer, V::Fixed>> for Raise {
    ghost then = { λ s m n w. Raises V.entries m w };
}

/// The turn goes to the next ticket, and the value goes back.
pub struct Serve;

impl<V: Chronicle> Play<Option<V>, View<V::Ask, V::Answer, V::Fixed>> for Serve {
    ghost then = { λ s m n w. Serves V.legal m w };
}

/// The opener opens a pass.
pub struct Hire;

impl<Ask, Answer, Fixed> Split<View<Ask, Answer, Fixed>> for Hire {
    ghost left = { hiring };

    ghost right = { hired };
}

/// A pass makes a note of what it has seen.
pub struct Copy;

impl<Ask, Answer, Fixed> Split<View<Ask, Answer, Fixed>> for Copy {
    ghost left = { λ v. v };

    ghost right = { note_of };
}

/// A pass takes in a note.
pub struct Learn;

impl<Ask, Answer, Fixed> Join<View<Ask, Answer, Fixed>> for Learn {
    ghost both = { learning };

    ghost spent = { spent };
}

/// The opener takes a pass back.
pub struct Retire;

impl<Ask, Answer, Fixed> Join<View<Ask, Answer, Fixed>> for Retire {
    ghost both = { retiring };

    ghost spent = { spent };
}
