//! A turn: the value, for as long as one pass has it.
ghost use Rattle.std.specs.Prelude.{◌≡◌, ℕ, [], ◌∷◌, ◌++◌, Some, IfOk, IfErr, OnErr};
ghost use Rattle.turn_lock.specs.Histories.{of, IsLegalSoFar};
ghost use Rattle.turn_lock.specs.Views.{acted, left};
ghost use Rattle.turn_lock.specs.Tokens.{Token, Named, Held, IsFree, Together, entry_of};

use crate::bench::Place;
use crate::locks::TurnLock;
use crate::passes::Pass;
use drmaa_types::{CallerId, Chronicle};
use std::marker::Model;
use std::snapshot::Snapshot;

/// The turn was not to be had at once: at one moment this many tickets were served, and at a later one more were drawn.
#[derive(Clone, Copy, Debug, PartialEq, Eq)]
pub struct Busy {
    /// The tickets served.
    pub served: u64,
    /// The tickets drawn, read after that.
    pub drawn: u64,
}

/// The value, out of the lock. It has to be spent, by `act` or by `leave`. Contracts see its lock, the number of its pass, its ticket and the value.
pub struct Turn<V: Chronicle> {
    pub(crate) value: V,
    pub(crate) ticket: u64,
    pub(crate) number: u32,
    pub(crate) place: Snapshot<Place<V>>,
}

impl<V: Chronicle> Model for Turn<V> {
    ghost use Rattle.turn_lock.specs.Tokens.{Held};

    ghost Value = { Held V };

    ghost view = { λ t. record { lock = t.place.value.table_id; number = t.number; ticket = t.ticket; value = t.value } };
}

impl<V: Chronicle + Drop> Turn<V> {
    /// The value.
    pub fn value(&self) -> &V
        ensures { result.now ≡ self.now.value }
    {
        &self.value
    }

    /// Asks the value in the pass's name, and gives the turn away. At `Ok` the pass has seen its entry last, and has it among its own.
    pub fn act(
        self,
        lock: &TurnLock<V>,
        pass: &mut Pass<V>,
        ask: V::Ask,
    ) -> Result<V::Answer, V::Fault>
        requires { Together V.entries V.fixed lock.now pass.old self }
        ensures ok { IfOk result (λ answer. pass.new ≡ record {
          lock = pass.old.lock;
          view = left (acted
              (pass.old.view.seen ++ entry_of pass.old.view.number (V.kept ask) answer ∷ [])
              (pass.old.view.mine ++ entry_of pass.old.view.number (V.kept ask) answer ∷ []) pass.old.view);
        }) }
        ensures err { OnErr result (pass.new ≡ record { lock = pass.old.lock; view = left pass.old.view }) }
        ensures fails { IfErr result (V.fails lock.now.fixed pass.old.view.seen (record { 0 = pass.old.view.number }) ask) }
        ensures legal { V.legal lock.now.fixed pass.new.view.seen }
        ensures own { of pass.new.view.seen pass.new.view.number ≡ pass.new.view.mine }
        ensures free { IsFree lock.now pass.new }
    {
        let Turn {
            mut value,
            ticket,
            number,
            place: _,
        } = self;
        match value.act(CallerId(number), ask) {
            Ok(answer) => {
                lock.bench.put(&mut pass.seat, value);
                lock.bench.raise(&mut pass.seat);
                lock.bench.serve(&mut pass.seat, ticket);
                Ok(answer)
            }
            Err(fault) => {
                lock.bench.give_back(&mut pass.seat, value, ticket);
                Err(fault)
            }
        }
    }

    /// Gives the turn away with no entry. It takes no memory.
    pub fn leave(self, lock: &TurnLock<V>, pass: &mut Pass<V>)
        requires { Together V.entries V.fixed lock.now pass.old self }
        ensures pass { pass.new ≡ record { lock = pass.old.lock; view = left pass.old.view } }
        ensures legal { IsLegalSoFar (V.legal lock.now.fixed) pass.new.view.seen }
        ensures own { of pass.new.view.seen pass.new.view.number ≡ pass.new.view.mine }
        ensures free { IsFree lock.now pass.new }
    {
        let Turn {
            value,
            ticket,
            number: _,
            place: _,
        } = self;
        lock.bench.give_back(&mut pass.seat, value, ticket);
    }
}
