//! The lock: it makes itself and its opener, lets passes in, and is closed at the end.
ghost use Rattle.std.specs.Prelude.{◌≡◌, ℕ, ◌<◌, ◌≤◌, [], Some, IfOk, IfErr, OnErr};
ghost use Rattle.turn_lock.specs.Histories.{of, IsLegalSoFar, left_of};
ghost use Rattle.turn_lock.specs.Views.{opener, note_of, looked, granted, entered};
ghost use Rattle.turn_lock.specs.Plays.{HasLeft};
ghost use Rattle.turn_lock.specs.Tokens.{Token, Named, BelongsTo, IsFree, Learns, FindsBusy, Enters, Together};

use crate::bench::Bench;
use crate::openers::Opener;
use crate::passes::{NotePass, Pass};
use crate::turns::{Busy, Turn};
use drmaa_types::Chronicle;
use std::alloc::Global;
use std::marker::Model;
use std::snapshot::Snapshot;
use std::sync::Wait;

/// A value that one pass at a time may use, in the order of tickets. Contracts see which lock it is and the
/// fixed part of the value that it was made with.
pub struct TurnLock<V: Chronicle + Drop> {
    pub(crate) bench: Bench<V>,
}

// By hand, so that how its parts are let go is proved here once, and not again in each crate that lets one go.
impl<V: Chronicle + Drop> Drop for TurnLock<V> {
    fn drop(self) {
        let TurnLock { bench: _ } = self;
    }
}

impl<V: Chronicle + Drop> Model for TurnLock<V> {
    ghost use Rattle.turn_lock.specs.Tokens.{Named};

    ghost Value = { Named V.Fixed };

    ghost view = { λ l. record { lock = l.bench.table.shared.table_id; fixed = V.fixed l.bench.table.shared.key.value } };
}

impl<V: Chronicle + Drop> TurnLock<V> {
    /// A lock over a value whose history is empty, and its opener. `Err` hands the value back: memory ran out.
    pub fn new(alloc: Global, value: V) -> Result<(TurnLock<V>, Opener<V>), V>
        requires { V.entries value ≡ [] }
        ensures lock { IfOk result (λ made. made.0.fixed ≡ V.fixed value) }
        ensures opener { IfOk result (λ made. made.1.view ≡ opener (V.fixed value)) }
        ensures belongs { IfOk result (λ made. BelongsTo made.0 made.1) }
        ensures err { IfErr result (λ back. back ≡ value) }
    {
        let (bench, seat) = Bench::new(alloc, value)?;
        let opener = Opener {
            seat,
            next: 0,
            gone: 0,
        };
        Ok((TurnLock { bench }, opener))
    }

    /// A note of what the pass, which holds no turn, has seen. It takes no memory.
    pub fn note(&self, pass: &mut Pass<V>) -> NotePass<V>
        requires { IsFree self.now pass.old }
        ensures pass { pass.new ≡ pass.old }
        ensures note { result ≡ record { lock = pass.old.lock; view = note_of pass.old.view } }
        ensures belongs { BelongsTo self.now result }
        ensures own { of pass.new.view.seen pass.new.view.number ≡ pass.new.view.mine }
    {
        let seat = self.bench.copy(&mut pass.seat);
        NotePass { seat }
    }

    /// Lets the pass, which holds no turn, know what the note says. What it has then seen is legal, or empty. It takes no memory.
    pub fn learn(&self, pass: &mut Pass<V>, note: NotePass<V>)
        requires pass { IsFree self.now pass.old }
        requires note { BelongsTo self.now note }
        ensures learns { Learns pass.old note pass.new }
        ensures legal { IsLegalSoFar (V.legal self.now.fixed) pass.new.view.seen }
        ensures low { pass.old.view.low ≤ pass.new.view.low }
        ensures free { IsFree self.now pass.new }
    {
        self.bench.learn(&mut pass.seat, note.into_seat());
        self.bench.look(&mut pass.seat);
    }

    /// Waits for the turn. The value's list goes on from what the pass had seen, by entries of others alone, and the pass has then seen it. The list is legal, or empty. It takes no memory.
    pub fn enter<R: Wait>(&self, rt: &R, pass: &mut Pass<V>) -> Turn<V>
        requires { IsFree self.now pass.old }
        ensures enters { Enters V.entries V.fixed self.now pass.old pass.new result }
        ensures view { pass.new.view ≡ entered result.ticket (V.entries result.value) pass.new.view.looks pass.old.view }
        ensures together { Together V.entries V.fixed self.now pass.new result }
        ensures legal { IsLegalSoFar (V.legal self.now.fixed) pass.new.view.seen }
        ensures low { pass.old.view.low ≤ pass.new.view.low }
        ensures looked { pass.old.view.looks < pass.new.view.looks }
    {
        let ticket = self.bench.queue(rt, &mut pass.seat);
        self.bench.wait_turn(rt, &mut pass.seat, ticket);
        let value = self.bench.take(&mut pass.seat);
        Turn {
            value,
            ticket,
            number: pass.number,
            place: Snapshot::of(&pass.seat),
        }
    }

    /// As `enter`, without waiting. `Busy` says that another ticket was drawn that was not served. Each reading of the tickets served is at least the one before. It takes no memory.
    pub fn try_enter(&self, pass: &mut Pass<V>) -> Result<Turn<V>, Busy>
        requires { IsFree self.now pass.old }
        ensures enters { IfOk result (λ turn. Enters V.entries V.fixed self.now pass.old pass.new turn) }
        ensures view { IfOk result (λ turn. pass.new.view ≡ granted turn.ticket (V.entries turn.value) (looked turn.ticket pass.old.view)) }
        ensures together { IfOk result (λ turn. Together V.entries V.fixed self.now pass.new turn) }
        ensures busy { IfErr result (λ busy. FindsBusy pass.old pass.new busy.served busy.drawn) }
        ensures free { OnErr result (IsFree self.now pass.new) }
        ensures own { OnErr result (of pass.new.view.seen pass.new.view.number ≡ pass.new.view.mine) }
        ensures legal { IsLegalSoFar (V.legal self.now.fixed) pass.new.view.seen }
        ensures low { pass.old.view.low ≤ pass.new.view.low }
    {
        let served = self.bench.look(&mut pass.seat);
        let drawn = self.bench.attempt(&mut pass.seat, served);
        if drawn != served {
            return Err(Busy { served, drawn });
        }
        let value = self.bench.take(&mut pass.seat);
        Ok(Turn {
            value,
            ticket: served,
            number: pass.number,
            place: Snapshot::of(&pass.seat),
        })
    }

    /// The value, when every pass is retired: its list begins with what the opener had seen, has for each pass exactly its entries, and has no entry of another number. It is legal, or empty. It takes no memory.
    pub fn close(self, opener: Opener<V>) -> V
        requires belongs { BelongsTo self opener }
        requires none_left { left_of opener.view.retired ≡ 0 }
        ensures { HasLeft V.entries V.fixed V.legal self.fixed opener.view result }
    {
        let TurnLock { bench } = self;
        bench.close(opener.into_seat())
    }
}
