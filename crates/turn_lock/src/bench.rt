//! The table under the lock, with one method for each kind of step that a seat makes.
ghost use Rattle.std.specs.Prelude.{◌≡◌, ◌≢◌, ℕ, ◌+◌, ◌%◌, ◌^◌, ◌<◌, List, [], ◌∷◌, ◌++◌, length, Some, None, IfOk, IfErr};
ghost use Rattle.drmaa_types.specs.declared.chronicles.ChronicleEntry.{ChronicleEntry};
ghost use Rattle.turn_lock.specs.declared.views.Kind.TheVariants.{Opener, Note, Caller};
ghost use Rattle.turn_lock.specs.declared.views.Stage.TheVariants.{Idle, Waiting, Turn};
ghost use Rattle.turn_lock.specs.Views.{opener, hiring, hired, note_of, learning, retiring, waiting, left};
ghost use Rattle.turn_lock.specs.Rule.{greatest, last_ticket};
ghost use Rattle.turn_lock.specs.Histories.{left_of};
ghost use Rattle.turn_lock.specs.Plays.{in_hand, Looks, Awaits, Draws, Tries, Raises, Serves, Arrives, HasLeft, SeesLegal};

use crate::order::Order;
use crate::plays::{Attempt, Await, Copy, Draw, Hire, Learn, Look, Raise, Retire, Serve};
use crate::views::View;
use atomic_table::{Refused, Seat, Table};
use drmaa_types::Chronicle;
use std::alloc::Global;
use std::snapshot::Snapshot;
use std::sync::Wait;

/// What a pass, a note and the opener step with.
pub type Place<V> = Seat<
    Option<V>,
    View<<V as Chronicle>::Ask, <V as Chronicle>::Answer, <V as Chronicle>::Fixed>,
>;

const LENGTH: usize = 0;

const DRAWN: usize = 1;

const SERVED: usize = 2;

const LAST: u64 = u64::MAX - 1;

/// How often a caller looks whether its turn has come before it rests until one is served.
const LOOKS: u32 = 1_000;

/// The words and the slot of one lock.
pub struct Bench<V: Chronicle + Drop> {
    table: Table<Option<V>, View<V::Ask, V::Answer, V::Fixed>, Snapshot<V>, Order<V>, Global>,
    ghost sized: { (table.shared.table_id.words ≡ 3) × (table.shared.table_id.slots ≡ 1) },
}

// By hand, so that how its parts are let go is proved here once, and not again in each crate that lets one go.
impl<V: Chronicle + Drop> Drop for Bench<V> {
    fn drop(self) {
        let Bench { table: _ } = self;
    }
}

impl<V: Chronicle + Drop> Bench<V> {
    /// The value alone, and the opener's seat; at want of memory the value again.
    pub fn new(alloc: Global, value: V) -> Result<(Bench<V>, Place<V>), V>
        requires { V.entries value ≡ [] }
        ensures ok { IfOk result (λ made. (made.1.table_id ≡ made.0.table.shared.table_id) × (made.1.me ≡ (opener (V.fixed value), []))
            × (V.fixed made.0.table.shared.key.value ≡ V.fixed value)) }
        ensures err { IfErr result (λ back. back ≡ value) }
    {
        let Ok(mut slots) = Vec::with_capacity(alloc, 1) else {
            return Err(value);
        };
        let first = Snapshot::of(&value);
        slots.push_reserved(Some(value));
        match Table::new(alloc, &[0, 0, 0], slots, &first) {
            Ok((table, seat)) => Ok((Bench { table }, seat)),
            Err(Refused { slots: mut refused }) => Err(refused.pop().unwrap().unwrap()),
        }
    }

    /// The next pass's seat.
    pub fn hire(&self, seat: &mut Place<V>) -> Place<V>
        requires table { seat.old.table_id ≡ self.now.table.shared.table_id }
        requires kind { seat.old.me.0.kind ≡ Opener }
        ensures same { (seat.new.table_id ≡ seat.old.table_id) × (seat.new.me ≡ (hiring seat.old.me.0, seat.old.me.1)) }
        ensures new { (result.table_id ≡ seat.old.table_id) × (result.me ≡ (hired seat.old.me.0, [])) }
    {
        self.table.shared.split_seat::<Hire>(seat)
    }

    /// A note's seat.
    pub fn copy(&self, seat: &mut Place<V>) -> Place<V>
        requires table { seat.old.table_id ≡ self.now.table.shared.table_id }
        requires kind { seat.old.me.0.kind ≡ Caller }
        ensures same { (seat.new.table_id ≡ seat.old.table_id) × (seat.new.me ≡ (seat.old.me.0, seat.old.me.1)) }
        ensures new { (result.table_id ≡ seat.old.table_id) × (result.me ≡ (note_of seat.old.me.0, [])) }
    {
        self.table.shared.split_seat::<Copy>(seat)
    }

    /// A pass takes in a note.
    pub fn learn(&self, seat: &mut Place<V>, note: Place<V>)
        requires table { (seat.old.table_id ≡ self.now.table.shared.table_id) × (note.table_id ≡ self.now.table.shared.table_id) }
        requires seat { (seat.old.me.0.kind ≡ Caller) × (seat.old.me.0.stage ≡ Idle) }
        requires note { (note.me.0.kind ≡ Note) × (note.me.1 ≡ []) }
        ensures { (seat.new.table_id ≡ seat.old.table_id) × (seat.new.me ≡ (learning seat.old.me.0 note.me.0, seat.old.me.1)) }
    {
        self.table.shared.join_seat::<Learn>(seat, note);
    }

    /// The opener takes a pass back.
    pub fn retire(&self, seat: &mut Place<V>, pass: Place<V>)
        requires table { (seat.old.table_id ≡ self.now.table.shared.table_id) × (pass.table_id ≡ self.now.table.shared.table_id) }
        requires seat { seat.old.me.0.kind ≡ Opener }
        requires pass { (pass.me.0.kind ≡ Caller) × (pass.me.0.stage ≡ Idle) × (pass.me.1 ≡ []) }
        ensures { (seat.new.table_id ≡ seat.old.table_id) × (seat.new.me ≡ (retiring seat.old.me.0 pass.me.0, seat.old.me.1)) }
    {
        self.table.shared.join_seat::<Retire>(seat, pass);
    }

    /// How many tickets are served, read by who waits for none.
    pub fn look(&self, seat: &mut Place<V>) -> u64
        requires { seat.old.table_id ≡ self.now.table.shared.table_id }
        ensures same { seat.new.table_id ≡ seat.old.table_id }
        ensures looks { Looks V.legal seat.old.me result seat.new.me }
    {
        self.table.shared.load::<Look>(seat, SERVED)
    }

    /// How many tickets are served, read by who waits for this one; it has the turn where that is the number.
    pub fn await_turn(&self, seat: &mut Place<V>, ticket: u64) -> u64
        requires table { seat.old.table_id ≡ self.now.table.shared.table_id }
        requires seat { (seat.old.me.0.kind ≡ Caller) × (seat.old.me.0.stage ≡ Waiting ticket) }
        ensures same { seat.new.table_id ≡ seat.old.table_id }
        ensures awaits { Awaits V.entries V.fixed V.legal seat.old.me result seat.new.me }
    {
        let _ = ticket;
        self.table.shared.load::<Await>(seat, SERVED)
    }

    /// Draws this ticket if it is the next, and answers the next at that time.
    pub fn draw(&self, seat: &mut Place<V>, ticket: u64) -> u64
        requires table { seat.old.table_id ≡ self.now.table.shared.table_id }
        requires seat { (seat.old.me.0.kind ≡ Caller) × (seat.old.me.0.stage ≡ Idle) }
        requires room { ticket < greatest }
        ensures same { seat.new.table_id ≡ seat.old.table_id }
        ensures draws { Draws ticket seat.old.me result seat.new.me }
    {
        self.table
            .shared
            .compare_exchange::<Draw>(seat, DRAWN, ticket, ticket + 1)
    }

    /// Draws this ticket if it is the next, and answers the next at that time. It is the one that the seat saw served next, so it has the turn.
    pub fn attempt(&self, seat: &mut Place<V>, ticket: u64) -> u64
        requires table { seat.old.table_id ≡ self.now.table.shared.table_id }
        requires seat { (seat.old.me.0.kind ≡ Caller) × (seat.old.me.0.stage ≡ Idle) }
        requires low { seat.old.me.0.low ≡ ticket }
        requires room { ticket < greatest }
        ensures same { seat.new.table_id ≡ seat.old.table_id }
        ensures tries { Tries V.entries V.fixed V.legal ticket seat.old.me result seat.new.me }
    {
        self.table
            .shared
            .compare_exchange::<Attempt>(seat, DRAWN, ticket, ticket + 1)
    }

    /// Draws a ticket, and answers it. After the last ticket it waits for good.
    pub fn queue<R: Wait>(&self, rt: &R, seat: &mut Place<V>) -> u64
        requires table { seat.old.table_id ≡ self.now.table.shared.table_id }
        requires seat { (seat.old.me.0.kind ≡ Caller) × (seat.old.me.0.stage ≡ Idle) }
        ensures { (seat.new.table_id ≡ seat.old.table_id) × (seat.new.me ≡ (waiting result seat.old.me.0, seat.old.me.1)) }
    {
        for _ in rt.forever() {
            let next = self.table.shared.peek(DRAWN);
            if next == u64::MAX {
                self.table.shared.park(rt, DRAWN, u32::MAX);
            } else if self.draw(seat, next) == next {
                return next;
            }
        }
        unreachable!()
    }

    /// Waits until this ticket has the turn. It looks a while before it rests, since a turn is mostly over sooner than a thread is woken.
    pub fn wait_turn<R: Wait>(&self, rt: &R, seat: &mut Place<V>, ticket: u64)
        requires table { seat.old.table_id ≡ self.now.table.shared.table_id }
        requires seat { (seat.old.me.0.kind ≡ Caller) × (seat.old.me.0.stage ≡ Waiting ticket) }
        ensures same { seat.new.table_id ≡ seat.old.table_id }
        ensures arrives { Arrives V.entries V.fixed V.legal ticket seat.old.me seat.new.me }
    {
        let mut looks = 0;
        for _ in rt.forever() {
            let served = self.await_turn(seat, ticket);
            if served == ticket {
                return;
            }
            if looks < LOOKS {
                looks += 1;
            } else {
                self.table.shared.park(rt, SERVED, low_half(served));
            }
        }
        unreachable!()
    }

    /// Takes the value out of the seat's hand.
    pub fn take(&self, seat: &mut Place<V>) -> V
        requires table { seat.old.table_id ≡ self.now.table.shared.table_id }
        requires hand { (value : V) × (seat.old.me.1 ≡ (0, Some value) ∷ []) }
        ensures same { (seat.new.table_id ≡ seat.old.table_id) × (seat.new.me ≡ (seat.old.me.0, (0, None) ∷ [])) }
        ensures value { seat.old.me.1 ≡ (0, Some result) ∷ [] }
    {
        self.table.shared.exchange(seat, 0, None).unwrap()
    }

    /// Puts the value into the seat's hand again.
    pub fn put(&self, seat: &mut Place<V>, value: V)
        requires table { seat.old.table_id ≡ self.now.table.shared.table_id }
        requires hand { seat.old.me.1 ≡ (0, None) ∷ [] }
        ensures { (seat.new.table_id ≡ seat.old.table_id) × (seat.new.me ≡ (seat.old.me.0, (0, Some value) ∷ [])) }
    {
        drop(self.table.shared.exchange(seat, 0, Some(value)));
    }

    /// Raises the length of the history: the value in hand has one entry more.
    pub fn raise(&self, seat: &mut Place<V>)
        requires table { seat.old.table_id ≡ self.now.table.shared.table_id }
        requires seat { (seat.old.me.0.kind ≡ Caller) × ((t : ℕ) × (seat.old.me.0.stage ≡ Turn t)) }
        requires adds { (entry : ChronicleEntry V.Ask V.Answer) × (in_hand V.entries seat.old.me.1 ≡ seat.old.me.0.seen ++ entry ∷ []) × (entry.caller.0 ≡ seat.old.me.0.number) }
        requires short { length (in_hand V.entries seat.old.me.1) < 2 ^ 64 }
        requires legal { V.legal (V.fixed self.now.table.shared.key.value) (in_hand V.entries seat.old.me.1) }
        ensures same { seat.new.table_id ≡ seat.old.table_id }
        ensures raises { Raises V.entries seat.old.me seat.new.me }
    {
        self.table.shared.fetch_add::<Raise>(seat, LENGTH, 1);
    }

    /// Gives the value back and serves the next ticket, and wakes who waits for it. After the last ticket none is served.
    pub fn serve(&self, seat: &mut Place<V>, ticket: u64)
        requires table { seat.old.table_id ≡ self.now.table.shared.table_id }
        requires seat { (seat.old.me.0.kind ≡ Caller) × (seat.old.me.0.stage ≡ Turn ticket) }
        requires hand { (value : V) × (seat.old.me.1 ≡ (0, Some value) ∷ []) × (V.entries value ≡ seat.old.me.0.seen) × (V.fixed value ≡ V.fixed self.now.table.shared.key.value) }
        ensures same { seat.new.table_id ≡ seat.old.table_id }
        ensures serves { Serves V.legal seat.old.me seat.new.me }
    {
        let step = step_after(ticket);
        self.table.shared.fetch_add::<Serve>(seat, SERVED, step);
        self.table.shared.wake_all(SERVED);
    }

    /// Gives the value, that has the whole history, back with the turn.
    pub fn give_back(&self, seat: &mut Place<V>, value: V, ticket: u64)
        requires table { seat.old.table_id ≡ self.now.table.shared.table_id }
        requires seat { (seat.old.me.0.kind ≡ Caller) × (seat.old.me.0.stage ≡ Turn ticket) }
        requires hand { seat.old.me.1 ≡ (0, None) ∷ [] }
        requires value { (V.entries value ≡ seat.old.me.0.seen) × (V.fixed value ≡ V.fixed self.now.table.shared.key.value) }
        ensures same { (seat.new.table_id ≡ seat.old.table_id) × (seat.new.me ≡ (left seat.old.me.0, [])) }
        ensures sees { SeesLegal V.legal seat.old.me.0 }
    {
        self.put(seat, value);
        self.serve(seat, ticket);
    }

    /// The value, when no pass is out.
    pub fn close(self, seat: Place<V>) -> V
        requires table { seat.table_id ≡ self.table.shared.table_id }
        requires kind { seat.me.0.kind ≡ Opener }
        requires none_left { left_of seat.me.0.retired ≡ 0 }
        ensures { HasLeft V.entries V.fixed V.legal (V.fixed self.table.shared.key.value) seat.me.0 result }
    {
        let Bench { table } = self;
        let mut closed = table.close_with(seat);
        let value = closed.take(0);
        closed.free();
        value.unwrap()
    }
}

/// How far the count of tickets served goes on after this one.
fn step_after(ticket: u64) -> u64
    ensures last { ticket ≡ last_ticket → result ≡ 0 }
    ensures other { ticket ≢ last_ticket → result ≡ 1 }
{
    if ticket == LAST { 0 } else { 1 }
}

/// The low half of a number.
fn low_half(number: u64) -> u32
    ensures { result ≡ number % 2 ^ 32 }
{
    (number % (1 << 32)) as u32
}
