//! The signal that is delivered next. It takes no memory.
ghost use Rattle.std.specs.Prelude.{◌≡◌, ◌≢◌, ◌≤◌, find, true, Err};
ghost use Rattle.std.specs.Option.{option_map};
ghost use Rattle.drmaa_model.specs.Launching.{is_alive, is_due_now, next_signal, signal};
ghost use Rattle.drmaa_model.specs.Time.{advance_plan, rows_at, kill_order};
ghost use Rattle.plan_book.specs.Blocks.{rows_in};
ghost use Rattle.plan_book.specs.Book.{plan_of, IsBook};
ghost use Rattle.plan_book.specs.Occasions.{plan_at, StepsAt};
ghost use Rattle.scheduler_core.specs.Signals.{IsNext, IsNextIn, is_killed, signal_for, take_move};

use crate::cores::Core;
use drmaa_model::{NoEntry, Order, Phase, Row, Signal};
use drmaa_types::{Moment, SignalKind};
use plan_book::courses::is_unasked;
use plan_book::{Book, Booked, Edit, Facts, Move, Occasion};

/// The order that is delivered next, and what is known of its job then.
#[derive(Clone, Copy)]
pub struct NextSignal {
    pub order: Order,
    pub facts: Facts,
}

impl NextSignal {
    /// What is handed out.
    pub fn signal(&self) -> Signal
        ensures { result ≡ signal_for self.now }
    {
        Signal {
            job: self.order.job,
            attempt: self.facts.course.attempt,
            kind: self.order.kind,
        }
    }
}

impl Core {
    /// The signal that would be handed out at this moment, if there is one: the first in order of asking that was not handed out and
    /// whose job has a process. It takes no memory.
    pub fn next_signal(&self, at: Moment) -> Option<NextSignal>
        ensures next { IsNextIn (advance_plan 0 at self.now.plan) result }
        ensures told { option_map signal_for result ≡ signal.told (advance_plan 0 at self.now.plan) }
    {
        next_of(&self.book, at)
    }

    /// Hands out the signal that is next. It takes no memory.
    ///
    /// # Errors
    ///
    /// A journal that would be too large, and else want of memory for the entry. Nothing has changed then.
    pub fn take_signal(&mut self, occasion: Occasion, next: &NextSignal) -> Result<(), NoEntry>
        requires next { IsNext (plan_at occasion self.old.plan) next.now }
        ensures meets { StepsAt occasion (signal.effect occasion.entry) self.old.plan result self.new.plan }
        ensures spare { self.old.spare ≤ self.new.spare }
        ensures memory { occasion.has_memory ≡ true → result ≢ Err NoEntry.OutOfMemory }
    {
        let m = take_move(next);
        self.book.make(occasion, &m)
    }
}

/// The order that is next once time has come to this moment, with what is known of its job then.
fn next_of(book: &Book, at: Moment) -> Option<NextSignal>
    requires book { IsBook book.now }
    ensures { IsNextIn (advance_plan 0 at (plan_of book.now)) result }
{
    let Some(order) = next_order(book, at) else {
        return None;
    };
    match book.facts_at(at, order.job) {
        Some(facts) => Some(NextSignal { order, facts }),
        None => None,
    }
}

/// The first order that can be delivered: the orders that are asked stand before those that time asks on its way to this
/// moment.
fn next_order(book: &Book, at: Moment) -> Option<Order>
    requires book { IsBook book.now }
    ensures { result ≡ next_signal (advance_plan 0 at (plan_of book.now)) }
{
    match asked_order(book, at) {
        Some(order) => Some(order),
        None => kill_due(book, at),
    }
}

/// The first of the orders that are asked that can be delivered.
fn asked_order(book: &Book, at: Moment) -> Option<Order>
    requires book { IsBook book.now }
    ensures { result ≡ find (is_due_now (rows_at at (plan_of book.now))) book.now.orders.items }
{
    for order in &book.orders {
        if is_due_now(book, at, order) {
            return Some(*order);
        }
    }
    None
}

/// Whether the order was not handed out, and its job will have a process.
fn is_due_now(book: &Book, at: Moment, order: &Order) -> bool
    requires book { IsBook book.now }
    ensures { result ≡ is_due_now (rows_at at (plan_of book.now)) order.now }
{
    if order.taken {
        return false;
    }
    match book.facts_at(at, order.job) {
        Some(facts) => is_alive(facts.course.phase),
        None => false,
    }
}

fn is_alive(phase: Phase) -> bool
    ensures { result ≡ is_alive phase }
{
    match phase {
        Phase::Idle => false,
        Phase::Launching => false,
        Phase::Alive => true,
    }
}

/// The first of the kills that time asks on its way to this moment that can be delivered. It looks at the blocks of jobs alone from the
/// first to the last on which time may act by then.
fn kill_due(book: &Book, at: Moment) -> Option<Order>
    requires book { IsBook book.now }
    ensures { result ≡ option_map kill_order (find (is_killed at (plan_of book.now)) book.now.rows.items) }
{
    kill_in_blocks(book, at, book.due_blocks(at))
}

/// The first of those of the jobs of these blocks.
fn kill_in_blocks(book: &Book, at: Moment, blocks: &[Vec<Row>]) -> Option<Order>
    requires book { IsBook book.now }
    ensures { result ≡ option_map kill_order (find (is_killed at (plan_of book.now)) (rows_in blocks.now)) }
{
    for block in blocks {
        if let Some(kill) = kill_among(book, at, &block[..]) {
            return Some(kill);
        }
    }
    None
}

/// The first of those of these jobs.
fn kill_among(book: &Book, at: Moment, rows: &[Row]) -> Option<Order>
    requires book { IsBook book.now }
    ensures { result ≡ option_map kill_order (find (is_killed at (plan_of book.now)) rows.now) }
{
    for row in rows {
        if is_killed(book, at, row) {
            return Some(kill_order(row));
        }
    }
    None
}

/// Whether time asks for a kill of the job, which has a process.
fn is_killed(book: &Book, at: Moment, row: &Row) -> bool
    requires book { IsBook book.now }
    ensures { result ≡ is_killed at (plan_of book.now) row.now }
{
    if !is_alive(row.course.phase) {
        return false;
    }
    let then = book.course_at(at, row);
    is_unasked(row.course.kill) && (!is_unasked(then.kill) && is_alive(then.phase))
}

fn kill_order(row: &Row) -> Order
    ensures { result ≡ kill_order row.now }
{
    Order {
        job: row.job,
        kind: SignalKind::Kill,
        taken: false,
    }
}

/// The order is handed out, and its job stays as it is.
fn take_move(next: &NextSignal) -> Move
    ensures { result ≡ take_move next.now }
{
    Move {
        job: next.facts.job,
        home: next.facts.home,
        before: next.facts.course,
        after: next.facts.course,
        orders: Edit::Take(next.order.kind),
        booked: Booked::Same,
    }
}
