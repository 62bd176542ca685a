//! What a search has found that the calendar has no room for: what asks for no less is not looked for again. It takes no memory.
ghost use Rattle.std.specs.Prelude.{◌≡◌, ◌≤◌, true};
ghost use Rattle.drmaa_model.specs.Load.{bound_of, fits};
ghost use Rattle.plan_book.specs.Book.{plan_of, IsBook};
ghost use Rattle.scheduler_core.specs.Demands.{IsBeyond, IsUnmet};
ghost use Rattle.scheduler_core.specs.Launches.{seen};

use drmaa_types::{End, Moment};
use plan_book::Book;

/// So many slots, from the moment of a search to this end.
#[derive(Clone, Copy)]
pub struct Demand {
    pub slots: u32,
    pub until: End,
}

/// Whether the calendar has room for the slots of an ordinary job. Where it has none this is remembered.
pub fn is_met(book: &Book, moment: Moment, demand: Demand, unmet: &mut Option<Demand>) -> bool
    requires book { IsBook book.now }
    requires later { (plan_of book.now).moment ≤ moment }
    requires unmet { IsUnmet moment (plan_of book.now) unmet.old }
    ensures value { result ≡ fits (seen moment (plan_of book.now)) demand.slots moment demand.until }
    ensures unmet { IsUnmet moment (plan_of book.now) unmet.new }
{
    if is_beyond(&*unmet, &demand) {
        return false;
    }
    if has_place(book, moment, &demand) {
        return true;
    }
    *unmet = Some(demand);
    false
}

/// Whether a demand asks for no less than one that is remembered.
fn is_beyond(unmet: &Option<Demand>, demand: &Demand) -> bool
    ensures { result ≡ true → IsBeyond unmet.now demand.now }
{
    match unmet {
        Some(least) => least.slots <= demand.slots && ends_by(least.until, demand.until),
        None => false,
    }
}

/// Whether an end comes no later than another.
fn ends_by(end: End, other: End) -> bool
    ensures { result ≡ true → bound_of end ≤ bound_of other }
{
    match other {
        End::Never => true,
        End::At(other) => is_by(end, other),
    }
}

fn is_by(end: End, moment: Moment) -> bool
    ensures { result ≡ true → bound_of end ≤ bound_of (End.At moment) }
{
    match end {
        End::Never => false,
        End::At(end) => end.number() <= moment.number(),
    }
}

/// Whether the calendar has room.
fn has_place(book: &Book, moment: Moment, demand: &Demand) -> bool
    requires book { IsBook book.now }
    requires later { (plan_of book.now).moment ≤ moment }
    ensures { result ≡ fits (seen moment (plan_of book.now)) demand.now.slots moment demand.now.until }
{
    book.calendar().fits(demand.slots, moment, demand.until)
}
