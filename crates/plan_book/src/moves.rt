//! What an operation does to one job.
use crate::rooms::{owes, owes_kill};
use crate::states::is_state;
use drmaa_model::Course;
use drmaa_types::{JobId, SignalKind};
use reservation_calendar::Booking;

/// What becomes of the orders.
#[derive(Clone, Copy)]
pub enum Edit {
    Keep,
    /// One more, for the job.
    Add(SignalKind),
    /// Those for the job go.
    Clear,
    /// The first one for the job of this kind that was not handed out is handed out.
    Take(SignalKind),
    /// The first one for the job of this kind that was handed out goes.
    Drop(SignalKind),
}

/// What becomes of the job's booking in the calendar.
#[derive(Clone, Copy)]
pub enum Booked {
    Same,
    /// It is made.
    Books(Booking),
    /// It goes, where there is one.
    Cancels,
}

/// One job goes on from one course to the next.
#[derive(Clone, Copy)]
pub struct Move {
    pub job: JobId,
    pub home: Option<u64>,
    pub before: Course,
    pub after: Course,
    pub orders: Edit,
    pub booked: Booked,
}

ghost use Rattle.std.specs.Prelude.{◌≡◌, ◌≤◌};
ghost use Rattle.plan_book.specs.Book.{changed, added_orders, grows, more_orders};

impl Move {
    /// How many changes it adds.
    pub fn changed(&self) -> usize
        ensures value { result ≡ changed self.now }
        ensures few { result ≤ 1 }
    {
        if is_state(self.before.state, self.after.state) {
            0
        } else {
            1
        }
    }

    /// How much room for changes it wants beside what is promised.
    pub fn grows(&self) -> usize
        ensures value { result ≡ grows self.now }
        ensures few { result ≤ 3 }
    {
        (owes(&self.after) + self.changed()).saturating_sub(owes(&self.before))
    }

    /// How much room for orders it wants beside what is promised.
    pub fn more_orders(&self) -> usize
        ensures value { result ≡ more_orders self.now }
        ensures few { result ≤ 2 }
    {
        (owes_kill(&self.after) + added_orders(self.orders)).saturating_sub(owes_kill(&self.before))
    }
}

fn added_orders(edit: Edit) -> usize
    ensures value { result ≡ added_orders edit }
    ensures few { result ≤ 1 }
{
    match edit {
        Edit::Add(_) => 1,
        Edit::Keep | Edit::Clear | Edit::Take(_) | Edit::Drop(_) => 0,
    }
}
