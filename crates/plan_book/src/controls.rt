//! A control call, on one job or on the members of an array: all jobs that it acts on go on in one step, or nothing changes.
ghost use Rattle.std.specs.Prelude.{◌≡◌, ◌≢◌, ◌+◌, ◌^◌, ◌<◌, ◌≤◌, true, false, filter, length, Err, OnOk, OnErr, IsOk};
ghost use Rattle.drmaa_model.specs.Controlling.{control, is_controlled};
ghost use Rattle.drmaa_model.specs.Fit.{IsFit};
ghost use Rattle.drmaa_model.specs.Time.{lasts, rows_at};
ghost use Rattle.drmaa_model.specs.TimeLaws.{timed};
ghost use Rattle.plan_book.specs.Book.{plan_of, HasRoom, IsBook, spare, spare_orders};
ghost use Rattle.plan_book.specs.Occasions.{StepsAt};
ghost use Rattle.plan_book.specs.Places.{AreSorted};
ghost use Rattle.plan_book.specs.Quiet.{IsQuiet};
ghost use Rattle.plan_book.specs.Sweeps.{acted, growth, most_orders, may_add_order};

use crate::book::Book;
use crate::meant::{acted_among, note_among, order_among};
use crate::occasions::Occasion;
use crate::sweeps::is_controlled;
use crate::time::course_at;
use drmaa_model::{Accepted, NoEntry, Row, Target};
use drmaa_types::{Control, Moment};
use std::alloc::AllocError;

impl Book {
    /// Hold, release, suspend, resume or terminate each job that is meant and whose state permits it, on an occasion.
    ///
    /// # Errors
    ///
    /// A journal that would be too large, and else want of memory. Nothing has changed then.
    pub fn control(
        &mut self,
        occasion: Occasion,
        target: &Target,
        what: Control,
    ) -> Result<(), NoEntry>
        requires book { IsBook self.old }
        ensures meets { StepsAt occasion ((control target.now what).effect occasion.entry) (plan_of self.old) result (plan_of self.new) }
        ensures book { IsBook self.new }
        ensures spare { spare self.old ≤ spare self.new + growth what (acted target.now what (rows_at occasion.at (plan_of self.old))) }
        ensures err { OnErr result (spare self.old ≤ spare self.new) }
        ensures memory { occasion.has_memory ≡ true → growth what (acted target.now what (rows_at occasion.at (plan_of self.old))) ≤ spare self.old
            → may_add_order what ≡ false → result ≢ Err NoEntry.OutOfMemory }
    {
        let acted = self.acted(occasion.at, target, what);
        occasion.admit(self.weight() + growth(what, acted) as u64)?;
        self.make_share(growth(what, acted), most_orders(what, acted))?;
        self.advance(occasion.at, occasion.entry);
        self.control_now(occasion.entry, target, what);
        Ok(())
    }

    /// On how many jobs the call will act.
    fn acted(&self, at: Moment, target: &Target, what: Control) -> usize
        requires book { IsBook self.now }
        ensures value { result ≡ acted target.now what (rows_at at (plan_of self.now)) }
        ensures few { result ≤ 4_000_000 }
    {
        acted_among(
            &self.reservations,
            self.meant_rows(*target),
            self.moment_at(at),
            target,
            what,
        )
    }

    /// Takes the memory for so many changes and orders more.
    fn make_share(&mut self, changes: usize, orders: usize) -> Result<(), AllocError>
        requires room { HasRoom self.old }
        requires few_changes { changes < 2 ^ 32 }
        requires few_orders { orders < 2 ^ 32 }
        ensures plan { plan_of self.new ≡ plan_of self.old }
        ensures calendar { self.new.calendar ≡ self.old.calendar }
        ensures room { HasRoom self.new }
        ensures more { spare self.old ≤ spare self.new }
        ensures changes { OnOk result (changes ≤ spare self.new) }
        ensures orders { OnOk result (orders ≤ spare_orders self.new) }
        ensures enough { changes ≤ spare self.old → orders ≤ spare_orders self.old → IsOk result }
        ensures quiet { IsQuiet self.old.alarm (plan_of self.old) → IsQuiet self.new.alarm (plan_of self.new) }
    {
        self.changes.reserve(self.rows.owed() + changes)?;
        self.orders.reserve(self.rows.owed_kills() + orders)
    }

    /// The jobs go on, where there is room for that.
    fn control_now(&mut self, entry: u64, target: &Target, what: Control)
        requires room { HasRoom self.old }
        requires fit { IsFit (plan_of self.old) }
        requires changes { growth what (acted target.now what self.old.rows.items) ≤ spare self.old }
        requires orders { most_orders what (acted target.now what self.old.rows.items) ≤ spare_orders self.old }
        ensures plan { plan_of self.new ≡ (control target.now what).effect entry (plan_of self.old) }
        ensures calendar { self.new.calendar ≡ self.old.calendar }
        ensures room { HasRoom self.new }
        ensures spare { spare self.old ≤ spare self.new + growth what (acted target.now what self.old.rows.items) }
        ensures quiet { IsQuiet self.old.alarm (plan_of self.old) → IsQuiet self.new.alarm (plan_of self.new) }
    {
        note_among(
            self.rows.meant_rows(*target),
            &mut self.changes,
            self.moment,
            entry,
            target,
            what,
        );
        order_among(
            self.rows.meant_rows(*target),
            &mut self.orders,
            target,
            what,
        );
        self.rows.control_rows(self.moment, target, what);
    }
}

fn growth(what: Control, n: usize) -> usize
    ensures value { result ≡ growth what n }
    ensures few { result ≤ n }
{
    match what {
        Control::Suspend | Control::Resume | Control::Hold | Control::Release => n,
        Control::Terminate => 0,
    }
}

fn most_orders(what: Control, n: usize) -> usize
    ensures value { result ≡ most_orders what n }
    ensures few { result ≤ n }
{
    match what {
        Control::Suspend | Control::Resume | Control::Terminate => n,
        Control::Hold | Control::Release => 0,
    }
}

/// On how many of these jobs the call will act, once time has come to this moment.
pub fn acted_then(
    rs: &Vec<Accepted>,
    rows: &[Row],
    moment: Moment,
    target: &Target,
    what: Control,
) -> usize
    requires sorted { AreSorted rs.now.items }
    ensures { result ≡ length (filter (λ row. is_controlled target.now what (timed moment (filter (lasts moment) rs.now.items) row)) rows.now) }
{
    let mut acted = 0;
    for row in rows {
        if is_controlled_then(rs, row, moment, target, what) {
            acted += 1;
        }
    }
    acted
}

/// Whether the call will act on this job, once time has come to this moment.
fn is_controlled_then(
    rs: &Vec<Accepted>,
    row: &Row,
    moment: Moment,
    target: &Target,
    what: Control,
) -> bool
    requires sorted { AreSorted rs.now.items }
    ensures { result ≡ is_controlled target.now what (timed moment (filter (lasts moment) rs.now.items) row.now) }
{
    is_controlled(target, row, &course_at(rs, row, moment), what)
}
