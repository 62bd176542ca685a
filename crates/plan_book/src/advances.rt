//! Time goes on: the four rules of time, over the plan as it is kept. None of it takes memory.
ghost use Rattle.std.specs.Prelude.{◌≡◌, ℕ, ◌≤◌, ◌^◌, false, max, get_or, length};
ghost use Rattle.std.specs.List.{AllByRecursion};
ghost use Rattle.drmaa_types.specs.declared.moments.End.TheVariants.{Never};
ghost use Rattle.drmaa_model.specs.declared.rows.Row.{Row};
ghost use Rattle.drmaa_model.specs.Fit.{IsRising, IsSound, number_of};
ghost use Rattle.drmaa_model.specs.Time.{advance_plan, come_to, let_go, expire, call_in, is_past};
ghost use Rattle.plan_book.specs.Book.{plan_of, HasPlace, HasRoom, spare, spare_orders};
ghost use Rattle.plan_book.specs.Places.{AreSorted};
ghost use Rattle.plan_book.specs.Quiet.{block_of, AreCovered, IsOutside, IsQuiet, IsSpared, LastsUntil};
ghost use Rattle.plan_book.specs.Ties.{let_go_of};

use crate::alarms::first_end;
use crate::book::Book;
use crate::rows::Places;
use crate::time::{cancel_ended, is_past, keep_lasting};
use drmaa_types::{End, Moment};

impl Book {
    fn come_to(&mut self, at: Moment)
        requires room { HasRoom self.old }
        requires sorted { AreSorted self.old.reservations.items }
        ensures plan { plan_of self.new ≡ let_go (come_to at (plan_of self.old)) }
        ensures sorted { AreSorted self.new.reservations.items }
        ensures calendar { self.new.calendar ≡ let_go_of (max self.old.moment at) self.old.reservations.items self.old.calendar }
        ensures room { HasRoom self.new }
        ensures spare { spare self.new ≡ spare self.old }
        ensures spare_orders { spare_orders self.new ≡ spare_orders self.old }
        ensures place { HasPlace self.old → HasPlace self.new }
        ensures seats { self.new.rows.seats ≡ self.old.rows.seats }
        ensures alarm { self.new.alarm ≡ self.old.alarm }
    {
        self.moment = self.moment_at(at);
        cancel_ended(&self.reservations, &mut self.calendar, self.moment);
        keep_lasting(&mut self.reservations, self.moment);
    }

    /// All blocks of jobs.
    pub(crate) fn all_blocks(&self) -> Places
        ensures from { result.from ≡ 0 }
        ensures until { result.until ≡ length self.now.alarm.ends.items }
    {
        Places {
            from: 0,
            until: self.alarm.ends.len(),
        }
    }

    /// The blocks outside of which no end has come by this moment. Before what is soonest there are none.
    pub(crate) fn due_places(&self, moment: Moment) -> Places
        requires quiet { IsQuiet self.now.alarm (plan_of self.now) }
        ensures within { result.until ≤ length self.now.alarm.ends.items }
        ensures outside { (k : ℕ) → IsOutside result k → is_past moment (get_or self.now.alarm.ends.items k Never) ≡ false }
    {
        if is_past(self.alarm.soonest, moment) {
            self.alarm.due_blocks(moment)
        } else {
            Places { from: 0, until: 0 }
        }
    }

    /// Time has come to its moment: the jobs whose time is over end or are asked to end, which are of these blocks, and the alarm is set
    /// anew, where the reservations last until this end.
    pub(crate) fn sweep(&mut self, blocks: Places, lasting: End, entry: u64)
        requires room { HasRoom self.old }
        requires sorted { AreSorted self.old.reservations.items }
        requires rising { IsRising number_of self.old.rows.items }
        requires sound { AllByRecursion (λ (row : Row). IsSound row.wants row.course) self.old.rows.items }
        requires few { length self.old.alarm.ends.items ≤ 2 ^ 58 }
        requires within { blocks.until ≤ length self.old.alarm.ends.items }
        requires covered { AreCovered self.old.alarm.ends.items self.old.rows.items }
        requires outside { AllByRecursion (λ (row : Row). IsOutside blocks (block_of row.job.0) → IsSpared self.old.moment self.old.alarm.ends.items self.old.reservations.items row) self.old.rows.items }
        requires lasting { AllByRecursion (LastsUntil lasting) self.old.reservations.items }
        ensures plan { plan_of self.new ≡ call_in (expire entry (plan_of self.old)) }
        ensures sorted { AreSorted self.new.reservations.items }
        ensures calendar { self.new.calendar ≡ self.old.calendar }
        ensures room { HasRoom self.new }
        ensures spare { spare self.new ≡ spare self.old }
        ensures spare_orders { spare_orders self.new ≡ spare_orders self.old }
        ensures place { HasPlace self.old → HasPlace self.new }
        ensures seats { self.new.rows.seats ≡ self.old.rows.seats }
        ensures quiet { IsQuiet self.new.alarm (plan_of self.new) }
        ensures blocks { length self.new.alarm.ends.items ≡ length self.old.alarm.ends.items }
    {
        self.alarm.open(blocks);
        self.rows.sweep_rows(
            blocks,
            &self.reservations,
            &mut self.changes,
            &mut self.orders,
            &mut self.alarm,
            self.moment,
            entry,
        );
        self.alarm.settle(lasting);
    }

    /// Time goes on. It takes no memory. Before the alarm it looks at no job and no reservation, and where no reservation ends, at the
    /// jobs of those blocks alone of which the end has come, and of those between them.
    pub fn advance(&mut self, at: Moment, entry: u64)
        requires room { HasRoom self.old }
        requires sorted { AreSorted self.old.reservations.items }
        requires rising { IsRising number_of self.old.rows.items }
        requires sound { AllByRecursion (λ (row : Row). IsSound row.wants row.course) self.old.rows.items }
        requires quiet { IsQuiet self.old.alarm (plan_of self.old) }
        ensures plan { plan_of self.new ≡ advance_plan entry at (plan_of self.old) }
        ensures sorted { AreSorted self.new.reservations.items }
        ensures calendar { self.new.calendar ≡ let_go_of (max self.old.moment at) self.old.reservations.items self.old.calendar }
        ensures room { HasRoom self.new }
        ensures spare { spare self.new ≡ spare self.old }
        ensures spare_orders { spare_orders self.new ≡ spare_orders self.old }
        ensures place { HasPlace self.old → HasPlace self.new }
        ensures seats { self.new.rows.seats ≡ self.old.rows.seats }
        ensures quiet { IsQuiet self.new.alarm (plan_of self.new) }
        ensures blocks { length self.new.alarm.ends.items ≡ length self.old.alarm.ends.items }
    {
        let moment = self.moment_at(at);
        if !is_past(self.alarm.soonest, moment) {
            self.moment = moment;
            return;
        }
        if is_past(self.alarm.lasting, moment) {
            self.come_to(at);
            let lasting = first_end(&self.reservations);
            self.sweep(self.all_blocks(), lasting, entry);
        } else {
            self.moment = moment;
            self.sweep(self.due_places(moment), self.alarm.lasting, entry);
        }
    }
}
