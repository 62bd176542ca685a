//! Jobs that come in, and ended ones that are forgotten.
ghost use Rattle.std.specs.Prelude.{◌≡◌, ◌≢◌, ◌+◌, ◌^◌, ◌<◌, ◌≤◌, ◌&&◌, ◌++◌, not, true, filter, length, vec_len, vec_capacity, Err, OnOk, OnErr};
ghost use Rattle.std.specs.List.{AllByRecursion};
ghost use Rattle.drmaa_model.specs.declared.rows.Row.{Row};
ghost use Rattle.drmaa_model.specs.Controlling.{reap, is_done};
ghost use Rattle.drmaa_model.specs.Fit.{IsFit, IsRising, number_of};
ghost use Rattle.drmaa_model.specs.Targets.{is_meant};
ghost use Rattle.plan_book.specs.Blocks.{IsInside};
ghost use Rattle.plan_book.specs.Book.{plan_of, HasRoom, IsBook, joined, spare};
ghost use Rattle.plan_book.specs.Occasions.{plan_at, StepsAt};
ghost use Rattle.plan_book.specs.Places.{AreSorted};
ghost use Rattle.plan_book.specs.Quiet.{block_of, AreCovered, IsQuiet};
ghost use Rattle.plan_book.specs.Waiting.{AreWaiting};

use crate::alarms::alarm_rows;
use crate::book::Book;
use crate::occasions::Occasion;
use crate::targets::{is_done, is_meant};
use drmaa_model::{NoEntry, Row, Target};
use std::alloc::AllocError;

impl Book {
    /// Takes jobs in on an occasion. They wait, and have the next numbers; `arrays` says how many array numbers they use.
    ///
    /// # Errors
    ///
    /// A journal that would be too large, and else want of memory. Nothing has changed then.
    pub fn push_rows(
        &mut self,
        occasion: Occasion,
        rows: Vec<Row>,
        arrays: u64,
    ) -> Result<(), NoEntry>
        requires book { IsBook self.old }
        requires few { length rows.items < 2 ^ 32 }
        requires waits { AreWaiting rows.items }
        requires next_job { (plan_of self.old).next_job + length rows.items < 2 ^ 64 }
        requires next_array { (plan_of self.old).next_array + arrays < 2 ^ 64 }
        requires fit { IsFit (joined rows.items arrays (plan_at occasion (plan_of self.old))) }
        ensures meets { StepsAt occasion (joined rows.items arrays) (plan_of self.old) result (plan_of self.new) }
        ensures book { IsBook self.new }
        ensures spare { spare self.old ≤ spare self.new + length rows.items }
        ensures err { OnErr result (spare self.old ≤ spare self.new) }
    {
        occasion.admit(self.weight() + rows.len() as u64)?;
        self.make_seats(lowest_number(self.next_job, &rows[..]), rows.len())?;
        self.advance(occasion.at, occasion.entry);
        self.put_rows(rows, arrays);
        Ok(())
    }

    /// Takes the memory for so many waiting jobs, none of which has a lower number than this one.
    fn make_seats(&mut self, first: u64, n: usize) -> Result<(), AllocError>
        requires room { HasRoom self.old }
        requires few { n < 2 ^ 32 }
        requires next { self.old.next_job + n < 2 ^ 64 }
        ensures plan { plan_of self.new ≡ plan_of self.old }
        ensures calendar { self.new.calendar ≡ self.old.calendar }
        ensures room { HasRoom self.new }
        ensures more { spare self.old ≤ spare self.new }
        ensures first_seat { OnOk result (self.new.rows.seats.from ≤ block_of first) }
        ensures seats { OnOk result (block_of (self.new.next_job + n) < self.new.rows.seats.until) }
        ensures changes { OnOk result (n ≤ spare self.new) }
        ensures blocks { OnOk result (block_of (self.new.next_job + n) < length self.new.alarm.ends.items) }
        ensures quiet { IsQuiet self.old.alarm (plan_of self.old) → IsQuiet self.new.alarm (plan_of self.new) }
    {
        self.changes.reserve(self.rows.owed() + n)?;
        let last = self.next_job + n as u64;
        self.alarm.reach(last)?;
        self.rows.reach(first, last)
    }

    fn put_rows(&mut self, rows: Vec<Row>, arrays: u64)
        requires room { HasRoom self.old }
        requires waits { AreWaiting rows.items }
        requires seats { AllByRecursion (λ (row : Row). IsInside self.old.rows.seats (block_of row.job.0)) rows.items }
        requires rising { IsRising number_of (self.old.rows.items ++ rows.items) }
        requires changes { length rows.items ≤ spare self.old }
        requires next_job { self.old.next_job + length rows.items < 2 ^ 64 }
        requires next_array { self.old.next_array + arrays < 2 ^ 64 }
        requires quiet { IsQuiet self.old.alarm (plan_of self.old) }
        requires covered { AreCovered self.old.alarm.ends.items rows.items }
        requires sorted { AreSorted self.old.reservations.items }
        ensures plan { plan_of self.new ≡ joined rows.items arrays (plan_of self.old) }
        ensures calendar { self.new.calendar ≡ self.old.calendar }
        ensures room { HasRoom self.new }
        ensures spare { spare self.old ≤ spare self.new + length rows.items }
        ensures quiet { IsQuiet self.new.alarm (plan_of self.new) }
    {
        alarm_rows(&mut self.alarm, &self.reservations, &rows);
        self.next_job += rows.len() as u64;
        self.next_array += arrays;
        self.rows.append_rows(rows);
    }

    /// Forgets the ended ones of the jobs that are meant, on an occasion. It takes no memory.
    ///
    /// # Errors
    ///
    /// A journal that would be too large, and else want of memory for the entry. Nothing has changed then.
    pub fn drop_rows(&mut self, occasion: Occasion, target: &Target) -> Result<(), NoEntry>
        requires book { IsBook self.old }
        ensures meets { StepsAt occasion ((reap target.now).effect occasion.entry) (plan_of self.old) result (plan_of self.new) }
        ensures book { IsBook self.new }
        ensures spare { spare self.new ≡ spare self.old }
        ensures memory { occasion.has_memory ≡ true → result ≢ Err NoEntry.OutOfMemory }
    {
        occasion.admit(self.weight())?;
        self.advance(occasion.at, occasion.entry);
        self.rows.drop_done(target);
        Ok(())
    }
}

/// The lowest one of this number and of those of the jobs.
fn lowest_number(next: u64, rows: &[Row]) -> u64
    ensures less { result ≤ next }
    ensures before { AllByRecursion (λ (row : Row). result ≤ row.job.0) rows.now }
{
    let mut first = next;
    for row in rows {
        first = first.min(row.job.0);
    }
    first
}

/// Puts rows behind the others. There is memory for them.
pub fn append_rows(rows: &mut Vec<Row>, more: Vec<Row>)
    requires { vec_len rows.old + vec_len more ≤ vec_capacity rows.old }
    ensures { rows.new.items ≡ rows.old.items ++ more.items }
{
    let mut more = more;
    let appended = rows.append(&mut more);
    prove!(appended.is_ok());
}

/// Whether the job is meant and has ended.
pub fn is_reaped(target: &Target, row: &Row) -> bool
    ensures { result ≡ (is_meant target.now row.now && is_done row.now) }
{
    is_meant(target, row) && is_done(row)
}

/// Forgets the ended ones of the jobs that are meant.
pub fn drop_done(rows: &mut Vec<Row>, target: &Target)
    ensures items { rows.new.items ≡ filter (λ (row : Row). not (is_meant target.now row && is_done row)) rows.old.items }
    ensures capacity { vec_capacity rows.new ≡ vec_capacity rows.old }
{
    rows.retain(|row| !is_reaped(target, row));
}
