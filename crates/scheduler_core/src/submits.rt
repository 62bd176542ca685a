//! The submission of a job, or of an array of jobs.
ghost use Rattle.std.specs.Prelude.{◌≡◌, ◌≢◌, ◌≤◌, ◌+◌, ◌*◌, ◌⊎◌, [], None, IsSome, true, Err, IfOk, OnErr};
ghost use Rattle.drmaa_types.specs.Refusals.{first_refusal};
ghost use Rattle.drmaa_model.specs.Submitting.{array_number, arrays_used, bulk_tests, submit};
ghost use Rattle.drmaa_model.specs.Time.{advance_plan};
ghost use Rattle.plan_book.specs.Book.{plan_of, spare, IsBook};
ghost use Rattle.plan_book.specs.Occasions.{plan_at, IsUnsized, MeetsAt};
ghost use Rattle.scheduler_core.specs.Batches.{plan_in, told_of};
ghost use Rattle.scheduler_core.specs.Early.{job_count, early_tests};

use crate::batches::{Batch, Unmade, batch_of, rows_of};
use crate::bulks::job_count;
use crate::cores::Core;
use crate::refusals::refusal_of;
use drmaa_model::{Indices, NoEntry, Submitted};
use drmaa_types::{ArrayId, JobId, Limit, Refusal};
use job_template::JobTemplate;
use plan_book::{Book, Occasion};
use std::alloc::Global;

impl Core {
    /// Submits a job, or with `indices` an array of jobs, for the named session of the number `home`. The jobs have consecutive
    /// numbers, the next ones.
    ///
    /// # Errors
    ///
    /// A refusal, the first of these that holds: what is wrong with the indices, then with the template, then with the reservation that
    /// it names; `OutOfResource(Jobs)` where more than 100,000 jobs would be kept; `OutOfResource(KeptText)` where the templates of all
    /// kept jobs would have more than 67,108,864 bytes, a byte more counted for each text.
    ///
    /// No entry: where none of these but the last holds, want of memory for the jobs, which are made before it is known whether the
    /// journal has room for them; a journal that would be too large; and else want of memory, for the entry, or for what the call
    /// changes where it is not refused.
    pub fn submit(
        &mut self,
        occasion: Occasion,
        home: u64,
        template: JobTemplate,
        indices: Option<Indices>,
    ) -> Result<Result<Submitted, Refusal>, NoEntry>
        requires jobs { self.old.plan.next_job ≤ 10_000 * occasion.entry }
        requires arrays { self.old.plan.next_array ≤ occasion.entry }
        ensures meets { MeetsAt occasion (submit home template indices) self.old.plan result self.new.plan ⊎ IsUnsized self.old.plan result self.new.plan }
        ensures early { IsSome (first_refusal (early_tests template indices (plan_at occasion self.old.plan)))
            → MeetsAt occasion (submit home template indices) self.old.plan result self.new.plan }
        ensures spare { self.old.spare ≤ self.new.spare + job_count indices }
        ensures err { OnErr result (self.old.spare ≤ self.new.spare) }
        ensures denied { IfOk result (λ answer. OnErr answer (self.old.spare ≤ self.new.spare)) }
        ensures memory { occasion.has_memory ≡ true → IsSome (first_refusal (early_tests template indices (plan_at occasion self.old.plan)))
            → result ≢ Err NoEntry.OutOfMemory }
    {
        match refusal_of(&self.book, occasion.at, &template, indices) {
            Some(why) => self.book.refuse(occasion, why),
            None => admit(
                &mut self.book,
                self.alloc,
                occasion,
                home,
                template,
                indices,
            ),
        }
    }
}

/// Submits where no reason but the text of the members speaks against it.
fn admit(
    book: &mut Book,
    alloc: Global,
    occasion: Occasion,
    home: u64,
    template: JobTemplate,
    indices: Option<Indices>,
) -> Result<Result<Submitted, Refusal>, NoEntry>
    requires book { IsBook book.old }
    requires jobs { (plan_of book.old).next_job ≤ 10_000 * occasion.entry }
    requires arrays { (plan_of book.old).next_array ≤ occasion.entry }
    requires free { first_refusal (early_tests template indices (advance_plan 0 occasion.at (plan_of book.old))) ≡ None }
    ensures meets { MeetsAt occasion (submit home template indices) (plan_of book.old) result (plan_of book.new) ⊎ IsUnsized (plan_of book.old) result (plan_of book.new) }
    ensures book { IsBook book.new }
    ensures spare { spare book.old ≤ spare book.new + job_count indices }
    ensures err { OnErr result (spare book.old ≤ spare book.new) }
    ensures denied { IfOk result (λ answer. OnErr answer (spare book.old ≤ spare book.new)) }
{
    let batch = batch_of(book, occasion.at, home);
    match rows_of(book, alloc, &batch, template, indices) {
        Ok(rows) => match book.push_rows(occasion, rows, arrays_used(indices)) {
            Ok(()) => Ok(Ok(told_of(&batch, indices))),
            Err(fault) => Err(fault),
        },
        Err(Unmade::OutOfMemory) => Err(NoEntry::OutOfMemory),
        Err(Unmade::TooMuchText) => {
            book.refuse(occasion, Refusal::OutOfResource(Limit::KeptText))
        }
    }
}

/// How many array numbers are used.
fn arrays_used(indices: Option<Indices>) -> u64
    ensures { result ≡ arrays_used indices }
{
    match indices {
        None => 0,
        Some(_) => 1,
    }
}

/// What is answered to a submission.
fn told_of(b: &Batch, indices: Option<Indices>) -> Submitted
    requires { first_refusal (bulk_tests indices) ≡ None }
    ensures { result ≡ told_of b.now indices }
{
    Submitted {
        array: array_of(b, indices),
        first: JobId(b.first),
        count: job_count(indices),
    }
}

/// The number of the array, where one is asked for.
fn array_of(b: &Batch, indices: Option<Indices>) -> Option<ArrayId>
    ensures { result ≡ array_number indices (plan_in [] b.now) }
{
    match indices {
        None => None,
        Some(_) => Some(ArrayId(b.array)),
    }
}
