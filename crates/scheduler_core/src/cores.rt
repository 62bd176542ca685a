//! The core of the scheduler, as the machine sees it.
ghost use Rattle.std.specs.Prelude.{◌≡◌, ◌≤◌, IfOk, IfErr, OnOk, true};
ghost use Rattle.std.specs.Option.{option_map, option_and_then, option_copied};
ghost use Rattle.drmaa_types.specs.Queues.{are_queues};
ghost use Rattle.drmaa_model.specs.declared.rows.Row.{Row};
ghost use Rattle.drmaa_model.specs.NextLaunch.{held};
ghost use Rattle.drmaa_model.specs.Fit.{IsFit};
ghost use Rattle.drmaa_model.specs.Plan.{opening_plan};
ghost use Rattle.drmaa_model.specs.Effects.{forget_home};
ghost use Rattle.drmaa_model.specs.Homes.{is_same_home};
ghost use Rattle.drmaa_model.specs.Load.{first_overfull, is_member};
ghost use Rattle.drmaa_model.specs.Rows.{row_of};
ghost use Rattle.drmaa_model.specs.Size.{weight};
ghost use Rattle.drmaa_model.specs.Time.{advance_plan};
ghost use Rattle.plan_book.specs.Blocks.{rows_in};
ghost use Rattle.plan_book.specs.Numbers.{HasNumbersOf};

use crate::starts::overfull_from;
use drmaa_model::{Accepted, Row};
use drmaa_types::{ArrayId, Change, End, JobId, Moment, QueueList, Refusal, Shared, Text};
use job_template::JobTemplate;
use plan_book::{Book, NumberRange};
use std::alloc::{AllocError, Global};
use std::marker::Model;

/// Jobs, reservations, orders, changes and time. Contracts see its plan, and `spare`: how many changes more it has
/// room for.
pub struct Core {
    pub(crate) alloc: Global,
    pub(crate) book: Book,
}

impl Drop for Core {
    fn drop(self) {
        let Core { alloc: _, book: _ } = self;
    }
}

impl Model for Core {
    ghost use Rattle.scheduler_core.specs.View.{View};

    ghost Value = { View };

    ghost use Rattle.plan_book.specs.Book.{plan_of, spare, IsBook};

    ghost view = { λ c. record { plan = plan_of c.book; spare = spare c.book } };

    ghost invariant = { λ c. IsBook c.book };
}

impl Core {
    /// No jobs, on a machine with so many slots and with these queues; it takes no memory.
    pub fn new(alloc: Global, slots: u32, queues: QueueList) -> Core
        requires queues { are_queues slots queues ≡ true }
        ensures { result.plan ≡ opening_plan slots queues }
    {
        Core {
            alloc,
            book: Book::new(alloc, slots, queues),
        }
    }

    /// The machine's queues, in order.
    pub fn queues(&self) -> &QueueList
        ensures { result.now ≡ self.now.plan.queues }
    {
        self.book.queues()
    }

    /// Time goes on. It takes no memory, and leaves the size.
    pub fn advance(&mut self, at: Moment, entry: u64)
        ensures plan { self.new.plan ≡ advance_plan entry at self.old.plan }
        ensures spare { self.new.spare ≡ self.old.spare }
        ensures size { weight self.new.plan ≡ weight self.old.plan }
    {
        self.book.pass_time(at, entry);
    }

    /// A named session is destroyed: its ended jobs are forgotten, and its other jobs and its reservations are left without
    /// one. It takes no memory, and leaves the size.
    pub fn forget_home(&mut self, at: Moment, entry: u64, home: u64)
        ensures plan { self.new.plan ≡ forget_home home (advance_plan entry at self.old.plan) }
        ensures spare { self.new.spare ≡ self.old.spare }
        ensures size { weight self.new.plan ≡ weight self.old.plan }
    {
        self.book.forget_home(at, entry, home);
    }

    /// Takes the memory for so many further changes.
    ///
    /// # Errors
    ///
    /// Want of memory; nothing has changed then.
    pub fn reserve(&mut self, n: u32) -> Result<(), Refusal>
        ensures plan { self.new.plan ≡ self.old.plan }
        ensures spare { OnOk result (n ≤ self.new.spare) }
        ensures more { self.old.spare ≤ self.new.spare }
        ensures err { IfErr result (λ why. why ≡ Refusal.OutOfMemory) }
    {
        self.book.reserve(n)
    }

    /// The moment to which time has come.
    pub fn moment(&self) -> Moment
        ensures { result ≡ self.now.plan.moment }
    {
        self.book.moment()
    }

    /// The kept jobs, in order of number, in blocks.
    pub fn blocks(&self) -> &[Vec<Row>]
        ensures { rows_in result.now ≡ self.now.plan.rows }
    {
        self.book.blocks()
    }

    /// The accepted reservations, in order of number.
    pub fn reservations(&self) -> &[Accepted]
        ensures { result.now ≡ self.now.plan.reservations }
    {
        self.book.reservations().as_slice()
    }

    /// The first moment from now on and before this end at which so many slots more would be too many. None exactly where they
    /// fit.
    pub fn first_overfull(&self, slots: u32, until: End) -> Option<Moment>
        ensures { result ≡ first_overfull self.now.plan slots self.now.plan.moment until }
    {
        overfull_from(&self.book, slots, self.book.moment(), until)
    }

    /// The slots that all jobs hold.
    pub fn held(&self) -> u32
        ensures { result ≡ held self.now.plan.rows }
    {
        self.book.held()
    }

    /// The changes and the promised room.
    pub fn size(&self) -> u64
        ensures value { result ≡ weight self.now.plan }
        ensures small { result ≤ 4_000_000 }
        ensures fit { IsFit self.now.plan }
    {
        self.book.weight()
    }

    /// What became of the jobs' states, in order.
    pub fn changes(&self) -> &[Change]
        ensures { result.now ≡ self.now.plan.changes }
    {
        self.book.changes().as_slice()
    }

    /// The template of a job, its placeholders replaced, shared with the book. None exactly where the job is not kept.
    ///
    /// # Errors
    /// `AllocError` where memory is wanted.
    pub fn template(&self, job: JobId) -> Result<Option<Shared<JobTemplate>>, AllocError>
        ensures { IfOk result (λ template. template ≡ option_map (λ (row : Row). row.template) (row_of job self.now.plan.rows)) }
    {
        match self.book.row(job) {
            Some(row) => Ok(Some(row.template.clone()?)),
            None => Ok(None),
        }
    }

    /// The name of a kept job, where its template has one.
    pub fn job_name(&self, job: JobId) -> Option<&Text>
        ensures { option_copied result ≡ option_and_then (λ (row : Row). row.template.job_name) (row_of job self.now.plan.rows) }
    {
        match self.book.row(job) {
            Some(row) => row.template.get().job_name.as_ref(),
            None => None,
        }
    }

    /// Numbers among which are those of all kept members of an array. Time makes no difference to them.
    pub fn numbers_of_array(&self, array: ArrayId) -> NumberRange
        ensures { HasNumbersOf (is_member array) self.now.plan.rows result }
    {
        self.book.numbers_of_array(array)
    }

    /// Numbers among which are those of all kept jobs of this home. Time makes no difference to them.
    pub fn numbers_of_home(&self, home: Option<u64>) -> NumberRange
        ensures { HasNumbersOf (λ (row : Row). is_same_home home row.home) self.now.plan.rows result }
    {
        self.book.numbers_of_home(home)
    }
}
