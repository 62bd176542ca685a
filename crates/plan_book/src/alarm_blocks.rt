//! The alarm: before it time leaves all jobs and reservations as they are, so that an advance sets the moment alone. Jobs have one in
//! blocks, of so many numbers each, so that time goes over the jobs of those blocks alone of which the end has come.
ghost use Rattle.std.specs.Prelude.{◌≡◌, ℕ, ◌+◌, ◌<◌, ◌≤◌, ◌^◌, [], get_or, set, take, drop, length, false, OnOk};
ghost use Rattle.std.specs.List.{AllByRecursion};
ghost use Rattle.drmaa_types.specs.declared.moments.End.{End};
ghost use Rattle.drmaa_types.specs.declared.moments.End.TheVariants.{Never};
ghost use Rattle.drmaa_model.specs.declared.rows.Row.{Row};
ghost use Rattle.drmaa_model.specs.Courses.{lesser_end};
ghost use Rattle.drmaa_model.specs.Fit.{IsRising, number_of};
ghost use Rattle.drmaa_model.specs.Plan.{Plan};
ghost use Rattle.drmaa_model.specs.Time.{is_past};
ghost use Rattle.plan_book.specs.Quiet.{block_of, end_of, IsOutside, IsAhead, IsQuiet};

use crate::courses::lesser_end;
use crate::rows::Places;
use crate::time::is_past;
use drmaa_model::Row;
use drmaa_types::{End, JobId, Moment};
use std::alloc::{AllocError, Global};

/// So many numbers of jobs are a block.
const BLOCK: u64 = 64;

/// Before which moments time does nothing.
#[derive(Drop)]
pub struct Alarm {
    /// Before it time does nothing at all.
    pub soonest: End,
    /// Before it each reservation lasts.
    pub lasting: End,
    /// Of each block, in order of number: before it time leaves its jobs as they are.
    pub ends: Vec<End>,
}

/// The block that a number is of.
pub fn block_of(number: u64) -> usize
    ensures { result ≡ block_of number }
{
    (number / BLOCK) as usize
}

impl Alarm {
    /// No block, and nothing to come; it takes no memory.
    pub fn new(alloc: Global) -> Alarm
        ensures soonest { result.soonest ≡ Never }
        ensures lasting { result.lasting ≡ Never }
        ensures ends { result.ends.items ≡ [] }
    {
        Alarm {
            soonest: End::Never,
            lasting: End::Never,
            ends: Vec::new(alloc),
        }
    }

    /// Takes the memory for the blocks up to that of this number. What is quiet stays so.
    ///
    /// # Errors
    ///
    /// Want of memory.
    pub fn reach(&mut self, number: u64) -> Result<(), AllocError>
        ensures ok { OnOk result (block_of number < length self.new.ends.items) }
        ensures quiet { (p : Plan) → IsQuiet self.old p → IsQuiet self.new p }
    {
        for _ in self.ends.len()..block_of(number) + 1 {
            self.add_block()?;
        }
        Ok(())
    }

    /// Takes the memory for the next block, of which no end is known yet.
    fn add_block(&mut self) -> Result<(), AllocError>
        requires { length self.old.ends.items < 2 ^ 58 }
        ensures ok { OnOk result (length self.new.ends.items ≡ length self.old.ends.items + 1) }
        ensures quiet { (p : Plan) → IsQuiet self.old p → IsQuiet self.new p }
    {
        self.ends.push(End::Never)?;
        Ok(())
    }

    /// Time may act on a job from this end on.
    pub fn lower(&mut self, job: JobId, end: End)
        requires { block_of job.0 < length self.old.ends.items }
        ensures ends { self.new.ends.items ≡ set self.old.ends.items (block_of job.0) (lesser_end (end_of self.old.ends.items job.0) end) }
        ensures lasting { self.new.lasting ≡ self.old.lasting }
        ensures soonest { self.new.soonest ≡ lesser_end self.old.soonest end }
    {
        let block = block_of(job.0);
        self.ends[block] = lesser(&self.ends[block], &end);
        self.soonest = lesser(&self.soonest, &end);
    }

    /// A reservation ends there.
    pub fn lower_lasting(&mut self, end: End)
        ensures ends { self.new.ends.items ≡ self.old.ends.items }
        ensures lasting { self.new.lasting ≡ lesser_end self.old.lasting end }
        ensures soonest { self.new.soonest ≡ lesser_end self.old.soonest end }
    {
        self.lasting = lesser(&self.lasting, &end);
        self.soonest = lesser(&self.soonest, &end);
    }

    /// The blocks outside of which no end has come by this moment; none where it has of none.
    pub fn due_blocks(&self, moment: Moment) -> Places
        ensures within { result.until ≤ length self.now.ends.items }
        ensures outside { (k : ℕ) → IsOutside result k → is_past moment (get_or self.now.ends.items k Never) ≡ false }
    {
        Places {
            from: first_past(self.ends.as_slice(), moment),
            until: behind_past(self.ends.as_slice(), moment),
        }
    }

    /// The jobs of these blocks have no end, until they are looked at.
    pub fn open(&mut self, blocks: Places)
        requires { blocks.until ≤ length self.old.ends.items }
        ensures outside { (k : ℕ) → IsOutside blocks k → get_or self.new.ends.items k Never ≡ get_or self.old.ends.items k Never }
        ensures len { length self.new.ends.items ≡ length self.old.ends.items }
        ensures lasting { self.new.lasting ≡ self.old.lasting }
    {
        for block in blocks.from..blocks.until {
            self.ends[block] = End::Never;
        }
    }

    /// What is soonest is found anew, where the reservations last until this end.
    pub fn settle(&mut self, lasting: End)
        ensures ends { self.new.ends.items ≡ self.old.ends.items }
        ensures lasting { self.new.lasting ≡ lasting }
        ensures soonest { (moment : ℕ) → is_past moment self.new.soonest ≡ false → IsAhead moment self.new }
    {
        self.soonest = least_of(self.ends.as_slice(), &lasting);
        self.lasting = lasting;
    }
}

/// The first place at which an end has come by this moment; behind all where none has.
fn first_past(ends: &[End], moment: Moment) -> usize
    ensures { (k : ℕ) → k < result → is_past moment (get_or ends.now k Never) ≡ false }
{
    for place in 0..ends.len() {
        if is_past(ends[place], moment) {
            return place;
        }
    }
    ends.len()
}

/// The place behind the last one at which an end has come by this moment; the first where none has.
fn behind_past(ends: &[End], moment: Moment) -> usize
    ensures within { result ≤ length ends.now }
    ensures behind { (k : ℕ) → result ≤ k → is_past moment (get_or ends.now k Never) ≡ false }
{
    let mut until = ends.len();
    while until > 0 && !is_past(ends[until - 1], moment) {
        until -= 1;
    }
    until
}

/// The lesser of two ends.
fn lesser(one: &End, other: &End) -> End
    ensures { result ≡ lesser_end one.now other.now }
{
    lesser_end(*one, *other)
}

/// The least of these ends.
fn least_of(ends: &[End], end: &End) -> End
    ensures first { (moment : ℕ) → is_past moment result ≡ false → is_past moment end.now ≡ false }
    ensures others { (moment k : ℕ) → is_past moment result ≡ false → is_past moment (get_or ends.now k Never) ≡ false }
{
    let mut least = *end;
    for place in 0..ends.len() {
        least = lesser_end(least, ends[place]);
    }
    least
}
