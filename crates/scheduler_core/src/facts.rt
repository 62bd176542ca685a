//! What is told of a kept job.
ghost use Rattle.std.specs.Prelude.{◌≡◌, ◌&&◌, find, nat_le};
ghost use Rattle.std.specs.List.{list_any};
ghost use Rattle.std.specs.Option.{option_map};
ghost use Rattle.drmaa_types.specs.States.{is_waiting, is_state};
ghost use Rattle.drmaa_model.specs.declared.rows.Row.{Row};
ghost use Rattle.drmaa_model.specs.Fit.{IsRising, number_of};
ghost use Rattle.drmaa_model.specs.Rows.{row_of};
ghost use Rattle.drmaa_model.specs.Time.{rows_at};
ghost use Rattle.plan_book.specs.Blocks.{rows_in};
ghost use Rattle.scheduler_core.specs.Facts.{row_facts, job_from, is_own_member, lapses_at};

use crate::cores::Core;
use drmaa_model::{Course, Kill, Phase, Row, Target};
use drmaa_types::{ArrayId, End, Exit, JobId, JobState, Moment, Note, ReservationId};
use plan_book::states::{is_state, is_waiting};

/// A kept job, without its template.
#[derive(Clone, Copy, Debug, PartialEq, Eq)]
pub struct RowFacts {
    pub job: JobId,
    /// The number of the named session that it belongs to.
    pub home: Option<u64>,
    /// The array that it is a member of, its index there, and how many members may hold slots at once.
    pub array: Option<ArrayId>,
    pub index: Option<u32>,
    pub bound: Option<u32>,
    pub rerunnable: bool,
    /// It is not launched before this moment.
    pub start: Option<Moment>,
    /// At this moment it fails where it waits, also one that was launched before and queued again.
    pub deadline: Option<Moment>,
    /// The reservation that it runs in.
    pub reservation: Option<ReservationId>,
    /// The place of its queue among those of the machine, counted from 1; None where there are none.
    pub queue: Option<u32>,
    pub state: JobState,
    pub phase: Phase,
    /// How often it was launched.
    pub attempt: u32,
    /// How many slots it holds.
    pub held: u32,
    /// How many it held at its last launch.
    pub last_slots: Option<u32>,
    pub kill: Kill,
    /// When it is to end; set exactly while it is started.
    pub planned: Option<End>,
    pub submitted: Moment,
    /// When it was last launched.
    pub dispatched: Option<Moment>,
    /// When it became DONE or FAILED.
    pub finished: Option<Moment>,
    pub exit: Option<Exit>,
    pub note: Note,
}

impl Core {
    /// What is known of a job once time has come to this moment. None exactly where it is not kept.
    pub fn row(&self, at: Moment, job: JobId) -> Option<RowFacts>
        ensures { result ≡ option_map row_facts (row_of job (rows_at at self.now.plan)) }
    {
        let Some(row) = self.book.row(job) else {
            return None;
        };
        match self.book.facts_at(at, job) {
            Some(facts) => Some(facts_with(row, &facts.course)),
            None => None,
        }
    }

    /// What is known of a job as it is now, before time comes to a later moment. None exactly where it is not kept.
    pub fn present_row(&self, job: JobId) -> Option<RowFacts>
        ensures { result ≡ option_map row_facts (row_of job self.now.plan.rows) }
    {
        match self.book.row(job) {
            Some(row) => Some(facts_with(row, &row.course)),
            None => None,
        }
    }

    /// The number of the first job in the list of kept jobs, which stand in order of number, that is this one or above it. It
    /// is found by halves.
    pub fn next_row(&self, from: JobId) -> Option<JobId>
        ensures { result ≡ job_from from.0 self.now.plan }
    {
        first_in_blocks(self.book.blocks_from(from.0), from)
    }

    /// Whether a member of an array is kept that belongs to this home. Time makes no difference to it. It goes
    /// over the jobs between the array's first and last member.
    pub fn has_member(&self, home: Option<u64>, array: ArrayId) -> bool
        ensures { result ≡ list_any (is_own_member home array) self.now.plan.rows }
    {
        let rows = self.book.meant_rows(Target::Array(array));
        is_any_own(rows.alone, home, array) || is_any_own_in(rows.blocks, home, array)
    }

    /// Whether time would end a job that waits, when it comes to this moment.
    pub fn lapses(&self, at: Moment, job: JobId) -> bool
        ensures { result ≡ lapses_at at job self.now.plan }
    {
        let Some(row) = self.book.row(job) else {
            return false;
        };
        match self.book.facts_at(at, job) {
            Some(facts) => has_lapsed(row.course.state, facts.course.state),
            None => false,
        }
    }
}

fn facts_with(row: &Row, course: &Course) -> RowFacts
    ensures { result ≡ row_facts (record row.now { course = course.now }) }
{
    RowFacts {
        job: row.job,
        home: row.home,
        array: row.wants.array,
        index: row.wants.index,
        bound: row.wants.bound,
        rerunnable: row.wants.rerunnable,
        start: row.wants.start,
        deadline: row.wants.deadline,
        reservation: row.wants.reservation,
        queue: row.wants.queue,
        state: course.state,
        phase: course.phase,
        attempt: course.attempt,
        held: course.held,
        last_slots: course.last_slots,
        kill: course.kill,
        planned: course.planned,
        submitted: row.submitted,
        dispatched: course.dispatched,
        finished: course.finished,
        exit: course.exit,
        note: course.note,
    }
}

/// Whether one of these jobs is a member of an array, and belongs to this home.
fn is_any_own(rows: &[Row], home: Option<u64>, array: ArrayId) -> bool
    ensures { result ≡ list_any (is_own_member home array) rows.now }
{
    rows.iter().any(|row| is_own_member(row, home, array))
}

/// The same of the jobs of these blocks.
fn is_any_own_in(blocks: &[Vec<Row>], home: Option<u64>, array: ArrayId) -> bool
    ensures { result ≡ list_any (is_own_member home array) (rows_in blocks.now) }
{
    for block in blocks {
        if is_any_own(&block[..], home, array) {
            return true;
        }
    }
    false
}

/// The number of the first of these jobs that is this one or above it, which is found by halves.
fn first_from(rows: &[Row], from: JobId) -> Option<JobId>
    requires rising { IsRising number_of rows.now }
    ensures { result ≡ option_map (λ (row : Row). row.job) (find (λ (row : Row). nat_le from.0 row.job.0) rows.now) }
{
    let first = rows.partition_point(|row| row.job.0 < from.0);
    match rows.get(first) {
        Some(row) => Some(row.job),
        None => None,
    }
}

/// The same of the jobs of these blocks.
fn first_in_blocks(blocks: &[Vec<Row>], from: JobId) -> Option<JobId>
    requires rising { IsRising number_of (rows_in blocks.now) }
    ensures { result ≡ option_map (λ (row : Row). row.job) (find (λ (row : Row). nat_le from.0 row.job.0) (rows_in blocks.now)) }
{
    for block in blocks {
        if let Some(job) = first_from(&block[..], from) {
            return Some(job);
        }
    }
    None
}

/// Whether a job is a member of an array, and belongs to this home.
fn is_own_member(row: &Row, home: Option<u64>, array: ArrayId) -> bool
    ensures { result ≡ is_own_member home array row.now }
{
    let (Some(home), Some(own)) = (home, row.home) else {
        return false;
    };
    match row.wants.array {
        Some(member) => home == own && member.0 == array.0,
        None => false,
    }
}

/// Whether a job has ended that waited.
fn has_lapsed(before: JobState, after: JobState) -> bool
    ensures { result ≡ (is_waiting before && is_state after JobState.Failed) }
{
    is_waiting(before) && is_state(after, JobState::Failed)
}
