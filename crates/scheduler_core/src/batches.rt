//! The rows of the jobs of one submission. They are made whole, with the memory that they want, before anything changes.
ghost use Rattle.std.specs.Prelude.{◌≡◌, ◌≤◌, ◌<◌, ◌+◌, ◌-◌, ◌*◌, ◌^◌, None, Some, SomeIff, IfOk, IfErr, length};
ghost use Rattle.job_template.specs.Texts.{text_length};
ghost use Rattle.drmaa_types.specs.Queues.{most_queues};
ghost use Rattle.drmaa_types.specs.Refusals.{first_refusal};
ghost use Rattle.drmaa_model.specs.Courses.{wants_of};
ghost use Rattle.drmaa_model.specs.Submitting.{bulk_tests, index_count, kept_text, new_text, most_kept_text};
ghost use Rattle.drmaa_model.specs.Time.{advance_plan};
ghost use Rattle.plan_book.specs.Book.{IsBook, plan_of};
ghost use Rattle.scheduler_core.specs.Early.{AreSteps, job_count};
ghost use Rattle.scheduler_core.specs.Batches.{place, placed, batch_of, batch_row, batch_rows, batch_member, batch_members};

use crate::bulks::{index_at, index_count};
use drmaa_model::{Indices, Row, Wants};
use drmaa_types::{ArrayId, JobId, Moment, QueueList, Shared};
use job_template::{JobTemplate, expand, queue_of, without_template};
use plan_book::Book;
use plan_book::courses::submitted;
use std::alloc::Global;

/// What the jobs of one submission share.
#[derive(Drop)]
pub struct Batch {
    pub home: u64,
    pub moment: Moment,
    /// The number of the first job.
    pub first: u64,
    /// The number that an array has.
    pub array: u64,
}

/// Why rows are not made.
#[derive(Clone, Copy)]
pub enum Unmade {
    OutOfMemory,
    /// With them the text of all kept templates would be too long.
    TooMuchText,
}

/// What the jobs share that are submitted once time has come to this moment.
pub fn batch_of(book: &Book, at: Moment, home: u64) -> Batch
    ensures { result ≡ batch_of home (advance_plan 0 at (plan_of book.now)) }
{
    Batch {
        home,
        moment: book.moment_at(at),
        first: book.next_job(),
        array: book.next_array(),
    }
}

/// The row of a job, with its place in an array where it is a member of one.
fn row_of(
    alloc: Global,
    queues: &QueueList,
    b: &Batch,
    number: u64,
    template: JobTemplate,
    array: Option<ArrayId>,
    index: Option<u32>,
    bound: Option<u32>,
) -> Result<Row, Unmade>
    requires few { length queues.now ≤ most_queues }
    ensures row { IfOk result (λ row. row ≡ batch_row queues.now b.now number (placed template array index bound)) }
    ensures err { IfErr result (λ why. why ≡ Unmade.OutOfMemory) }
{
    let wants = wants_of(queues, &template, array, index, bound);
    let course = submitted(template.submit_as_hold);
    match Shared::new(alloc, template) {
        Ok(template) => Ok(Row {
            job: JobId(number),
            home: Some(b.home),
            wants,
            submitted: b.moment,
            course,
            template,
        }),
        Err(_) => Err(Unmade::OutOfMemory),
    }
}

/// What a job asks for on a machine with these queues: what its template says, and its place in an array.
fn wants_of(
    queues: &QueueList,
    t: &JobTemplate,
    array: Option<ArrayId>,
    index: Option<u32>,
    bound: Option<u32>,
) -> Wants
    requires few { length queues.now ≤ most_queues }
    ensures { result ≡ wants_of queues.now t.now (place array index bound) }
{
    Wants {
        min: t.min_slots(),
        max: t.max_slots(),
        priority: t.priority(),
        start: t.start_time,
        deadline: t.deadline_time,
        limit: t.wallclock_limit(),
        reservation: t.reservation_id,
        queue: queue_of(queues, t),
        array,
        index,
        bound,
        rerunnable: t.rerunnable,
    }
}

/// The row of the member in this place of an array, from 0.
fn member_row(
    alloc: Global,
    queues: &QueueList,
    b: &Batch,
    t: &JobTemplate,
    i: &Indices,
    place: u32,
) -> Result<Row, Unmade>
    requires steps { AreSteps i.now }
    requires place { place < index_count i.now }
    requires number { b.now.first + place < 2 ^ 64 }
    requires few { length queues.now ≤ most_queues }
    ensures row { IfOk result (λ row. row ≡ batch_row queues.now b.now (b.now.first + place) (batch_member b.now t.now i.now (i.now.begin + place * i.now.step))) }
    ensures err { IfErr result (λ why. why ≡ Unmade.OutOfMemory) }
{
    let number = b.first + u64::from(place);
    let array = ArrayId(b.array);
    let index = index_at(i, place);
    match expand(alloc, t, index) {
        Ok(template) => row_of(
            alloc,
            queues,
            b,
            number,
            template,
            Some(array),
            Some(index),
            i.bound,
        ),
        Err(_) => Err(Unmade::OutOfMemory),
    }
}

/// The room that the template of a job leaves. None exactly where it needs more.
fn without_row(room: usize, row: &Row) -> Option<usize>
    ensures { SomeIff result (text_length row.now.template ≤ room) (room - text_length row.now.template) }
{
    without_template(room, row.template.get())
}

/// The rows of all members of an array, whose templates have this room.
fn array_rows(
    alloc: Global,
    queues: &QueueList,
    b: &Batch,
    t: &JobTemplate,
    i: &Indices,
    room: usize,
) -> Result<Vec<Row>, Unmade>
    requires steps { AreSteps i.now }
    requires numbers { b.now.first + index_count i.now < 2 ^ 64 }
    requires few { length queues.now ≤ most_queues }
    ensures rows { IfOk result (λ rows. rows.items ≡ batch_rows queues.now b.now b.now.first (batch_members b.now t.now (Some i.now))) }
    ensures fits { IfOk result (λ rows. new_text (batch_members b.now t.now (Some i.now)) ≤ room) }
    ensures err { IfErr result (λ why. why ≡ Unmade.TooMuchText → room < new_text (batch_members b.now t.now (Some i.now))) }
{
    let count = index_count(i);
    let Ok(mut rows) = Vec::with_capacity(alloc, count as usize) else {
        return Err(Unmade::OutOfMemory);
    };
    let mut room = room;
    for place in 0..count {
        let row = member_row(alloc, queues, b, t, i, place)?;
        let Some(left) = without_row(room, &row) else {
            return Err(Unmade::TooMuchText);
        };
        if rows.push(row).is_err() {
            return Err(Unmade::OutOfMemory);
        }
        room = left;
    }
    Ok(rows)
}

/// The row of the one job, whose template has this room.
fn single_rows(
    alloc: Global,
    queues: &QueueList,
    b: &Batch,
    template: JobTemplate,
    room: usize,
) -> Result<Vec<Row>, Unmade>
    requires few { length queues.now ≤ most_queues }
    ensures rows { IfOk result (λ rows. rows.items ≡ batch_rows queues.now b.now b.now.first (batch_members b.now template None)) }
    ensures fits { IfOk result (λ rows. new_text (batch_members b.now template None) ≤ room) }
    ensures err { IfErr result (λ why. why ≡ Unmade.TooMuchText → room < new_text (batch_members b.now template None)) }
{
    if without_template(room, &template).is_none() {
        return Err(Unmade::TooMuchText);
    }
    let Ok(mut rows) = Vec::with_capacity(alloc, 1) else {
        return Err(Unmade::OutOfMemory);
    };
    let row = row_of(alloc, queues, b, b.first, template, None, None, None)?;
    if rows.push(row).is_err() {
        return Err(Unmade::OutOfMemory);
    }
    Ok(rows)
}

/// The rows of the jobs that are asked for, or `TooMuchText` where the text of all kept templates would be too long with theirs.
// The members that the room holds are made before that is known, and one member more. The template of one job is moved and not
// copied.
pub fn rows_of(
    book: &Book,
    alloc: Global,
    b: &Batch,
    template: JobTemplate,
    indices: Option<Indices>,
) -> Result<Vec<Row>, Unmade>
    requires bulk { first_refusal (bulk_tests indices) ≡ None }
    requires numbers { b.now.first + job_count indices < 2 ^ 64 }
    requires book { IsBook book.now }
    ensures rows { IfOk result (λ rows. rows.items ≡ batch_rows (plan_of book.now).queues b.now b.now.first (batch_members b.now template indices)) }
    ensures fits { IfOk result (λ rows. kept_text (plan_of book.now).rows + new_text (batch_members b.now template indices) ≤ most_kept_text) }
    ensures err { IfErr result (λ why. why ≡ Unmade.TooMuchText → most_kept_text < kept_text (plan_of book.now).rows + new_text (batch_members b.now template indices)) }
{
    let Some(room) = book.text_room() else {
        return Err(Unmade::TooMuchText);
    };
    match indices {
        None => single_rows(alloc, book.queues(), b, template, room),
        Some(i) => array_rows(alloc, book.queues(), b, &template, &i, room),
    }
}
