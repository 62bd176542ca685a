//! The started jobs, one after another. It takes no memory.
ghost use Rattle.std.specs.Prelude.{◌≡◌, find};
ghost use Rattle.std.specs.Option.{option_copied, option_map};
ghost use Rattle.drmaa_types.specs.States.{is_started};
ghost use Rattle.drmaa_model.specs.declared.rows.Row.{Row};
ghost use Rattle.drmaa_model.specs.Courses.{is_asked};
ghost use Rattle.drmaa_model.specs.Events.{started_from, started_of};
ghost use Rattle.drmaa_model.specs.Fit.{IsRising, number_of};
ghost use Rattle.drmaa_model.specs.Time.{rows_at};
ghost use Rattle.plan_book.specs.Blocks.{rows_in};
ghost use Rattle.plan_book.specs.Book.{plan_of, IsBook};
ghost use Rattle.scheduler_core.specs.Targets.{row_then};

use crate::cores::Core;
use drmaa_model::{Kill, Row, Started};
use drmaa_types::{JobId, Moment};
use plan_book::Book;
use plan_book::states::is_started;

impl Core {
    /// The started job of least number that is this one or above it, once time has come to this moment.
    pub fn started(&self, at: Moment, from: JobId) -> Option<Started>
        ensures { result ≡ option_map started_of (started_from from.0 (rows_at at self.now.plan)) }
    {
        match first_in_blocks(self.book.blocks_from(from.0), from) {
            Some(row) => Some(started_then(&self.book, at, row)),
            None => None,
        }
    }
}

fn is_asked(kill: Kill) -> bool
    ensures { result ≡ is_asked kill }
{
    match kill {
        Kill::No => false,
        Kill::Asked | Kill::Failed => true,
    }
}

// What is told of a started job once time has come to this moment.
fn started_then(book: &Book, at: Moment, row: &Row) -> Started
    requires book { IsBook book.now }
    ensures { result ≡ started_of (row_then at (plan_of book.now) row.now) }
{
    let course = book.course_at(at, row);
    Started {
        job: row.job,
        attempt: course.attempt,
        rerunnable: row.wants.rerunnable,
        asked: is_asked(course.kill),
    }
}

// The rows from this number on. They are found by halves.
fn rows_from(rows: &[Row], from: JobId) -> &[Row]
    requires rising { IsRising number_of rows.now }
    ensures { find (λ (row : Row). is_started row.course.state) result.now ≡ started_from from.0 rows.now }
{
    let first = rows.partition_point(|row| row.job.0 < from.0);
    &rows[first..]
}

fn first_started(rows: &[Row]) -> Option<&Row>
    ensures { option_copied result ≡ find (λ (row : Row). is_started row.course.state) rows.now }
{
    rows.iter().find(|row| is_started(row.course.state))
}

fn first_row(rows: &[Row], from: JobId) -> Option<&Row>
    requires rising { IsRising number_of rows.now }
    ensures { option_copied result ≡ started_from from.0 rows.now }
{
    first_started(rows_from(rows, from))
}

/// The same of the jobs of these blocks.
fn first_in_blocks(blocks: &[Vec<Row>], from: JobId) -> Option<&Row>
    requires rising { IsRising number_of (rows_in blocks.now) }
    ensures { option_copied result ≡ started_from from.0 (rows_in blocks.now) }
{
    for block in blocks {
        if let Some(row) = first_row(&block[..], from) {
            return Some(row);
        }
    }
    None
}
