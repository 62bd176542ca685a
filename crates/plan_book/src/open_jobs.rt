//! The jobs at the front that are settled, and the greatest priority of the jobs. None of it takes memory.
ghost use Rattle.std.specs.Prelude.{◌≡◌, ◌<◌, ◌≤◌, ◌++◌, true, false, List, length, slice_index_or};
ghost use Rattle.std.specs.Int.{int_max};
ghost use Rattle.std.specs.List.{AllByRecursion, remove};
ghost use Rattle.drmaa_model.specs.declared.rows.Row.{Row};
ghost use Rattle.drmaa_model.specs.Reporting.{is_idle};
ghost use Rattle.plan_book.specs.Open.{IsPriorityBound, is_over};
ghost use Rattle.plan_book.specs.Settled.{is_settled};

use crate::states::{is_started, is_waiting};
use drmaa_model::{Phase, Row};

/// Whether the job neither waits nor is started, and has no planned end.
fn is_over(row: &Row) -> bool
    ensures { result ≡ is_over row.now }
{
    let course = &row.course;
    !is_waiting(course.state) && !is_started(course.state) && course.planned.is_none()
}

fn is_idle(phase: Phase) -> bool
    ensures { result ≡ is_idle phase }
{
    match phase {
        Phase::Idle => true,
        Phase::Launching | Phase::Alive => false,
    }
}

/// Whether the job is over, has no process and holds no slots: time leaves it as it is, and it comes to nothing.
fn is_settled(row: &Row) -> bool
    ensures { result ≡ is_settled row.now }
{
    is_over(row) && is_idle(row.course.phase) && row.course.held == 0
}

/// Whether all of these jobs are settled.
pub fn are_settled(rows: &[Row]) -> bool
    ensures { result ≡ true → AllByRecursion (λ (row : Row). is_settled row ≡ true) rows.now }
{
    for row in rows {
        if !is_settled(row) {
            return false;
        }
    }
    true
}

/// The greater of a priority that other jobs' don't pass, and those of more jobs.
pub fn greatest_with(greatest: i32, more: &Vec<Row>) -> i32
    ensures { (rows : List Row) → IsPriorityBound rows greatest → IsPriorityBound (rows ++ more.now.items) result }
{
    let mut greatest = greatest;
    for row in more {
        greatest = greater_of(greatest, row);
    }
    greatest
}

/// The greater of a priority and the job's.
fn greater_of(priority: i32, row: &Row) -> i32
    ensures { result ≡ int_max priority row.now.wants.priority }
{
    priority.max(row.wants.priority)
}
