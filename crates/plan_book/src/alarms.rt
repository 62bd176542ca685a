//! When time may act on a job, and on jobs that come in or go on. None of it takes memory.
ghost use Rattle.std.specs.Prelude.{◌≡◌, Some};
ghost use Rattle.std.specs.List.{AllByRecursion};
ghost use Rattle.std.specs.Option.{option_map_or};
ghost use Rattle.drmaa_types.specs.declared.moments.End.{End};
ghost use Rattle.drmaa_model.specs.declared.rows.Row.{Row};
ghost use Rattle.drmaa_model.specs.Fit.{IsRising, number_of};
ghost use Rattle.drmaa_model.specs.Plan.{Plan};
ghost use Rattle.drmaa_model.specs.Rows.{row_of};
ghost use Rattle.plan_book.specs.Places.{AreSorted};
ghost use Rattle.plan_book.specs.Quiet.{AreCovered, IsAlarmed, IsLeftUntil, IsQuiet, LastsUntil, acts_at, unless_stranded};

use crate::alarm_blocks::Alarm;
use crate::book::opening_moment;
use crate::courses::{is_unasked, lesser_end, optional_end};
use crate::states::{is_started, is_waiting};
use crate::summed_rows::Rows;
use crate::time::is_stranded;
use drmaa_model::{Accepted, Course, Row};
use drmaa_types::{End, JobId};

/// The first moment at which time may act on a job that has this course: a waiting one may lapse, and a started one may be asked to
/// end.
pub fn acts_at(rs: &Vec<Accepted>, row: &Row, course: &Course) -> End
    requires sorted { AreSorted rs.now.items }
    ensures { result ≡ acts_at rs.now.items (record row.now { course = course.now }) }
{
    if is_waiting(course.state) {
        return unless_stranded(is_stranded(rs, row), optional_end(row.wants.deadline));
    }
    if is_started(course.state) && is_unasked(course.kill) {
        return unless_stranded(is_stranded(rs, row), end_or_never(course.planned));
    }
    End::Never
}

fn unless_stranded(stranded: bool, end: End) -> End
    ensures { result ≡ unless_stranded stranded end }
{
    if stranded {
        End::At(opening_moment())
    } else {
        end
    }
}

fn end_or_never(end: Option<End>) -> End
    ensures { result ≡ option_map_or (λ (end : End). end) end End.Never }
{
    match end {
        Some(end) => end,
        None => End::Never,
    }
}

/// Before it time leaves a job as it is that goes on to this course.
pub fn soonest_with(rs: &Vec<Accepted>, rows: &Rows, job: JobId, course: &Course) -> End
    requires sorted { AreSorted rs.now.items }
    requires rising { IsRising number_of rows.now.items }
    ensures { (row : Row) → row_of job rows.now.items ≡ Some row → IsLeftUntil result rs.now.items (record row { course = course.now }) }
{
    match rows.row_of(job) {
        Some(row) => acts_at(rs, row, course),
        None => End::Never,
    }
}

/// Time may act on these jobs, whose blocks are there, from now on. What is quiet stays so.
pub fn alarm_rows(alarm: &mut Alarm, rs: &Vec<Accepted>, rows: &Vec<Row>)
    requires sorted { AreSorted rs.now.items }
    requires covered { AreCovered alarm.old.ends.items rows.now.items }
    ensures rows { AllByRecursion (IsAlarmed alarm.new.ends.items rs.now.items) rows.now.items }
    ensures quiet { (p : Plan) → IsQuiet alarm.old p → IsQuiet alarm.new p }
{
    for row in rows {
        alarm.lower(row.job, acts_at(rs, row, &row.course));
    }
}

/// Before it each reservation lasts.
pub fn first_end(rs: &Vec<Accepted>) -> End
    ensures { AllByRecursion (LastsUntil result) rs.now.items }
{
    let mut first = End::Never;
    for r in rs {
        first = lesser_end(first, End::At(r.until));
    }
    first
}
