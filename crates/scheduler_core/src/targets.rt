//! When a call on one job, or on the members of an array, is refused.
ghost use Rattle.std.specs.Prelude.{◌≡◌, ◌&&◌, find};
ghost use Rattle.std.specs.List.{list_any};
ghost use Rattle.std.specs.Option.{option_copied, option_map};
ghost use Rattle.drmaa_model.specs.declared.rows.Row.{Row};
ghost use Rattle.drmaa_model.specs.Targets.{is_meant, argument_of};
ghost use Rattle.drmaa_model.specs.Time.{rows_at};
ghost use Rattle.plan_book.specs.Blocks.{rows_in};
ghost use Rattle.plan_book.specs.Book.{plan_of, IsBook};
ghost use Rattle.scheduler_core.specs.Targets.{may_act, refusal_of, row_then};

use drmaa_model::{Row, Target};
use drmaa_types::{Control, JobState, Moment, Refusal, Which};
use job_states::{after_control, has_terminated};
use plan_book::Book;
use plan_book::targets::is_meant;

/// What a call does to the jobs that are meant and whose state permits it.
#[derive(Clone, Copy)]
pub enum Act {
    Control(Control),
    /// It forgets them.
    Reap,
}

/// Why the call is refused once time has come to this moment, or none where it is not.
pub fn refusal_at(book: &Book, at: Moment, target: &Target, act: Act) -> Option<Refusal>
    requires book { IsBook book.now }
    ensures { result ≡ refusal_of act target.now (rows_at at (plan_of book.now)) }
{
    let Some(state) = first_state(book, at, target) else {
        return Some(Refusal::InvalidArgument(argument_of(target)));
    };
    if is_any_permitted(book, at, target, act) {
        None
    } else {
        Some(Refusal::InvalidState(state))
    }
}

/// Which argument names the jobs.
fn argument_of(target: &Target) -> Which
    ensures { result ≡ argument_of target.now }
{
    match target {
        Target::Job(_) => Which::Job,
        Target::Array(_) => Which::Array,
    }
}

/// The state of the job, or of the array's kept member of least number, once time has come to this moment.
fn first_state(book: &Book, at: Moment, target: &Target) -> Option<JobState>
    requires book { IsBook book.now }
    ensures { result ≡ option_map (λ (row : Row). row.course.state) (find (is_meant target.now) (rows_at at (plan_of book.now))) }
{
    match first_meant(book, target) {
        Some(row) => Some(book.course_at(at, row).state),
        None => None,
    }
}

/// The row of the job, which is found by halves, or of the array's kept member of least number, as it is now.
fn first_meant<'a>(book: &'a Book, target: &Target) -> Option<&'a Row>
    requires book { IsBook book.now }
    ensures { option_copied result ≡ find (is_meant target.now) book.now.rows.items }
{
    let rows = book.meant_rows(*target);
    match first_in(rows.alone, target) {
        Some(row) => Some(row),
        None => first_in_blocks(rows.blocks, target),
    }
}

/// The first of these jobs that is meant.
fn first_in<'a>(rows: &'a [Row], target: &Target) -> Option<&'a Row>
    ensures { option_copied result ≡ find (is_meant target.now) rows.now }
{
    rows.iter().find(|row| is_meant(target, row))
}

/// The same of the jobs of these blocks.
fn first_in_blocks<'a>(blocks: &'a [Vec<Row>], target: &Target) -> Option<&'a Row>
    ensures { option_copied result ≡ find (is_meant target.now) (rows_in blocks.now) }
{
    for block in blocks {
        if let Some(row) = first_in(&block[..], target) {
            return Some(row);
        }
    }
    None
}

/// Whether the state of one of the jobs that are meant permits the call once time has come to this moment.
fn is_any_permitted(book: &Book, at: Moment, target: &Target, act: Act) -> bool
    requires book { IsBook book.now }
    ensures { result ≡ list_any (λ (row : Row). is_meant target.now row && may_act act row.course.state) (rows_at at (plan_of book.now)) }
{
    let rows = book.meant_rows(*target);
    is_any_among(book, at, rows.alone, target, act)
        || is_any_in_blocks(book, at, rows.blocks, target, act)
}

/// The same of these jobs.
fn is_any_among(book: &Book, at: Moment, rows: &[Row], target: &Target, act: Act) -> bool
    requires book { IsBook book.now }
    ensures { result ≡ list_any (λ (row : Row). is_meant target.now row && may_act act (row_then at (plan_of book.now) row).course.state) rows.now }
{
    for row in rows {
        if is_permitted(book, at, row, target, act) {
            return true;
        }
    }
    false
}

/// The same of the jobs of these blocks.
fn is_any_in_blocks(book: &Book, at: Moment, blocks: &[Vec<Row>], target: &Target, act: Act) -> bool
    requires book { IsBook book.now }
    ensures { result ≡ list_any (λ (row : Row). is_meant target.now row && may_act act (row_then at (plan_of book.now) row).course.state) (rows_in blocks.now) }
{
    for block in blocks {
        if is_any_among(book, at, &block[..], target, act) {
            return true;
        }
    }
    false
}

fn is_permitted(book: &Book, at: Moment, row: &Row, target: &Target, act: Act) -> bool
    requires book { IsBook book.now }
    ensures { result ≡ (is_meant target.now row.now && may_act act (row_then at (plan_of book.now) row.now).course.state) }
{
    is_meant(target, row) && may_act(act, book.course_at(at, row).state)
}

/// Whether this state permits the call.
fn may_act(act: Act, state: JobState) -> bool
    ensures { result ≡ may_act act state }
{
    match act {
        Act::Control(what) => after_control(state, what).is_some(),
        Act::Reap => has_terminated(state),
    }
}
