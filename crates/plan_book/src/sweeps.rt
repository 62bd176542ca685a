//! What a control call does to rows, changes and orders. None of it takes memory.
ghost use Rattle.std.specs.Prelude.{◌≡◌, ◌+◌, ◌≤◌, ◌++◌, map, length, vec_len, vec_capacity};
ghost use Rattle.std.specs.List.{flat_map};
ghost use Rattle.drmaa_model.specs.Controlling.{control_step, is_controlled, asked_orders};
ghost use Rattle.plan_book.specs.Sweeps.{noted};

use crate::changes::push_change;
use crate::courses::{asked_for, controlled};
use crate::targets::is_meant;
use drmaa_model::{Course, Order, Row, Target};
use drmaa_types::{Change, Control, Moment};
use job_states::after_control;

/// Whether the call acts on a job that has this course.
pub fn is_controlled(target: &Target, row: &Row, course: &Course, what: Control) -> bool
    ensures { result ≡ is_controlled target.now what (record row.now { course = course.now }) }
{
    is_meant(target, row) && after_control(course.state, what).is_some()
}

/// A job's course after the call, which may act on it or not.
pub fn controlled_course(row: &Row, moment: Moment, target: &Target, what: Control) -> Course
    ensures { result ≡ (control_step moment target.now what row.now).course }
{
    if !is_meant(target, row) {
        return row.course;
    }
    match after_control(row.course.state, what) {
        Some(state) => controlled(&row.course, moment, what, state),
        None => row.course,
    }
}

fn note_control(
    row: &Row,
    changes: &mut Vec<Change>,
    moment: Moment,
    entry: u64,
    target: &Target,
    what: Control,
)
    requires { vec_len changes.old + length (noted entry moment target.now what row.now) ≤ vec_capacity changes.old }
    ensures items { changes.new.items ≡ changes.old.items ++ noted entry moment target.now what row.now }
    ensures len { vec_len changes.new ≡ vec_len changes.old + length (noted entry moment target.now what row.now) }
    ensures capacity { vec_capacity changes.new ≡ vec_capacity changes.old }
{
    let next = controlled_course(row, moment, target, what);
    push_change(
        changes,
        Change {
            entry,
            job: row.job,
            home: row.home,
            from: row.course.state,
            to: next.state,
        },
    );
}

/// Notes the changes of those of these jobs on which the call acts.
pub fn note_controls(
    rows: &[Row],
    changes: &mut Vec<Change>,
    moment: Moment,
    entry: u64,
    target: &Target,
    what: Control,
)
    requires { vec_len changes.old + length (flat_map (noted entry moment target.now what) rows.now) ≤ vec_capacity changes.old }
    ensures items { changes.new.items ≡ changes.old.items ++ flat_map (noted entry moment target.now what) rows.now }
    ensures len { vec_len changes.new ≡ vec_len changes.old + length (flat_map (noted entry moment target.now what) rows.now) }
    ensures capacity { vec_capacity changes.new ≡ vec_capacity changes.old }
{
    for row in rows {
        note_control(row, changes, moment, entry, target, what);
    }
}

fn add_order(row: &Row, orders: &mut Vec<Order>, target: &Target, what: Control)
    requires { vec_len orders.old + length (asked_orders target.now what row.now) ≤ vec_capacity orders.old }
    ensures items { orders.new.items ≡ orders.old.items ++ asked_orders target.now what row.now }
    ensures len { vec_len orders.new ≡ vec_len orders.old + length (asked_orders target.now what row.now) }
    ensures capacity { vec_capacity orders.new ≡ vec_capacity orders.old }
{
    if !is_controlled(target, row, &row.course, what) {
        return;
    }
    if let Some(kind) = asked_for(&row.course, what) {
        orders.push_reserved(Order {
            job: row.job,
            kind,
            taken: false,
        });
    }
}

/// Adds the orders that the call asks for to these jobs.
pub fn add_orders(rows: &[Row], orders: &mut Vec<Order>, target: &Target, what: Control)
    requires { vec_len orders.old + length (flat_map (asked_orders target.now what) rows.now) ≤ vec_capacity orders.old }
    ensures items { orders.new.items ≡ orders.old.items ++ flat_map (asked_orders target.now what) rows.now }
    ensures len { vec_len orders.new ≡ vec_len orders.old + length (flat_map (asked_orders target.now what) rows.now) }
    ensures capacity { vec_capacity orders.new ≡ vec_capacity orders.old }
{
    for row in rows {
        add_order(row, orders, target, what);
    }
}

fn control_row(row: &mut Row, moment: Moment, target: &Target, what: Control)
    ensures { row.new ≡ control_step moment target.now what row.old }
{
    row.course = controlled_course(row, moment, target, what);
}

/// Those of these jobs on which the call acts go on.
pub fn control_rows(rows: &mut [Row], moment: Moment, target: &Target, what: Control)
    ensures { rows.new ≡ map (control_step moment target.now what) rows.old }
{
    for row in rows.iter_mut() {
        control_row(row, moment, target, what);
    }
}
