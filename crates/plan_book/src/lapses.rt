//! The walk over jobs once time has come to its moment: the jobs whose time is over end or are asked to end, and what the jobs
//! come to then is added up on the way. It takes no memory.
ghost use Rattle.std.specs.Prelude.{◌≡◌, ◌+◌, ◌≤◌, ◌<◌, ◌^◌, ◌++◌, map, length, vec_len, vec_capacity};
ghost use Rattle.std.specs.List.{AllByRecursion, flat_map};
ghost use Rattle.drmaa_model.specs.declared.rows.Row.{Row};
ghost use Rattle.drmaa_model.specs.Time.{lapsed, called_in};
ghost use Rattle.drmaa_model.specs.TimeLaws.{timed};
ghost use Rattle.plan_book.specs.Lapses.{ends, kills, kills_then};
ghost use Rattle.plan_book.specs.Places.{AreSorted};
ghost use Rattle.plan_book.specs.Quiet.{AreCovered, IsAlarmed};
ghost use Rattle.plan_book.specs.Sums.{AreSums};

use crate::alarm_blocks::Alarm;
use crate::alarms::acts_at;
use crate::courses::{called, failed};
use crate::sums::{Sums, no_sums, with_job};
use crate::time::{due_note, is_due, lapse_note, lapses};
use drmaa_model::{Accepted, Order, Row};
use drmaa_types::{Change, JobState, Moment, SignalKind};

/// Ends a waiting job whose time is over.
fn expire_row(
    rs: &Vec<Accepted>,
    row: &mut Row,
    changes: &mut Vec<Change>,
    moment: Moment,
    entry: u64,
)
    requires sorted { AreSorted rs.now.items }
    requires room { vec_len changes.old + length (ends entry moment rs.now.items row.old) ≤ vec_capacity changes.old }
    ensures row { row.new ≡ lapsed moment rs.now.items row.old }
    ensures items { changes.new.items ≡ changes.old.items ++ ends entry moment rs.now.items row.old }
    ensures len { vec_len changes.new ≡ vec_len changes.old + length (ends entry moment rs.now.items row.old) }
    ensures capacity { vec_capacity changes.new ≡ vec_capacity changes.old }
{
    if lapses(rs, row, moment) {
        changes.push_reserved(Change {
            entry,
            job: row.job,
            home: row.home,
            from: row.course.state,
            to: JobState::Failed,
        });
        let note = lapse_note(row, moment);
        row.course = failed(&row.course, moment, note);
    }
}

/// Asks for the end of a started job whose time is over.
fn call_in_row(rs: &Vec<Accepted>, row: &mut Row, orders: &mut Vec<Order>, moment: Moment)
    requires sorted { AreSorted rs.now.items }
    requires room { vec_len orders.old + length (kills moment rs.now.items row.old) ≤ vec_capacity orders.old }
    ensures row { row.new ≡ called_in moment rs.now.items row.old }
    ensures items { orders.new.items ≡ orders.old.items ++ kills moment rs.now.items row.old }
    ensures len { vec_len orders.new ≡ vec_len orders.old + length (kills moment rs.now.items row.old) }
    ensures capacity { vec_capacity orders.new ≡ vec_capacity orders.old }
{
    if is_due(rs, row, moment) {
        orders.push_reserved(Order {
            job: row.job,
            kind: SignalKind::Kill,
            taken: false,
        });
        let note = due_note(row, moment);
        row.course = called(&row.course, note);
    }
}

/// The jobs whose time is over end or are asked to end, and what they come to then. Their blocks are there.
pub fn sweep_rows(
    rs: &Vec<Accepted>,
    rows: &mut [Row],
    changes: &mut Vec<Change>,
    orders: &mut Vec<Order>,
    alarm: &mut Alarm,
    moment: Moment,
    entry: u64,
) -> Sums
    requires sorted { AreSorted rs.now.items }
    requires few { length rows.old < 2 ^ 63 }
    requires covered { AreCovered alarm.old.ends.items rows.old }
    requires changes { vec_len changes.old + length (flat_map (ends entry moment rs.now.items) rows.old) ≤ vec_capacity changes.old }
    requires orders { vec_len orders.old + length (flat_map (kills_then moment rs.now.items) rows.old) ≤ vec_capacity orders.old }
    ensures items { rows.new ≡ map (timed moment rs.now.items) rows.old }
    ensures changes { changes.new.items ≡ changes.old.items ++ flat_map (ends entry moment rs.now.items) rows.old }
    ensures changes_len { vec_len changes.new ≡ vec_len changes.old + length (flat_map (ends entry moment rs.now.items) rows.old) }
    ensures changes_capacity { vec_capacity changes.new ≡ vec_capacity changes.old }
    ensures orders { orders.new.items ≡ orders.old.items ++ flat_map (kills_then moment rs.now.items) rows.old }
    ensures orders_len { vec_len orders.new ≡ vec_len orders.old + length (flat_map (kills_then moment rs.now.items) rows.old) }
    ensures orders_capacity { vec_capacity orders.new ≡ vec_capacity orders.old }
    ensures sums { AreSums rows.new result }
    ensures alarmed { AllByRecursion (IsAlarmed alarm.new.ends.items rs.now.items) rows.new }
    ensures kept { (row : Row) → IsAlarmed alarm.old.ends.items rs.now.items row → IsAlarmed alarm.new.ends.items rs.now.items row }
    ensures blocks { length alarm.new.ends.items ≡ length alarm.old.ends.items }
{
    let mut sums = no_sums();
    for row in rows.iter_mut() {
        expire_row(rs, row, changes, moment, entry);
        call_in_row(rs, row, orders, moment);
        sums = with_job(&sums, &row.course);
        alarm.lower(row.job, acts_at(rs, row, &row.course));
    }
    sums
}

/// The same of a block.
pub fn sweep_block(
    rs: &Vec<Accepted>,
    rows: &mut Vec<Row>,
    changes: &mut Vec<Change>,
    orders: &mut Vec<Order>,
    alarm: &mut Alarm,
    moment: Moment,
    entry: u64,
) -> Sums
    requires sorted { AreSorted rs.now.items }
    requires covered { AreCovered alarm.old.ends.items rows.old.items }
    requires changes { vec_len changes.old + length (flat_map (ends entry moment rs.now.items) rows.old.items) ≤ vec_capacity changes.old }
    requires orders { vec_len orders.old + length (flat_map (kills_then moment rs.now.items) rows.old.items) ≤ vec_capacity orders.old }
    ensures items { rows.new.items ≡ map (timed moment rs.now.items) rows.old.items }
    ensures capacity { vec_capacity rows.new ≡ vec_capacity rows.old }
    ensures changes { changes.new.items ≡ changes.old.items ++ flat_map (ends entry moment rs.now.items) rows.old.items }
    ensures changes_len { vec_len changes.new ≡ vec_len changes.old + length (flat_map (ends entry moment rs.now.items) rows.old.items) }
    ensures changes_capacity { vec_capacity changes.new ≡ vec_capacity changes.old }
    ensures orders { orders.new.items ≡ orders.old.items ++ flat_map (kills_then moment rs.now.items) rows.old.items }
    ensures orders_len { vec_len orders.new ≡ vec_len orders.old + length (flat_map (kills_then moment rs.now.items) rows.old.items) }
    ensures orders_capacity { vec_capacity orders.new ≡ vec_capacity orders.old }
    ensures sums { AreSums rows.new.items result }
    ensures alarmed { AllByRecursion (IsAlarmed alarm.new.ends.items rs.now.items) rows.new.items }
    ensures kept { (row : Row) → IsAlarmed alarm.old.ends.items rs.now.items row → IsAlarmed alarm.new.ends.items rs.now.items row }
    ensures blocks { length alarm.new.ends.items ≡ length alarm.old.ends.items }
{
    sweep_rows(rs, &mut rows[..], changes, orders, alarm, moment, entry)
}
