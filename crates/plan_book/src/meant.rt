//! The rows among which all are that a call is for, in parts, and what is done with each part.
ghost use Rattle.std.specs.Prelude.{◌≡◌, ◌+◌, ◌≤◌, ◌++◌, filter, length, vec_len, vec_capacity};
ghost use Rattle.std.specs.List.{flat_map};
ghost use Rattle.drmaa_model.specs.Controlling.{asked_orders, is_controlled};
ghost use Rattle.drmaa_model.specs.Time.{lasts};
ghost use Rattle.drmaa_model.specs.TimeLaws.{timed};
ghost use Rattle.plan_book.specs.Meant.{rows_of};
ghost use Rattle.plan_book.specs.Places.{AreSorted};
ghost use Rattle.plan_book.specs.Sweeps.{noted};

use crate::controls::acted_then;
use crate::sweeps::{add_orders, note_controls};
use drmaa_model::{Accepted, Order, Row, Target};
use drmaa_types::{Change, Control, Moment};

/// Rows in parts: those of one block, and behind them those of others.
#[derive(Clone, Copy)]
pub struct MeantRows<'a> {
    /// The row of one job, or none.
    pub alone: &'a [Row],
    /// The rows of blocks.
    pub blocks: &'a [Vec<Row>],
}

/// On how many of these jobs the call will act, once time has come to this moment.
pub fn acted_among(
    rs: &Vec<Accepted>,
    rows: MeantRows<'_>,
    moment: Moment,
    target: &Target,
    what: Control,
) -> usize
    requires sorted { AreSorted rs.now.items }
    requires few { length (filter (λ row. is_controlled target.now what (timed moment (filter (lasts moment) rs.now.items) row)) (rows_of rows)) ≤ 4_000_000 }
    ensures { result ≡ length (filter (λ row. is_controlled target.now what (timed moment (filter (lasts moment) rs.now.items) row)) (rows_of rows.entry)) }
{
    let mut acted = acted_then(rs, rows.alone, moment, target, what);
    for block in rows.blocks {
        acted += acted_then(rs, &block[..], moment, target, what);
    }
    acted
}

/// Notes the changes of those of these jobs on which the call acts.
pub fn note_among(
    rows: MeantRows<'_>,
    changes: &mut Vec<Change>,
    moment: Moment,
    entry: u64,
    target: &Target,
    what: Control,
)
    requires { vec_len changes.old + length (flat_map (noted entry moment target.now what) (rows_of rows)) ≤ vec_capacity changes.old }
    ensures items { changes.new.items ≡ changes.old.items ++ flat_map (noted entry moment target.now what) (rows_of rows.entry) }
    ensures len { vec_len changes.new ≡ vec_len changes.old + length (flat_map (noted entry moment target.now what) (rows_of rows.entry)) }
    ensures capacity { vec_capacity changes.new ≡ vec_capacity changes.old }
{
    note_controls(rows.alone, changes, moment, entry, target, what);
    for block in rows.blocks {
        note_controls(&block[..], changes, moment, entry, target, what);
    }
}

/// Adds the orders that the call asks for to these jobs.
pub fn order_among(rows: MeantRows<'_>, orders: &mut Vec<Order>, target: &Target, what: Control)
    requires { vec_len orders.old + length (flat_map (asked_orders target.now what) (rows_of rows)) ≤ vec_capacity orders.old }
    ensures items { orders.new.items ≡ orders.old.items ++ flat_map (asked_orders target.now what) (rows_of rows.entry) }
    ensures len { vec_len orders.new ≡ vec_len orders.old + length (flat_map (asked_orders target.now what) (rows_of rows.entry)) }
    ensures capacity { vec_capacity orders.new ≡ vec_capacity orders.old }
{
    add_orders(rows.alone, orders, target, what);
    for block in rows.blocks {
        add_orders(&block[..], orders, target, what);
    }
}
