//! The orders: signals that are still to be delivered, in order of asking.
ghost use Rattle.std.specs.Prelude.{◌≡◌, ◌+◌, ◌≤◌, vec_len, vec_capacity, IfSome, IsNone, false, true};
ghost use Rattle.std.specs.List.{list_any};
ghost use Rattle.drmaa_model.specs.Launching.{take_first};
ghost use Rattle.drmaa_model.specs.Reporting.{orders_without, drop_first, signal_number};
ghost use Rattle.plan_book.specs.Book.{edited, added_orders, is_order};
ghost use Rattle.plan_book.specs.Places.{IsFirstTo};

use crate::moves::Edit;
use drmaa_model::Order;
use drmaa_types::{JobId, SignalKind};

/// What a move does to the orders.
pub fn edit_orders(orders: &mut Vec<Order>, job: JobId, edit: Edit)
    requires { vec_len orders.old + added_orders edit ≤ vec_capacity orders.old }
    ensures items { orders.new.items ≡ edited edit job orders.old.items }
    ensures len { vec_len orders.new ≤ vec_len orders.old + added_orders edit }
    ensures capacity { vec_capacity orders.new ≡ vec_capacity orders.old }
{
    match edit {
        Edit::Keep => {}
        Edit::Add(kind) => orders.push_reserved(Order {
            job,
            kind,
            taken: false,
        }),
        Edit::Clear => clear_orders(orders, job),
        Edit::Take(kind) => take_order(orders, job, kind),
        Edit::Drop(kind) => drop_order(orders, job, kind),
    }
}

fn clear_orders(orders: &mut Vec<Order>, job: JobId)
    ensures items { orders.new.items ≡ orders_without job orders.old.items }
    ensures len { vec_len orders.new ≤ vec_len orders.old }
    ensures capacity { vec_capacity orders.new ≡ vec_capacity orders.old }
{
    orders.retain(|o| o.job.0 != job.0);
}

fn take_order(orders: &mut Vec<Order>, job: JobId, kind: SignalKind)
    ensures items { orders.new.items ≡ take_first (is_order job kind false) orders.old.items }
    ensures len { vec_len orders.new ≡ vec_len orders.old }
    ensures capacity { vec_capacity orders.new ≡ vec_capacity orders.old }
{
    if let Some(place) = first_order(orders, job, kind, false) {
        orders[place].taken = true;
    }
}

fn drop_order(orders: &mut Vec<Order>, job: JobId, kind: SignalKind)
    ensures items { orders.new.items ≡ drop_first (is_order job kind true) orders.old.items }
    ensures len { vec_len orders.new ≤ vec_len orders.old }
    ensures capacity { vec_capacity orders.new ≡ vec_capacity orders.old }
{
    if let Some(place) = first_order(orders, job, kind, true) {
        orders.remove(place);
    }
}

/// Where the first order of this kind for this job stands that was handed out, or that was not.
fn first_order(orders: &Vec<Order>, job: JobId, kind: SignalKind, taken: bool) -> Option<usize>
    ensures found { IfSome result (IsFirstTo (is_order job kind taken) orders.now.items) }
    ensures none { IsNone result → list_any (is_order job kind taken) orders.now.items ≡ false }
{
    let mut place = 0;
    for order in orders {
        if is_order(order, job, kind, taken) {
            return Some(place);
        }
        place += 1;
    }
    None
}

fn is_order(order: &Order, job: JobId, kind: SignalKind, taken: bool) -> bool
    ensures { result ≡ is_order job kind taken order.now }
{
    order.taken == taken && order.job.0 == job.0 && number_of(order.kind) == number_of(kind)
}

fn number_of(kind: SignalKind) -> u8
    ensures { result ≡ signal_number kind }
{
    match kind {
        SignalKind::Stop => 0,
        SignalKind::Cont => 1,
        SignalKind::Kill => 2,
    }
}
