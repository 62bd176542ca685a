//! The reasons of a job of a machine, as the machine is now.
ghost use Rattle.std.specs.Prelude.{◌≡◌, ◌++◌, IfOk, OnOk, [], ◌∷◌};
ghost use Rattle.std.specs.Option.{option_map_or};
ghost use Rattle.drmaa_model.specs.History.{now_of};
ghost use Rattle.wait_reasons.specs.Sums.{IsKnown, IsSummable};
ghost use Rattle.wait_reasons.specs.Reasons as reasons;

use crate::conditions::{
    covers, has_room, push_calendar, push_start, push_state, push_unless, reservation_of,
};
use crate::reasons::{Reason, ReasonList};
use crate::sums::{Known, Share};
use drmaa_machine::Machine;
use drmaa_model::{Accepted, Row, Wants};
use drmaa_types::{ListOf, ReservationId, queue_at};
use plan_book::courses::planned_end;
use std::alloc::{AllocError, Global};

/// As many members of its array hold slots as may.
fn push_array(
    list: &mut Vec<Reason>,
    machine: &Machine,
    wants: &Wants,
    known: &mut Known,
) -> Result<(), AllocError>
    requires sums { IsSummable (now_of machine.now.ledger).plan }
    requires known { IsKnown (now_of machine.now.ledger).plan.rows known.old }
    ensures added { OnOk result (list.new.items ≡ list.old.items ++ reasons.array_reason (now_of machine.now.ledger).plan.rows wants.now) }
    ensures known { IsKnown (now_of machine.now.ledger).plan.rows known.new }
{
    let Some(bound) = wants.bound else {
        return Ok(());
    };
    let Some(array) = wants.array else {
        return Ok(());
    };
    let holding = known.sum(machine.blocks(), Share::Array(array));
    push_unless(list, holding < bound, Reason::ArrayFull { holding, bound })
}

/// Fewer slots are free.
fn push_free(
    list: &mut Vec<Reason>,
    machine: &Machine,
    slots: u32,
    total: u32,
) -> Result<(), AllocError>
    requires { total ≡ (now_of machine.now.ledger).plan.total }
    ensures { OnOk result (list.new.items ≡ list.old.items ++ reasons.free_reason (now_of machine.now.ledger).plan slots) }
{
    let held = machine.held();
    push_unless(
        list,
        has_room(held, slots, total),
        Reason::FewFree {
            wants: slots,
            free: total.saturating_sub(held),
        },
    )
}

/// Its queue has no room.
fn push_queue(
    list: &mut Vec<Reason>,
    machine: &Machine,
    slots: u32,
    place: u32,
    known: &mut Known,
) -> Result<(), AllocError>
    requires sums { IsSummable (now_of machine.now.ledger).plan }
    requires known { IsKnown (now_of machine.now.ledger).plan.rows known.old }
    ensures added { OnOk result (list.new.items ≡ list.old.items ++ reasons.queue_reason (now_of machine.now.ledger).plan slots place) }
    ensures known { IsKnown (now_of machine.now.ledger).plan.rows known.new }
{
    let Some(queue) = queue_at(machine.queues(), place) else {
        return Ok(());
    };
    let used = known.sum(machine.blocks(), Share::Queue(place));
    push_unless(
        list,
        has_room(used, slots, queue.limit),
        Reason::QueueFull {
            queue: place,
            used,
            limit: queue.limit,
        },
    )
}

/// An ordinary job: the calendar or its queue has no room.
fn push_ordinary(
    list: &mut Vec<Reason>,
    machine: &Machine,
    slots: u32,
    wants: &Wants,
    known: &mut Known,
) -> Result<(), AllocError>
    requires sums { IsSummable (now_of machine.now.ledger).plan }
    requires known { IsKnown (now_of machine.now.ledger).plan.rows known.old }
    ensures added { OnOk result (list.new.items ≡ list.old.items ++ reasons.ordinary_reasons (now_of machine.now.ledger).plan slots wants.now) }
    ensures known { IsKnown (now_of machine.now.ledger).plan.rows known.new }
{
    let planned = planned_end(wants, machine.moment());
    let overfull = machine.first_overfull(slots, planned);
    push_calendar(list, machine.accepted(), slots, overfull)?;
    match wants.queue {
        Some(place) => push_queue(list, machine, slots, place, known),
        None => Ok(()),
    }
}

/// A job of a reservation: this one does not cover the moment, or has too few slots left.
fn push_inside(
    list: &mut Vec<Reason>,
    machine: &Machine,
    slots: u32,
    number: ReservationId,
    a: &Accepted,
    known: &mut Known,
) -> Result<(), AllocError>
    requires sums { IsSummable (now_of machine.now.ledger).plan }
    requires known { IsKnown (now_of machine.now.ledger).plan.rows known.old }
    ensures added { OnOk result (list.new.items ≡ list.old.items ++ reasons.inside_reasons (now_of machine.now.ledger).plan slots number a.now) }
    ensures known { IsKnown (now_of machine.now.ledger).plan.rows known.new }
{
    let outside = Reason::ReservationOutside {
        reservation: number,
        from: a.from,
        until: a.until,
    };
    push_unless(list, covers(a, machine.moment()), outside)?;
    let used = known.sum(machine.blocks(), Share::Reservation(number));
    let full = Reason::ReservationFull {
        reservation: number,
        used,
        slots: a.slots,
    };
    push_unless(list, has_room(used, slots, a.slots), full)
}

/// A job of a reservation.
fn push_reserved(
    list: &mut Vec<Reason>,
    machine: &Machine,
    slots: u32,
    number: ReservationId,
    known: &mut Known,
) -> Result<(), AllocError>
    requires sums { IsSummable (now_of machine.now.ledger).plan }
    requires known { IsKnown (now_of machine.now.ledger).plan.rows known.old }
    ensures added { OnOk result (list.new.items ≡ list.old.items ++ reasons.reservation_reasons (now_of machine.now.ledger).plan slots number) }
    ensures known { IsKnown (now_of machine.now.ledger).plan.rows known.new }
{
    match reservation_of(machine.accepted(), number) {
        Some(a) => push_inside(list, machine, slots, number, a, known),
        None => push_unless(list, false, Reason::ReservationGone(number)),
    }
}

/// As far as its state, its start and its array go.
fn push_coming(
    list: &mut Vec<Reason>,
    machine: &Machine,
    row: &Row,
    known: &mut Known,
) -> Result<(), AllocError>
    requires sums { IsSummable (now_of machine.now.ledger).plan }
    requires known { IsKnown (now_of machine.now.ledger).plan.rows known.old }
    ensures added { OnOk result (list.new.items ≡ list.old.items ++ reasons.coming_reasons (now_of machine.now.ledger).plan row.now) }
    ensures known { IsKnown (now_of machine.now.ledger).plan.rows known.new }
{
    push_state(list, row.course.state)?;
    push_start(list, machine.moment(), row.wants.start)?;
    push_array(list, machine, &row.wants, known)
}

/// As far as the calendar, a queue or a reservation goes.
fn push_places(
    list: &mut Vec<Reason>,
    machine: &Machine,
    slots: u32,
    wants: &Wants,
    known: &mut Known,
) -> Result<(), AllocError>
    requires sums { IsSummable (now_of machine.now.ledger).plan }
    requires known { IsKnown (now_of machine.now.ledger).plan.rows known.old }
    ensures added { OnOk result (list.new.items ≡ list.old.items ++ reasons.place_reasons (now_of machine.now.ledger).plan slots wants.now) }
    ensures known { IsKnown (now_of machine.now.ledger).plan.rows known.new }
{
    match wants.reservation {
        Some(number) => push_reserved(list, machine, slots, number, known),
        None => push_ordinary(list, machine, slots, wants, known),
    }
}

/// The reasons of a job, with what is known of all rows.
pub(crate) fn reasons_with(
    alloc: Global,
    machine: &Machine,
    row: &Row,
    known: &mut Known,
) -> Result<Vec<Reason>, AllocError>
    requires known { IsKnown (now_of machine.now.ledger).plan.rows known.old }
    ensures value { IfOk result (λ list. list.items ≡ reasons.reasons (now_of machine.now.ledger).plan row.now.wants.min row.now) }
    ensures known { IsKnown (now_of machine.now.ledger).plan.rows known.new }
{
    let slots = row.wants.min;
    let total = machine.slots();
    let mut list = Vec::new(alloc);
    push_coming(&mut list, machine, row, known)?;
    push_free(&mut list, machine, slots, total)?;
    push_places(&mut list, machine, slots, &row.wants, known)?;
    Ok(list)
}

/// Why a job is not launched now with its minSlots, for the machine as it is: a reason for each condition of readiness that fails,
/// in their order, and none where it is ready.
///
/// # Errors
///
/// Want of memory.
pub fn reasons_of(alloc: Global, machine: &Machine, row: &Row) -> Result<ReasonList, AllocError>
    ensures { IfOk result (λ list. list ≡ reasons.reasons (now_of machine.now.ledger).plan row.now.wants.min row.now) }
{
    let list = reasons_with(alloc, machine, row, &mut Known::new())?;
    Ok(ListOf::from_vec(list))
}
