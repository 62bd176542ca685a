//! Conditions of readiness, each looked at by itself: a reason is added where one fails.
ghost use Rattle.std.specs.Prelude.{◌≡◌, ◌+◌, ◌++◌, OnOk, nat_le};
ghost use Rattle.std.specs.Option.{option_copied};
ghost use Rattle.drmaa_model.specs.Load.{covers, reservation_of};
ghost use Rattle.wait_reasons.specs.Reasons as reasons;

use crate::reasons::Reason;
use drmaa_model::Accepted;
use drmaa_types::{JobState, Moment, ReservationId};
use plan_book::states::is_queued;
use std::alloc::AllocError;

/// Adds a reason, unless its condition holds.
pub(crate) fn push_unless(
    list: &mut Vec<Reason>,
    holds: bool,
    reason: Reason,
) -> Result<(), AllocError>
    ensures { OnOk result (list.new.items ≡ list.old.items ++ reasons.unless holds reason) }
{
    if !holds {
        list.push(reason)?;
    }
    Ok(())
}

/// Whether so many slots more are within a limit.
pub(crate) fn has_room(used: u32, slots: u32, limit: u32) -> bool
    ensures { result ≡ nat_le (used + slots) limit }
{
    u64::from(used) + u64::from(slots) <= u64::from(limit)
}

/// The job is not queued.
pub(crate) fn push_state(list: &mut Vec<Reason>, state: JobState) -> Result<(), AllocError>
    ensures { OnOk result (list.new.items ≡ list.old.items ++ reasons.state_reason state) }
{
    push_unless(list, is_queued(state), Reason::NotQueued(state))
}

/// The moment from which it may be launched is not reached.
pub(crate) fn push_start(
    list: &mut Vec<Reason>,
    moment: Moment,
    start: Option<Moment>,
) -> Result<(), AllocError>
    ensures { OnOk result (list.new.items ≡ list.old.items ++ reasons.start_reason moment start) }
{
    match start {
        Some(start) => push_unless(
            list,
            start.number() <= moment.number(),
            Reason::StartsAt(start),
        ),
        None => Ok(()),
    }
}

/// Whether a reservation covers a moment.
pub(crate) fn covers(a: &Accepted, moment: Moment) -> bool
    ensures { result ≡ covers moment a.now }
{
    a.from.number() <= moment.number() && moment.number() < a.until.number()
}

/// The first reservation that covers a moment.
fn covering(accepted: &[Accepted], moment: Moment) -> Option<ReservationId>
    ensures { result ≡ reasons.covering moment accepted.now }
{
    let found = accepted.iter().find(|a| covers(a, moment))?;
    Some(found.reservation)
}

/// The reservation of this number.
pub(crate) fn reservation_of(accepted: &[Accepted], number: ReservationId) -> Option<&Accepted>
    ensures { option_copied result ≡ reservation_of number accepted.now }
{
    accepted.iter().find(|a| a.reservation.0 == number.0)
}

/// The calendar has no room at the first moment of the job's run that is told.
pub(crate) fn push_calendar(
    list: &mut Vec<Reason>,
    accepted: &[Accepted],
    slots: u32,
    overfull: Option<Moment>,
) -> Result<(), AllocError>
    ensures { OnOk result (list.new.items ≡ list.old.items ++ reasons.calendar_reason accepted.now slots overfull) }
{
    if let Some(moment) = overfull {
        list.push(Reason::Overfull {
            wants: slots,
            at: moment,
            reservation: covering(accepted, moment),
        })?;
    }
    Ok(())
}
