//! The starts of a reservation that recurs.
ghost use Rattle.std.specs.Prelude.{◌≡◌, ◌⊎◌, ℕ, ◌+◌, ◌*◌, ◌<◌, ◌≤◌, IfOk, IfErr, IfSome, IfNone};
ghost use Rattle.drmaa_types.specs.Moments.{greatest};
ghost use Rattle.recurring_reservations.specs.Dates.{IsBeyond};
ghost use Rattle.recurring_reservations.specs.Occurrences.{number_in, most, IsOccurrence, IsLate, AreStarts};

use crate::Every;
use crate::dates::{SECONDS_OF_DAY, months_later};
use drmaa_types::{Moment, Refusal, Which};
use std::alloc::Global;

/// Occurrence `index` of a start, from 0 on. None exactly where it would be after the greatest moment.
fn occurrence(start: Moment, every: Every, index: u32) -> Option<Moment>
    requires number { number_in every ≤ most }
    requires index { index < most }
    ensures found { IfSome result (IsOccurrence start every index) }
    ensures beyond { IfNone result (IsBeyond (IsOccurrence start every index)) }
{
    match every {
        Every::Days(days) => start.plus(SECONDS_OF_DAY * u64::from(days) * u64::from(index)),
        Every::Weeks(weeks) => start.plus(
            7 * (SECONDS_OF_DAY * u64::from(weeks) * u64::from(index)),
        ),
        Every::Months(months) => months_later(start, months * index),
    }
}

/// The same, where it ends in time. None exactly where it would end after the greatest moment.
fn occurrence_within(start: Moment, every: Every, index: u32, duration: u64) -> Option<Moment>
    requires number { number_in every ≤ most }
    requires index { index < most }
    ensures found { IfSome result (IsOccurrence start every index) }
    ensures within { IfSome result (λ from. from + duration ≤ greatest) }
    ensures late { IfNone result ((from : ℕ) × IsOccurrence start every index from × (greatest < from + duration)) }
{
    let from = occurrence(start, every, index)?;
    from.plus(duration)?;
    Some(from)
}

/// The starts of all occurrences, in order.
///
/// # Errors
///
/// `InvalidArgument(EndTime)` exactly where an occurrence would end after the greatest moment; and want of memory.
pub(crate) fn all_starts(
    alloc: Global,
    start: Moment,
    every: Every,
    count: u32,
    duration: u64,
) -> Result<Vec<Moment>, Refusal>
    requires number { number_in every ≤ most }
    requires count { count ≤ most }
    ensures ok { IfOk result (λ starts. AreStarts start every count duration starts.items) }
    ensures err { IfErr result (λ why. (why ≡ Refusal.OutOfMemory) ⊎ ((why ≡ Refusal.InvalidArgument Which.EndTime) × IsLate start every count duration)) }
{
    let mut starts = Vec::new(alloc);
    for index in 0..count {
        let Some(from) = occurrence_within(start, every, index, duration) else {
            return Err(Refusal::InvalidArgument(Which::EndTime));
        };
        let Ok(()) = starts.push(from) else {
            return Err(Refusal::OutOfMemory);
        };
    }
    Ok(starts)
}
