//! How high the load is over an interval: each walk goes once over the boundaries of the interval alone, which
//! are found by halving, and takes no memory.
ghost use Rattle.std.specs.Prelude.{◌≡◌, ℕ, ◌+◌, ◌<◌, ◌≤◌, ◌↔◌, nat_le, Some, None, IsTrue, IfSome, IfNone, IsSomeAnd, if◌then◌else◌};
ghost use Rattle.std.specs.Option.{option_or};
ghost use Rattle.reservation_calendar.specs.Timelines.{IsTimeline};
ghost use Rattle.reservation_calendar.specs.Heights.{IsLow, IsAbove, IsLowStart};

use crate::bookings::is_before;
use crate::boundaries::{Boundary, count_before, count_until, load_before};
use drmaa_types::{End, Moment};

/// The least moment of the interval at which the load is above so many slots.
pub fn first_above(steps: &[Boundary], most: u32, from: Moment, until: &End) -> Option<Moment>
    requires { IsTimeline steps.now }
    ensures above { IfSome result (IsAbove steps.now most from until.now) }
    ensures least { IfSome result
        (λ x. (y : ℕ) → IsAbove steps.now most from until.now y → x ≤ y) }
    ensures none { IfNone result (IsLow steps.now most from until.now) }
{
    if !is_before(from, until) {
        return None;
    }
    let first = count_until(steps, from);
    let last = count_before(steps, until);
    if most < load_before(steps, first) {
        return Some(from);
    }
    for k in first..last {
        if most < steps[k].load {
            return Some(steps[k].moment);
        }
    }
    None
}

/// The greatest load in the interval; 0 where it has no moment.
pub fn greatest_in(steps: &[Boundary], from: Moment, until: &End) -> u32
    requires { IsTimeline steps.now }
    ensures high { IsLow steps.now result from until.now }
    ensures least { (most : ℕ) → IsLow steps.now most from until.now → result ≤ most }
{
    if !is_before(from, until) {
        return 0;
    }
    let first = count_until(steps, from);
    let last = count_before(steps, until);
    let mut greatest = load_before(steps, first);
    for k in first..last {
        greatest = greatest.max(steps[k].load);
    }
    greatest
}

/// The least start at or after `from` from which the load is at most so many slots for `span` seconds, where
/// these end at or before `until`.
pub fn earliest(
    steps: &[Boundary],
    most: u32,
    from: Moment,
    until: Moment,
    span: u64,
) -> Option<Moment>
    requires sound { IsTimeline steps.now }
    requires span { 0 < span }
    ensures low { IfSome result (IsLowStart steps.now most from until span) }
    ensures least { IfSome result
        (λ x. (y : ℕ) → IsLowStart steps.now most from until span y → x ≤ y) }
    ensures none { IfNone result ((y : ℕ) → IsLowStart steps.now most from until span y → ⊥) }
{
    if until <= from {
        return None;
    }
    let first = count_until(steps, from);
    let last = count_before(steps, &End::At(until));
    let mut start = start_where(load_before(steps, first) <= most, None, from);
    for k in first..last {
        if ends_by(&start, span, steps[k].moment) {
            return start;
        }
        start = start_where(steps[k].load <= most, start, steps[k].moment);
    }
    if ends_by(&start, span, until) {
        start
    } else {
        None
    }
}

// Since when the load is low, from this moment on: none where it is not.
fn start_where(is_low: bool, earlier: Option<Moment>, here: Moment) -> Option<Moment>
    ensures { result ≡ (if is_low then option_or earlier (Some here) else None) }
{
    if is_low { earlier.or(Some(here)) } else { None }
}

// Whether the span from the start ends at or before the moment.
fn ends_by(start: &Option<Moment>, span: u64, x: Moment) -> bool
    ensures { IsTrue result ↔ IsSomeAnd start.now (λ s. s + span ≤ x) }
{
    let Some(start) = start else {
        return false;
    };
    match start.plus(span) {
        Some(end) => end <= x,
        None => false,
    }
}
