//! Where a reservation may lie, and what is wrong with its template.
ghost use Rattle.std.specs.Prelude.{◌≡◌, ◌+◌, ◌-◌, ◌≤◌, nat_le, IfNone, Some, SomeIff};
ghost use Rattle.std.specs.Option.{option_map};
ghost use Rattle.drmaa_types.specs.Moments.{greatest};
ghost use Rattle.drmaa_types.specs.Refusals.{first_refusal, refused_or};
ghost use Rattle.job_template.specs.Frames.{frame_of, frame_tests, length_tests, moment_of, name_tests, slot_tests, start_tests};

use crate::attributes::unsupported;
use crate::texts::{is_bad_name, is_too_long};
use crate::wants::{greatest_slots, least_slots};
use crate::{Frame, ReservationTemplate};
use drmaa_types::{Limit, Moment, Refusal, Start, Which};

/// Where a reservation may lie, how long it is to be, and how many slots it may have. It takes no memory.
///
/// Start and end, start and duration, or end and duration give exactly that interval; a duration alone begins
/// now; all three give the frame inside which the duration may begin anywhere. A start NOW is the current
/// moment.
///
/// # Errors
/// The first of these that holds: `OutOfResource(TemplateText)`, `InvalidArgument` of `ReservationName`,
/// `StartTime`, `Duration`, `EndTime`, `Duration`, `MinSlots`, `MaxSlots`, and `UnsupportedAttribute` of the first of
/// the other attributes.
pub fn validate_reservation(t: &ReservationTemplate, now: Moment) -> Result<Frame, Refusal>
    ensures { result ≡ refused_or (first_refusal (frame_tests now t.now)) (frame_of now t.now) }
{
    if let Some(refusal) = wrong_name(t) {
        return Err(refusal);
    }
    if let Some(refusal) = wrong_start(t, now) {
        return Err(refusal);
    }
    let Some(frame) = frame(t, now) else {
        return Err(Refusal::InvalidArgument(Which::Duration));
    };
    if let Some(refusal) = wrong_length(t, &frame) {
        return Err(refusal);
    }
    if let Some(refusal) = wrong_slots(&frame) {
        return Err(refusal);
    }
    match unsupported(&t.others) {
        Some(refusal) => Err(refusal),
        None => Ok(frame),
    }
}

/// What is wrong with the name.
fn wrong_name(t: &ReservationTemplate) -> Option<Refusal>
    ensures { result ≡ first_refusal (name_tests t.now) }
{
    if is_too_long(&t.reservation_name) {
        Some(Refusal::OutOfResource(Limit::TemplateText))
    } else if is_bad_name(&t.reservation_name) {
        Some(Refusal::InvalidArgument(Which::ReservationName))
    } else {
        None
    }
}

/// What is wrong with the start, or with what says when the reservation ends.
fn wrong_start(t: &ReservationTemplate, now: Moment) -> Option<Refusal>
    ensures { result ≡ first_refusal (start_tests now t.now (frame_of now t.now)) }
{
    let start = Refusal::InvalidArgument(Which::StartTime);
    let duration = Refusal::InvalidArgument(Which::Duration);
    match (start_of(t, now), t.end_time, t.duration) {
        (Some(from), _, _) if from < now => Some(start),
        (None, Some(_), None) => Some(start),
        (None, Some(until), Some(span)) if !lasts_until(now, span, until) => Some(start),
        (_, None, None) => Some(duration),
        _ => None,
    }
}

/// What is wrong with the end or the duration.
fn wrong_length(t: &ReservationTemplate, frame: &Frame) -> Option<Refusal>
    requires { frame.now.until ≤ greatest }
    ensures { result ≡ first_refusal (length_tests t.now frame.now) }
{
    let is_set = t.start_time.is_some() && t.end_time.is_some();
    let is_bad = frame.span == 0 || !lasts_until(frame.from, frame.span, frame.until);
    if is_set && frame.until <= frame.from {
        Some(Refusal::InvalidArgument(Which::EndTime))
    } else if t.duration.is_some() && is_bad {
        Some(Refusal::InvalidArgument(Which::Duration))
    } else {
        None
    }
}

/// What is wrong with the numbers of slots.
fn wrong_slots(frame: &Frame) -> Option<Refusal>
    ensures { result ≡ first_refusal (slot_tests frame.now.min frame.now.max) }
{
    if frame.min == 0 {
        Some(Refusal::InvalidArgument(Which::MinSlots))
    } else if frame.max < frame.min {
        Some(Refusal::InvalidArgument(Which::MaxSlots))
    } else {
        None
    }
}

/// Whether so many seconds from a moment on end at or before another.
fn lasts_until(from: Moment, span: u64, until: Moment) -> bool
    ensures { result ≡ nat_le (from + span) until }
{
    match from.plus(span) {
        Some(end) => end <= until,
        None => false,
    }
}

/// The start, where it is set.
fn start_of(t: &ReservationTemplate, now: Moment) -> Option<Moment>
    ensures { result ≡ option_map (moment_of now) t.now.start_time }
{
    match t.start_time {
        Some(Start::At(moment)) => Some(moment),
        Some(Start::Now) => Some(now),
        None => None,
    }
}

/// The end, where it is set.
fn end_of(t: &ReservationTemplate) -> Option<Moment>
    ensures { result ≡ t.now.end_time }
{
    t.end_time
}

/// So many seconds earlier, and 0 where there was no such moment.
fn earlier(moment: Moment, seconds: u64) -> Moment
    ensures { result ≡ moment - seconds }
{
    Moment::new(moment.number().saturating_sub(seconds)).unwrap_or(moment)
}

/// The frame of a template. None exactly where it would end after the greatest moment.
fn frame(t: &ReservationTemplate, now: Moment) -> Option<Frame>
    ensures frame { SomeIff result ((frame_of now t.now).until ≤ greatest) (frame_of now t.now) }
    // Then the end is not what is set, and the duration is refused.
    ensures late { IfNone result (first_refusal (length_tests t.now (frame_of now t.now)) ≡ Some (Refusal.InvalidArgument Which.Duration)) }
{
    let (from, until, span) = interval(t, now);
    Some(Frame {
        from,
        until: until?,
        span,
        min: least_slots(t.min_slots),
        max: greatest_slots(t.min_slots, t.max_slots),
    })
}

/// The start, the end and the length of the frame. No end exactly where it would be after the greatest moment.
fn interval(t: &ReservationTemplate, now: Moment) -> (Moment, Option<Moment>, u64)
    ensures from { result.0 ≡ (frame_of now t.now).from }
    ensures until { SomeIff result.1 ((frame_of now t.now).until ≤ greatest) (frame_of now t.now).until }
    ensures span { result.2 ≡ (frame_of now t.now).span }
    ensures late { IfNone result.1 (first_refusal (length_tests t.now (frame_of now t.now)) ≡ Some (Refusal.InvalidArgument Which.Duration)) }
{
    match (start_of(t, now), end_of(t), t.duration) {
        (Some(from), Some(until), Some(span)) => (from, Some(until), span),
        (Some(from), Some(until), None) => (from, Some(until), seconds_between(from, until)),
        (Some(from), None, Some(span)) => (from, from.plus(span), span),
        (None, Some(until), Some(span)) => (earlier(until, span), Some(until), span),
        (None, None, Some(span)) => (now, now.plus(span), span),
        (None, Some(until), None) => (now, Some(until), seconds_between(now, until)),
        (Some(from), None, None) => (from, Some(from), 0),
        (None, None, None) => (now, Some(now), 0),
    }
}

/// How many seconds the second moment is after the first, and 0 where it is not.
fn seconds_between(from: Moment, until: Moment) -> u64
    ensures { result ≡ until - from }
{
    until.number().saturating_sub(from.number())
}
