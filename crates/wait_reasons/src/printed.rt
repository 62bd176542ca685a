//! The text of reasons.
ghost use Rattle.std.specs.Prelude.{◌≡◌, ◌++◌, OnOk, string_bytes};
ghost use Rattle.wait_reasons.specs.Texts as texts;

use crate::reasons::Reason;
use drmaa_types::{JobState, Moment, QueueList, ReservationId, queue_at};
use itoa::Buffer;
use std::alloc::{AllocError, Global};
use text_codec::quoted;

/// Writes a number between words.
#[tactic(auto, unfolding(crate::specs::Texts::one_number))]
fn push_one(out: &mut String, before: &str, number: u64, behind: &str) -> Result<(), AllocError>
    ensures { OnOk result (string_bytes out.new ≡ string_bytes out.old ++ texts.one_number before.now number behind.now) }
{
    let mut digits = Buffer::new();
    out.push_str(before)?;
    out.push_str(digits.format(number))?;
    out.push_str(behind)
}

/// Writes two numbers between words.
#[tactic(auto, unfolding(crate::specs::Texts::two_numbers))]
fn push_two(
    out: &mut String,
    before: &str,
    first: u64,
    between: &str,
    second: u64,
    behind: &str,
) -> Result<(), AllocError>
    ensures { OnOk result (string_bytes out.new ≡ string_bytes out.old ++ texts.two_numbers before.now first between.now second behind.now) }
{
    let mut digits = Buffer::new();
    out.push_str(before)?;
    out.push_str(digits.format(first))?;
    out.push_str(between)?;
    out.push_str(digits.format(second))?;
    out.push_str(behind)
}

/// Writes the state of a job that is not queued.
#[tactic(auto, unfolding(crate::specs::Texts::standing_text))]
fn push_standing(out: &mut String, state: JobState) -> Result<(), AllocError>
    ensures { OnOk result (string_bytes out.new ≡ string_bytes out.old ++ texts.standing_text state) }
{
    match state {
        JobState::QueuedHeld | JobState::RequeuedHeld => out.push_str("held"),
        JobState::Undetermined
        | JobState::Queued
        | JobState::Running
        | JobState::Suspended
        | JobState::Requeued
        | JobState::Done
        | JobState::Failed => {
            out.push_str("is ")?;
            out.push_str(state.name())
        }
    }
}

/// Writes a reservation behind a moment that it covers.
#[tactic(auto, unfolding(crate::specs::Texts::covering_text))]
fn push_covering(out: &mut String, number: Option<ReservationId>) -> Result<(), AllocError>
    ensures { OnOk result (string_bytes out.new ≡ string_bytes out.old ++ texts.covering_text number) }
{
    match number {
        Some(number) => push_one(out, " (reservation ", number.0, ")"),
        None => Ok(()),
    }
}

/// Writes that the calendar has no room at a moment.
#[tactic(auto, unfolding(crate::specs::Texts::overfull_text))]
fn push_overfull(
    out: &mut String,
    wants: u32,
    at: Moment,
    number: Option<ReservationId>,
) -> Result<(), AllocError>
    ensures { OnOk result (string_bytes out.new ≡ string_bytes out.old ++ texts.overfull_text wants at number) }
{
    push_two(
        out,
        "no room for ",
        u64::from(wants),
        " on the calendar at @",
        at.number(),
        "",
    )?;
    push_covering(out, number)
}

/// Writes the name of the queue at a place.
#[tactic(auto, unfolding(crate::specs::Texts::queue_text))]
fn push_queue(
    out: &mut String,
    alloc: Global,
    queues: &QueueList,
    place: u32,
) -> Result<(), AllocError>
    ensures { OnOk result (string_bytes out.new ≡ string_bytes out.old ++ texts.queue_text queues.now place) }
{
    let Some(queue) = queue_at(queues, place) else {
        return Ok(());
    };
    let name = quoted(alloc, &queue.name)?;
    out.push_str(name.as_str())
}

/// Writes why a job of a reservation is not launched.
#[tactic(auto, unfolding(crate::specs::Texts::reserved_text))]
fn push_reserved(
    out: &mut String,
    number: ReservationId,
    before: &str,
    first: u64,
    between: &str,
    second: u64,
    behind: &str,
) -> Result<(), AllocError>
    ensures { OnOk result (string_bytes out.new ≡ string_bytes out.old ++ texts.reserved_text number before.now first between.now second behind.now) }
{
    push_one(out, "reservation ", number.0, "")?;
    push_two(out, before, first, between, second, behind)
}

/// Writes a reason.
#[tactic(auto, unfolding(crate::specs::Texts::reason_text))]
fn push_reason(
    out: &mut String,
    alloc: Global,
    queues: &QueueList,
    reason: Reason,
) -> Result<(), AllocError>
    ensures { OnOk result (string_bytes out.new ≡ string_bytes out.old ++ texts.reason_text queues.now reason) }
{
    match reason {
        Reason::NotQueued(state) => push_standing(out, state),
        Reason::StartsAt(moment) => push_one(out, "starts at @", moment.number(), ""),
        Reason::ArrayFull { holding, bound } => push_two(
            out,
            "its array has ",
            u64::from(holding),
            " of ",
            u64::from(bound),
            "",
        ),
        Reason::FewFree { wants, free } => push_two(
            out,
            "wants ",
            u64::from(wants),
            " of ",
            u64::from(free),
            " free slots",
        ),
        Reason::Overfull {
            wants,
            at,
            reservation,
        } => push_overfull(out, wants, at, reservation),
        Reason::QueueFull { queue, used, limit } => {
            out.push_str("queue ")?;
            push_queue(out, alloc, queues, queue)?;
            push_two(out, " has ", u64::from(used), " of ", u64::from(limit), "")
        }
        Reason::ReservationGone(number) => push_one(out, "reservation ", number.0, " is gone"),
        Reason::ReservationOutside {
            reservation,
            from,
            until,
        } => push_reserved(
            out,
            reservation,
            " is from @",
            from.number(),
            " to @",
            until.number(),
            "",
        ),
        Reason::ReservationFull {
            reservation,
            used,
            slots,
        } => push_reserved(
            out,
            reservation,
            " has ",
            u64::from(used),
            " of ",
            u64::from(slots),
            " in use",
        ),
    }
}

/// Writes the reasons behind the first.
fn push_others(
    out: &mut String,
    alloc: Global,
    queues: &QueueList,
    others: &[Reason],
) -> Result<(), AllocError>
    ensures { OnOk result (string_bytes out.new ≡ string_bytes out.old ++ texts.other_texts queues.now others.now) }
{
    for reason in others {
        out.push_str("; ")?;
        push_reason(out, alloc, queues, *reason)?;
    }
    Ok(())
}

/// Writes reasons of a job of a machine with these queues, parted by `; `, or `ready` where there is none.
///
/// # Errors
///
/// Want of memory.
pub fn push_reasons(
    out: &mut String,
    alloc: Global,
    queues: &QueueList,
    reasons: &[Reason],
) -> Result<(), AllocError>
    ensures { OnOk result (string_bytes out.new ≡ string_bytes out.old ++ texts.reasons_text queues.now reasons.now) }
{
    let Some((first, others)) = reasons.split_first() else {
        return out.push_str("ready");
    };
    push_reason(out, alloc, queues, *first)?;
    push_others(out, alloc, queues, others)
}
