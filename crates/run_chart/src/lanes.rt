//! The lanes of the slots, and which of them each launch takes.
ghost use Rattle.std.specs.Prelude.{◌≡◌, ◌++◌, IfOk, OnOk, map};
ghost use Rattle.run_chart.specs.Lanes as spec;

use drmaa_model::{Call, Entry, Reply};
use drmaa_types::{JobId, ListOf};
use std::alloc::{AllocError, Global};

/// Lanes next to one another: from `first` on, and before `end`.
#[derive(Clone, Copy)]
pub struct Span {
    pub first: u32,
    pub end: u64,
}

/// The lanes of one run, from the first on.
pub type SpanList = ListOf<Span>;

/// One launch of a job.
#[derive(Clone, Copy)]
pub struct Attempt {
    pub job: JobId,
    pub attempt: u32,
}

/// The lane of a slot, and the launch that holds it.
#[derive(Clone, Copy)]
pub struct Lane {
    pub number: u32,
    pub holder: Option<Attempt>,
}

/// What an entry does to the lanes.
#[derive(Clone, Copy)]
pub enum LaneStep {
    /// A launch takes so many.
    Takes(Attempt, u32),
    /// The end of a launch is reported.
    Leaves(Attempt),
    Stays,
}

/// All lanes, and nobody holds one.
fn opened(alloc: Global, slots: u32) -> Result<Vec<Lane>, AllocError>
    ensures { IfOk result (λ lanes. lanes.items ≡ spec.opened slots) }
{
    let mut lanes = Vec::new(alloc);
    let mut number = 0;
    'lanes: while number < slots {
        lanes.push(Lane {
            number,
            holder: None,
        })?;
        number += 1;
    }
    Ok(lanes)
}

/// Whether a launch that lacks so many lanes takes this one.
fn is_taken(left: u32, lane: Lane) -> bool
    ensures { result ≡ spec.is_taken left lane }
{
    0 < left && lane.holder.is_none()
}

/// The first free lanes, so many of them.
fn free_lanes(alloc: Global, lanes: &[Lane], slots: u32) -> Result<Vec<u32>, AllocError>
    ensures { IfOk result (λ free. free.items ≡ spec.free_lanes slots lanes.now) }
{
    let mut free = Vec::new(alloc);
    let mut left = slots;
    for lane in lanes {
        if is_taken(left, *lane) {
            free.push(lane.number)?;
            left -= 1;
        }
    }
    Ok(free)
}

/// The lanes, where a launch holds the first free ones, so many of them.
fn taken(alloc: Global, lanes: &[Lane], who: Attempt, slots: u32) -> Result<Vec<Lane>, AllocError>
    ensures { IfOk result (λ held. held.items ≡ spec.taken who slots lanes.now) }
{
    let mut held = Vec::with_capacity(alloc, lanes.len())?;
    let mut left = slots;
    for lane in lanes {
        if is_taken(left, *lane) {
            held.push(Lane {
                number: lane.number,
                holder: Some(who),
            })?;
            left -= 1;
        } else {
            held.push(*lane)?;
        }
    }
    Ok(held)
}

/// A lane that a launch has left.
fn without(who: Attempt, lane: Lane) -> Lane
    ensures { result ≡ spec.without who lane }
{
    match lane.holder {
        Some(holder) if holder.job.0 == who.job.0 && holder.attempt == who.attempt => Lane {
            number: lane.number,
            holder: None,
        },
        _ => lane,
    }
}

/// The lanes, where a launch has left its own.
fn left(alloc: Global, lanes: &[Lane], who: Attempt) -> Result<Vec<Lane>, AllocError>
    ensures { IfOk result (λ free. free.items ≡ map (spec.without who) lanes.now) }
{
    let mut free = Vec::with_capacity(alloc, lanes.len())?;
    for lane in lanes {
        free.push(without(who, *lane))?;
    }
    Ok(free)
}

/// Adds a span, where it has a lane.
fn push_span(spans: &mut Vec<Span>, span: Span) -> Result<(), AllocError>
    ensures { OnOk result (spans.new.items ≡ spans.old.items ++ spec.span span.first span.end) }
{
    if u64::from(span.first) < span.end {
        spans.push(span)?;
    }
    Ok(())
}

/// The span of one lane.
fn span_of(lane: u32) -> Span
    ensures first { result.first ≡ lane }
    ensures end { result.end ≡ spec.behind lane }
{
    Span {
        first: lane,
        end: u64::from(lane) + 1,
    }
}

/// Lanes, those next to one another as one.
fn spans_of(alloc: Global, lanes: &[u32]) -> Result<Vec<Span>, AllocError>
    ensures { IfOk result (λ spans. spans.items ≡ spec.spans_of lanes.now) }
{
    let mut spans = Vec::new(alloc);
    let mut first = 0;
    let mut end = 0;
    for lane in lanes {
        let next = span_of(*lane);
        if u64::from(next.first) != end {
            push_span(&mut spans, Span { first, end })?;
            first = next.first;
        }
        end = next.end;
    }
    push_span(&mut spans, Span { first, end })?;
    Ok(spans)
}

/// What an entry does to the lanes.
fn step_of(call: &Call, reply: &Reply) -> LaneStep
    ensures { result ≡ spec.step_of call.now reply.now }
{
    match reply {
        Reply::Launch(launch) => LaneStep::Takes(
            Attempt {
                job: launch.job,
                attempt: launch.attempt,
            },
            launch.slots,
        ),
        Reply::Unit => ended(call),
        _ => LaneStep::Stays,
    }
}

/// What an accepted call does to the lanes: a report of an end gives back those of the launch.
fn ended(call: &Call) -> LaneStep
    ensures { result ≡ spec.ended call.now }
{
    match call {
        Call::StartFailed { job, attempt }
        | Call::Exited { job, attempt, .. }
        | Call::ExitUnknown { job, attempt } => LaneStep::Leaves(Attempt {
            job: *job,
            attempt: *attempt,
        }),
        _ => LaneStep::Stays,
    }
}

/// Adds the lanes that a step takes, where it takes any.
fn push_taken(
    alloc: Global,
    found: &mut Vec<SpanList>,
    lanes: &[Lane],
    step: LaneStep,
) -> Result<(), AllocError>
    ensures { OnOk result (found.new.items ≡ found.old.items ++ spec.taken_by step lanes.now) }
{
    match step {
        LaneStep::Takes(_, slots) => {
            let free = free_lanes(alloc, lanes, slots)?;
            let spans = spans_of(alloc, free.as_slice())?;
            found.push(SpanList::from_vec(spans))?;
            Ok(())
        }
        LaneStep::Leaves(_) | LaneStep::Stays => Ok(()),
    }
}

/// The lanes after a step.
fn after(alloc: Global, lanes: Vec<Lane>, step: LaneStep) -> Result<Vec<Lane>, AllocError>
    ensures { IfOk result (λ later. later.items ≡ spec.after step lanes.items) }
{
    match step {
        LaneStep::Takes(who, slots) => taken(alloc, lanes.as_slice(), who, slots),
        LaneStep::Leaves(who) => left(alloc, lanes.as_slice(), who),
        LaneStep::Stays => Ok(lanes),
    }
}

/// The lanes of each launch of a history, on a machine with so many slots.
pub(crate) fn lanes_of(
    alloc: Global,
    entries: &[Entry],
    slots: u32,
) -> Result<Vec<SpanList>, AllocError>
    ensures { IfOk result (λ lanes. lanes.items ≡ spec.lanes_of slots entries.now) }
{
    let mut found = Vec::new(alloc);
    let mut lanes = opened(alloc, slots)?;
    for entry in entries {
        let step = step_of(&entry.call, &entry.reply);
        push_taken(alloc, &mut found, lanes.as_slice(), step)?;
        lanes = after(alloc, lanes, step)?;
    }
    Ok(found)
}
