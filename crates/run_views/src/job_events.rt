//! What the entries and the changes of a history tell of jobs.
ghost use Rattle.std.specs.Prelude.{◌≡◌, ◌++◌, [], ◌∷◌, IfOk, OnOk, option_to_list, map};
ghost use Rattle.std.specs.Option.{option_map};
ghost use Rattle.run_views.specs.Told as told;

use crate::events::{later, opening_moment, reported};
use crate::runs::EndReport;
use crate::told::{Happening, JobEvent};
use drmaa_model::{Entry, Launch, Reply};
use drmaa_types::{Change, Moment};
use std::alloc::{AllocError, Global};

/// What a launch tells.
fn launched(at: Moment, launch: &Launch) -> JobEvent
    ensures { result ≡ told.launched at launch.now }
{
    JobEvent {
        job: launch.job,
        what: Happening::Launch {
            at: at.number(),
            slots: launch.slots,
        },
    }
}

/// What a report tells, where there is one.
fn ended(report: Option<EndReport>) -> Option<JobEvent>
    ensures { result ≡ option_map told.ended report }
{
    match report {
        Some(report) => Some(JobEvent {
            job: report.job,
            what: Happening::End(report.end.how),
        }),
        None => None,
    }
}

/// What an entry tells of a job at a moment.
fn told_in(at: Moment, entry: &Entry) -> Option<JobEvent>
    ensures { result ≡ told.told_in at entry.now.call entry.now.reply }
{
    match &entry.reply {
        Reply::Launch(launch) => Some(launched(at, launch)),
        Reply::Unit => ended(reported(at, &entry.call)),
        _ => None,
    }
}

/// Adds an event.
fn push_event(events: &mut Vec<JobEvent>, event: JobEvent) -> Result<(), AllocError>
    ensures { OnOk result (events.new.items ≡ events.old.items ++ event ∷ []) }
{
    events.push(event)?;
    Ok(())
}

/// Adds an event, where there is one.
fn push_told(events: &mut Vec<JobEvent>, event: Option<JobEvent>) -> Result<(), AllocError>
    ensures { OnOk result (events.new.items ≡ events.old.items ++ option_to_list event) }
{
    match event {
        Some(event) => push_event(events, event),
        None => Ok(()),
    }
}

/// Adds what entries tell of jobs.
fn push_entries(events: &mut Vec<JobEvent>, entries: &[Entry]) -> Result<(), AllocError>
    ensures { OnOk result (events.new.items ≡ events.old.items ++ told.told_from 0 entries.now) }
{
    let mut now = opening_moment();
    for entry in entries {
        now = later(now, entry.at);
        push_told(events, told_in(now, entry))?;
    }
    Ok(())
}

/// The machine's moment at each entry, in seconds.
fn moments_of(alloc: Global, entries: &[Entry]) -> Result<Vec<u64>, AllocError>
    ensures { IfOk result (λ moments. moments.items ≡ told.moments_from 0 entries.now) }
{
    let mut moments = Vec::with_capacity(alloc, entries.len())?;
    let mut now = opening_moment();
    for entry in entries {
        now = later(now, entry.at);
        moments.push(now.number())?;
    }
    Ok(moments)
}

/// What a change tells.
fn changed(moments: &[u64], change: &Change) -> JobEvent
    ensures { result ≡ told.changed moments.now change.now }
{
    JobEvent {
        job: change.job,
        what: Happening::Change {
            at: moments
                .get(change.entry.saturating_sub(1) as usize)
                .copied(),
            to: change.to,
        },
    }
}

/// Adds what changes tell of jobs.
fn push_changes(
    events: &mut Vec<JobEvent>,
    moments: &[u64],
    changes: &[Change],
) -> Result<(), AllocError>
    ensures { OnOk result (events.new.items ≡ events.old.items ++ map (told.changed moments.now) changes.now) }
{
    for change in changes {
        push_event(events, changed(moments, change))?;
    }
    Ok(())
}

/// What a history tells of jobs.
pub(crate) fn job_events_of(
    alloc: Global,
    entries: &[Entry],
    changes: &[Change],
) -> Result<Vec<JobEvent>, AllocError>
    ensures { IfOk result (λ events. events.items ≡ told.job_events entries.now changes.now) }
{
    let moments = moments_of(alloc, entries)?;
    let mut events = Vec::with_capacity(alloc, entries.len())?;
    push_entries(&mut events, entries)?;
    push_changes(&mut events, moments.as_slice(), changes)?;
    Ok(events)
}
