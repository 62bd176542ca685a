//! What the entries of a history tell of runs.
ghost use Rattle.std.specs.Prelude.{◌≡◌, ◌++◌, IfOk, OnOk, max, option_to_list};
ghost use Rattle.std.specs.Option.{option_map};
ghost use Rattle.run_views.specs.Runs as meant;

use crate::runs::{EndReport, Ending, Run, RunEnd, RunEvent};
use drmaa_model::{Call, Entry, Launch, Reply};
use drmaa_types::Moment;
use std::alloc::{AllocError, Global};

/// The moment before the first entry.
pub(crate) fn opening_moment() -> Moment
    ensures { result ≡ 0 }
{
    Moment::new(0).unwrap_or(Moment::greatest())
}

/// The moment to which time comes by an entry: it never falls.
pub(crate) fn later(now: Moment, at: Moment) -> Moment
    ensures { result ≡ max now at }
{
    if now.number() < at.number() { at } else { now }
}

/// The run that a launch begins.
fn begun(at: Moment, launch: &Launch) -> Result<Run, AllocError>
    ensures { IfOk result (λ run. run ≡ meant.begun at launch.now) }
{
    Ok(Run {
        job: launch.job,
        attempt: launch.attempt,
        launched: at,
        slots: launch.slots,
        words: launch.words.get().clone()?,
        end: None,
    })
}

/// The end of a run that a call reports.
pub(crate) fn reported(at: Moment, call: &Call) -> Option<EndReport>
    ensures { result ≡ meant.reported at call.now }
{
    match call {
        Call::StartFailed { job, attempt } => Some(EndReport {
            job: *job,
            attempt: *attempt,
            end: RunEnd {
                at,
                how: Ending::NotStarted,
            },
        }),
        Call::Exited { job, attempt, exit } => Some(EndReport {
            job: *job,
            attempt: *attempt,
            end: RunEnd {
                at,
                how: Ending::Exited(*exit),
            },
        }),
        Call::ExitUnknown { job, attempt } => Some(EndReport {
            job: *job,
            attempt: *attempt,
            end: RunEnd {
                at,
                how: Ending::Unknown,
            },
        }),
        _ => None,
    }
}

/// The event of a report, where there is one.
fn ended(report: Option<EndReport>) -> Option<RunEvent>
    ensures { result ≡ option_map RunEvent.Ended report }
{
    match report {
        Some(report) => Some(RunEvent::Ended(report)),
        None => None,
    }
}

/// What an entry tells at a moment.
fn event_in(at: Moment, entry: &Entry) -> Result<Option<RunEvent>, AllocError>
    ensures { IfOk result (λ event. event ≡ meant.event_in at entry.now.call entry.now.reply) }
{
    match &entry.reply {
        Reply::Launch(launch) => Ok(Some(RunEvent::Launched(begun(at, launch)?))),
        Reply::Unit => Ok(ended(reported(at, &entry.call))),
        _ => Ok(None),
    }
}

/// Adds an event, where there is one.
fn push_event(events: &mut Vec<RunEvent>, event: Option<RunEvent>) -> Result<(), AllocError>
    ensures { OnOk result (events.new.items ≡ events.old.items ++ option_to_list event) }
{
    match event {
        Some(event) => {
            events.push(event)?;
            Ok(())
        }
        None => Ok(()),
    }
}

/// What entries tell, in order.
pub(crate) fn events_of(alloc: Global, entries: &[Entry]) -> Result<Vec<RunEvent>, AllocError>
    ensures { IfOk result (λ events. events.items ≡ meant.events_from 0 entries.now) }
{
    let mut events = Vec::new(alloc);
    let mut now = opening_moment();
    for entry in entries {
        now = later(now, entry.at);
        let event = event_in(now, entry)?;
        push_event(&mut events, event)?;
    }
    Ok(events)
}
