//! Each launch with the report that ended it.
ghost use Rattle.std.specs.Prelude.{◌≡◌, IfOk};
ghost use Rattle.run_views.specs.Runs as meant;

use crate::ends::Ends;
use crate::events::events_of;
use crate::runs::{Run, RunEvent, RunList};
use drmaa_model::Entry;
use std::alloc::{AllocError, Global};

/// Each run that begins, with the end that is reported of it later. The events are gone through from the last one to the first, so
/// that the end noted last is the one that comes first.
fn paired(alloc: Global, mut events: Vec<RunEvent>) -> Result<Vec<Run>, AllocError>
    ensures { IfOk result (λ runs. runs.items ≡ meant.paired events.items) }
{
    let mut ends = Ends::new(alloc);
    let mut runs: Vec<Run> = Vec::new(alloc);
    'events: while let Some(event) = events.pop() {
        match event {
            RunEvent::Launched(mut run) => {
                run.end = ends.find(run.job, run.attempt);
                runs.push(run)?;
            }
            RunEvent::Ended(report) => ends = ends.with(report)?,
        }
    }
    runs.reverse();
    Ok(runs)
}

/// The runs of a history, in the order of their launches: each with the accepted report, behind its launch, that ended this attempt
/// of the job, if there is one. Moments are those of the machine, which never fall.
///
/// # Errors
///
/// Want of memory.
pub fn runs_of(alloc: Global, entries: &[Entry]) -> Result<RunList, AllocError>
    ensures { IfOk result (λ runs. runs ≡ meant.runs_of entries.now) }
{
    let events = events_of(alloc, entries)?;
    let runs = paired(alloc, events)?;
    Ok(RunList::from_vec(runs))
}
