//! All that a history tells of its jobs.
ghost use Rattle.std.specs.Prelude.{IfOk};
ghost use Rattle.run_views.specs.Tables as tables;

use crate::job_events::job_events_of;
use crate::session_names::{SessionNames, names_of};
use crate::tales::{Tales, tales_of};
use drmaa_model::Entry;
use drmaa_types::Change;
use std::alloc::{AllocError, Global};

/// What a history tells of each of its jobs, and the names of its sessions.
#[derive(Drop)]
pub(crate) struct Past {
    pub(crate) tales: Tales,
    pub(crate) names: SessionNames,
}

/// What these entries and changes tell.
pub(crate) fn past_of(
    alloc: Global,
    entries: &[Entry],
    changes: &[Change],
) -> Result<Past, AllocError>
    ensures { IfOk result (λ past. tables.ShowsPast past.tales past.names entries.now changes.now) }
{
    let events = job_events_of(alloc, entries, changes)?;
    let tales = tales_of(alloc, events.as_slice())?;
    let names = names_of(alloc, entries)?;
    Ok(Past { tales, names })
}
