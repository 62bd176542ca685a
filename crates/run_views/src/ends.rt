//! The reported ends of runs, by job and attempt.
ghost use Rattle.std.specs.Prelude.{◌≡◌, [], ℕ, IfOk};
ghost use Rattle.run_views.specs.Ends as shown;

use crate::runs::{EndReport, RunEnd};
use drmaa_types::JobId;
use indexmap::IndexMap;
use std::alloc::{AllocError, Global};
use std::marker::Model;

/// The end of each attempt of a job of which one was noted. Contracts see it as a list of pairs.
#[derive(Drop)]
pub(crate) struct Ends {
    ends: IndexMap<(u64, u32), RunEnd>,
}

impl Model for Ends {
    ghost use Rattle.std.specs.Prelude.{List, ℕ};
    ghost use Rattle.run_views.specs.declared.runs.RunEnd.{RunEnd};

    ghost Value = { List ((ℕ × ℕ) × RunEnd) };

    ghost view = { λ e. e.ends.entries };
}

impl Ends {
    /// No end; it takes no memory.
    pub(crate) fn new(alloc: Global) -> Ends
        ensures { result ≡ [] }
    {
        Ends {
            ends: IndexMap::new(alloc),
        }
    }

    /// The ends with that of a report, in the place of one that was noted before.
    ///
    /// # Errors
    /// Want of memory; the ends are lost then.
    pub(crate) fn with(self, report: EndReport) -> Result<Ends, AllocError>
        ensures { IfOk result (λ more. shown.Notes self report more) }
    {
        let mut ends = self.ends;
        match ends.insert((report.job.0, report.attempt), report.end) {
            Ok(_) => Ok(Ends { ends }),
            Err(failed) => Err(failed.into()),
        }
    }

    /// The end that was last noted of an attempt of a job.
    pub(crate) fn find(&self, job: JobId, attempt: u32) -> Option<RunEnd>
        ensures { result ≡ shown.end_in self.now job.0 attempt }
    {
        self.ends.get(&(job.0, attempt)).copied()
    }
}
