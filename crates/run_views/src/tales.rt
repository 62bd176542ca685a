//! What is told of each job, by its number.
ghost use Rattle.std.specs.Prelude.{◌≡◌, [], IfOk};
ghost use Rattle.run_views.specs.Tables as tables;

use crate::told::{JobEvent, Told};
use indexmap::IndexMap;
use std::alloc::{AllocError, Global};
use std::marker::Model;

/// What is told of each job that something has befallen. Contracts see it as a list of pairs.
#[derive(Drop)]
pub(crate) struct Tales {
    tales: IndexMap<u128, Told>,
}

impl Model for Tales {
    ghost use Rattle.std.specs.Prelude.{List, ℕ};
    ghost use Rattle.run_views.specs.declared.told.Told.{Told};

    ghost Value = { List (ℕ × Told) };

    ghost view = { λ t. t.tales.entries };
}

impl Tales {
    /// Nothing; it takes no memory.
    fn new(alloc: Global) -> Tales
        ensures { result ≡ [] }
    {
        Tales {
            tales: IndexMap::new(alloc),
        }
    }

    /// What is told of a job.
    pub(crate) fn find(&self, job: u128) -> Told
        ensures { result ≡ tables.tale_in self.now job }
    {
        match self.tales.get(&job) {
            Some(told) => *told,
            None => Told::nothing(),
        }
    }

    /// What is told once something has befallen a job.
    ///
    /// # Errors
    /// Want of memory; the tales are lost then.
    fn with(self, event: &JobEvent) -> Result<Tales, AllocError>
        ensures { IfOk result (λ more. tables.Hears self event.now more) }
    {
        let job = event.job.0 as u128;
        let told = self.find(job).after(&event.what);
        let mut tales = self.tales;
        match tales.insert(job, told) {
            Ok(_) => Ok(Tales { tales }),
            Err(failed) => Err(failed.into()),
        }
    }
}

/// What these events tell of each job.
pub(crate) fn tales_of(alloc: Global, events: &[JobEvent]) -> Result<Tales, AllocError>
    ensures { IfOk result (λ tales. tables.ShowsTales tales events.now) }
{
    let mut tales = Tales::new(alloc);
    for event in events {
        tales = tales.with(event)?;
    }
    Ok(tales)
}
