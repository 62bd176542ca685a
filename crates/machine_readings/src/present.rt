//! What is told of the kept jobs as they are now, before time comes to a later moment.
ghost use Rattle.std.specs.Prelude.{◌≡◌, map, Some, IfOk};
ghost use Rattle.drmaa_model.specs.declared.rows.Row.{Row};
ghost use Rattle.drmaa_model.specs.Infos.{info};
ghost use Rattle.drmaa_model.specs.Rows.{row_of};
ghost use Rattle.scheduler_core.specs.Facts.{row_facts};
ghost use Rattle.machine_readings.specs.Nexts.{AfterRow};
ghost use Rattle.machine_readings.specs.Stores.{IsStore, world_of};

use crate::store::Store;
use drmaa_types::{InfoList, JobId, JobInfo};
use scheduler_core::RowFacts;
use std::alloc::AllocError;

impl Store {
    /// The first kept job whose number is this one or above it, as it is now.
    pub fn present_facts(&self, from: u64) -> Option<RowFacts>
        requires { IsStore self.now }
        ensures { AfterRow self.now.core.plan.rows from result }
    {
        match self.core.next_row(JobId(from)) {
            Some(job) => self.core.present_row(job),
            None => None,
        }
    }

    fn present_info(&self, facts: &RowFacts) -> Result<JobInfo, AllocError>
        requires { IsStore self.now }
        ensures { IfOk result (λ i. (row : Row) → row_of facts.now.job self.now.core.plan.rows ≡ Some row → facts.now ≡ row_facts row
            → i ≡ info (world_of self.now) row) }
    {
        self.told_at(self.core.moment(), facts)
    }

    /// What is told of each kept job, as it is now.
    pub fn present_infos(&self) -> Result<InfoList, AllocError>
        requires { IsStore self.now }
        ensures { IfOk result (λ infos. infos ≡ map (info (world_of self.now)) self.now.core.plan.rows) }
    {
        let mut infos = Vec::new(self.alloc);
        let mut from = 0;
        while let Some(facts) = self.present_facts(from) {
            infos.push(self.present_info(&facts)?)?;
            from = facts.job.0 + 1;
        }
        Ok(InfoList::from_vec(infos))
    }
}
