//! What is told of a job once time has come to a moment, and which jobs a filter lets through.
ghost use Rattle.std.specs.Prelude.{◌≡◌, ℕ, false, max, Some, IfOk};
ghost use Rattle.std.specs.Option.{option_map, option_map_or};
ghost use Rattle.drmaa_types.specs.Filters.{matches};
ghost use Rattle.drmaa_model.specs.declared.rows.Row.{Row};
ghost use Rattle.drmaa_model.specs.Infos.{home_name, info, machine_info};
ghost use Rattle.drmaa_model.specs.Rows.{row_of};
ghost use Rattle.drmaa_model.specs.Time.{rows_at};
ghost use Rattle.scheduler_core.specs.Facts.{row_facts};
ghost use Rattle.machine_readings.specs.Clocks.{clock_of};
ghost use Rattle.machine_readings.specs.Told.{told_of, name_in};
ghost use Rattle.machine_readings.specs.Stores.{IsStore, world_at};

use crate::store::Store;
use drmaa_types::{JobFilter, JobId, JobInfo, MachineInfo, Moment, Text};
use plan_book::states::is_waiting;
use scheduler_core::RowFacts;
use std::alloc::AllocError;

impl Store {
    /// What is told of a job, if it is kept.
    pub fn info_of(&self, at: Moment, job: JobId) -> Result<Option<JobInfo>, AllocError>
        requires { IsStore self.now }
        ensures { IfOk result (λ o. o ≡ option_map (info (world_at at self.now)) (row_of job (rows_at at self.now.core.plan))) }
    {
        match self.core.row(at, job) {
            Some(facts) => Ok(Some(self.info(at, &facts)?)),
            None => Ok(None),
        }
    }

    fn info(&self, at: Moment, facts: &RowFacts) -> Result<JobInfo, AllocError>
        requires { IsStore self.now }
        ensures { IfOk result (λ i. (row : Row) → row_of facts.now.job (rows_at at self.now.core.plan) ≡ Some row → facts.now ≡ row_facts row
            → i ≡ info (world_at at self.now) row) }
    {
        self.told_at(self.moment_at(at), facts)
    }

    /// What is told of a kept job at a moment, by its facts.
    pub fn told_at(&self, moment: Moment, facts: &RowFacts) -> Result<JobInfo, AllocError>
        ensures { IfOk result (λ i. i ≡ told_of self.now.core.plan.queues facts.now (home_name self.now.sessions facts.now.home) (name_in facts.now.job self.now.core.plan.rows) moment) }
    {
        let session = self.home_name(facts.home)?;
        let name = self.job_name(facts.job)?;
        let queue = self.queue_name(facts.queue)?;
        Ok(JobInfo {
            job: facts.job,
            session,
            name,
            array: facts.array,
            index: facts.index,
            state: facts.state,
            slots: facts.last_slots,
            queue,
            wallclock: wallclock(moment, facts),
            submitted: facts.submitted,
            dispatched: facts.dispatched,
            finished: facts.finished,
            exit: facts.exit,
            note: facts.note,
        })
    }

    /// The moment to which time comes by this one: it never falls.
    pub fn moment_at(&self, at: Moment) -> Moment
        ensures { result ≡ max self.now.core.plan.moment at }
    {
        let moment = self.core.moment();
        if moment.number() < at.number() {
            at
        } else {
            moment
        }
    }

    /// The name of a home, where its named session is still there.
    pub fn home_name(&self, home: Option<u64>) -> Result<Option<Text>, AllocError>
        ensures { IfOk result (λ name. name ≡ home_name self.now.sessions home) }
    {
        let Some(home) = home else {
            return Ok(None);
        };
        match self.sessions.name(home) {
            Some(name) => Ok(Some(name.clone()?)),
            None => Ok(None),
        }
    }

    fn job_name(&self, job: JobId) -> Result<Option<Text>, AllocError>
        ensures { IfOk result (λ name. name ≡ name_in job self.now.core.plan.rows) }
    {
        match self.core.job_name(job) {
            Some(name) => Ok(Some(name.clone()?)),
            None => Ok(None),
        }
    }

    /// Whether a filter lets a job through, which is kept.
    pub fn is_let_through(
        &self,
        at: Moment,
        filter: &JobFilter,
        job: JobId,
    ) -> Result<bool, AllocError>
        requires { IsStore self.now }
        ensures { IfOk result (λ b. b ≡ option_map_or (λ (row : Row). matches filter.now (info (world_at at self.now) row)) (row_of job (rows_at at self.now.core.plan)) false) }
    {
        let info = self.info_of(at, job)?;
        Ok(lets_through(filter, &info))
    }

    /// What is told of the machine, at whichever moment.
    pub fn machine_info(&self) -> Result<MachineInfo, AllocError>
        requires { IsStore self.now }
        ensures { IfOk result (λ i. (at : ℕ) → i ≡ machine_info (world_at at self.now)) }
    {
        let name = self.config.name.clone()?;
        let used = self.core.held();
        Ok(MachineInfo {
            name,
            slots: self.config.slots,
            used,
        })
    }
}

fn lets_through(filter: &JobFilter, info: &Option<JobInfo>) -> bool
    ensures { result ≡ option_map_or (matches filter.now) info.now false }
{
    match info {
        Some(info) => filter.matches(info),
        None => false,
    }
}

/// The seconds since the last launch, as they stand then.
fn wallclock(now: Moment, facts: &RowFacts) -> Option<u64>
    ensures { result ≡ clock_of now facts.now.state facts.now.finished facts.now.dispatched }
{
    let Some(dispatched) = facts.dispatched else {
        return None;
    };
    if is_waiting(facts.state) {
        return Some(0);
    }
    let end = match facts.finished {
        Some(finished) => finished,
        None => now,
    };
    Some(end.number().saturating_sub(dispatched.number()))
}
