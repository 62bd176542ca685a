//! The kept jobs, as they are once time has come to a moment.
ghost use Rattle.std.specs.Prelude.{◌≡◌, ◌&&◌, filter, is_none};
ghost use Rattle.std.specs.List.{list_any};
ghost use Rattle.std.specs.Option.{option_map, option_map_or, MatchOption};
ghost use Rattle.drmaa_model.specs.declared.rows.Row.{Row};
ghost use Rattle.drmaa_model.specs.Homes.{is_same_home};
ghost use Rattle.drmaa_model.specs.Load.{is_member};
ghost use Rattle.drmaa_model.specs.Rows.{row_of, is_of};
ghost use Rattle.drmaa_model.specs.Time.{rows_at};
ghost use Rattle.scheduler_core.specs.Facts.{row_facts};
ghost use Rattle.machine_readings.specs.Nexts.{AfterRow, AfterRowThrough};
ghost use Rattle.machine_readings.specs.Stores.{IsStore};

use crate::sessions::is_same_home;
use crate::store::Store;
use drmaa_types::{ArrayId, JobId, Moment};
use scheduler_core::RowFacts;

impl Store {
    /// The first kept job whose number is this one or above it, as it is then.
    pub fn next_facts(&self, at: Moment, from: u64) -> Option<RowFacts>
        requires { IsStore self.now }
        ensures { AfterRow (rows_at at self.now.core.plan) from result }
    {
        match self.core.next_row(JobId(from)) {
            Some(job) => self.core.row(at, job),
            None => None,
        }
    }

    /// The same, unless its number passes the last one.
    pub(crate) fn next_facts_through(&self, at: Moment, from: u64, last: u64) -> Option<RowFacts>
        requires { IsStore self.now }
        ensures { AfterRowThrough (rows_at at self.now.core.plan) from last result }
    {
        match self.next_facts(at, from) {
            Some(facts) => {
                let number = facts.job.0;
                if number <= last { Some(facts) } else { None }
            }
            None => None,
        }
    }

    /// Whether a job is kept.
    pub fn has_job(&self, at: Moment, job: JobId) -> bool
        requires { IsStore self.now }
        ensures { result ≡ list_any (is_of job) (rows_at at self.now.core.plan) }
    {
        self.core.row(at, job).is_some()
    }

    /// Whether a job is kept, and belongs to this home.
    pub fn has_job_at(&self, at: Moment, home: Option<u64>, job: JobId) -> bool
        requires { IsStore self.now }
        ensures { result ≡ list_any (is_of job) (filter (λ (row : Row). is_same_home home row.home) (rows_at at self.now.core.plan)) }
    {
        match self.core.row(at, job) {
            Some(facts) => is_same_home(home, facts.home),
            None => false,
        }
    }

    /// Whether a job is kept that is without a session.
    pub fn has_left_job(&self, at: Moment, job: JobId) -> bool
        requires { IsStore self.now }
        ensures { result ≡ list_any (λ (row : Row). is_of job row && is_none row.home) (rows_at at self.now.core.plan) }
    {
        match self.core.row(at, job) {
            Some(facts) => facts.home.is_none(),
            None => false,
        }
    }

    /// Whether a member of an array is kept that belongs to this home.
    pub fn has_member_at(&self, at: Moment, home: Option<u64>, array: ArrayId) -> bool
        requires { IsStore self.now }
        ensures { result ≡ list_any (is_member array) (filter (λ (row : Row). is_same_home home row.home) (rows_at at self.now.core.plan)) }
    {
        self.core.has_member(home, array)
    }
}

/// Whether the array that a job is a member of is this one.
pub fn is_member(array: ArrayId, own: Option<ArrayId>) -> bool
    ensures { (row : Row) → row.wants.array ≡ own → result ≡ is_member array row }
{
    match own {
        Some(own) => own.0 == array.0,
        None => false,
    }
}
