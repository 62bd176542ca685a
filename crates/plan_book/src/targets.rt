//! The jobs that a call is for: one, or the members of an array.
ghost use Rattle.std.specs.Prelude.{◌≡◌};
ghost use Rattle.drmaa_model.specs.declared.calls.Target.{Target};
ghost use Rattle.drmaa_model.specs.Controlling.{is_done};
ghost use Rattle.drmaa_model.specs.Fit.{IsRising, number_of};
ghost use Rattle.drmaa_model.specs.Load.{is_member};
ghost use Rattle.drmaa_model.specs.Targets.{is_meant};
ghost use Rattle.plan_book.specs.Meant.{HasAllMeant};

use crate::rows::place_of;
use drmaa_model::{Row, Target};
use drmaa_types::{ArrayId, JobId};
use job_states::has_terminated;

/// Whether the row is that of the job, or of a member of the array.
pub fn is_meant(target: &Target, row: &Row) -> bool
    ensures { result ≡ is_meant target.now row.now }
{
    match target {
        Target::Job(job) => row.job.0 == job.0,
        Target::Array(array) => is_member(*array, row),
    }
}

fn is_member(array: ArrayId, row: &Row) -> bool
    ensures { result ≡ is_member array row.now }
{
    match row.wants.array {
        Some(own) => own.0 == array.0,
        None => false,
    }
}

/// The row of this job alone, which is found by halves, or none where the job isn't kept.
pub fn row_alone(rows: &[Row], job: JobId) -> &[Row]
    requires rising { IsRising number_of rows.now }
    ensures { HasAllMeant (Target.Job job) rows.now result.now }
{
    match place_of(rows, job) {
        Ok(place) => &rows[place..place + 1],
        Err(_) => &rows[..0],
    }
}

/// Whether the job has ended, so that it may be forgotten.
pub fn is_done(row: &Row) -> bool
    ensures { result ≡ is_done row.now }
{
    has_terminated(row.course.state)
}
