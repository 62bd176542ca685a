//! The rows, as a plain list in order of number.
ghost use Rattle.drmaa_model.specs.Fit.{IsRising, number_of};
ghost use Rattle.drmaa_model.specs.declared.rows.Row.{Row};
ghost use Rattle.plan_book.specs.Places.{IsAt};
ghost use Rattle.std.specs.Prelude.{IfOk, IfErr, None, ◌≡◌, ◌<◌, ◌≤◌, take, drop, length};
ghost use Rattle.std.specs.List.{AllByRecursion};
ghost use Rattle.std.specs.Option.{option_copied};
ghost use Rattle.drmaa_model.specs.Rows.{row_of};

use drmaa_model::{Course, Row};
use drmaa_types::JobId;

/// What of a row an operation on one job needs.
#[derive(Clone, Copy)]
pub struct Facts {
    pub job: JobId,
    pub home: Option<u64>,
    pub course: Course,
    pub rerunnable: bool,
}

/// Where the row of this job stands. It is found by halves.
pub fn place_of(rows: &[Row], job: JobId) -> Result<usize, usize>
    requires rising { IsRising number_of rows.now }
    ensures found { IfOk result (IsAt number_of job.0 rows.now) }
    ensures absent { IfErr result (λ _. row_of job rows.now ≡ None) }
{
    rows.binary_search_by_key(&job.0, |row| row.job.0)
}

/// The row of this job, if it is kept.
pub fn row_of(rows: &[Row], job: JobId) -> Option<&Row>
    requires { IsRising number_of rows.now }
    ensures { option_copied result ≡ row_of job rows.now }
{
    match place_of(rows, job) {
        Ok(place) => Some(&rows[place]),
        Err(_) => None,
    }
}

/// The rows at the places from one up to another, without that.
#[derive(Clone, Copy)]
pub struct Places {
    pub from: usize,
    pub until: usize,
}
