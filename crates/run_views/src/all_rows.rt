//! The rows of all jobs that ever were.
ghost use Rattle.std.specs.Prelude.{◌≡◌, ◌++◌, OnOk, string_bytes};
ghost use Rattle.run_views.specs.JobTexts as texts;
ghost use Rattle.run_views.specs.Tables as tables;

use crate::job_rows::push_row;
use crate::past::{Past, past_of};
use crate::reaped_rows::push_reaped;
use crate::submissions::{Submission, submissions_of};
use drmaa_model::Entry;
use drmaa_types::{Change, JobInfo, Moment};
use std::alloc::{AllocError, Global};

/// Writes the rows of these kept jobs.
fn push_kept(
    out: &mut String,
    alloc: Global,
    now: Moment,
    infos: &[JobInfo],
) -> Result<(), AllocError>
    ensures { OnOk result (string_bytes out.new ≡ string_bytes out.old ++ texts.kept_rows now infos.now) }
{
    for info in infos {
        push_row(out, alloc, now, info)?;
    }
    Ok(())
}

/// Writes the row of a submitted job, where these are the kept ones that are left.
fn push_next(
    out: &mut String,
    alloc: Global,
    now: Moment,
    past: &Past,
    infos: &[JobInfo],
    submission: &Submission,
) -> Result<(), AllocError>
    ensures { OnOk result (string_bytes out.new ≡ string_bytes out.old ++ texts.next_row now (tables.row_by now past.now.tales past.now.names) infos.now submission.now) }
{
    match infos.first() {
        Some(info) => {
            if info.job.0 as u128 == submission.job {
                push_row(out, alloc, now, info)
            } else {
                push_reaped(out, alloc, now, past, submission)
            }
        }
        None => push_reaped(out, alloc, now, past, submission),
    }
}

/// The kept jobs that are left behind a submitted one.
fn behind<'a>(infos: &'a [JobInfo], submission: &Submission) -> &'a [JobInfo]
    ensures { result.now ≡ texts.behind infos.now submission.now }
{
    match infos.split_first() {
        Some((info, others)) => {
            if info.job.0 as u128 == submission.job {
                others
            } else {
                infos
            }
        }
        None => infos,
    }
}

/// Writes the rows of these kept and submitted jobs, by number.
fn push_by_number(
    out: &mut String,
    alloc: Global,
    now: Moment,
    past: &Past,
    infos: &[JobInfo],
    submissions: &[Submission],
) -> Result<(), AllocError>
    ensures { OnOk result (string_bytes out.new ≡ string_bytes out.old ++ texts.rows_by_number now (tables.row_by now past.now.tales past.now.names) infos.now submissions.now) }
{
    let mut left = infos;
    for submission in submissions {
        push_next(out, alloc, now, past, left, submission)?;
        left = behind(left, submission);
    }
    push_kept(out, alloc, now, left)
}

/// Writes the rows of all jobs that ever were, by number.
pub(crate) fn push_rows(
    out: &mut String,
    alloc: Global,
    now: Moment,
    infos: &[JobInfo],
    changes: &[Change],
    entries: &[Entry],
) -> Result<(), AllocError>
    ensures { OnOk result (string_bytes out.new ≡ string_bytes out.old ++ texts.job_rows now infos.now changes.now entries.now) }
{
    let past = past_of(alloc, entries, changes)?;
    let submissions = submissions_of(alloc, entries)?;
    push_by_number(out, alloc, now, &past, infos, submissions.as_slice())
}
