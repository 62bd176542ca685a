//! The row of a job that is kept no more, by what the history tells of it.
ghost use Rattle.std.specs.Prelude.{◌≡◌, ◌++◌, OnOk, string_bytes};
ghost use Rattle.run_views.specs.JobTexts as texts;
ghost use Rattle.run_views.specs.Tables as tables;

use crate::job_rows::{push_names, push_number, push_state, push_times};
use crate::past::Past;
use crate::printed::push_ending;
use crate::runs::Ending;
use crate::submissions::Submission;
use crate::told::Told;
use drmaa_types::Moment;
use std::alloc::{AllocError, Global};

/// The seconds that it waited.
fn waited(now: Moment, submission: &Submission, told: &Told) -> u64
    ensures { result ≡ texts.waited_once now submission.now told.now }
{
    let to = match (told.launched, told.changed) {
        (Some(launched), _) => launched,
        (None, Some(changed)) => changed,
        (None, None) => now.number(),
    };
    to.saturating_sub(submission.submitted.number())
}

/// The seconds of its last launch.
fn ran(now: Moment, told: &Told) -> Option<u64>
    ensures { result ≡ texts.ran_once now told.now }
{
    let to = told.changed.unwrap_or(now.number());
    match told.launched {
        Some(launched) => Some(to.saturating_sub(launched)),
        None => None,
    }
}

/// Writes how the run ended that was last reported.
fn push_last_ending(out: &mut String, ending: Option<Ending>) -> Result<(), AllocError>
    ensures { OnOk result (string_bytes out.new ≡ string_bytes out.old ++ texts.last_ending ending) }
{
    match ending {
        Some(how) => push_ending(out, how),
        None => out.push_str("-"),
    }
}

/// Writes the seconds of its last launch, how that ended, and that it has been reaped.
fn push_told_ends(out: &mut String, now: Moment, told: &Told) -> Result<(), AllocError>
    ensures { OnOk result (string_bytes out.new ≡ string_bytes out.old ++ texts.told_ends now told.now) }
{
    push_number(out, ran(now, told))?;
    out.push_str("\t")?;
    push_last_ending(out, told.ending)?;
    out.push_str("\treaped\n")
}

/// Writes the row of a job that has been reaped.
pub(crate) fn push_reaped(
    out: &mut String,
    alloc: Global,
    now: Moment,
    past: &Past,
    submission: &Submission,
) -> Result<(), AllocError>
    ensures { OnOk result (string_bytes out.new ≡ string_bytes out.old ++ tables.row_by now past.now.tales past.now.names submission.now) }
{
    let told = past.tales.find(submission.job);
    let session = past.names.find(submission.session);
    push_names(
        out,
        alloc,
        submission.job,
        session,
        submission.name.as_ref(),
    )?;
    push_state(out, told.state)?;
    push_times(
        out,
        told.slots,
        submission.submitted,
        waited(now, submission, &told),
    )?;
    push_told_ends(out, now, &told)
}
