//! The jobs that a history submits.
ghost use Rattle.std.specs.Prelude.{◌≡◌, ◌++◌, IfOk, OnOk, map};
ghost use Rattle.run_views.specs.Submitted as submitted;

use crate::events::{later, opening_moment};
use drmaa_model::{Call, Entry, Reply};
use drmaa_types::{JobId, Moment, SessionId, Text};
use std::alloc::{AllocError, Global};

/// A job as it was submitted.
#[derive(Drop)]
pub struct Submission {
    /// Its number. It is wide enough for the sum of the number of an array's first member and their count.
    pub job: u128,
    /// The session number that it was submitted by.
    pub session: SessionId,
    /// The name that its template gives it.
    pub name: Option<Text>,
    pub submitted: Moment,
}

/// Job numbers that follow one another: the first, and how many there are.
#[derive(Clone, Copy, Debug, PartialEq, Eq)]
pub struct JobRange {
    pub first: JobId,
    pub count: u32,
}

/// The jobs whose numbers a reply hands out.
fn range_in(reply: &Reply) -> JobRange
    ensures { result ≡ submitted.range_in reply.now }
{
    match reply {
        Reply::Job(job) => JobRange {
            first: *job,
            count: 1,
        },
        Reply::Array { first, count, .. } => JobRange {
            first: *first,
            count: *count,
        },
        _ => JobRange {
            first: JobId(0),
            count: 0,
        },
    }
}

/// A name of its own.
fn copied(name: &Option<Text>) -> Result<Option<Text>, AllocError>
    ensures { IfOk result (λ copy. copy ≡ name.now) }
{
    match name {
        Some(name) => Ok(Some(name.clone()?)),
        None => Ok(None),
    }
}

/// Adds a submission of each of these jobs.
fn push_jobs(
    submissions: &mut Vec<Submission>,
    at: Moment,
    session: SessionId,
    name: &Option<Text>,
    jobs: &JobRange,
) -> Result<(), AllocError>
    ensures { OnOk result (submissions.new.items ≡ submissions.old.items ++ map (submitted.submission at session name.now) (submitted.numbers_of jobs.now)) }
{
    let first = jobs.first.0 as u128;
    for place in 0..jobs.count {
        submissions.push(Submission {
            job: first + place as u128,
            session,
            name: copied(name)?,
            submitted: at,
        })?;
    }
    Ok(())
}

/// Adds what an entry submits at a moment.
fn push_submitted(
    submissions: &mut Vec<Submission>,
    at: Moment,
    entry: &Entry,
) -> Result<(), AllocError>
    ensures { OnOk result (submissions.new.items ≡ submissions.old.items ++ submitted.submitted_in at entry.now.call entry.now.reply) }
{
    let jobs = range_in(&entry.reply);
    match &entry.call {
        Call::RunJob { session, template } => {
            push_jobs(submissions, at, *session, &template.get().job_name, &jobs)
        }
        Call::RunBulk {
            session,
            template,
            ..
        } => push_jobs(submissions, at, *session, &template.get().job_name, &jobs),
        _ => Ok(()),
    }
}

/// The jobs that these entries submit, in order.
pub(crate) fn submissions_of(
    alloc: Global,
    entries: &[Entry],
) -> Result<Vec<Submission>, AllocError>
    ensures { IfOk result (λ submissions. submissions.items ≡ submitted.submissions entries.now) }
{
    let mut submissions = Vec::new(alloc);
    let mut now = opening_moment();
    for entry in entries {
        now = later(now, entry.at);
        push_submitted(&mut submissions, now, entry)?;
    }
    Ok(submissions)
}
