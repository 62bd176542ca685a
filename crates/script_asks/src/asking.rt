//! What a line asks.
ghost use Rattle.std.specs.Prelude.{◌≡◌, IfOk, option_copied};
ghost use Rattle.std.specs.Map.{lookup};
ghost use Rattle.std.specs.Str.{bytes_eq};
ghost use Rattle.script_asks.specs.Asks as asks;
ghost use Rattle.script_asks.specs.Attempts.{attempt_in};

use crate::numbers::{filter_of, number_of, numbers_of};
use crate::reports::report;
use crate::templates::{reservation_template_of, template_of};
use crate::{Attempts, Given};
use drmaa_model::{Call, Indices};
use drmaa_types::{Boxed, Moment, SessionId, Shared, Timeout, WaitKind};
use job_template::JobTemplate;
use script_lines::{Apart, Filter, Line, Name, Ref};
use script_text::{Keyed, Script};
use std::alloc::{AllocError, Global};

/// The reservation that a line names, where it names one.
fn reservation_in(reserved: &Option<Apart<Ref>>) -> Option<&Ref>
    ensures { option_copied result ≡ reserved.now }
{
    match reserved {
        Some(reserved) => Some(reserved.get()),
        None => None,
    }
}

/// A submission of a job, or of one for each index.
fn submission(session: SessionId, template: Shared<JobTemplate>, indices: Option<Indices>) -> Call
    ensures { result ≡ asks.submits indices session template }
{
    match indices {
        Some(indices) => Call::RunBulk {
            session,
            template,
            indices,
        },
        None => Call::RunJob { session, template },
    }
}

/// What a line asks that submits a job, or one for each index.
fn ask_submit(
    alloc: Global,
    script: &Script,
    names: &Keyed<Given>,
    session: &Ref,
    template: &Name,
    indices: Option<Indices>,
    reserved: Option<&Ref>,
) -> Result<Option<Call>, AllocError>
    ensures { IfOk result (λ c. c ≡ asks.in_session names.now session.now (asks.template_of script.now names.now template.now (option_copied reserved.entry)) (asks.submits indices)) }
{
    let Some(session) = number_of(names, session) else {
        return Ok(None);
    };
    match template_of(alloc, script, names, template, reserved)? {
        Some(template) => Ok(Some(submission(SessionId(session), template, indices))),
        None => Ok(None),
    }
}

/// What a line asks that lists the jobs of a session by a filter.
fn ask_jobs(
    alloc: Global,
    names: &Keyed<Given>,
    session: &Ref,
    filter: &Filter,
) -> Result<Option<Call>, AllocError>
    ensures { IfOk result (λ c. c ≡ asks.in_session names.now session.now (asks.filter_of names.now filter.now) Call.GetJobs) }
{
    let Some(session) = number_of(names, session) else {
        return Ok(None);
    };
    match filter_of(names, filter)? {
        Some(filter) => Ok(Some(Call::GetJobs {
            session: SessionId(session),
            filter: Boxed::new(alloc, filter)?,
        })),
        None => Ok(None),
    }
}

/// What a line asks that lists the jobs of all sessions by a filter.
fn ask_all_jobs(
    alloc: Global,
    names: &Keyed<Given>,
    session: &Ref,
    filter: &Filter,
) -> Result<Option<Call>, AllocError>
    ensures { IfOk result (λ c. c ≡ asks.in_session names.now session.now (asks.filter_of names.now filter.now) Call.AllJobs) }
{
    let Some(session) = number_of(names, session) else {
        return Ok(None);
    };
    match filter_of(names, filter)? {
        Some(filter) => Ok(Some(Call::AllJobs {
            session: SessionId(session),
            filter: Boxed::new(alloc, filter)?,
        })),
        None => Ok(None),
    }
}

/// What a line asks that waits for jobs.
fn ask_wait(
    alloc: Global,
    names: &Keyed<Given>,
    begun: Moment,
    kind: WaitKind,
    session: &Ref,
    timeout: Timeout,
    jobs: &[Ref],
) -> Result<Option<Call>, AllocError>
    ensures { IfOk result (λ c. c ≡ asks.in_session names.now session.now (asks.numbers_of names.now jobs.now) (λ n js. Call.Wait n js kind begun timeout)) }
{
    let Some(session) = number_of(names, session) else {
        return Ok(None);
    };
    match numbers_of(alloc, names, jobs)? {
        Some(jobs) => Ok(Some(Call::Wait {
            session: SessionId(session),
            jobs,
            kind,
            begun,
            timeout,
        })),
        None => Ok(None),
    }
}

/// What a line asks that reserves slots.
fn ask_reserve(
    alloc: Global,
    script: &Script,
    names: &Keyed<Given>,
    session: &Ref,
    template: &Name,
) -> Result<Option<Call>, AllocError>
    ensures { IfOk result (λ c. c ≡ asks.in_session names.now session.now (lookup (bytes_eq template.now) script.now.reservations) Call.RequestReservation) }
{
    let Some(session) = number_of(names, session) else {
        return Ok(None);
    };
    match reservation_template_of(script, template)? {
        Some(template) => Ok(Some(Call::RequestReservation {
            session: SessionId(session),
            template: Boxed::new(alloc, template)?,
        })),
        None => Ok(None),
    }
}

/// What a line asks, by the numbers of names, the attempts of the jobs that were launched, and the moment at which a wait
/// began. None where it uses a name without a number, or sets the moment.
///
/// # Errors
/// Want of memory.
pub fn ask(
    alloc: Global,
    script: &Script,
    names: &Keyed<Given>,
    attempts: &Attempts,
    begun: Moment,
    line: &Line,
) -> Result<Option<Call>, AllocError>
    ensures { IfOk result (λ c. c ≡ asks.asks script.now names.now (attempt_in attempts.now) begun line.now) }
{
    match line {
        Line::CreateJobs { session, .. } => Ok(Some(Call::CreateJobSession {
            name: session.clone()?,
        })),
        Line::CreateReservations { session, .. } => Ok(Some(Call::CreateReservationSession {
            name: session.clone()?,
        })),
        Line::OpenJobs { session, .. } => Ok(Some(Call::OpenJobSession {
            name: session.clone()?,
        })),
        Line::OpenReservations { session, .. } => Ok(Some(Call::OpenReservationSession {
            name: session.clone()?,
        })),
        Line::DestroyJobs { session } => Ok(Some(Call::DestroyJobSession {
            name: session.clone()?,
        })),
        Line::DestroyReservations { session } => Ok(Some(Call::DestroyReservationSession {
            name: session.clone()?,
        })),
        Line::NamesJobs => Ok(Some(Call::JobSessionNames)),
        Line::NamesReservations => Ok(Some(Call::ReservationSessionNames)),
        Line::Monitor { .. } => Ok(Some(Call::OpenMonitoring)),
        Line::Run {
            session,
            template,
            reserved,
            ..
        } => ask_submit(
            alloc,
            script,
            names,
            session,
            template,
            None,
            reservation_in(reserved),
        ),
        Line::Bulk {
            session,
            template,
            begin,
            end,
            step,
            bound,
            reserved,
            ..
        } => {
            let indices = Indices {
                begin: *begin,
                end: *end,
                step: *step,
                bound: *bound,
            };
            ask_submit(
                alloc,
                script,
                names,
                session.get(),
                template,
                Some(indices),
                reserved.get().as_ref(),
            )
        }
        Line::Jobs { session, filter } => ask_jobs(alloc, names, session, filter.get()),
        Line::WaitStarted {
            session,
            timeout,
            jobs,
        } => ask_wait(
            alloc,
            names,
            begun,
            WaitKind::Started,
            session.get(),
            *timeout,
            jobs.as_slice(),
        ),
        Line::WaitTerminated {
            session,
            timeout,
            jobs,
        } => ask_wait(
            alloc,
            names,
            begun,
            WaitKind::Terminated,
            session.get(),
            *timeout,
            jobs.as_slice(),
        ),
        Line::Reserve {
            session,
            template,
            ..
        } => ask_reserve(alloc, script, names, session, template),
        Line::AllJobs { session, filter } => ask_all_jobs(alloc, names, session, filter.get()),
        Line::Register => Ok(Some(Call::Register)),
        Line::At { .. } => Ok(None),
        Line::Launch => Ok(Some(Call::TakeLaunch)),
        Line::Signal => Ok(Some(Call::TakeSignal)),
        _ => Ok(report(names, attempts, line)),
    }
}
