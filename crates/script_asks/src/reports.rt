//! What a line reports of a job.
ghost use Rattle.std.specs.Prelude.{◌≡◌};
ghost use Rattle.script_asks.specs.Asks as asks;
ghost use Rattle.script_asks.specs.Attempts.{attempt_in};

use crate::in_session::ask_in_session;
use crate::numbers::number_of;
use crate::{Attempts, Given};
use drmaa_model::Call;
use drmaa_types::{Exit, JobId};
use script_lines::{Line, Ref};
use script_text::Keyed;

/// The report of how a job's last launch has ended.
fn exited(names: &Keyed<Given>, attempts: &Attempts, job: &Ref, exit: Exit) -> Option<Call>
    ensures { result ≡ asks.of_launch names.now (attempt_in attempts.now) job.now (λ j n. Call.Exited j n exit) }
{
    let job = number_of(names, job)?;
    Some(Call::Exited {
        job: JobId(job),
        attempt: attempts.attempt(job),
        exit,
    })
}

/// What a line that `ask` leaves reports of a job's last launch. Where it reports nothing, what it asks of a session.
pub(crate) fn report(names: &Keyed<Given>, attempts: &Attempts, line: &Line) -> Option<Call>
    ensures { result ≡ asks.reports names.now (attempt_in attempts.now) line.now }
{
    match line {
        Line::Started { job } => {
            let job = number_of(names, job)?;
            Some(Call::Started {
                job: JobId(job),
                attempt: attempts.attempt(job),
            })
        }
        Line::StartFailed { job } => {
            let job = number_of(names, job)?;
            Some(Call::StartFailed {
                job: JobId(job),
                attempt: attempts.attempt(job),
            })
        }
        Line::Exit { job, code } => exited(names, attempts, job, Exit::Code(*code)),
        Line::ExitSignal { job, signal } => exited(names, attempts, job, Exit::Signal(*signal)),
        Line::ExitUnknown { job } => {
            let job = number_of(names, job)?;
            Some(Call::ExitUnknown {
                job: JobId(job),
                attempt: attempts.attempt(job),
            })
        }
        Line::SignalDone { job, kind } => {
            let job = number_of(names, job)?;
            Some(Call::SignalDone {
                job: JobId(job),
                attempt: attempts.attempt(job),
                kind: *kind,
            })
        }
        Line::SignalFailed { job, kind } => {
            let job = number_of(names, job)?;
            Some(Call::SignalFailed {
                job: JobId(job),
                attempt: attempts.attempt(job),
                kind: *kind,
            })
        }
        _ => ask_in_session(names, line),
    }
}
