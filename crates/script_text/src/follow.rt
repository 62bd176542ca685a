//! Which line may stand behind earlier ones.
ghost use Rattle.std.specs.Prelude.{◌≡◌, ◌++◌, ◌&&◌};
ghost use Rattle.std.specs.List.{list_all};
ghost use Rattle.script_text.specs.Names as names;
ghost use Rattle.script_text.specs.Follows as follows;

use crate::bindings::{
    are_jobs, if_job, if_reservation, is_array, is_bound, is_job, is_reservation, is_reserved,
    is_session, is_there,
};
use crate::{Block, Mode, Script};
use drmaa_types::Timeout;
use script_lines::{Filter, Line, Name, Ref};

/// Whether these are a session and a job.
fn of_job(script: &Script, block: &Block, session: &Ref, job: &Ref) -> bool
    ensures { result ≡ (names.is_session (follows.lines_of script.now.setup ++ block.now) session.now && names.is_job (follows.lines_of script.now.setup ++ block.now) job.now) }
{
    is_session(script, block, session) && is_job(script, block, job)
}

/// Whether these are a session and jobs.
fn of_jobs(script: &Script, block: &Block, session: &Ref, jobs: &[Ref]) -> bool
    ensures { result ≡ (names.is_session (follows.lines_of script.now.setup ++ block.now) session.now && list_all (names.is_job (follows.lines_of script.now.setup ++ block.now)) jobs.now) }
{
    is_session(script, block, session) && are_jobs(script, block, jobs)
}

/// Whether these are a session and an array.
fn of_array(script: &Script, block: &Block, session: &Ref, array: &Ref) -> bool
    ensures { result ≡ (names.is_session (follows.lines_of script.now.setup ++ block.now) session.now && names.is_array (follows.lines_of script.now.setup ++ block.now) array.now) }
{
    is_session(script, block, session) && is_array(script, block, array)
}

/// Whether these are a session and a reservation.
fn of_reservation(script: &Script, block: &Block, session: &Ref, reservation: &Ref) -> bool
    ensures { result ≡ (names.is_session (follows.lines_of script.now.setup ++ block.now) session.now && names.is_reservation (follows.lines_of script.now.setup ++ block.now) reservation.now) }
{
    is_session(script, block, session) && is_reservation(script, block, reservation)
}

/// Whether these are a session and a filter by no job, or one that is there.
fn of_filter(script: &Script, block: &Block, session: &Ref, filter: &Filter) -> bool
    ensures { result ≡ (names.is_session (follows.lines_of script.now.setup ++ block.now) session.now && names.if_some (names.is_job (follows.lines_of script.now.setup ++ block.now)) filter.now.job) }
{
    is_session(script, block, session) && if_job(script, block, &filter.job)
}

/// Whether these are a session and the template of a job.
fn of_template(script: &Script, block: &Block, session: &Ref, template: &Name) -> bool
    ensures { result ≡ (names.is_session (follows.lines_of script.now.setup ++ block.now) session.now && names.is_there script.now.jobs template.now) }
{
    is_session(script, block, session) && is_there(&script.jobs, template)
}

/// Whether these are a session and a reservation's template.
fn of_frame(script: &Script, block: &Block, session: &Ref, template: &Name) -> bool
    ensures { result ≡ (names.is_session (follows.lines_of script.now.setup ++ block.now) session.now && names.is_there script.now.reservations template.now) }
{
    is_session(script, block, session) && is_there(&script.reservations, template)
}

/// Whether what a line names is there.
fn refers(script: &Script, block: &Block, line: &Line) -> bool
    ensures { result ≡ follows.refers script.now (follows.lines_of script.now.setup ++ block.now) line.now }
{
    match line {
        Line::CreateJobs { .. }
        | Line::CreateReservations { .. }
        | Line::OpenJobs { .. }
        | Line::OpenReservations { .. }
        | Line::DestroyJobs { .. }
        | Line::DestroyReservations { .. }
        | Line::NamesJobs
        | Line::NamesReservations
        | Line::Monitor { .. }
        | Line::Register
        | Line::At { .. }
        | Line::Launch
        | Line::Signal => { true }
        Line::Close { session }
        | Line::Reservations { session }
        | Line::AllReservations { session }
        | Line::Queues { session }
        | Line::Machines { session } => { is_session(script, block, session) }
        Line::Run {
            session,
            template,
            reserved,
            ..
        } => {
            of_template(script, block, session, template) && is_reserved(script, block, reserved)
        }
        Line::Bulk {
            session,
            template,
            reserved,
            ..
        } => {
            of_template(script, block, session.get(), template)
                && if_reservation(script, block, reserved.get())
        }
        Line::Jobs { session, filter } | Line::AllJobs { session, filter } => {
            of_filter(script, block, session, filter.get())
        }
        Line::Array { session, array }
        | Line::SuspendArray { session, array }
        | Line::ResumeArray { session, array }
        | Line::HoldArray { session, array }
        | Line::ReleaseArray { session, array }
        | Line::TerminateArray { session, array }
        | Line::ReapArray { session, array } => { of_array(script, block, session, array) }
        Line::Suspend { session, job }
        | Line::Resume { session, job }
        | Line::Hold { session, job }
        | Line::Release { session, job }
        | Line::Terminate { session, job }
        | Line::Reap { session, job }
        | Line::State { session, job }
        | Line::Info { session, job } => { of_job(script, block, session, job) }
        Line::WaitStarted { session, jobs, .. } | Line::WaitTerminated { session, jobs, .. } => {
            of_jobs(script, block, session.get(), jobs.as_slice())
        }
        Line::Reserve {
            session,
            template,
            ..
        } => { of_frame(script, block, session, template) }
        Line::Reservation {
            session,
            reservation,
        }
        | Line::Cancel {
            session,
            reservation,
        } => { of_reservation(script, block, session, reservation) }
        Line::Started { job }
        | Line::StartFailed { job }
        | Line::Exit { job, .. }
        | Line::ExitSignal { job, .. }
        | Line::ExitUnknown { job }
        | Line::SignalDone { job, .. }
        | Line::SignalFailed { job, .. } => { is_job(script, block, job) }
    }
}

/// Whether no earlier line binds the name that a line binds.
fn is_free(script: &Script, block: &Block, line: &Line) -> bool
    ensures { result ≡ names.is_free (follows.lines_of script.now.setup ++ block.now) line.now }
{
    match line {
        Line::CreateJobs { name, .. }
        | Line::CreateReservations { name, .. }
        | Line::OpenJobs { name, .. }
        | Line::OpenReservations { name, .. }
        | Line::Monitor { name }
        | Line::Run { name, .. }
        | Line::Bulk { name, .. }
        | Line::Reserve { name, .. } => !is_bound(&script.setup, block, name),
        _ => true,
    }
}

/// Whether a line waits for jobs.
fn is_wait(line: &Line) -> bool
    ensures { result ≡ follows.is_wait line.now }
{
    matches!(line, Line::WaitStarted { .. } | Line::WaitTerminated { .. })
}

fn is_infinite(timeout: Timeout) -> bool
    ensures { result ≡ follows.is_infinite timeout }
{
    matches!(timeout, Timeout::Infinite)
}

/// Whether a line waits without end.
fn is_endless_wait(line: &Line) -> bool
    ensures { result ≡ follows.is_endless_wait line.now }
{
    match line {
        Line::WaitStarted { timeout, .. } | Line::WaitTerminated { timeout, .. } => {
            is_infinite(*timeout)
        }
        _ => false,
    }
}

/// Whether a line sets the moment, or is the launcher's or the reaper's: only a serial script has such lines.
fn is_serial_line(line: &Line) -> bool
    ensures { result ≡ follows.is_serial_line line.now }
{
    matches!(
        line,
        Line::At { .. }
            | Line::Launch
            | Line::Started { .. }
            | Line::StartFailed { .. }
            | Line::Exit { .. }
            | Line::ExitSignal { .. }
            | Line::ExitUnknown { .. }
            | Line::Signal
            | Line::SignalDone { .. }
            | Line::SignalFailed { .. }
    )
}

/// Whether a line registers a callback.
pub fn is_register(line: &Line) -> bool
    ensures { result ≡ follows.is_register line.now }
{
    matches!(line, Line::Register)
}

/// Whether a line belongs to this kind of script.
fn belongs(mode: Mode, in_setup: bool, line: &Line) -> bool
    ensures { result ≡ follows.belongs mode in_setup line.now }
{
    let waits_in_setup = in_setup && is_wait(line);
    match mode {
        Mode::Serial => !waits_in_setup && !is_endless_wait(line),
        Mode::Threads => {
            !waits_in_setup && !is_serial_line(line) && (in_setup || !is_register(line))
        }
    }
}

/// Whether a line may stand behind those of its block and of the setup block.
pub(crate) fn may_stand(
    mode: Mode,
    in_setup: bool,
    script: &Script,
    block: &Block,
    line: &Line,
) -> bool
    ensures { result ≡ follows.may_stand mode in_setup script.now (follows.lines_of script.now.setup ++ block.now) line.now }
{
    belongs(mode, in_setup, line) && (is_free(script, block, line) && refers(script, block, line))
}
