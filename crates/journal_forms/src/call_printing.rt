//! Calls: printed.
ghost use Rattle.std.specs.Prelude.{◌≡◌, ◌++◌, OnOk};
ghost use Rattle.drmaa_model.specs.RecordedCalls.{recorded};
ghost use Rattle.text_forms.specs.Templates.{any_template, any_frame};
ghost use Rattle.journal_forms.specs.Calls.{call_form};

use crate::control_calls::{push_control, push_reap};
use crate::fields::{push_one, push_three, push_two};
use crate::job_calls::{push_bulk, push_run, push_sought, push_wait, wait_word};
use crate::reservation_calls::push_request;
use crate::session_calls::push_named;
use drmaa_model::Call;
use std::alloc::AllocError;
use text_codec::spell_call_word;

/// Prints a call, as a journal keeps it: a limit's name that no journal can have as `OTHER`.
#[tactic(auto, unfolding(crate::specs::Calls::of_job, crate::specs::Calls::of_array, crate::specs::Calls::of_reservation, crate::specs::Calls::launched, crate::specs::Calls::ended, crate::specs::Calls::signalled))]
pub fn push_call(out: &mut Vec<u8>, call: &Call) -> Result<(), AllocError>
    ensures text { OnOk result (out.new.items ≡ out.old.items ++ (call_form any_template any_frame (recorded call.now)).text) }
    ensures valid { OnOk result ((call_form any_template any_frame (recorded call.now)).valid) }
{
    match call {
        Call::CreateJobSession { name } => push_named(out, b"create-jobs", name),
        Call::CreateReservationSession { name } => push_named(out, b"create-reservations", name),
        Call::OpenJobSession { name } => push_one(out, b"open-jobs", name),
        Call::OpenReservationSession { name } => push_one(out, b"open-reservations", name),
        Call::DestroyJobSession { name } => push_one(out, b"destroy-jobs", name),
        Call::DestroyReservationSession { name } => push_one(out, b"destroy-reservations", name),
        Call::JobSessionNames => out.extend_from_slice(b"names-jobs"),
        Call::ReservationSessionNames => out.extend_from_slice(b"names-reservations"),
        Call::OpenMonitoring => out.extend_from_slice(b"monitor"),
        Call::CloseSession { session } => push_one(out, b"close", session),
        Call::RunJob { session, template } => push_run(out, session, template.get()),
        Call::RunBulk {
            session,
            template,
            indices,
        } => push_bulk(out, session, template.get(), indices),
        Call::GetJobs { session, filter } => push_sought(out, b"jobs", session, filter.get()),
        Call::GetJobArray { session, array } => push_two(out, b"array", session, array),
        Call::Control {
            session,
            target,
            what,
        } => push_control(out, session, target, *what),
        Call::Reap { session, target } => push_reap(out, session, target),
        Call::GetState { session, job } => push_two(out, b"state", session, job),
        Call::GetInfo { session, job } => push_two(out, b"info", session, job),
        Call::Wait {
            session,
            jobs,
            kind,
            begun,
            timeout,
        } => push_wait(
            out,
            spell_call_word(wait_word(*kind)).as_bytes(),
            session,
            begun,
            *timeout,
            jobs.as_slice(),
        ),
        Call::RequestReservation { session, template } => push_request(
            out,
            session,
            template.get(),
        ),
        Call::GetReservation {
            session,
            reservation,
        } => push_two(out, b"reservation", session, reservation),
        Call::GetReservations { session } => push_one(out, b"reservations", session),
        Call::EndReservation {
            session,
            reservation,
        } => push_two(out, b"cancel", session, reservation),
        Call::AllJobs { session, filter } => push_sought(out, b"all-jobs", session, filter.get()),
        Call::AllReservations { session } => push_one(out, b"all-reservations", session),
        Call::AllQueues { session } => push_one(out, b"queues", session),
        Call::AllMachines { session } => push_one(out, b"machines", session),
        Call::Register => out.extend_from_slice(b"register"),
        Call::TakeLaunch => out.extend_from_slice(b"launch"),
        Call::Started { job, attempt } => push_two(out, b"started", job, attempt),
        Call::StartFailed { job, attempt } => push_two(out, b"start-failed", job, attempt),
        Call::Exited { job, attempt, exit } => push_three(out, b"exit", job, attempt, exit),
        Call::ExitUnknown { job, attempt } => push_two(out, b"exit-unknown", job, attempt),
        Call::TakeSignal => out.extend_from_slice(b"signal"),
        Call::SignalDone { job, attempt, kind } => push_three(
            out,
            b"signal-done",
            job,
            attempt,
            kind,
        ),
        Call::SignalFailed { job, attempt, kind } => push_three(
            out,
            b"signal-failed",
            job,
            attempt,
            kind,
        ),
    }
}
