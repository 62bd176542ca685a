//! The functions that serve the calls.
ghost use Rattle.std.specs.Prelude.{OnOk};
ghost use Rattle.machine_readings.specs.Stores.{world_of, IsStore};
ghost use Rattle.machine_calls.specs.Serving.{Comes, Keeps, HasPlace};
ghost use Rattle.drmaa_machine.specs.Sparing.{Sparing};

use drmaa_model::{Call, NoEntry, Report};
use drmaa_types::{Moment, SessionKind};
use machine_calls::{
    Replies, attach, close, control, create, destroy, end_reservation, monitor, read, reap,
    register, report, request_reservation, submit, take_launch, take_signal, wait,
};
use machine_readings::Store;

/// Serves a call, but for its entry, whose memory is there then.
pub fn perform(store: &mut Store, at: Moment, call: &Call) -> Result<Replies, NoEntry>
    requires store { IsStore store.old }
    ensures comes { Comes (world_of store.old) at call.now result (world_of store.new) }
    ensures keeps { Keeps store.old store.new }
    ensures place { OnOk result (HasPlace 1 store.new) }
    ensures sparing { Sparing store.old at call.now result store.new }
{
    match call {
        Call::CreateJobSession { name } => create(store, at, SessionKind::Jobs, name),
        Call::CreateReservationSession { name } => create(
            store,
            at,
            SessionKind::Reservations,
            name,
        ),
        Call::OpenJobSession { name } => attach(store, at, SessionKind::Jobs, name),
        Call::OpenReservationSession { name } => attach(store, at, SessionKind::Reservations, name),
        Call::DestroyJobSession { name } => destroy(store, at, SessionKind::Jobs, name),
        Call::DestroyReservationSession { name } => destroy(
            store,
            at,
            SessionKind::Reservations,
            name,
        ),
        Call::JobSessionNames => read(store, at, call),
        Call::ReservationSessionNames => read(store, at, call),
        Call::OpenMonitoring => monitor(store, at),
        Call::CloseSession { session } => close(store, at, *session),
        Call::RunJob { session, template } => submit(store, at, *session, template.get(), None),
        Call::RunBulk {
            session,
            template,
            indices,
        } => submit(store, at, *session, template.get(), Some(*indices)),
        Call::GetJobs { .. } => read(store, at, call),
        Call::GetJobArray { .. } => read(store, at, call),
        Call::Control {
            session,
            target,
            what,
        } => control(store, at, *session, *target, *what),
        Call::Reap { session, target } => reap(store, at, *session, *target),
        Call::GetState { .. } => read(store, at, call),
        Call::GetInfo { .. } => read(store, at, call),
        Call::Wait {
            session,
            jobs,
            kind,
            begun,
            timeout,
        } => wait(store, at, *session, jobs, *kind, *begun, *timeout),
        Call::RequestReservation { session, template } => request_reservation(
            store,
            at,
            *session,
            template.get(),
        ),
        Call::GetReservation { .. } => read(store, at, call),
        Call::GetReservations { .. } => read(store, at, call),
        Call::EndReservation {
            session,
            reservation,
        } => end_reservation(store, at, *session, *reservation),
        Call::AllJobs { .. } => read(store, at, call),
        Call::AllReservations { .. } => read(store, at, call),
        Call::AllQueues { .. } => read(store, at, call),
        Call::AllMachines { .. } => read(store, at, call),
        Call::Register => register(store, at),
        Call::TakeLaunch => take_launch(store, at),
        Call::Started { job, attempt } => report(
            store,
            at,
            Report::Started {
                job: *job,
                attempt: *attempt,
            },
        ),
        Call::StartFailed { job, attempt } => report(
            store,
            at,
            Report::StartFailed {
                job: *job,
                attempt: *attempt,
            },
        ),
        Call::Exited { job, attempt, exit } => report(
            store,
            at,
            Report::Exited {
                job: *job,
                attempt: *attempt,
                exit: *exit,
            },
        ),
        Call::ExitUnknown { job, attempt } => report(
            store,
            at,
            Report::ExitUnknown {
                job: *job,
                attempt: *attempt,
            },
        ),
        Call::TakeSignal => take_signal(store, at),
        Call::SignalDone { job, attempt, kind } => report(
            store,
            at,
            Report::SignalDone {
                job: *job,
                attempt: *attempt,
                kind: *kind,
            },
        ),
        Call::SignalFailed { job, attempt, kind } => report(
            store,
            at,
            Report::SignalFailed {
                job: *job,
                attempt: *attempt,
                kind: *kind,
            },
        ),
    }
}
