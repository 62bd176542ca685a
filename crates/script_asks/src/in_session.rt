//! What a line asks of a session, or of a job, an array or a reservation in it.
ghost use Rattle.std.specs.Prelude.{◌≡◌};
ghost use Rattle.script_asks.specs.Asks as asks;

use crate::Given;
use crate::numbers::number_of;
use drmaa_model::{Call, Target};
use drmaa_types::{ArrayId, Control, JobId, ReservationId, SessionId};
use script_lines::{Line, Ref};
use script_text::Keyed;

/// A control call for a job.
fn control_job(names: &Keyed<Given>, session: &Ref, job: &Ref, what: Control) -> Option<Call>
    ensures { result ≡ asks.in_session names.now session.now (asks.number_of names.now job.now) (asks.controls asks.a_job what) }
{
    Some(Call::Control {
        session: SessionId(number_of(names, session)?),
        target: Target::Job(JobId(number_of(names, job)?)),
        what,
    })
}

/// A control call for the members of an array.
fn control_array(names: &Keyed<Given>, session: &Ref, array: &Ref, what: Control) -> Option<Call>
    ensures { result ≡ asks.in_session names.now session.now (asks.number_of names.now array.now) (asks.controls asks.an_array what) }
{
    Some(Call::Control {
        session: SessionId(number_of(names, session)?),
        target: Target::Array(ArrayId(number_of(names, array)?)),
        what,
    })
}

/// What a line asks of a session, or of a job, an array or a reservation in it, of those lines that `ask` and `report` leave. None for
/// any other.
pub(crate) fn ask_in_session(names: &Keyed<Given>, line: &Line) -> Option<Call>
    ensures { result ≡ asks.asks_in_session names.now line.now }
{
    match line {
        Line::Close { session } => Some(Call::CloseSession {
            session: SessionId(number_of(names, session)?),
        }),
        Line::Array { session, array } => Some(Call::GetJobArray {
            session: SessionId(number_of(names, session)?),
            array: ArrayId(number_of(names, array)?),
        }),
        Line::Suspend { session, job } => control_job(names, session, job, Control::Suspend),
        Line::Resume { session, job } => control_job(names, session, job, Control::Resume),
        Line::Hold { session, job } => control_job(names, session, job, Control::Hold),
        Line::Release { session, job } => control_job(names, session, job, Control::Release),
        Line::Terminate { session, job } => control_job(names, session, job, Control::Terminate),
        Line::SuspendArray { session, array } => {
            control_array(names, session, array, Control::Suspend)
        }
        Line::ResumeArray { session, array } => {
            control_array(names, session, array, Control::Resume)
        }
        Line::HoldArray { session, array } => {
            control_array(names, session, array, Control::Hold)
        }
        Line::ReleaseArray { session, array } => {
            control_array(names, session, array, Control::Release)
        }
        Line::TerminateArray { session, array } => {
            control_array(names, session, array, Control::Terminate)
        }
        Line::Reap { session, job } => Some(Call::Reap {
            session: SessionId(number_of(names, session)?),
            target: Target::Job(JobId(number_of(names, job)?)),
        }),
        Line::ReapArray { session, array } => Some(Call::Reap {
            session: SessionId(number_of(names, session)?),
            target: Target::Array(ArrayId(number_of(names, array)?)),
        }),
        Line::State { session, job } => Some(Call::GetState {
            session: SessionId(number_of(names, session)?),
            job: JobId(number_of(names, job)?),
        }),
        Line::Info { session, job } => Some(Call::GetInfo {
            session: SessionId(number_of(names, session)?),
            job: JobId(number_of(names, job)?),
        }),
        Line::Reservation {
            session,
            reservation,
        } => Some(Call::GetReservation {
            session: SessionId(number_of(names, session)?),
            reservation: ReservationId(number_of(names, reservation)?),
        }),
        Line::Reservations { session } => Some(Call::GetReservations {
            session: SessionId(number_of(names, session)?),
        }),
        Line::Cancel {
            session,
            reservation,
        } => Some(Call::EndReservation {
            session: SessionId(number_of(names, session)?),
            reservation: ReservationId(number_of(names, reservation)?),
        }),
        Line::AllReservations { session } => Some(Call::AllReservations {
            session: SessionId(number_of(names, session)?),
        }),
        Line::Queues { session } => Some(Call::AllQueues {
            session: SessionId(number_of(names, session)?),
        }),
        Line::Machines { session } => Some(Call::AllMachines {
            session: SessionId(number_of(names, session)?),
        }),
        _ => None,
    }
}
