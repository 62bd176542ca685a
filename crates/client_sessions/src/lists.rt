//! Lists of jobs and reservations, from the numbers that a call tells.
ghost use Rattle.std.specs.Prelude.{◌≡◌, IfOk, IfErr};
ghost use Rattle.drmaa_types.specs.declared.refusals.Refusal.{Refusal};
ghost use Rattle.client_sessions.specs.Lists.{jobs_of, reservations_of};

use crate::jobs::Job;
use crate::reservations::Reservation;
use drmaa_types::{IdList, JobId, ListOf, Refusal, ReservationId, SessionId};
use std::alloc::{AllocError, Global};

/// The jobs of these numbers, in their order, each asked for through the session.
///
/// # Errors
///
/// Want of memory.
pub(crate) fn jobs_of(
    alloc: Global,
    session: SessionId,
    numbers: &IdList,
) -> Result<ListOf<Job>, Refusal>
    ensures ok { IfOk result (λ jobs. jobs ≡ jobs_of session numbers.now) }
    ensures err { IfErr result (λ why. why ≡ Refusal.OutOfMemory) }
{
    match each_job(alloc, session, numbers.as_slice()) {
        Ok(jobs) => Ok(ListOf::from_vec(jobs)),
        Err(_) => Err(Refusal::OutOfMemory),
    }
}

/// The reservations of these numbers, in their order, each asked for through the session.
///
/// # Errors
///
/// Want of memory.
pub(crate) fn reservations_of(
    alloc: Global,
    session: SessionId,
    numbers: &IdList,
) -> Result<ListOf<Reservation>, Refusal>
    ensures ok { IfOk result (λ told. told ≡ reservations_of session numbers.now) }
    ensures err { IfErr result (λ why. why ≡ Refusal.OutOfMemory) }
{
    match each_reservation(alloc, session, numbers.as_slice()) {
        Ok(reservations) => Ok(ListOf::from_vec(reservations)),
        Err(_) => Err(Refusal::OutOfMemory),
    }
}

/// The job of each number.
fn each_job(alloc: Global, session: SessionId, numbers: &[u64]) -> Result<Vec<Job>, AllocError>
    ensures { IfOk result (λ jobs. jobs.items ≡ jobs_of session numbers.now) }
{
    numbers
        .iter()
        .map(|number| Job {
            session,
            job: JobId(*number),
        })
        .collect(alloc)
}

/// The reservation of each number.
fn each_reservation(
    alloc: Global,
    session: SessionId,
    numbers: &[u64],
) -> Result<Vec<Reservation>, AllocError>
    ensures { IfOk result (λ told. told.items ≡ reservations_of session numbers.now) }
{
    numbers
        .iter()
        .map(|number| Reservation {
            session,
            reservation: ReservationId(*number),
        })
        .collect(alloc)
}
