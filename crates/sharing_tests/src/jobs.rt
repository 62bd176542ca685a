//! The sessions of the tests with their jobs, and what launcher and reaper report of these.
ghost use Rattle.std.specs.Prelude.{◌≡◌};
ghost use Rattle.turn_lock.specs.Tokens.{IsFree};

use crate::machines::{plain, text};
use call_history::{Call, Desk, Reply};
use client_sessions::{
    Job, JobArray, JobSession, MonitoringSession, Reservation, ReservationSession, SessionManager,
};
use drmaa_types::{
    ArrayId, Clock, Exit, IdList, JobId, Refusal, ReservationId, SessionId, TextList,
};
use std::alloc::Global;
use std::sync::Wait;

pub const MANAGER: SessionManager = SessionManager {};

/// The session for jobs.
pub const SESSION: JobSession = JobSession {
    session: SessionId(1),
};

/// The session for reservations.
pub const RESERVATIONS: ReservationSession = ReservationSession {
    session: SessionId(2),
};

/// Its first reservation.
pub const RESERVED: Reservation = Reservation {
    session: SessionId(2),
    reservation: ReservationId(1),
};

pub const MONITORING: MonitoringSession = MonitoringSession {
    session: SessionId(3),
};

/// A job of the session.
pub const fn job_of(number: u64) -> Job {
    Job {
        session: SessionId(1),
        job: JobId(number),
    }
}

/// The array of the session, behind two jobs.
pub const ARRAY: JobArray = JobArray {
    session: SessionId(1),
    array: ArrayId(1),
    first: JobId(3),
    count: 3,
};

/// Makes the session.
pub fn open<R: Wait, C: Clock>(rt: &R, alloc: Global, desk: &mut Desk<C>) -> bool
    requires { IsFree desk.old.shared.now desk.old.client }
    ensures client { IsFree desk.new.shared.now desk.new.client }
    ensures shared { desk.new.shared.now ≡ desk.old.shared.now }
{
    MANAGER.create_job_session(rt, desk, Some(text(alloc, "s"))) == Ok(SESSION)
}

/// Runs a job in the session, which is to have this number.
pub fn run<R: Wait, C: Clock>(rt: &R, alloc: Global, desk: &mut Desk<C>, number: u64) -> bool
    requires { IsFree desk.old.shared.now desk.old.client }
    ensures client { IsFree desk.new.shared.now desk.new.client }
    ensures shared { desk.new.shared.now ≡ desk.old.shared.now }
{
    SESSION.run_job(rt, desk, plain(alloc)) == Ok(job_of(number))
}

/// Launches the next job, which is to have this number.
pub fn launch<R: Wait, C: Clock>(rt: &R, desk: &mut Desk<C>, number: u64) -> bool
    requires { IsFree desk.old.shared.now desk.old.client }
    ensures { IsFree desk.new.shared.now desk.new.client }
{
    match desk.call(rt, Call::TakeLaunch) {
        Ok(Reply::Launch(launch)) => launch.job.0 == number,
        _ => false,
    }
}

/// Reports that the first launch of a job has started.
pub fn start<R: Wait, C: Clock>(rt: &R, desk: &mut Desk<C>, number: u64) -> bool
    requires { IsFree desk.old.shared.now desk.old.client }
    ensures { IsFree desk.new.shared.now desk.new.client }
{
    let call = Call::Started {
        job: JobId(number),
        attempt: 1,
    };
    desk.ask_for::<R, ()>(rt, call).is_ok()
}

/// Reports that the first launch of a job has ended so.
pub fn end<R: Wait, C: Clock>(rt: &R, desk: &mut Desk<C>, number: u64, exit: Exit) -> bool
    requires { IsFree desk.old.shared.now desk.old.client }
    ensures { IsFree desk.new.shared.now desk.new.client }
{
    let call = Call::Exited {
        job: JobId(number),
        attempt: 1,
        exit,
    };
    desk.ask_for::<R, ()>(rt, call).is_ok()
}

/// Whether these numbers are told.
pub fn is_numbered(told: Result<IdList, Refusal>, wanted: &[u64]) -> bool {
    match told {
        Ok(list) => list.as_slice() == wanted,
        Err(_) => false,
    }
}

fn has_alone(list: &TextList, wanted: &str) -> bool {
    match list.as_slice() {
        [one] => one.as_str() == wanted,
        _ => false,
    }
}

/// Whether this one text is told.
pub fn is_named(told: Result<TextList, Refusal>, wanted: &str) -> bool {
    match told {
        Ok(list) => has_alone(&list, wanted),
        Err(_) => false,
    }
}
