//! Lists of jobs and of reservations, waits for all of some jobs, and what a session manager tells of itself, with ample memory.
ghost use Rattle.turn_lock.specs.Tokens.{IsFree};

use crate::jobs::{ARRAY, MANAGER, RESERVATIONS, RESERVED, SESSION, job_of, open, run};
use crate::machines::{at, desk, machine, plain, stopped, text};
use call_history::{Bell, Desk};
use client_sessions::{Job, Reservation, Version};
use drmaa_types::{
    AttributeList, Capability, Clock, JobFilter, ListOf, Refusal, Start, StepClock, Timeout, Which,
};
use job_template::ReservationTemplate;
use std::alloc::Global;
use std::process::Abort;
use std::sync::Wait;
use std::time::Clock as Pause;

const DONE: Result<(), Refusal> = Ok(());

const AT_ONCE: Timeout = Timeout::Seconds(0);

/// Whether these jobs are told.
fn are_jobs(told: Result<ListOf<Job>, Refusal>, wanted: &[Job]) -> bool {
    match told {
        Ok(list) => list.as_slice() == wanted,
        Err(_) => false,
    }
}

/// Whether these reservations are told.
fn are_reservations(told: Result<ListOf<Reservation>, Refusal>, wanted: &[Reservation]) -> bool {
    match told {
        Ok(list) => list.as_slice() == wanted,
        Err(_) => false,
    }
}

/// A filter that lets every job through.
const fn any_job() -> JobFilter {
    JobFilter {
        job: None,
        name: None,
        state: None,
        slots: None,
        queue: None,
        status: None,
        wallclock: None,
        submitted: None,
        dispatched: None,
        finished: None,
    }
}

/// All four slots from 100 to 200 seconds.
fn fixed(alloc: Global) -> ReservationTemplate {
    ReservationTemplate {
        reservation_name: None,
        start_time: Some(Start::At(at(100))),
        end_time: Some(at(200)),
        duration: None,
        min_slots: Some(4),
        max_slots: None,
        others: AttributeList::new(alloc),
    }
}

/// Two jobs and an array of three are submitted, and listed; so is a reservation.
fn list<R: Wait, C: Clock>(rt: &R, alloc: Global, desk: &mut Desk<C>) -> bool
    requires { IsFree desk.old.shared.now desk.old.client }
    ensures { IsFree desk.new.shared.now desk.new.client }
{
    let members = [job_of(3), job_of(4), job_of(5)];
    let all = [job_of(1), job_of(2), job_of(3), job_of(4), job_of(5)];
    let told = [
        open(rt, alloc, desk),
        MANAGER.create_reservation_session(rt, desk, Some(text(alloc, "q"))) == Ok(RESERVATIONS),
        run(rt, alloc, desk, 1),
        run(rt, alloc, desk, 2),
        SESSION.run_bulk_jobs(rt, desk, plain(alloc), 1, 3, 1, None) == Ok(ARRAY),
        are_jobs(SESSION.jobs(alloc, rt, desk, any_job()), &all),
        are_jobs(ARRAY.jobs(alloc, rt, desk), &members),
        RESERVATIONS.reserve(rt, desk, fixed(alloc)) == Ok(RESERVED),
        are_reservations(RESERVATIONS.reservations(alloc, rt, desk), &[RESERVED]),
    ];
    told == [true; 9]
}

/// The members of the array are terminated while they wait, so that each has started and has terminated. Waits for all stop at
/// the first job that has not, or that there is not.
fn wait_for_all<R: Wait + Pause, C: Clock>(rt: &R, alloc: Global, desk: &mut Desk<C>) -> bool
    requires { IsFree desk.old.shared.now desk.old.client }
    ensures { IsFree desk.new.shared.now desk.new.client }
{
    let members = [job_of(3), job_of(4), job_of(5)];
    let behind = [job_of(3), job_of(1), job_of(9)];
    let strange = [job_of(3), job_of(9), job_of(1)];
    let told = [
        ARRAY.terminate(rt, desk) == DONE,
        SESSION.wait_all_started(alloc, rt, desk, &members, AT_ONCE) == DONE,
        SESSION.wait_all_terminated(alloc, rt, desk, &members, AT_ONCE) == DONE,
        ARRAY.wait_started(alloc, rt, desk, AT_ONCE) == DONE,
        ARRAY.wait_terminated(alloc, rt, desk, AT_ONCE) == DONE,
        SESSION.wait_all_terminated(alloc, rt, desk, &[], AT_ONCE) == DONE,
        SESSION.wait_all_started(alloc, rt, desk, &behind, AT_ONCE) == Err(Refusal::Timeout),
        SESSION.wait_all_terminated(alloc, rt, desk, &strange, AT_ONCE)
            == Err(Refusal::InvalidArgument(Which::Job)),
        ARRAY.reap(rt, desk) == DONE,
        ARRAY.wait_started(alloc, rt, desk, AT_ONCE) == Err(Refusal::InvalidArgument(Which::Array)),
    ];
    told == [true; 10]
}

/// Names, versions, and an optional part of the standard that there is and one that there is not.
fn tells_of_itself() -> bool {
    let told = [
        MANAGER.drms_name() == "drmaa",
        MANAGER.drms_version() == Version { major: 2, minor: 0 },
        MANAGER.drmaa_name() == "DRMAA 2.2 of one machine",
        MANAGER.drmaa_version() == Version { major: 2, minor: 2 },
        MANAGER.supports(Capability::Callback),
        !MANAGER.supports(Capability::JobEmail),
    ];
    told == [true; 6]
}

/// Whether all is answered as it is to be.
fn are_answered<R: Wait + Pause>(rt: &R, alloc: Global, desk: &mut Desk<StepClock>) -> bool
    requires { IsFree desk.old.shared.now desk.old.client }
{
    let told = [
        list(rt, alloc, desk),
        wait_for_all(rt, alloc, desk),
        tells_of_itself(),
    ];
    told == [true; 3]
}

/// The same by a client whose clock stands at 0.
fn are_answered_at<R: Abort + Wait + Pause>(rt: &R, alloc: Global) -> bool {
    let (shared, mut opener) = machine(rt, alloc, 4_000_000);
    let bell = Bell::silent();
    are_answered(
        rt,
        alloc,
        &mut desk(&shared, &mut opener, &bell, stopped(0)),
    )
}

#[test]
fn lists_and_waits_for_all_are_answered(rt: HostRuntime) {
    assert!(rt; are_answered_at(&rt, rt.alloc()));
}
