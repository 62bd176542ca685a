//! Each typed call of one client, with ample memory: what it is answered, at one machine and in this order.
ghost use Rattle.turn_lock.specs.Tokens.{IsFree};

use crate::infos::{
    KILLED, RUNNING, is_alone, is_known, is_listed, is_machine, is_reservation, is_the_reservation,
};
use crate::jobs::{
    ARRAY, MANAGER, MONITORING, RESERVATIONS, RESERVED, SESSION, end, is_named, is_numbered,
    job_of, launch, start,
};
use crate::machines::{at, desk, machine, numbers, plain, stopped, text};
use call_history::{Bell, Desk};
use client_sessions::{JobSession, ReservationSession};
use drmaa_types::{
    ArrayId, AttributeList, Clock, Exit, JobFilter, JobId, JobState, Refusal, ReservationId,
    Reserved, SessionId, Start, StepClock, Timeout, Which,
};
use job_template::ReservationTemplate;
use std::alloc::Global;
use std::process::Abort;
use std::sync::Wait;
use std::time::Clock as Pause;

const DONE: Result<(), Refusal> = Ok(());

const AT_ONCE: Timeout = Timeout::Seconds(0);

/// Sessions of each kind are made, and opened once more by their names.
fn open_sessions<R: Wait, C: Clock>(rt: &R, alloc: Global, desk: &mut Desk<C>) -> bool
    requires { IsFree desk.old.shared.now desk.old.client }
    ensures { IsFree desk.new.shared.now desk.new.client }
{
    let (fourth, fifth) = (SessionId(4), SessionId(5));
    let told = [
        MANAGER.create_job_session(rt, desk, Some(text(alloc, "s"))) == Ok(SESSION),
        MANAGER.create_reservation_session(rt, desk, Some(text(alloc, "q"))) == Ok(RESERVATIONS),
        MANAGER.open_monitoring_session(rt, desk) == Ok(MONITORING),
        MANAGER.open_job_session(rt, desk, text(alloc, "s")) == Ok(JobSession { session: fourth }),
        MANAGER.open_reservation_session(rt, desk, text(alloc, "q"))
            == Ok(ReservationSession { session: fifth }),
        is_named(MANAGER.job_session_names(rt, desk), "s"),
        is_named(MANAGER.reservation_session_names(rt, desk), "q"),
        MANAGER.close(rt, desk, fourth) == DONE,
        MANAGER.close(rt, desk, fourth) == Err(Refusal::InvalidSession),
    ];
    told == [true; 9]
}

/// All four slots from 100 to 200 seconds.
fn fixed(alloc: Global) -> ReservationTemplate {
    ReservationTemplate {
        reservation_name: None,
        start_time: Some(Start::At(at(100))),
        end_time: Some(at(200)),
        duration: None,
        min_slots: Some(4),
        max_slots: None,
        others: AttributeList::new(alloc),
    }
}

fn given() -> Reserved {
    Reserved {
        reservation: ReservationId(1),
        slots: 4,
        from: at(100),
        until: at(200),
    }
}

/// A reservation is told by its session, by itself, in a list of numbers and by monitoring, until it ends.
fn reserve<R: Wait, C: Clock>(rt: &R, alloc: Global, desk: &mut Desk<C>) -> bool
    requires { IsFree desk.old.shared.now desk.old.client }
    ensures { IsFree desk.new.shared.now desk.new.client }
{
    let told = [
        RESERVATIONS.request_reservation(rt, desk, fixed(alloc)) == Ok(given()),
        is_reservation(RESERVATIONS.get_reservation(rt, desk, ReservationId(1))),
        is_reservation(RESERVED.get_info(rt, desk)),
        is_numbered(RESERVATIONS.get_reservations(rt, desk), &[1]),
        is_the_reservation(MONITORING.get_all_reservations(rt, desk)),
        RESERVED.terminate(rt, desk) == DONE,
        RESERVED.terminate(rt, desk) == Err(Refusal::InvalidArgument(Which::Reservation)),
    ];
    told == [true; 7]
}

/// A filter that lets the jobs in this state through.
fn in_state(state: JobState) -> JobFilter {
    JobFilter {
        job: None,
        name: None,
        state: Some(state),
        slots: None,
        queue: None,
        status: None,
        wallclock: None,
        submitted: None,
        dispatched: None,
        finished: None,
    }
}

/// Two jobs and an array of three are submitted.
fn submit<R: Wait, C: Clock>(rt: &R, alloc: Global, desk: &mut Desk<C>) -> bool
    requires { IsFree desk.old.shared.now desk.old.client }
    ensures { IsFree desk.new.shared.now desk.new.client }
{
    let told = [
        SESSION.run_job(rt, desk, plain(alloc)) == Ok(job_of(1)),
        SESSION.run_job(rt, desk, plain(alloc)) == Ok(job_of(2)),
        SESSION.run_bulk_jobs(rt, desk, plain(alloc), 1, 3, 1, None) == Ok(ARRAY),
        is_numbered(
            SESSION.get_jobs(rt, desk, in_state(JobState::Queued)),
            &[1, 2, 3, 4, 5],
        ),
        is_numbered(SESSION.get_job_array(rt, desk, ArrayId(1)), &[3, 4, 5]),
    ];
    told == [true; 5]
}

/// A job that waits is held and released, and the first one is launched and started.
fn begin<R: Wait, C: Clock>(rt: &R, desk: &mut Desk<C>) -> bool
    requires { IsFree desk.old.shared.now desk.old.client }
    ensures { IsFree desk.new.shared.now desk.new.client }
{
    let second = job_of(2);
    let told = [
        second.hold(rt, desk) == DONE,
        second.get_state(rt, desk) == Ok(JobState::QueuedHeld),
        second.release(rt, desk) == DONE,
        launch(rt, desk, 1),
        start(rt, desk, 1),
    ];
    told == [true; 5]
}

/// Monitoring tells of the job that runs, of the queues and of the machine.
fn monitor<R: Wait, C: Clock>(rt: &R, desk: &mut Desk<C>) -> bool
    requires { IsFree desk.old.shared.now desk.old.client }
    ensures { IsFree desk.new.shared.now desk.new.client }
{
    let told = [
        is_alone(
            MONITORING.get_all_jobs(rt, desk, in_state(JobState::Running)),
            &RUNNING,
        ),
        is_known(MONITORING.job_info(rt, desk, JobId(1)), &RUNNING),
        MONITORING.job_state(rt, desk, JobId(2)) == Ok(JobState::Queued),
        is_named(MONITORING.get_all_queues(rt, desk), "default"),
        is_machine(MONITORING.get_all_machines(rt, desk), 1),
    ];
    told == [true; 5]
}

/// The job that runs is suspended, resumed and terminated, ends by its kill, and is reaped.
fn control<R: Wait + Pause, C: Clock>(rt: &R, alloc: Global, desk: &mut Desk<C>) -> bool
    requires { IsFree desk.old.shared.now desk.old.client }
    ensures { IsFree desk.new.shared.now desk.new.client }
{
    let job = job_of(1);
    let told = [
        job.suspend(rt, desk) == DONE,
        job.try_get_state(desk) == Ok(JobState::Suspended),
        job.resume(rt, desk) == DONE,
        job.hold(rt, desk) == Err(Refusal::InvalidState(JobState::Running)),
        is_known(job.get_info(rt, desk), &RUNNING),
        job.terminate(rt, desk) == DONE,
        end(rt, desk, 1, Exit::Signal(9)),
        job.wait_terminated(alloc, rt, desk, AT_ONCE) == DONE,
        is_known(job.get_info(rt, desk), &KILLED),
        job.reap(rt, desk) == DONE,
        job.get_state(rt, desk) == Err(Refusal::InvalidArgument(Which::Job)),
    ];
    told == [true; 11]
}

/// The waiting jobs of the array are held and released; one is launched behind the job that comes before it, and suspended and
/// resumed; all are terminated. The two that were waiting have ended, and are reaped.
fn control_array<R: Wait, C: Clock>(rt: &R, desk: &mut Desk<C>) -> bool
    requires { IsFree desk.old.shared.now desk.old.client }
    ensures { IsFree desk.new.shared.now desk.new.client }
{
    let told = [
        ARRAY.hold(rt, desk) == DONE,
        ARRAY.hold(rt, desk) == Err(Refusal::InvalidState(JobState::QueuedHeld)),
        ARRAY.release(rt, desk) == DONE,
        launch(rt, desk, 2),
        launch(rt, desk, 3),
        ARRAY.suspend(rt, desk) == DONE,
        ARRAY.resume(rt, desk) == DONE,
        ARRAY.terminate(rt, desk) == DONE,
        ARRAY.reap(rt, desk) == DONE,
        is_numbered(SESSION.get_job_array(rt, desk, ArrayId(1)), &[3]),
    ];
    told == [true; 10]
}

/// A job that was terminated while it was queued has started, and has ended; another one has not.
fn wait_once<R: Wait + Pause, C: Clock>(rt: &R, alloc: Global, desk: &mut Desk<C>) -> bool
    requires { IsFree desk.old.shared.now desk.old.client }
    ensures { IsFree desk.new.shared.now desk.new.client }
{
    let (sixth, seventh) = (job_of(6), job_of(7));
    let told = [
        SESSION.run_job(rt, desk, plain(alloc)) == Ok(sixth),
        SESSION.run_job(rt, desk, plain(alloc)) == Ok(seventh),
        sixth.terminate(rt, desk) == DONE,
        SESSION.wait_any_started(rt, desk, numbers(alloc, &[7, 6]), AT_ONCE) == Ok(sixth),
        SESSION.wait_any_terminated(rt, desk, numbers(alloc, &[7, 6]), AT_ONCE) == Ok(sixth),
        sixth.wait_started(alloc, rt, desk, AT_ONCE) == DONE,
        seventh.wait_started(alloc, rt, desk, AT_ONCE) == Err(Refusal::Timeout),
    ];
    told == [true; 7]
}

/// The listing of one job that has ended.
const LISTED: &str = "       job state         slots name\n         2 DONE              1 -\n";

/// Sessions are destroyed. A job that ends then is listed by monitoring, and reaped; one that has not ended is not.
fn close_sessions<R: Wait, C: Clock>(rt: &R, alloc: Global, desk: &mut Desk<C>) -> bool
    requires { IsFree desk.old.shared.now desk.old.client }
    ensures { IsFree desk.new.shared.now desk.new.client }
{
    let told = [
        MANAGER.destroy_reservation_session(rt, desk, text(alloc, "q")) == DONE,
        RESERVED.terminate(rt, desk) == Err(Refusal::InvalidSession),
        MANAGER.destroy_job_session(rt, desk, text(alloc, "s")) == DONE,
        job_of(2).get_state(rt, desk) == Err(Refusal::InvalidSession),
        end(rt, desk, 2, Exit::Code(0)),
        is_listed(
            alloc,
            MONITORING.get_all_jobs(rt, desk, in_state(JobState::Done)),
            LISTED,
        ),
        MONITORING.reap(rt, desk, JobId(2)) == DONE,
        MONITORING.reap(rt, desk, JobId(7)) == Err(Refusal::InvalidState(JobState::Queued)),
        MONITORING.job_state(rt, desk, JobId(2)) == Err(Refusal::InvalidArgument(Which::Job)),
    ];
    told == [true; 9]
}

/// Whether all is answered as it is to be.
fn are_answered<R: Wait + Pause>(rt: &R, alloc: Global, desk: &mut Desk<StepClock>) -> bool
    requires { IsFree desk.old.shared.now desk.old.client }
{
    let told = [
        open_sessions(rt, alloc, desk),
        reserve(rt, alloc, desk),
        submit(rt, alloc, desk),
        begin(rt, desk),
        monitor(rt, desk),
        control(rt, alloc, desk),
        control_array(rt, desk),
        wait_once(rt, alloc, desk),
        close_sessions(rt, alloc, desk),
    ];
    told == [true; 9]
}

/// The same by a client whose clock stands at 0.
fn are_answered_at<R: Abort + Wait + Pause>(rt: &R, alloc: Global) -> bool {
    let (shared, mut opener) = machine(rt, alloc, 4_000_000);
    let bell = Bell::silent();
    are_answered(
        rt,
        alloc,
        &mut desk(&shared, &mut opener, &bell, stopped(0)),
    )
}

#[test]
fn each_typed_call_is_answered(rt: HostRuntime) {
    assert!(rt; are_answered_at(&rt, rt.alloc()));
}
