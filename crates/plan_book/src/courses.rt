//! How a job's course goes on: the rules of the profile, as functions from one course to the next. None of them takes memory.
ghost use Rattle.std.specs.Prelude.{◌≡◌, ◌+◌, ◌^◌, ◌<◌, if◌then◌else◌};
ghost use Rattle.drmaa_types.specs.States.{has_terminated};
ghost use Rattle.drmaa_model.specs.Courses.{planned_end, limit_end, optional_end, end_after, lesser_end, submitted_course, launched, is_asked, ended, exited, lost, unstarted, signal_failed, begun, failed, called, is_unasked, may_kill, terminated, controlled, asked_for};

use crate::states::is_started;
use drmaa_model::{Course, Kill, Phase, Wants};
use drmaa_types::{Control, End, Exit, JobState, Moment, Note, SignalKind};
use job_states::{after_exit, after_start_failure, has_terminated};

/// When a launch at this moment is to end: the lesser of the end that its limit sets and its deadline.
pub fn planned_end(wants: &Wants, moment: Moment) -> End
    ensures { result ≡ planned_end wants.now moment }
{
    lesser_end(limit_end(moment, wants.limit), optional_end(wants.deadline))
}

fn limit_end(moment: Moment, limit: Option<u64>) -> End
    ensures { result ≡ limit_end moment limit }
{
    match limit {
        Some(seconds) => end_after(moment, seconds),
        None => End::Never,
    }
}

/// An end where there is a moment, and else never.
pub fn optional_end(moment: Option<Moment>) -> End
    ensures { result ≡ optional_end moment }
{
    match moment {
        Some(moment) => End::At(moment),
        None => End::Never,
    }
}

fn end_after(moment: Moment, seconds: u64) -> End
    ensures { result ≡ end_after moment seconds }
{
    match moment.plus(seconds) {
        Some(end) => End::At(end),
        None => End::Never,
    }
}

/// The lesser of two ends.
pub fn lesser_end(one: End, other: End) -> End
    ensures { result ≡ lesser_end one other }
{
    match one {
        End::Never => other,
        End::At(end) => lesser_of(end, other),
    }
}

fn lesser_of(one: Moment, other: End) -> End
    ensures { result ≡ lesser_end (End.At one) other }
{
    match other {
        End::At(end) if end.number() < one.number() => End::At(end),
        End::At(_) | End::Never => End::At(one),
    }
}

/// The course of a job that is submitted, on hold or not.
pub fn submitted(on_hold: bool) -> Course
    ensures { result ≡ submitted_course on_hold }
{
    Course {
        state: if on_hold {
            JobState::QueuedHeld
        } else {
            JobState::Queued
        },
        phase: Phase::Idle,
        attempt: 0,
        held: 0,
        last_slots: None,
        kill: Kill::No,
        planned: None,
        dispatched: None,
        finished: None,
        exit: None,
        note: Note::None,
    }
}

/// Launched at this moment with so many slots, until its planned end.
pub fn launched(course: &Course, moment: Moment, slots: u32, planned: End) -> Course
    requires { course.now.attempt + 1 < 2 ^ 32 }
    ensures { result ≡ launched moment slots planned course.now }
{
    Course {
        state: JobState::Running,
        phase: Phase::Launching,
        attempt: course.attempt + 1,
        held: slots,
        last_slots: Some(slots),
        kill: course.kill,
        planned: Some(planned),
        dispatched: Some(moment),
        finished: course.finished,
        exit: course.exit,
        note: course.note,
    }
}

/// A run has ended: the job gives its slots back, and goes over to this state.
fn ended(course: &Course, moment: Moment, state: JobState) -> Course
    ensures { result ≡ ended moment state course.now }
{
    Course {
        state,
        phase: Phase::Idle,
        attempt: course.attempt,
        held: 0, // it gives its slots back
        last_slots: course.last_slots,
        kill: course.kill,
        planned: None, // and has no end to come
        dispatched: course.dispatched,
        finished: finish(state, moment, course.finished),
        exit: course.exit,
        note: course.note,
    }
}

fn finish(state: JobState, moment: Moment, finished: Option<Moment>) -> Option<Moment>
    ensures { result ≡ (if has_terminated state then Some moment else finished) }
{
    if has_terminated(state) {
        Some(moment)
    } else {
        finished
    }
}

/// Its process has ended by this exit.
pub fn exited(course: &Course, moment: Moment, exit: Exit, rerunnable: bool) -> Course
    ensures { result ≡ exited moment exit rerunnable course.now }
{
    let state = after_exit(Some(exit), rerunnable, is_asked(course.kill));
    let mut next = ended(course, moment, state);
    next.exit = Some(exit);
    next
}

/// Its process has ended, in a way that can't be learnt.
pub fn lost(course: &Course, moment: Moment, rerunnable: bool) -> Course
    ensures { result ≡ lost moment rerunnable course.now }
{
    let state = after_exit(None, rerunnable, is_asked(course.kill));
    let mut next = ended(course, moment, state);
    next.note = Note::ExitUnknown;
    next
}

/// Its process could not be started.
pub fn unstarted(course: &Course, moment: Moment, rerunnable: bool) -> Course
    ensures { result ≡ unstarted moment rerunnable course.now }
{
    let state = after_start_failure(course.attempt, rerunnable, is_asked(course.kill));
    let mut next = ended(course, moment, state);
    next.note = Note::StartFailed;
    next
}

/// A signal to it could not be delivered.
pub fn signal_failed(course: &Course, kind: SignalKind) -> Course
    ensures { result ≡ signal_failed kind course.now }
{
    let mut next = *course;
    next.note = Note::SignalFailed;
    match kind {
        SignalKind::Kill => next.kill = Kill::Failed,
        SignalKind::Stop | SignalKind::Cont => {}
    }
    next
}

/// Its process has started.
pub fn begun(course: &Course) -> Course
    ensures { result ≡ begun course.now }
{
    let mut next = *course;
    next.phase = Phase::Alive;
    next
}

/// A job that waits ends, and why.
pub fn failed(course: &Course, moment: Moment, note: Note) -> Course
    ensures { result ≡ failed moment note course.now }
{
    let mut next = ended(course, moment, JobState::Failed);
    next.note = note;
    next
}

/// A started job is asked to end, and why.
pub fn called(course: &Course, note: Note) -> Course
    ensures { result ≡ called note course.now }
{
    let mut next = *course;
    next.kill = Kill::Asked;
    next.note = note;
    next
}

/// Whether a kill counts as asked: also one that could not be delivered.
fn is_asked(kill: Kill) -> bool
    ensures { result ≡ is_asked kill }
{
    match kill {
        Kill::No => false,
        Kill::Asked | Kill::Failed => true,
    }
}

/// Whether no kill was asked.
pub fn is_unasked(kill: Kill) -> bool
    ensures { result ≡ is_unasked kill }
{
    match kill {
        Kill::No => true,
        Kill::Asked | Kill::Failed => false,
    }
}

/// Whether a call may ask for a kill: none was asked, or it could not be delivered.
pub fn may_kill(kill: Kill) -> bool
    ensures { result ≡ may_kill kill }
{
    match kill {
        Kill::No | Kill::Failed => true,
        Kill::Asked => false,
    }
}

fn terminated(course: &Course, moment: Moment) -> Course
    ensures { result ≡ terminated moment course.now }
{
    if !is_started(course.state) {
        return failed(course, moment, Note::Terminated);
    }
    if may_kill(course.kill) {
        called(course, Note::Terminated)
    } else {
        *course
    }
}

fn in_state(course: &Course, state: JobState) -> Course
    ensures { result ≡ record course.now { state = state } }
{
    let mut next = *course;
    next.state = state;
    next
}

/// After a control call that leads to this state.
pub fn controlled(course: &Course, moment: Moment, what: Control, state: JobState) -> Course
    ensures { result ≡ controlled moment what state course.now }
{
    match what {
        Control::Suspend | Control::Resume | Control::Hold | Control::Release => {
            in_state(course, state)
        }
        Control::Terminate => terminated(course, moment),
    }
}

/// The signal that a control call asks for.
pub fn asked_for(course: &Course, what: Control) -> Option<SignalKind>
    ensures { result ≡ asked_for what course.now }
{
    match what {
        Control::Suspend => Some(SignalKind::Stop),
        Control::Resume => Some(SignalKind::Cont),
        Control::Hold | Control::Release => None,
        Control::Terminate => kill_of(course),
    }
}

fn kill_of(course: &Course) -> Option<SignalKind>
    ensures { result ≡ asked_for Control.Terminate course.now }
{
    if is_started(course.state) && may_kill(course.kill) {
        Some(SignalKind::Kill)
    } else {
        None
    }
}
