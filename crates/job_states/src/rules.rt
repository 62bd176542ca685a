//! The rules themselves, each equal to its definition in `drmaa_types`.
ghost use Rattle.std.specs.Prelude.{◌≡◌};
ghost use Rattle.drmaa_types.specs.States as rule;

use drmaa_types::{Control, Exit, JobState};

/// Whether a job may go from one state to the other: the edges of the state model.
pub fn may(from: JobState, to: JobState) -> bool
    ensures { result ≡ rule.may from to }
{
    match from {
        JobState::Queued => {
            matches!(
                to,
                JobState::QueuedHeld | JobState::Running | JobState::Failed
            )
        }
        JobState::QueuedHeld => matches!(to, JobState::Queued | JobState::Failed),
        JobState::Running => matches!(
            to,
            JobState::Suspended | JobState::Requeued | JobState::Done | JobState::Failed
        ),
        JobState::Suspended => matches!(
            to,
            JobState::Running | JobState::Requeued | JobState::Done | JobState::Failed
        ),
        JobState::Requeued => {
            matches!(
                to,
                JobState::Running | JobState::RequeuedHeld | JobState::Failed
            )
        }
        JobState::RequeuedHeld => matches!(to, JobState::Requeued | JobState::Failed),
        JobState::Undetermined | JobState::Done | JobState::Failed => false,
    }
}

/// The state after a control call. None exactly where a job in this state does not permit the call.
/// Terminating a started job leaves it in its state, until its exit is reported.
pub fn after_control(state: JobState, control: Control) -> Option<JobState>
    ensures { result ≡ rule.after_control state control }
{
    match (control, state) {
        (Control::Hold, JobState::Queued) => Some(JobState::QueuedHeld),
        (Control::Hold, JobState::Requeued) => Some(JobState::RequeuedHeld),
        (Control::Release, JobState::QueuedHeld) => Some(JobState::Queued),
        (Control::Release, JobState::RequeuedHeld) => Some(JobState::Requeued),
        (Control::Suspend, JobState::Running) => Some(JobState::Suspended),
        (Control::Resume, JobState::Suspended) => Some(JobState::Running),
        (Control::Terminate, JobState::Running | JobState::Suspended) => Some(state),
        (
            Control::Terminate,
            JobState::Queued | JobState::QueuedHeld | JobState::Requeued | JobState::RequeuedHeld,
        ) => Some(JobState::Failed),
        _ => None,
    }
}

/// The state after an exit, None for one that could not be learnt. `asked` says that a kill was
/// asked before it, also where that kill was then reported as failed.
pub fn after_exit(exit: Option<Exit>, rerunnable: bool, asked: bool) -> JobState
    ensures { result ≡ rule.after_exit exit rerunnable asked }
{
    match exit {
        Some(Exit::Code(0)) if !asked => JobState::Done,
        Some(Exit::Code(99)) if rerunnable && !asked => JobState::Requeued,
        _ => JobState::Failed,
    }
}

/// The state after a start that failed, where this was the job's launch of this number.
pub fn after_start_failure(attempt: u32, rerunnable: bool, asked: bool) -> JobState
    ensures { result ≡ rule.after_start_failure attempt rerunnable asked }
{
    if rerunnable && !asked && (attempt == 1 || attempt == 2) {
        JobState::Requeued
    } else {
        JobState::Failed
    }
}

/// For a wait: whether the job is past being queued for the first time.
pub fn has_started(state: JobState) -> bool
    ensures { result ≡ rule.has_started state }
{
    !matches!(state, JobState::Queued | JobState::QueuedHeld)
}

/// For a wait: whether the job has ended.
pub fn has_terminated(state: JobState) -> bool
    ensures { result ≡ rule.has_terminated state }
{
    matches!(state, JobState::Done | JobState::Failed)
}
