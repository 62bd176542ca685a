//! What the client of a play asks, and what its replies say, as far as the tables compare them.
use call_history::{Call, Reply};
use drmaa_model::Target;
use drmaa_types::{
    AttributeList, Control, Exit, JobId, JobState, ListOf, Refusal, SessionId, Shared, SignalKind,
    Text, TextList,
};
use job_template::JobTemplate;
use std::alloc::Global;

/// A call of the client. Its session is the first one.
#[derive(Clone, Copy)]
pub enum Ask {
    Create,
    /// Submits a job, which may be rerunnable.
    Run { rerunnable: bool },
    Control(u64, Control),
    State(u64),
    /// A call that is the launcher's, or the reaper's, by another caller.
    TakeLaunch,
    Started(u64),
    Exited(u64, Exit),
    TakeSignal,
    KillDone(u64),
}

/// What a reply says.
#[derive(Clone, Copy)]
pub enum Said {
    Unit,
    Session(u64),
    Job(u64),
    State(JobState),
    Launch(u64, u32),
    Kill(u64),
    /// The job's state does not permit it.
    InState(JobState),
}

/// A text. Where memory is wanting it is empty, and then no test passes.
pub fn text(alloc: Global, characters: &str) -> Text {
    match String::from_str(alloc, characters) {
        Ok(whole) => Text::from_string(whole),
        Err(_) => Text::from_string(String::new(alloc)),
    }
}

/// A template whose command is `true`.
fn template(alloc: Global, rerunnable: bool) -> JobTemplate {
    JobTemplate {
        remote_command: text(alloc, "true"),
        args: TextList::new(alloc),
        submit_as_hold: false,
        rerunnable,
        job_environment: ListOf::new(alloc),
        working_directory: None,
        job_name: None,
        input_path: None,
        output_path: None,
        error_path: None,
        join_files: false,
        reservation_id: None,
        queue_name: None,
        min_slots: None,
        max_slots: None,
        priority: None,
        start_time: None,
        deadline_time: None,
        resource_limits: ListOf::new(alloc),
        others: AttributeList::new(alloc),
    }
}

const SESSION: SessionId = SessionId(1);

/// A call that needs no memory of its own.
pub fn plain_call(ask: Ask) -> Call {
    match ask {
        Ask::Control(job, what) => Call::Control {
            session: SESSION,
            target: Target::Job(JobId(job)),
            what,
        },
        Ask::State(job) => Call::GetState {
            session: SESSION,
            job: JobId(job),
        },
        Ask::Started(job) => Call::Started {
            job: JobId(job),
            attempt: 1,
        },
        Ask::Exited(job, exit) => Call::Exited {
            job: JobId(job),
            attempt: 1,
            exit,
        },
        Ask::TakeSignal => Call::TakeSignal,
        Ask::KillDone(job) => Call::SignalDone {
            job: JobId(job),
            attempt: 1,
            kind: SignalKind::Kill,
        },
        _ => Call::TakeLaunch,
    }
}

pub fn call_of(alloc: Global, ask: Ask) -> Call {
    match ask {
        Ask::Create => Call::CreateJobSession {
            name: Some(text(alloc, "s")),
        },
        Ask::Run { rerunnable } => run(alloc, rerunnable),
        _ => plain_call(ask),
    }
}

/// Runs a job. Where memory is wanting it is another call, and then no test passes.
fn run(alloc: Global, rerunnable: bool) -> Call {
    match Shared::new(alloc, template(alloc, rerunnable)) {
        Ok(template) => Call::RunJob {
            session: SESSION,
            template,
        },
        Err(_) => Call::TakeLaunch,
    }
}

/// Whether an answer is a reply that says this.
pub fn answers<E>(answer: &Result<Reply, E>, said: Said) -> bool {
    match answer {
        Ok(reply) => says(reply, said),
        Err(_) => false,
    }
}

/// Whether a reply says this.
fn says(reply: &Reply, said: Said) -> bool {
    match said {
        Said::Unit => matches!(reply, Reply::Unit),
        Said::Session(number) => matches!(reply, Reply::Session(session) if session.0 == number),
        Said::Job(number) => matches!(reply, Reply::Job(job) if job.0 == number),
        Said::State(state) => matches!(reply, Reply::State(told) if *told == state),
        Said::Launch(job, attempt) => is_launch(reply, job, attempt),
        Said::Kill(job) => is_kill(reply, job),
        Said::InState(state) => is_in_state(reply, state),
    }
}

fn is_launch(reply: &Reply, job: u64, attempt: u32) -> bool {
    match reply {
        Reply::Launch(launch) => launch.job.0 == job && launch.attempt == attempt,
        _ => false,
    }
}

fn is_kill(reply: &Reply, job: u64) -> bool {
    match reply {
        Reply::Signal(signal) => signal.job.0 == job && signal.kind == SignalKind::Kill,
        _ => false,
    }
}

fn is_in_state(reply: &Reply, state: JobState) -> bool {
    matches!(reply, Reply::Refused(Refusal::InvalidState(told)) if *told == state)
}
