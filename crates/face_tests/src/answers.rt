//! What a call of the face is answered, as the tables of steps compare it.
use drmaa_types::{JobId, JobInfo, JobState, Note, Refusal, Which};
use drmaa1_face::{BulkJobs, FaceFault};

/// What a call is answered.
#[derive(Clone, Copy, PartialEq, Eq)]
pub enum Said {
    /// It is served, and tells nothing.
    Done,
    /// The number of a job.
    Job(u64),
    /// The number of the first of some jobs, and how many there are.
    Jobs(u64, u32),
    State(JobState),
    /// Which job ended, and how.
    Ended(u64, JobState, Note),
    /// No session is active; one is already.
    Inactive,
    Active,
    /// The machine refuses: a time is over; what is named is not there; for another reason.
    Timeout,
    Wrong(Which),
    Refused,
    /// Launcher or reaper are answered as it was wanted, or otherwise.
    AsWanted,
    Otherwise,
}

/// What a refusal of the machine says.
fn refused(why: Refusal) -> Said {
    match why {
        Refusal::Timeout => Said::Timeout,
        Refusal::InvalidArgument(which) => Said::Wrong(which),
        _ => Said::Refused,
    }
}

/// Why a call is not served.
pub fn fault(why: FaceFault) -> Said {
    match why {
        FaceFault::NoActiveSession => Said::Inactive,
        FaceFault::AlreadyActive => Said::Active,
        FaceFault::Refused(why) => refused(why),
    }
}

/// A call that tells nothing.
pub fn done(told: Result<(), FaceFault>) -> Said {
    match told {
        Ok(()) => Said::Done,
        Err(why) => fault(why),
    }
}

pub fn job(told: Result<JobId, FaceFault>) -> Said {
    match told {
        Ok(job) => Said::Job(job.0),
        Err(why) => fault(why),
    }
}

pub fn jobs(told: Result<BulkJobs, FaceFault>) -> Said {
    match told {
        Ok(jobs) => Said::Jobs(jobs.first.0, jobs.count),
        Err(why) => fault(why),
    }
}

pub fn state(told: Result<JobState, FaceFault>) -> Said {
    match told {
        Ok(state) => Said::State(state),
        Err(why) => fault(why),
    }
}

pub fn ending(told: Result<JobInfo, FaceFault>) -> Said {
    match told {
        Ok(info) => Said::Ended(info.job.0, info.state, info.note),
        Err(why) => fault(why),
    }
}

/// What launcher and reaper are answered.
pub fn as_wanted(served: bool) -> Said {
    if served {
        Said::AsWanted
    } else {
        Said::Otherwise
    }
}
