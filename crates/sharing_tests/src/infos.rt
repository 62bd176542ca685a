//! What is known of a job, a reservation and the machine, as the tests compare it.
use crate::machines::at;
use drmaa_types::{
    Exit, InfoList, JobInfo, JobState, MachineInfo, Moment, Note, Refusal, ReservationId,
    ReservationInfo, ReservationList, Text,
};
use monitor_session::listing;
use std::alloc::Global;

/// What is to be known of the first job, which was submitted at moment 0 in the session `s`, has no name and is in no array. It was
/// launched at once, on one slot.
pub struct Known {
    pub state: JobState,
    /// The moment of its end, in seconds.
    pub finished: Option<u64>,
    pub exit: Option<Exit>,
    pub note: Note,
}

/// What is known of a job that runs.
pub const RUNNING: Known = Known {
    state: JobState::Running,
    finished: None,
    exit: None,
    note: Note::None,
};

/// What is known of a job that was killed.
pub const KILLED: Known = Known {
    state: JobState::Failed,
    finished: Some(0),
    exit: Some(Exit::Signal(9)),
    note: Note::Terminated,
};

fn is_text(told: &Option<Text>, wanted: &str) -> bool {
    match told {
        Some(text) => text.as_str() == wanted,
        None => false,
    }
}

fn is_moment(told: Option<Moment>, wanted: Option<u64>) -> bool {
    told == wanted.map(at)
}

/// Whose job it is.
fn is_of_session(info: &JobInfo) -> bool {
    info.job.0 == 1
        && is_text(&info.session, "s")
        && info.name.is_none()
        && info.array.is_none()
        && info.index.is_none()
        && info.queue.as_str() == "default"
}

/// Which moments are told of it.
fn is_timed(info: &JobInfo, known: &Known) -> bool {
    info.wallclock == Some(0)
        && info.submitted == at(0)
        && is_moment(info.dispatched, Some(0))
        && is_moment(info.finished, known.finished)
}

/// Whether this is what is told of the job.
fn is_info(info: &JobInfo, known: &Known) -> bool {
    is_of_session(info)
        && is_timed(info, known)
        && info.state == known.state
        && info.slots == Some(1)
        && info.exit == known.exit
        && info.note == known.note
}

/// Whether this is known of the job.
pub fn is_known(told: Result<JobInfo, Refusal>, known: &Known) -> bool {
    match told {
        Ok(info) => is_info(&info, known),
        Err(_) => false,
    }
}

fn has_alone(list: &InfoList, known: &Known) -> bool {
    match list.as_slice() {
        [one] => is_info(one, known),
        _ => false,
    }
}

/// Whether this is known of the job, which is told alone.
pub fn is_alone(told: Result<InfoList, Refusal>, known: &Known) -> bool {
    match told {
        Ok(list) => has_alone(&list, known),
        Err(_) => false,
    }
}

fn is_printed(alloc: Global, list: &InfoList, wanted: &str) -> bool {
    match listing(alloc, list) {
        Ok(text) => text.as_str() == wanted,
        Err(_) => false,
    }
}

/// Whether this is the listing of the jobs that are told.
pub fn is_listed(alloc: Global, told: Result<InfoList, Refusal>, wanted: &str) -> bool {
    match told {
        Ok(list) => is_printed(alloc, &list, wanted),
        Err(_) => false,
    }
}

/// Whether it is the one reservation of the tests.
fn is_the_first(info: &ReservationInfo) -> bool {
    info.reservation == ReservationId(1)
        && is_text(&info.session, "q")
        && info.name.is_none()
        && info.slots == 4
        && info.from == at(100)
        && info.until == at(200)
}

/// Whether this is told of the reservation.
pub fn is_reservation(told: Result<ReservationInfo, Refusal>) -> bool {
    match told {
        Ok(info) => is_the_first(&info),
        Err(_) => false,
    }
}

fn has_it_alone(list: &ReservationList) -> bool {
    match list.as_slice() {
        [one] => is_the_first(one),
        _ => false,
    }
}

/// Whether the reservation is told alone.
pub fn is_the_reservation(told: Result<ReservationList, Refusal>) -> bool {
    match told {
        Ok(list) => has_it_alone(&list),
        Err(_) => false,
    }
}

/// Whether the machine is told, with so many slots held.
pub fn is_machine(told: Result<MachineInfo, Refusal>, used: u32) -> bool {
    match told {
        Ok(info) => info.name.as_str() == "node1" && info.slots == 4 && info.used == used,
        Err(_) => false,
    }
}
