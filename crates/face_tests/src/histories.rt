//! What a wait in vain leaves in the history.
use crate::steps::told;
use crate::stories::VAIN;
use call_history::{Call, Entry, Machine, Reply};
use drmaa_types::{Refusal, Timeout, WaitKind};

/// `jobs 1 = jobs [1]`
fn lists_the_job(entry: &Entry) -> bool {
    match (&entry.call, &entry.reply) {
        (Call::GetJobs { session, .. }, Reply::Jobs(jobs)) => {
            session.0 == 1 && jobs.as_slice() == [1].as_slice()
        }
        _ => false,
    }
}

/// Which session waited for which jobs, at its first look at moment 0.
fn waits_at_once(call: &Call) -> Option<(u64, &[u64])> {
    match call {
        Call::Wait {
            session,
            jobs,
            kind: WaitKind::Terminated,
            begun,
            timeout: Timeout::Seconds(0),
        } if begun.number() == 0 => Some((session.0, jobs.as_slice())),
        _ => None,
    }
}

/// `wait-terminated 1 @0 0 [1] = refused 3`
fn is_over(entry: &Entry) -> bool {
    match (waits_at_once(&entry.call), &entry.reply) {
        (Some((1, jobs)), Reply::Refused(Refusal::Timeout)) => jobs == [1].as_slice(),
        _ => false,
    }
}

/// Whether the third and the fourth entry, behind the session and the job, are those of the wait.
fn waits_once(entries: &[Entry]) -> bool {
    match entries {
        [_, _, listing, waiting, ..] => lists_the_job(listing) && is_over(waiting),
        _ => false,
    }
}

/// What a history is: how many entries it has, and whether the third and the fourth are those of the wait.
pub type Story = (usize, bool);

pub fn story_of(machine: &Machine) -> Story {
    let entries = machine.entries();
    (entries.len(), waits_once(entries))
}

#[test]
fn a_job_is_waited_for_in_vain(rt: HostRuntime) {
    assert!(rt; told(&rt, rt.alloc(), VAIN) == (6, (10, true)));
}
