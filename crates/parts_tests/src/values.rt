//! Clocks without time, capabilities, and edges of the job state model.
use JobState::{Done, Failed, Queued, QueuedHeld, Requeued, RequeuedHeld, Running, Suspended};
use drmaa_types::{
    Capability, Clock, JobState, ListClock, Moment, MomentList, StepClock, supports,
};
use job_states::may;
use std::alloc::Global;

/// The moment of this number, which is not above the greatest.
fn moment(number: u64) -> Moment {
    match Moment::new(number) {
        Some(moment) => moment,
        None => Moment::greatest(),
    }
}

/// Whether these are the next readings of the clock.
fn tells<C: Clock>(clock: &mut C, readings: &[u64]) -> bool {
    for reading in readings {
        if clock.now().number() != *reading {
            return false;
        }
    }
    true
}

/// Whether a clock that has the readings 3 and 5 tells these. Where memory is wanting it tells none of them.
fn list_tells(alloc: Global, readings: &[u64]) -> bool {
    match Vec::from_slice(alloc, &[moment(3), moment(5)]) {
        Ok(list) if list.is_sorted() => {
            tells(&mut ListClock::new(MomentList::from_vec(list)), readings)
        }
        _ => false,
    }
}

#[test]
fn a_list_of_readings_ends_with_its_last(rt: HostRuntime) {
    assert!(rt; list_tells(rt.alloc(), &[3, 5, 5]));
}

/// The readings of a clock that goes on by 7 seconds each time, up to the greatest moment.
const STEPS: &[u64] = &[
    99_999_999_990,
    99_999_999_997,
    100_000_000_000,
    100_000_000_000,
];

#[test]
fn steps_are_held_at_the_greatest_moment(rt: HostRuntime) {
    assert!(rt; tells(&mut StepClock::new(moment(99_999_999_990), 7), STEPS));
}

const CAPABILITIES: &[(Capability, bool)] = &[
    (Capability::AdvanceReservation, true),
    (Capability::ReserveSlots, true),
    (Capability::Callback, true),
    (Capability::BulkJobsMaxParallel, true),
    (Capability::JobEmail, false),
    (Capability::JobStaging, false),
    (Capability::JobDeadline, true),
    (Capability::JobMaxSlots, true),
    (Capability::JobAccountingId, false),
    (Capability::ReservationStartNow, true),
    (Capability::ReservationDuration, true),
    (Capability::ReservationMachineOs, false),
    (Capability::ReservationMachineArch, false),
];

fn are_as_listed(rows: &[(Capability, bool)]) -> bool {
    for (capability, wanted) in rows {
        if supports(*capability) != *wanted {
            return false;
        }
    }
    true
}

#[test]
fn eight_of_thirteen_capabilities_are_there(rt: HostRuntime) {
    assert!(rt; are_as_listed(CAPABILITIES));
}

const EDGES: &[(JobState, JobState, bool)] = &[
    (Queued, QueuedHeld, true),
    (Queued, Suspended, false),
    (QueuedHeld, Running, false),
    (Running, Suspended, true),
    (Running, Queued, false),
    (Suspended, Done, true),
    (Requeued, Running, true),
    (Requeued, Queued, false),
    (RequeuedHeld, Requeued, true),
    (Done, Failed, false),
    (Failed, Requeued, false),
    (Queued, JobState::Undetermined, false),
];

fn are_edges_as_listed(rows: &[(JobState, JobState, bool)]) -> bool {
    for (from, to, wanted) in rows {
        if may(*from, *to) != *wanted {
            return false;
        }
    }
    true
}

#[test]
fn the_edges_are_those_of_the_state_model(rt: HostRuntime) {
    assert!(rt; are_edges_as_listed(EDGES));
}
