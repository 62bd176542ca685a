//! Hubs: who is registered, and what each callback heard.
use crate::hub_calls::Ask;
use crate::hub_steps::{Step, played};
use change_callbacks::{Callback, Callbacks, MemoryCallback};
use drmaa_types::{Control, Event, JobId, JobState, Notification};
use std::alloc::Global;
use std::test::Fail;

/// What is heard of a change: the job's number and its state.
type Heard = (u64, JobState);

/// The item of a list with this number, counted from 1.
fn item(list: &[Heard], n: u64) -> Option<Notification> {
    match list.get(n.checked_sub(1)? as usize) {
        Some((job, state)) => Some(Notification {
            event: Event::NewState,
            job: JobId(*job),
            home: Some(1),
            state: *state,
        }),
        None => None,
    }
}

/// Whether the callback has heard this and nothing else.
fn has_heard(callback: &MemoryCallback, list: &[Heard]) -> bool {
    for n in 0..=6 {
        if callback.heard(n) != item(list, n) {
            return false;
        }
    }
    callback.calls() == list.len() as u64
}

/// Whether there are two callbacks, and they have heard these lists.
fn have_heard(callbacks: &Callbacks<MemoryCallback>, first: &[Heard], second: &[Heard]) -> bool {
    match callbacks.as_slice() {
        [one, other] => has_heard(one, first) && has_heard(other, second),
        _ => false,
    }
}

/// A job is run, held and released before the second callback is registered; then it is launched and fails to start, and a second
/// job is terminated while it is queued.
const TWICE: &[Step] = &[
    Step::Registers(1),
    Step::Client(Ask::Create),
    Step::Client(Ask::Run),
    Step::Client(Ask::Control(1, Control::Hold)),
    Step::Client(Ask::Control(1, Control::Release)),
    Step::Registers(2),
    Step::Pumps(2),
    Step::Client(Ask::TakeLaunch),
    Step::Client(Ask::StartFailed(1)),
    Step::Client(Ask::Run),
    Step::Client(Ask::Control(2, Control::Terminate)),
    Step::Pumps(6),
    Step::Pumps(0),
];

/// What is heard of all changes.
const WHOLE: &[Heard] = &[
    (1, JobState::QueuedHeld),
    (1, JobState::Queued),
    (1, JobState::Running),
    (1, JobState::Failed),
    (2, JobState::Failed),
];

/// What is heard from the second place on.
const LATER: &[Heard] = &[
    (1, JobState::Running),
    (1, JobState::Failed),
    (2, JobState::Failed),
];

/// Another client's Register takes a number, and its callback hears nothing from this hub. The changes are made by that client.
const NUMBERS: &[Step] = &[
    Step::Other(Ask::Register),
    Step::Registers(2),
    Step::Other(Ask::Create),
    Step::Other(Ask::Run),
    Step::Other(Ask::TakeLaunch),
    Step::Pumps(1),
];

#[test]
fn callbacks_hear_from_their_places_on(rt: HostRuntime) -> Result<(), Fail> {
    let both = played(&rt, rt.alloc(), 2, TWICE)?;
    assert!(rt; have_heard(&both, WHOLE, LATER));
    let both = played(&rt, rt.alloc(), 2, NUMBERS)?;
    assert!(rt; have_heard(&both, &[], &[(1, JobState::Running)]));
    Ok(())
}

/// So many times a job is held and released. Where memory is wanting steps are left out, and then no test passes.
fn push_turns(steps: &mut Vec<Step>, count: u32) {
    for _ in 0..count {
        let _ = steps.push(Step::Client(Ask::Control(1, Control::Hold)));
        let _ = steps.push(Step::Client(Ask::Control(1, Control::Release)));
    }
}

/// More changes than one look finds: 70 before the callback is registered, which are counted by two looks, and 128 after it, which one
/// pump hands over.
fn many_changes(alloc: Global) -> Vec<Step> {
    let mut steps = Vec::new(alloc);
    let _ = steps.push(Step::Client(Ask::Create));
    let _ = steps.push(Step::Client(Ask::Run));
    push_turns(&mut steps, 35);
    let _ = steps.push(Step::Registers(1));
    push_turns(&mut steps, 64);
    let _ = steps.push(Step::Pumps(128));
    steps
}

#[test]
fn a_pump_hands_over_all_that_is_left(rt: HostRuntime) -> Result<(), Fail> {
    let steps = many_changes(rt.alloc());
    let only = played(&rt, rt.alloc(), 1, steps.as_slice())?;
    let calls = only.as_slice().first().map(|callback| callback.calls());
    assert!(rt; calls == Some(128));
    Ok(())
}

/// As many registrations as there may be, and one more.
fn registrations(alloc: Global) -> Vec<Step> {
    let mut steps = Vec::new(alloc);
    let _ = steps.push(Step::Listens(false));
    for number in 1..=64 {
        let _ = steps.push(Step::Registers(number));
        let _ = steps.push(Step::Listens(true));
    }
    let _ = steps.push(Step::IsRefused);
    steps
}

#[test]
fn the_65th_is_refused(rt: HostRuntime) -> Result<(), Fail> {
    let steps = registrations(rt.alloc());
    assert!(rt; steps.len() == 130);
    played(&rt, rt.alloc(), 0, steps.as_slice())?;
    Ok(())
}
