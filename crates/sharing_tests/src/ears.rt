//! Ears hand changes to callbacks: what each of them heard.
use change_callbacks::{Callback, Callbacks, ClosureCallback, Ears, MemoryCallback};
use drmaa_types::{Change, ChangeBatch, Event, JobId, JobState, Notification};
use std::test::Fail;

fn change(entry: u64, job: u64, from: JobState, to: JobState) -> Change {
    Change {
        entry,
        job: JobId(job),
        home: None,
        from,
        to,
    }
}

fn heard(job: u64, state: JobState) -> Option<Notification> {
    Some(Notification {
        event: Event::NewState,
        job: JobId(job),
        home: None,
        state,
    })
}

/// Tells that this job was launched.
fn tell(callback: &mut MemoryCallback, job: u64) {
    let told = Notification::of(&change(job, job, JobState::Queued, JobState::Running));
    callback.notify(&told);
}

#[test]
fn a_list_is_told_up_to_its_capacity(rt: HostRuntime) -> Result<(), Fail> {
    let mut callback = MemoryCallback::new(rt.alloc())?;
    assert!(rt; callback.heard(1).is_none());
    for job in 1..=4_096 {
        tell(&mut callback, job);
    }
    assert!(rt; callback.calls() == 4_096);
    assert!(rt; callback.heard(4_096) == heard(4_096, JobState::Running));

    callback.notify(&Notification::of(&change(9, 9, JobState::Running, JobState::Done)));
    assert!(rt; callback.calls() == 4_097);
    assert!(rt; callback.heard(1).is_none());
    assert!(rt; callback.heard(4_097).is_none());
    Ok(())
}

#[test]
fn closures_are_called_with_each_notification(rt: HostRuntime) -> Result<(), Fail> {
    let alloc = rt.alloc();
    let mut two = Vec::new(alloc);
    two.push(ClosureCallback::new(Box::new(alloc, |_n: &Notification| {})?))?;
    let mut last = 0;
    let keeps = move |n: &Notification| last = n.job.0;
    two.push(ClosureCallback::new(Box::new(alloc, keeps)?))?;
    let Ok(mut ears) = Ears::new(alloc, Callbacks::from_vec(two)) else {
        assert!(rt; false, "there is memory");
        return Ok(());
    };
    assert!(rt; !ears.listens());
    ears.place(2, 0);
    assert!(rt; ears.listens());
    // A number without a callback hears nothing.
    ears.place(64, 0);
    let mut batch = ChangeBatch::new();
    batch.push(change(2, 1, JobState::Queued, JobState::Failed));
    batch.push(change(4, 7, JobState::Queued, JobState::Failed));
    assert!(rt; ears.hand(0, batch.as_slice()) == 2);
    let two = ears.take_back();
    for (callback, calls) in two.as_slice().iter().zip([0, 2]) {
        assert!(rt; callback.calls() == calls);
        assert!(rt; callback.heard(1).is_none());
    }
    Ok(())
}
