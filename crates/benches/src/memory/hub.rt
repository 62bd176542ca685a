//! Hubs that are made of the same callbacks, one after the other.
use crate::command::Ending;
use change_callbacks::{Callback, Callbacks, MemoryCallback};
use notify_hub::Hub;
use std::alloc::Global;
use std::io;

/// Two callbacks that keep what they hear; None where memory is wanting.
fn callbacks(alloc: Global) -> Option<Callbacks<MemoryCallback>> {
    let mut callbacks = Vec::new(alloc);
    for _ in 0..2 {
        let callback = MemoryCallback::new(alloc).ok()?;
        callbacks.push(callback).ok()?;
    }
    Some(Callbacks::from_vec(callbacks))
}

/// How often callbacks were called.
fn calls_of(callbacks: &[MemoryCallback]) -> u64 {
    let mut calls: u64 = 0;
    for callback in callbacks {
        calls = calls.saturating_add(callback.calls());
    }
    calls
}

/// Makes a hub of callbacks and takes them back, or gets them back where memory was wanting; and prints which, how many there are, and
/// how often they were called.
fn try_hub(
    rt: HostRuntime,
    callbacks: Callbacks<MemoryCallback>,
) -> io::Result<Callbacks<MemoryCallback>> {
    let (word, back) = match Hub::new(rt.alloc(), callbacks) {
        Ok(hub) => ("hub", hub.take_back()),
        Err(back) => ("out of memory", back),
    };
    let (count, calls) = (back.as_slice().len(), calls_of(back.as_slice()));
    println!(rt; "{word}: {count} callbacks, {calls} calls")?;
    Ok(back)
}

/// Makes a hub, and another one of the callbacks that are given back.
pub fn measure(rt: HostRuntime) -> io::Result<Ending> {
    let alloc = rt.alloc();
    let made = match callbacks(alloc) {
        Some(callbacks) => Some(callbacks),
        None => callbacks(alloc),
    };
    match made {
        Some(callbacks) => {
            let back = try_hub(rt, callbacks)?;
            let _ = try_hub(rt, back)?;
            Ok(Ending::Done)
        }
        None => Ok(Ending::Undone),
    }
}
