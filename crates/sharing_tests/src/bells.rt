//! A bell that wakes who rests.
use call_history::{Bell, News};
use drmaa_types::WaitKind;
use std::sync::{Mutex, Wait};
use std::thread::{Threads, join};
use std::time::{Clock, Instant};

/// How often one thread rests. A rest that nothing ends lasts 50 milliseconds, so these would take two seconds.
const RESTS: u32 = 40;

/// Rests so often, and tells that it is over. How many milliseconds that took.
fn rest_often<R: Wait + Clock>(rt: &R, bell: &Bell, is_over: &Mutex<bool>) -> Option<u128> {
    let begun = Instant::now(rt).ok();
    for _ in 0..RESTS {
        let before = bell.strokes(rt, WaitKind::Started);
        bell.rest_since(rt, before);
    }
    *is_over.lock(rt) = true;
    let passed = begun?.elapsed(rt).ok()?;
    Some(passed.as_millis())
}

/// Rings until it is told that the rests are over.
fn ring_often<R: Wait>(rt: &R, bell: &Bell, is_over: &Mutex<bool>) {
    for _ in 0..u64::MAX {
        if *is_over.lock(rt) {
            return;
        }
        bell.ring(rt, News::Change);
    }
}

/// How long the rests of one thread take while another one rings.
fn rested<R: Threads + Wait + Clock + Sync>(rt: &R) -> Option<u128> {
    let bell = Bell::new();
    let is_over = Mutex::new(false);
    let (passed, ()) = join(
        rt,
        || -> Option<u128> { rest_often(rt, &bell, &is_over) },
        || { ring_often(rt, &bell, &is_over) },
    );
    passed
}

#[test]
fn a_ring_ends_a_rest(rt: HostRuntime) {
    let passed = rested(&rt);
    let within_a_second = matches!(passed, Some(0..1_000));
    assert!(rt; within_a_second);
}
