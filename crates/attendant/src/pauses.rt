//! The pauses of launcher and reaper between rounds in which there was nothing to do.
use call_history::{Bell, Pace, Strokes};
use std::sync::Wait;
use std::time::Clock;

/// Pauses after a round in which there was nothing to do: until the bell has struck once more than at `before`, or for a sixteenth of
/// the time since anything happened, half a millisecond at least and 50 at most. No contract rests on it.
pub(crate) fn pause<R: Wait + Clock>(
    rt: &R,
    idle: bool,
    bell: &Bell,
    before: Strokes,
    pace: &mut Pace,
) {
    if idle {
        bell.rest_at(rt, before, pace);
    } else {
        pace.begin_anew();
    }
}
