//! The room that is promised to a job: in the journal, and in the memory for what time and its reports will add.
ghost use Rattle.std.specs.Prelude.{◌≡◌, ◌≤◌};
ghost use Rattle.drmaa_model.specs.Size.{room_of};
ghost use Rattle.plan_book.specs.Owed.{owes, owes_kill, reports_due};

use crate::courses::is_unasked;
use crate::states::{is_started, is_waiting};
use drmaa_model::{Course, Phase};

/// The room in the journal that is promised to a job.
pub fn room_of(course: &Course) -> u64
    ensures value { result ≡ room_of course.now }
    ensures few { result ≤ 4 }
{
    if is_waiting(course.state) {
        return 1;
    }
    match course.phase {
        Phase::Idle => 0,
        Phase::Launching => 4,
        Phase::Alive => 3,
    }
}

/// The changes that a job may still make with no memory.
pub fn owes(course: &Course) -> usize
    ensures value { result ≡ owes course.now }
    ensures few { result ≤ 2 }
{
    if is_waiting(course.state) {
        return 1;
    }
    if is_started(course.state) { 2 } else { 0 }
}

/// The orders that time may ask for a job.
pub fn owes_kill(course: &Course) -> usize
    ensures value { result ≡ owes_kill course.now }
    ensures few { result ≤ 1 }
{
    if !is_started(course.state) {
        return 0;
    }
    if is_unasked(course.kill) { 1 } else { 0 }
}

/// The reports of a start and an end that the process of a job may still bring.
pub fn reports_due(phase: Phase) -> u64
    ensures value { result ≡ reports_due phase }
    ensures few { result ≤ 2 }
{
    match phase {
        Phase::Idle => 0,
        Phase::Launching => 2,
        Phase::Alive => 1,
    }
}
