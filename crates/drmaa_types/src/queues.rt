//! Queues: names for ordinary jobs, each with a limit on the slots that they may hold at once.
ghost use Rattle.std.specs.Prelude.{◌≡◌, ◌≤◌, length};
ghost use Rattle.std.specs.List.{list_all, list_any, position};
ghost use Rattle.std.specs.Option.{option_copied};
ghost use Rattle.drmaa_types.specs.Queues as form;

use crate::{ListOf, Text};
use std::alloc::AllocError;

/// A queue of the machine. It does not bind a job that names a reservation.
#[derive(Drop)]
pub struct QueueSpec {
    /// From 1 to 255 bytes, and unlike the name of each other queue of the machine.
    pub name: Text,
    /// How many slots the ordinary jobs of the queue may hold at once, from 1 to the machine's slots.
    pub limit: u32,
}

impl Clone for QueueSpec {
    ghost is_clone = { λ queue copy. copy ≡ queue };

    fn clone(&self) -> Result<QueueSpec, AllocError> {
        Ok(QueueSpec {
            name: self.name.clone()?,
            limit: self.limit,
        })
    }
}

/// The queues of a machine, in order. A job that names none is of the first.
pub type QueueList = ListOf<QueueSpec>;

/// How many queues a machine may have.
pub const MOST_QUEUES: usize = 16;

/// Whether a machine with so many slots may have these queues: at most 16, with distinct names of 1 to 255 bytes, and with limits
/// from 1 to the machine's slots.
pub fn are_queues(slots: u32, queues: &QueueList) -> bool
    ensures { result ≡ form.are_queues slots queues.now }
{
    let queues = queues.as_slice();
    queues.len() <= MOST_QUEUES && is_each_queue(slots, queues) && are_distinct(queues)
}

/// The place of the queue of this name, counted from 1.
pub fn place_of(queues: &QueueList, name: &Text) -> Option<u32>
    requires few { length queues.now ≤ 16 }
    ensures { result ≡ form.place_of name.now queues.now }
{
    let index = index_of(queues, name)?;
    Some(index as u32 + 1)
}

fn index_of(queues: &QueueList, name: &Text) -> Option<usize>
    ensures { result ≡ position (form.is_named name.now) queues.now }
{
    queues
        .as_slice()
        .iter()
        .position(|queue| *name == queue.name)
}

/// The queue at this place, counted from 1.
#[tactic(auto, unfolding(crate::specs::Queues::queue_at))]
pub fn queue_at(queues: &QueueList, place: u32) -> Option<&QueueSpec>
    ensures { option_copied result ≡ form.queue_at place queues.now }
{
    if place == 0 {
        return None;
    }
    queues.as_slice().get(place as usize - 1)
}

fn is_queue(slots: u32, queue: &QueueSpec) -> bool
    ensures { result ≡ form.is_queue slots queue.now }
{
    let length = queue.name.as_str().len();
    1 <= length && length <= 255 && 1 <= queue.limit && queue.limit <= slots
}

fn is_each_queue(slots: u32, queues: &[QueueSpec]) -> bool
    ensures { result ≡ list_all (form.is_queue slots) queues.now }
{
    for queue in queues {
        if !is_queue(slots, queue) {
            return false;
        }
    }
    true
}

/// Whether no name stands twice.
fn are_distinct(queues: &[QueueSpec]) -> bool
    ensures { result ≡ form.are_distinct queues.now }
{
    let mut rest = queues;
    while let Some((first, others)) = rest.split_first() {
        if is_named(&first.name, others) {
            return false;
        }
        rest = others;
    }
    true
}

fn is_named(name: &Text, queues: &[QueueSpec]) -> bool
    ensures { result ≡ list_any (form.is_named name.now) queues.now }
{
    for queue in queues {
        if *name == queue.name {
            return true;
        }
    }
    false
}
