//! The queue of a job.
ghost use Rattle.std.specs.Prelude.{◌≡◌, ◌≤◌, length};
ghost use Rattle.job_template.specs.Wants.{queue_limit, queue_of};

use crate::JobTemplate;
use drmaa_types::{QueueList, place_of, queue_at};

/// The place of the job's queue among these, counted from 1: of the queue that it names, or of the first where it names none.
/// None where there are no queues, and where none of them has the name.
pub fn queue_of(queues: &QueueList, t: &JobTemplate) -> Option<u32>
    requires { length queues.now ≤ 16 }
    ensures { result ≡ queue_of queues.now t.now }
{
    if queues.as_slice().is_empty() {
        return None;
    }
    match &t.queue_name {
        Some(name) => place_of(queues, name),
        None => Some(1),
    }
}

/// The limit of the job's queue, which binds a job that names no reservation.
pub fn queue_limit(queues: &QueueList, t: &JobTemplate) -> Option<u32>
    requires { length queues.now ≤ 16 }
    ensures { result ≡ queue_limit queues.now t.now }
{
    if t.reservation_id.is_some() {
        return None;
    }
    let place = queue_of(queues, t)?;
    Some(queue_at(queues, place)?.limit)
}
