//! What is wrong with a job template.
ghost use Rattle.std.specs.Prelude.{◌≡◌, ◌≤◌, ◌∷◌, [], false, length};
ghost use Rattle.std.specs.List.{list_any};
ghost use Rattle.drmaa_types.specs.Refusals.{first_refusal, refused_or};
ghost use Rattle.job_template.specs.JobTests.{command_tests, is_bad_deadline, is_bad_least, job_tests, limit_tests, path_tests, queue_test, slot_tests};
ghost use Rattle.job_template.specs.Texts as form;

use crate::JobTemplate;
use crate::attributes::{other_limit, unsupported};
use crate::queues::{queue_limit, queue_of};
use crate::texts::{has_nul, is_bad_command, is_bad_name, is_bad_path, text_length};
use crate::variables::is_bad_environment;
use crate::wants::is_wallclock;
use drmaa_types::{Attribute, Limit, LimitList, Moment, QueueList, Refusal, TextList, Which};

/// Whether a job of this template can be submitted to a machine with so many slots and with these queues, at this moment. It
/// takes no memory.
///
/// # Errors
/// The first of these that holds: `OutOfResource(TemplateText)`; `InvalidArgument` of `RemoteCommand`, `Args`,
/// `JobEnvironment`, `WorkingDirectory`, `JobName`, `InputPath`, `OutputPath`, `ErrorPath`;
/// `UnsupportedAttribute(QueueName)` where there are no queues, else `InvalidArgument(QueueName)`; `InvalidArgument` of
/// `MinSlots`, `MaxSlots`, `DeadlineTime`; what the first limit that is wrong asks for; and `UnsupportedAttribute` of the
/// first of the other attributes.
pub fn validate_job(
    t: &JobTemplate,
    slots: u32,
    queues: &QueueList,
    now: Moment,
) -> Result<(), Refusal>
    requires { length queues.now ≤ 16 }
    ensures { result ≡ refused_or (first_refusal (job_tests slots queues.now now t.now)) tt }
{
    if let Some(refusal) = wrong_command(t) {
        return Err(refusal);
    }
    if let Some(refusal) = wrong_path(t, queues) {
        return Err(refusal);
    }
    if let Some(refusal) = wrong_slots(t, slots, queues, now) {
        return Err(refusal);
    }
    if let Some(refusal) = wrong_limit(&t.resource_limits) {
        return Err(refusal);
    }
    match unsupported(&t.others) {
        Some(refusal) => Err(refusal),
        None => Ok(()),
    }
}

/// What is wrong with what is run.
fn wrong_command(t: &JobTemplate) -> Option<Refusal>
    ensures { result ≡ first_refusal (command_tests t.now) }
{
    if text_length(t).is_none() {
        Some(Refusal::OutOfResource(Limit::TemplateText))
    } else if is_bad_command(&t.remote_command) {
        Some(Refusal::InvalidArgument(Which::RemoteCommand))
    } else if have_nul(&t.args) {
        Some(Refusal::InvalidArgument(Which::Args))
    } else if is_bad_environment(&t.job_environment) {
        Some(Refusal::InvalidArgument(Which::JobEnvironment))
    } else {
        None
    }
}

/// What is wrong with where it is run, with its name, or with its queue.
fn wrong_path(t: &JobTemplate, queues: &QueueList) -> Option<Refusal>
    requires { length queues.now ≤ 16 }
    ensures { result ≡ first_refusal (path_tests queues.now t.now) }
{
    if is_bad_path(&t.working_directory) {
        Some(Refusal::InvalidArgument(Which::WorkingDirectory))
    } else if is_bad_name(&t.job_name) {
        Some(Refusal::InvalidArgument(Which::JobName))
    } else if is_bad_path(&t.input_path) {
        Some(Refusal::InvalidArgument(Which::InputPath))
    } else if is_bad_path(&t.output_path) {
        Some(Refusal::InvalidArgument(Which::OutputPath))
    } else if is_bad_path(&t.error_path) {
        Some(Refusal::InvalidArgument(Which::ErrorPath))
    } else {
        wrong_queue(t, queues)
    }
}

/// What is wrong with its queue.
fn wrong_queue(t: &JobTemplate, queues: &QueueList) -> Option<Refusal>
    requires { length queues.now ≤ 16 }
    ensures { result ≡ first_refusal (queue_test queues.now t.now ∷ []) }
{
    if queues.as_slice().is_empty() {
        if t.queue_name.is_some() {
            return Some(Refusal::UnsupportedAttribute(Attribute::QueueName));
        }
        return None;
    }
    match queue_of(queues, t) {
        Some(_) => None,
        None => Some(Refusal::InvalidArgument(Which::QueueName)),
    }
}

/// What is wrong with the numbers of slots, or with the deadline.
fn wrong_slots(t: &JobTemplate, slots: u32, queues: &QueueList, now: Moment) -> Option<Refusal>
    requires { length queues.now ≤ 16 }
    ensures { result ≡ first_refusal (slot_tests slots queues.now now t.now) }
{
    let min = t.min_slots();
    if is_bad_least(t, slots, queues) {
        Some(Refusal::InvalidArgument(Which::MinSlots))
    } else if t.max_slots() < min {
        Some(Refusal::InvalidArgument(Which::MaxSlots))
    } else if is_bad_deadline(t, now) {
        Some(Refusal::InvalidArgument(Which::DeadlineTime))
    } else {
        None
    }
}

/// Whether the least number of slots is 0, above those of the machine, or above the limit of the queue that binds the job.
fn is_bad_least(t: &JobTemplate, slots: u32, queues: &QueueList) -> bool
    requires { length queues.now ≤ 16 }
    ensures { result ≡ is_bad_least slots queues.now t.now }
{
    let min = t.min_slots();
    if min == 0 || min > slots {
        return true;
    }
    match queue_limit(queues, t) {
        Some(limit) => limit < min,
        None => false,
    }
}

/// Whether a deadline is set, and is not after now, or not after the start.
fn is_bad_deadline(t: &JobTemplate, now: Moment) -> bool
    ensures { result ≡ is_bad_deadline now t.now }
{
    match (t.deadline_time, t.start_time) {
        (Some(deadline), Some(start)) => deadline <= now || deadline <= start,
        (Some(deadline), None) => deadline <= now,
        (None, _) => false,
    }
}

/// What is wrong with the first limit that is not in form.
fn wrong_limit(limits: &LimitList) -> Option<Refusal>
    ensures { result ≡ first_refusal (limit_tests false limits.now) }
{
    let mut stands = false;
    for limit in limits.as_slice() {
        if !is_wallclock(limit) {
            return Some(other_limit(&limit.name));
        }
        if limit.value == 0 || stands {
            return Some(Refusal::InvalidArgument(Which::ResourceLimits));
        }
        stands = true;
    }
    None
}

/// Whether some text has U+0000.
fn have_nul(texts: &TextList) -> bool
    ensures { result ≡ list_any form.has_nul texts.now }
{
    for text in texts.as_slice() {
        if has_nul(text) {
            return true;
        }
    }
    false
}
