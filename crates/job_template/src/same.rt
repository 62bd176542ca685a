//! Job templates that are the same, so that one that several jobs have can be kept once.
ghost use Rattle.std.specs.Prelude.{◌≡◌, ◌↔◌, IsTrue};
ghost use Rattle.job_template.specs.Same as same;

use crate::JobTemplate;
use drmaa_types::Same;

/// Whether both run the same, under the same name.
fn is_same_run(one: &JobTemplate, other: &JobTemplate) -> bool
    ensures { IsTrue result ↔ same.IsSameRun one.now other.now }
{
    one.remote_command.is_same(&other.remote_command)
        && one.args.is_same(&other.args)
        && one.job_environment.is_same(&other.job_environment)
        && one.working_directory.is_same(&other.working_directory)
        && one.job_name.is_same(&other.job_name)
}

/// Whether both have the same files.
fn is_same_files(one: &JobTemplate, other: &JobTemplate) -> bool
    ensures { IsTrue result ↔ same.IsSameFiles one.now other.now }
{
    one.input_path.is_same(&other.input_path)
        && one.output_path.is_same(&other.output_path)
        && one.error_path.is_same(&other.error_path)
        && one.join_files.is_same(&other.join_files)
}

/// Whether both may run in the same place.
fn is_same_place(one: &JobTemplate, other: &JobTemplate) -> bool
    ensures { IsTrue result ↔ same.IsSamePlace one.now other.now }
{
    one.submit_as_hold.is_same(&other.submit_as_hold)
        && one.rerunnable.is_same(&other.rerunnable)
        && one.reservation_id.is_same(&other.reservation_id)
        && one.queue_name.is_same(&other.queue_name)
        && one.min_slots.is_same(&other.min_slots)
        && one.max_slots.is_same(&other.max_slots)
}

/// Whether both may run at the same times.
fn is_same_time(one: &JobTemplate, other: &JobTemplate) -> bool
    ensures { IsTrue result ↔ same.IsSameTime one.now other.now }
{
    one.priority.is_same(&other.priority)
        && one.start_time.is_same(&other.start_time)
        && one.deadline_time.is_same(&other.deadline_time)
        && one.resource_limits.is_same(&other.resource_limits)
        && one.others.is_same(&other.others)
}

impl Same for JobTemplate {
    fn is_same(&self, other: &JobTemplate) -> bool {
        is_same_run(self, other)
            && is_same_files(self, other)
            && is_same_place(self, other)
            && is_same_time(self, other)
    }
}
