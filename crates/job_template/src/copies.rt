//! Copies of templates, each equal to what it was made from.
ghost use Rattle.std.specs.Prelude.{◌≡◌, IfOk};
ghost use Rattle.job_template.specs.Parts.{common_of, paths_of, assembled};

use crate::{JobTemplate, ReservationTemplate};
use drmaa_types::{AttributeList, LimitList, PairList, Text, TextList};
use std::alloc::AllocError;

/// What is the same for each member of an array: of a template its command, its names, its limits and its other attributes.
#[derive(Drop)]
pub struct Common {
    pub remote_command: Text,
    pub job_name: Option<Text>,
    pub queue_name: Option<Text>,
    pub resource_limits: LimitList,
    pub others: AttributeList,
}

/// The paths of a template.
#[derive(Drop)]
pub struct Paths {
    pub working_directory: Option<Text>,
    pub input_path: Option<Text>,
    pub output_path: Option<Text>,
    pub error_path: Option<Text>,
}

/// A copy of what is the same for each member of an array.
pub fn copied_common(t: &JobTemplate) -> Result<Common, AllocError>
    ensures { IfOk result (λ common. common ≡ common_of t.now) }
{
    Ok(Common {
        remote_command: t.remote_command.clone()?,
        job_name: copied(&t.job_name)?,
        queue_name: copied(&t.queue_name)?,
        resource_limits: copied_limits(&t.resource_limits)?,
        others: copied_attributes(&t.others)?,
    })
}

/// A copy of the paths.
fn copied_paths(t: &JobTemplate) -> Result<Paths, AllocError>
    ensures { IfOk result (λ paths. paths ≡ paths_of t.now) }
{
    Ok(Paths {
        working_directory: copied(&t.working_directory)?,
        input_path: copied(&t.input_path)?,
        output_path: copied(&t.output_path)?,
        error_path: copied(&t.error_path)?,
    })
}

/// The template of these parts, with the numbers and marks of another.
pub fn assembled(
    t: &JobTemplate,
    common: Common,
    paths: Paths,
    args: TextList,
    job_environment: PairList,
) -> JobTemplate
    ensures { result ≡ assembled t.now common paths args job_environment }
{
    JobTemplate {
        remote_command: common.remote_command,
        args,
        submit_as_hold: t.submit_as_hold,
        rerunnable: t.rerunnable,
        job_environment,
        working_directory: paths.working_directory,
        job_name: common.job_name,
        input_path: paths.input_path,
        output_path: paths.output_path,
        error_path: paths.error_path,
        join_files: t.join_files,
        reservation_id: t.reservation_id,
        queue_name: common.queue_name,
        min_slots: t.min_slots,
        max_slots: t.max_slots,
        priority: t.priority,
        start_time: t.start_time,
        deadline_time: t.deadline_time,
        resource_limits: common.resource_limits,
        others: common.others,
    }
}

// In groups, and the largest last, since a copy that fails lets go of all that was copied before it.
impl Clone for JobTemplate {
    ghost is_clone = { λ template copy. copy ≡ template };

    fn clone(&self) -> Result<JobTemplate, AllocError> {
        let args = copied_texts(&self.args)?;
        let environment = copied_pairs(&self.job_environment)?;
        let paths = copied_paths(self)?;
        let common = copied_common(self)?;
        Ok(assembled(self, common, paths, args, environment))
    }
}

impl Clone for ReservationTemplate {
    ghost is_clone = { λ template copy. copy ≡ template };

    fn clone(&self) -> Result<ReservationTemplate, AllocError> {
        Ok(ReservationTemplate {
            reservation_name: copied(&self.reservation_name)?,
            start_time: self.start_time,
            end_time: self.end_time,
            duration: self.duration,
            min_slots: self.min_slots,
            max_slots: self.max_slots,
            others: copied_attributes(&self.others)?,
        })
    }
}

/// A copy of an optional text.
pub fn copied(text: &Option<Text>) -> Result<Option<Text>, AllocError>
    ensures { IfOk result (λ copy. copy ≡ text.now) }
{
    match text {
        Some(text) => Ok(Some(text.clone()?)),
        None => Ok(None),
    }
}

/// A copy of texts.
#[tactic(auto, using(std::proofs::lemmas::List::Elements::same_from_all_zip))]
pub fn copied_texts(texts: &TextList) -> Result<TextList, AllocError>
    ensures { IfOk result (λ copy. copy ≡ texts.now) }
{
    texts.clone()
}

/// A copy of an environment.
#[tactic(auto, using(std::proofs::lemmas::List::Elements::same_from_all_zip))]
pub fn copied_pairs(pairs: &PairList) -> Result<PairList, AllocError>
    ensures { IfOk result (λ copy. copy ≡ pairs.now) }
{
    pairs.clone()
}

/// A copy of limits.
#[tactic(auto, using(std::proofs::lemmas::List::Elements::same_from_all_zip))]
pub fn copied_limits(limits: &LimitList) -> Result<LimitList, AllocError>
    ensures { IfOk result (λ copy. copy ≡ limits.now) }
{
    limits.clone()
}

/// A copy of attributes.
#[tactic(auto, using(std::proofs::lemmas::List::Elements::same_from_all_zip))]
pub fn copied_attributes(attributes: &AttributeList) -> Result<AttributeList, AllocError>
    ensures { IfOk result (λ copy. copy ≡ attributes.now) }
{
    attributes.clone()
}
