//! Templates that are made field by field.
ghost use Rattle.std.specs.Prelude.{◌≡◌, IfOk, IsOk, OnOk};
ghost use Rattle.script_lines.specs.Templates as templates;

use crate::{Beginning, JobField, ReservationField};
use drmaa_types::{ListOf, Start, Text};
use job_template::{JobTemplate, ReservationTemplate};
use std::alloc::{AllocError, Global};

/// A job's template that is being made.
#[derive(Drop)]
pub struct Draft {
    /// Whether its command was set, which may be the empty text.
    pub has_command: bool,
    pub template: JobTemplate,
}

impl Draft {
    /// Nothing is set; it takes no memory.
    pub fn new(alloc: Global) -> Draft
        ensures { result ≡ templates.no_fields }
    {
        let template = JobTemplate {
            remote_command: Text::from_string(String::new(alloc)),
            args: ListOf::new(alloc),
            submit_as_hold: false,
            rerunnable: false,
            job_environment: ListOf::new(alloc),
            working_directory: None,
            job_name: None,
            input_path: None,
            output_path: None,
            error_path: None,
            join_files: false,
            reservation_id: None,
            queue_name: None,
            min_slots: None,
            max_slots: None,
            priority: None,
            start_time: None,
            deadline_time: None,
            resource_limits: ListOf::new(alloc),
            others: ListOf::new(alloc),
        };
        Draft {
            has_command: false,
            template,
        }
    }
}

/// A reservation's template in which nothing is set; it takes no memory.
pub fn new_reservation(alloc: Global) -> ReservationTemplate
    ensures { result ≡ templates.no_reservation_fields }
{
    ReservationTemplate {
        reservation_name: None,
        start_time: None,
        end_time: None,
        duration: None,
        min_slots: None,
        max_slots: None,
        others: ListOf::new(alloc),
    }
}

/// Whether what a line sets is set already. What may stand any number of times is never set.
pub fn is_set(draft: &Draft, field: &JobField) -> bool
    ensures { result ≡ templates.is_set draft.now field.now }
{
    let template = &draft.template;
    match field {
        JobField::Command(_) => draft.has_command,
        JobField::Arg(_) => false,
        JobField::Hold => template.submit_as_hold,
        JobField::Rerunnable => template.rerunnable,
        JobField::Env(_) => false,
        JobField::Directory(_) => template.working_directory.is_some(),
        JobField::Name(_) => template.job_name.is_some(),
        JobField::Input(_) => template.input_path.is_some(),
        JobField::Output(_) => template.output_path.is_some(),
        JobField::Error(_) => template.error_path.is_some(),
        JobField::Join => template.join_files,
        JobField::Queue(_) => template.queue_name.is_some(),
        JobField::MinSlots(_) => template.min_slots.is_some(),
        JobField::MaxSlots(_) => template.max_slots.is_some(),
        JobField::Priority(_) => template.priority.is_some(),
        JobField::Start(_) => template.start_time.is_some(),
        JobField::Deadline(_) => template.deadline_time.is_some(),
        JobField::Limit(_) => false,
        JobField::Other(_) => false,
    }
}

/// A value that was changed, where that was done.
fn changed<T: Drop>(value: T, done: Result<(), AllocError>) -> Result<T, AllocError>
    ensures { IfOk result (λ kept. (kept ≡ value) × IsOk done) }
{
    done?;
    Ok(value)
}

/// What is made of a template by one line more.
pub fn with_field(draft: Draft, field: JobField) -> Result<Draft, AllocError>
    ensures { IfOk result (λ d. d ≡ templates.with_field draft field) }
{
    let mut draft = draft;
    let done = set_field(&mut draft, field);
    changed(draft, done)
}

/// Sets what one line more says.
fn set_field(draft: &mut Draft, field: JobField) -> Result<(), AllocError>
    ensures { OnOk result (draft.new ≡ templates.with_field draft.old field) }
{
    let template = &mut draft.template;
    match field {
        JobField::Command(text) => {
            draft.has_command = true;
            template.remote_command = text;
        }
        JobField::Arg(text) => template.args.push(text)?,
        JobField::Hold => template.submit_as_hold = true,
        JobField::Rerunnable => template.rerunnable = true,
        JobField::Env(variable) => template.job_environment.push(variable)?,
        JobField::Directory(text) => template.working_directory = Some(text),
        JobField::Name(text) => template.job_name = Some(text),
        JobField::Input(text) => template.input_path = Some(text),
        JobField::Output(text) => template.output_path = Some(text),
        JobField::Error(text) => template.error_path = Some(text),
        JobField::Join => template.join_files = true,
        JobField::Queue(text) => template.queue_name = Some(text),
        JobField::MinSlots(slots) => template.min_slots = Some(slots),
        JobField::MaxSlots(slots) => template.max_slots = Some(slots),
        JobField::Priority(priority) => template.priority = Some(priority),
        JobField::Start(said) => template.start_time = Some(said.moment),
        JobField::Deadline(said) => template.deadline_time = Some(said.moment),
        JobField::Limit(limit) => template.resource_limits.push(limit)?,
        JobField::Other(attribute) => template.others.push(attribute)?,
    }
    Ok(())
}

/// Whether what a line sets is set already. What may stand any number of times is never set.
pub fn is_reservation_set(template: &ReservationTemplate, field: &ReservationField) -> bool
    ensures { result ≡ templates.is_reservation_set template.now field.now }
{
    match field {
        ReservationField::Name(_) => template.reservation_name.is_some(),
        ReservationField::Start(_) => template.start_time.is_some(),
        ReservationField::End(_) => template.end_time.is_some(),
        ReservationField::Duration(_) => template.duration.is_some(),
        ReservationField::MinSlots(_) => template.min_slots.is_some(),
        ReservationField::MaxSlots(_) => template.max_slots.is_some(),
        ReservationField::Other(_) => false,
    }
}

/// When a reservation is to start.
fn start_of(beginning: Beginning) -> Start
    ensures { result ≡ templates.start_of beginning }
{
    match beginning {
        Beginning::Now => Start::Now,
        Beginning::At(said) => Start::At(said.moment),
    }
}

/// What is made of a reservation's template by one line more.
pub fn with_reservation_field(
    template: ReservationTemplate,
    field: ReservationField,
) -> Result<ReservationTemplate, AllocError>
    ensures { IfOk result (λ t. t ≡ templates.with_reservation_field template field) }
{
    let mut template = template;
    let done = set_reservation_field(&mut template, field);
    changed(template, done)
}

/// Sets what one line more says.
fn set_reservation_field(
    template: &mut ReservationTemplate,
    field: ReservationField,
) -> Result<(), AllocError>
    ensures { OnOk result (template.new ≡ templates.with_reservation_field template.old field) }
{
    match field {
        ReservationField::Name(text) => template.reservation_name = Some(text),
        ReservationField::Start(beginning) => template.start_time = Some(start_of(beginning)),
        ReservationField::End(said) => template.end_time = Some(said.moment),
        ReservationField::Duration(seconds) => template.duration = Some(seconds),
        ReservationField::MinSlots(slots) => template.min_slots = Some(slots),
        ReservationField::MaxSlots(slots) => template.max_slots = Some(slots),
        ReservationField::Other(attribute) => template.others.push(attribute)?,
    }
    Ok(())
}
