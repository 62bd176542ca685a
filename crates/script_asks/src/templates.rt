//! The templates that lines name.
ghost use Rattle.std.specs.Prelude.{◌≡◌, IfOk, option_copied};
ghost use Rattle.std.specs.Map.{lookup};
ghost use Rattle.std.specs.Str.{bytes_eq};
ghost use Rattle.script_asks.specs.Asks as asks;

use crate::Given;
use crate::numbers::{number_if, reservation_id};
use drmaa_types::Shared;
use job_template::{JobTemplate, ReservationTemplate};
use script_lines::{Name, Ref};
use script_text::{Keyed, Script};
use std::alloc::{AllocError, Global};

/// The template, for a job in a reservation where there is one; else shared with the script.
fn template_in(
    alloc: Global,
    template: &Shared<JobTemplate>,
    reserved: Option<u64>,
) -> Result<Shared<JobTemplate>, AllocError>
    ensures { IfOk result (λ t. t ≡ asks.template_in template.now reserved) }
{
    if reserved.is_none() && template.get().reservation_id.is_none() {
        return template.clone();
    }
    let mut template = template.get().clone()?;
    template.reservation_id = reservation_id(reserved);
    Shared::new(alloc, template)
}

/// The template of a name, for a job in a reservation where one is named. None where there is none.
pub(crate) fn template_of(
    alloc: Global,
    script: &Script,
    names: &Keyed<Given>,
    template: &Name,
    reserved: Option<&Ref>,
) -> Result<Option<Shared<JobTemplate>>, AllocError>
    ensures { IfOk result (λ t. t ≡ asks.template_of script.now names.now template.now (option_copied reserved.entry)) }
{
    let Some(template) = script.jobs.find(template) else {
        return Ok(None);
    };
    match number_if(names, reserved) {
        Some(reserved) => Ok(Some(template_in(alloc, template, reserved)?)),
        None => Ok(None),
    }
}

/// The reservation template of a name. None where there is none.
pub(crate) fn reservation_template_of(
    script: &Script,
    template: &Name,
) -> Result<Option<ReservationTemplate>, AllocError>
    ensures { IfOk result (λ t. t ≡ lookup (bytes_eq template.now) script.now.reservations) }
{
    match script.reservations.find(template) {
        Some(template) => Ok(Some(template.clone()?)),
        None => Ok(None),
    }
}
