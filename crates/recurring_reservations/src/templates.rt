//! The templates of a reservation that recurs.
ghost use Rattle.std.specs.Prelude.{◌≡◌, ◌⊎◌, map, Some, None, Err, IfOk, IfErr};
ghost use Rattle.drmaa_types.specs.Refusals.{first_refusal, refused_or};
ghost use Rattle.drmaa_types.specs.declared.refusals.Refusal.{Refusal};
ghost use Rattle.recurring_reservations.specs.Occurrences as spec;

use crate::recurrences::{Every, Recurring, TemplateList};
use crate::starts::all_starts;
use drmaa_types::{Moment, Refusal, Start, Which};
use job_template::ReservationTemplate;
use std::alloc::{AllocError, Global};

/// The most occurrences, and the greatest number in `every`.
const MOST: u32 = 1_000;

/// The templates of all occurrences, in order: each is the template with the start of the occurrence.
///
/// # Errors
///
/// The first of these that holds: `InvalidArgument` of `StartTime` where the start is unset or NOW; of `EndTime` where an
/// end is set; of `Duration` where the duration is unset or 0; of `Indices` where the count, or the number in `every`,
/// is not from 1 to 1,000; of `EndTime` where an occurrence would end after the greatest moment. And want of memory.
pub fn occurrences(alloc: Global, r: &Recurring) -> Result<TemplateList, Refusal>
    ensures ok { IfOk result (spec.AreOccurrences r.now) }
    ensures err { IfErr result (λ why. (why ≡ Refusal.OutOfMemory) ⊎ spec.HasNone r.now why) }
    ensures refuses { (why : Refusal) → spec.HasNone r.now why → (result ≡ Err why) ⊎ (result ≡ Err Refusal.OutOfMemory) }
    ensures tested { (why : Refusal) → first_refusal (spec.recurring_tests r.now) ≡ Some why → result ≡ Err why }
{
    match start_and_duration(r) {
        Ok((start, duration)) => occurrences_from(alloc, r, start, duration),
        Err(why) => Err(why),
    }
}

/// The templates of all occurrences of a start.
fn occurrences_from(
    alloc: Global,
    r: &Recurring,
    start: Moment,
    duration: u64,
) -> Result<TemplateList, Refusal>
    requires tested { first_refusal (spec.recurring_tests r.now) ≡ None }
    requires start { start ≡ spec.first_start r.now }
    requires duration { duration ≡ spec.lasting r.now }
    ensures ok { IfOk result (spec.AreOccurrences r.now) }
    ensures err { IfErr result (λ why. (why ≡ Refusal.OutOfMemory) ⊎ spec.HasNone r.now why) }
{
    match all_starts(alloc, start, r.every, r.count, duration) {
        Ok(starts) => match templates_from(alloc, &r.template, starts.as_slice()) {
            Ok(templates) => Ok(TemplateList::from_vec(templates)),
            Err(_) => Err(Refusal::OutOfMemory),
        },
        Err(why) => Err(why),
    }
}

/// The start and the duration, or what is wrong with a recurring reservation.
fn start_and_duration(r: &Recurring) -> Result<(Moment, u64), Refusal>
    ensures { result ≡ refused_or (first_refusal (spec.recurring_tests r.now)) (spec.first_start r.now, spec.lasting r.now) }
{
    let Some(start) = start_in(&r.template) else {
        return Err(Refusal::InvalidArgument(Which::StartTime));
    };
    if r.template.end_time.is_some() {
        return Err(Refusal::InvalidArgument(Which::EndTime));
    }
    let duration = r.template.duration.unwrap_or(0);
    if duration == 0 {
        return Err(Refusal::InvalidArgument(Which::Duration));
    }
    if is_bad_number(r.count) || is_bad_number(number_in(r.every)) {
        return Err(Refusal::InvalidArgument(Which::Indices));
    }
    Ok((start, duration))
}

/// The moment at which a template starts. None where its start is unset, or NOW.
fn start_in(template: &ReservationTemplate) -> Option<Moment>
    ensures { result ≡ spec.start_in template.now.start_time }
{
    match template.start_time {
        Some(Start::At(moment)) => Some(moment),
        Some(Start::Now) => None,
        None => None,
    }
}

/// The number in `every`.
fn number_in(every: Every) -> u32
    ensures { result ≡ spec.number_in every }
{
    match every {
        Every::Days(days) => days,
        Every::Weeks(weeks) => weeks,
        Every::Months(months) => months,
    }
}

/// Whether it is not from 1 to 1,000.
fn is_bad_number(number: u32) -> bool
    ensures { result ≡ spec.is_bad_number number }
{
    number == 0 || number > MOST
}

/// The template with each of these starts, in order.
fn templates_from(
    alloc: Global,
    template: &ReservationTemplate,
    starts: &[Moment],
) -> Result<Vec<ReservationTemplate>, AllocError>
    ensures { IfOk result (λ templates. templates.items ≡ map (spec.from_moment template.now) starts.now) }
{
    let mut templates = Vec::new(alloc);
    for start in starts {
        templates.push(template_from(template, *start)?)?;
    }
    Ok(templates)
}

/// The template with this start.
fn template_from(
    template: &ReservationTemplate,
    start: Moment,
) -> Result<ReservationTemplate, AllocError>
    ensures { IfOk result (λ copy. copy ≡ spec.from_moment template.now start) }
{
    let mut copy = template.clone()?;
    copy.start_time = Some(Start::At(start));
    Ok(copy)
}
