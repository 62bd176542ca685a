//! The numbers that references stand for.
ghost use Rattle.std.specs.Prelude.{◌≡◌, IfOk, option_copied, option_map};
ghost use Rattle.std.specs.Map.{lookup};
ghost use Rattle.std.specs.Str.{bytes_eq};
ghost use Rattle.script_asks.specs.Asks as asks;

use crate::Given;
use drmaa_types::{IdList, JobFilter, JobId, ListOf, Moment, ReservationId};
use script_lines::{Filter, Name, Ref};
use script_text::Keyed;
use std::alloc::{AllocError, Global};
use text_dates::Said;

/// The number that a name was given.
fn number_given(given: Given) -> u64
    ensures { result ≡ asks.number_given given }
{
    match given {
        Given::One(number) => number,
        Given::Many { array, .. } => array,
    }
}

/// The number of the job of an index. None where it has none.
fn member_given(index: u32, given: Given) -> Option<u64>
    ensures { result ≡ asks.member_given index given }
{
    match given {
        Given::One(_) => None,
        Given::Many {
            first,
            begin,
            step,
            ..
        } => {
            if step == 0 {
                None
            } else {
                first.checked_add((index.saturating_sub(begin) / step) as u64)
            }
        }
    }
}

/// What a name was given.
fn found(names: &Keyed<Given>, name: &Name) -> Option<Given>
    ensures { result ≡ lookup (bytes_eq name.now) names.now }
{
    names.find(name).copied()
}

/// The number that a reference stands for. None where its name has none.
pub fn number_of(names: &Keyed<Given>, reference: &Ref) -> Option<u64>
    ensures { result ≡ asks.number_of names.now reference.now }
{
    match reference {
        Ref::Bound(name) => Some(number_given(found(names, name)?)),
        Ref::Member { array, index } => member_given(*index, found(names, array)?),
        Ref::Number(number) => Some(*number),
    }
}

/// The number of a reference that may be left out. None where it stands and has none.
pub(crate) fn number_if(names: &Keyed<Given>, reference: Option<&Ref>) -> Option<Option<u64>>
    ensures { result ≡ asks.number_if names.now (option_copied reference.entry) }
{
    match reference {
        Some(reference) => Some(Some(number_of(names, reference)?)),
        None => Some(None),
    }
}

/// The numbers of these references. None where one has none.
#[tactic(auto, using(crate::proofs::Joined::joined_none, crate::proofs::Joined::joined_more, crate::proofs::Joined::joined_end))]
fn items_of(
    alloc: Global,
    names: &Keyed<Given>,
    references: &[Ref],
) -> Result<Option<Vec<u64>>, AllocError>
    ensures { IfOk result (λ r. option_map (λ v. v.items) r ≡ asks.numbers_of names.now references.now) }
{
    let mut numbers = Vec::new(alloc);
    for reference in references {
        let Some(number) = number_of(names, reference) else {
            return Ok(None);
        };
        numbers.push(number)?;
    }
    Ok(Some(numbers))
}

/// The numbers of these references. None where one has none.
pub fn numbers_of(
    alloc: Global,
    names: &Keyed<Given>,
    references: &[Ref],
) -> Result<Option<IdList>, AllocError>
    ensures { IfOk result (λ r. r ≡ asks.numbers_of names.now references.now) }
{
    match items_of(alloc, names, references)? {
        Some(numbers) => Ok(Some(ListOf::from_vec(numbers))),
        None => Ok(None),
    }
}

fn job_id(number: Option<u64>) -> Option<JobId>
    ensures { result ≡ asks.job_id number }
{
    match number {
        Some(number) => Some(JobId(number)),
        None => None,
    }
}

pub(crate) fn reservation_id(number: Option<u64>) -> Option<ReservationId>
    ensures { result ≡ asks.reservation_id number }
{
    match number {
        Some(number) => Some(ReservationId(number)),
        None => None,
    }
}

fn moment_of(said: &Option<Said>) -> Option<Moment>
    ensures { result ≡ asks.moment_of said.now }
{
    match said {
        Some(said) => Some(said.moment),
        None => None,
    }
}

/// The filter of these items, with this job.
fn filter_for(filter: &Filter, job: Option<u64>) -> Result<JobFilter, AllocError>
    ensures { IfOk result (λ f. f ≡ asks.filter_for filter.now job) }
{
    Ok(JobFilter {
        job: job_id(job),
        name: filter.name.clone()?,
        state: filter.state,
        slots: filter.slots,
        queue: filter.queue.clone()?,
        status: filter.status,
        wallclock: filter.wallclock,
        submitted: moment_of(&filter.submitted),
        dispatched: moment_of(&filter.dispatched),
        finished: moment_of(&filter.finished),
    })
}

/// The filter of these items. None where its job has no number.
pub(crate) fn filter_of(
    names: &Keyed<Given>,
    filter: &Filter,
) -> Result<Option<JobFilter>, AllocError>
    ensures { IfOk result (λ f. f ≡ asks.filter_of names.now filter.now) }
{
    match number_if(names, filter.job.as_ref()) {
        Some(job) => Ok(Some(filter_for(filter, job)?)),
        None => Ok(None),
    }
}
