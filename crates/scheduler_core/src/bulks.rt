//! The indices of an array: what is wrong with them, and how many there are. None of it takes memory.
ghost use Rattle.std.specs.Prelude.{◌≡◌, ◌<◌, ◌+◌, ◌*◌, None, Some};
ghost use Rattle.drmaa_types.specs.Refusals.{first_refusal};
ghost use Rattle.drmaa_model.specs.Submitting.{bulk_tests, index_count};
ghost use Rattle.scheduler_core.specs.Early.{AreSteps, job_count};

use drmaa_model::Indices;
use drmaa_types::{Limit, Refusal, Which};

/// The most members of an array.
const MOST_MEMBERS: u32 = 10_000;

/// What is wrong with the indices that are asked for, before any template is looked at.
pub fn bulk_refusal(indices: Option<Indices>) -> Option<Refusal>
    ensures { result ≡ first_refusal (bulk_tests indices) }
{
    match indices {
        None => None,
        Some(i) => indices_refusal(&i),
    }
}

fn indices_refusal(i: &Indices) -> Option<Refusal>
    ensures { result ≡ first_refusal (bulk_tests (Some i.now)) }
{
    if i.begin == 0 || i.end < i.begin || i.step == 0 {
        Some(Refusal::InvalidArgument(Which::Indices))
    } else if i.bound == Some(0) {
        Some(Refusal::InvalidArgument(Which::MaxParallel))
    } else if index_count(i) > MOST_MEMBERS {
        Some(Refusal::OutOfResource(Limit::BulkMembers))
    } else {
        None
    }
}

/// How many indices there are.
pub fn index_count(i: &Indices) -> u32
    requires { AreSteps i.now }
    ensures { result ≡ index_count i.now }
{
    (i.end - i.begin) / i.step + 1
}

/// The index of the member in this place, from 0.
pub fn index_at(i: &Indices, place: u32) -> u32
    requires steps { AreSteps i.now }
    requires place { place < index_count i.now }
    ensures { result ≡ i.now.begin + place * i.now.step }
{
    i.begin + place * i.step
}

/// How many jobs are asked for.
pub fn job_count(indices: Option<Indices>) -> u32
    requires { first_refusal (bulk_tests indices) ≡ None }
    ensures { result ≡ job_count indices }
{
    match indices {
        None => 1,
        Some(i) => index_count(&i),
    }
}
