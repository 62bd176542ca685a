//! Why a submission is refused, but for the text of its members. None of it takes memory.
ghost use Rattle.std.specs.Prelude.{◌≡◌, None};
ghost use Rattle.drmaa_types.specs.Refusals.{first_refusal};
ghost use Rattle.drmaa_model.specs.Submitting.{bulk_tests};
ghost use Rattle.drmaa_model.specs.Time.{advance_plan};
ghost use Rattle.plan_book.specs.Book.{plan_of, IsBook};
ghost use Rattle.scheduler_core.specs.Early.{early_tests, jobs_tests};

use crate::bulks::{bulk_refusal, job_count};
use crate::named::named_refusal;
use drmaa_model::Indices;
use drmaa_types::{Limit, Moment, Refusal};
use job_template::{JobTemplate, validate_job};
use plan_book::Book;

/// The most jobs that are kept.
const MOST_JOBS: u64 = 100_000;

/// The first of all reasons but the text of the members for which a submission is refused once time has come to this moment.
pub fn refusal_of(
    book: &Book,
    at: Moment,
    template: &JobTemplate,
    indices: Option<Indices>,
) -> Option<Refusal>
    requires book { IsBook book.now }
    ensures first { result ≡ first_refusal (early_tests template.now indices (advance_plan 0 at (plan_of book.now))) }
{
    if let Some(why) = bulk_refusal(indices) {
        return Some(why);
    }
    if let Err(why) = validate_job(template, book.total(), book.queues(), book.moment_at(at)) {
        return Some(why);
    }
    if let Some(why) = named_refusal(book, at, template) {
        return Some(why);
    }
    jobs_refusal(book, indices)
}

/// Whether too many jobs would be kept.
fn jobs_refusal(book: &Book, indices: Option<Indices>) -> Option<Refusal>
    requires bulk { first_refusal (bulk_tests indices) ≡ None }
    ensures first { result ≡ first_refusal (jobs_tests indices (plan_of book.now)) }
{
    if book.count().saturating_add(u128::from(job_count(indices))) > u128::from(MOST_JOBS) {
        Some(Refusal::OutOfResource(Limit::Jobs))
    } else {
        None
    }
}
