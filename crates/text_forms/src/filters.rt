//! Filters: read and printed, in two groups of items, the last one first.
ghost use Rattle.std.specs.Prelude.{◌≡◌, ◌++◌, OnOk};
ghost use Rattle.text_codec.specs.Formats.{Answers};
ghost use Rattle.text_codec.specs.Sums.{arm_fields};
ghost use Rattle.text_forms.specs.Filters as filters;

use drmaa_types::{JobFilter, JobId, JobState, Moment, Text};
use std::alloc::AllocError;
use text_codec::{Cursor, Unread, push_set, read_set};

/// The last items of a filter.
type Sought = (
    Option<u8>,
    (
        Option<u64>,
        (Option<Moment>, (Option<Moment>, (Option<Moment>, ()))),
    ),
);

/// All items of a filter.
type Filters = (
    Option<JobId>,
    (
        Option<Text>,
        (Option<JobState>, (Option<u32>, (Option<Text>, Sought))),
    ),
);

#[tactic(auto, unfolding(crate::specs::Filters::sought_fields, text_codec::specs::Fields::field, text_codec::specs::Fields::no_more))]
fn read_sought(cursor: &mut Cursor) -> Result<Sought, Unread>
    ensures { Answers filters.sought_fields.body.read cursor.old result cursor.new }
{
    let status = read_set(cursor, b" status=")?;
    let wallclock = read_set(cursor, b" wallclock=")?;
    let submitted = read_set(cursor, b" submitted=")?;
    let dispatched = read_set(cursor, b" dispatched=")?;
    let finished = read_set(cursor, b" finished=")?;
    Ok((
        status,
        (wallclock, (submitted, (dispatched, (finished, ())))),
    ))
}

#[tactic(auto, unfolding(crate::specs::Filters::filter_fields, text_codec::specs::Fields::field))]
fn read_filters(cursor: &mut Cursor) -> Result<Filters, Unread>
    ensures { Answers filters.filter_fields.body.read cursor.old result cursor.new }
{
    let id = read_set(cursor, b" id=")?;
    let name = read_set(cursor, b" name=")?;
    let state = read_set(cursor, b" state=")?;
    let slots = read_set(cursor, b" slots=")?;
    let queue = read_set(cursor, b" queue=")?;
    let sought = read_sought(cursor)?;
    Ok((id, (name, (state, (slots, (queue, sought))))))
}

/// The filter with these items.
fn made_filter(items: Filters) -> JobFilter
    ensures { result ≡ filters.make_filter items }
{
    let (job, (name, (state, (slots, (queue, sought))))) = items;
    let (status, (wallclock, (submitted, (dispatched, (finished, ()))))) = sought;
    JobFilter {
        job,
        name,
        state,
        slots,
        queue,
        status,
        wallclock,
        submitted,
        dispatched,
        finished,
    }
}

/// Reads the items of a filter, each at most once and in their order.
pub fn read_filter(cursor: &mut Cursor) -> Result<JobFilter, Unread>
    ensures { Answers (arm_fields filters.filter_fields filters.make_filter) cursor.old result cursor.new }
{
    let items = read_filters(cursor)?;
    Ok(made_filter(items))
}

#[tactic(auto, unfolding(crate::specs::Filters::sought_fields, text_codec::specs::Fields::field, text_codec::specs::Fields::no_more))]
fn push_sought(out: &mut Vec<u8>, filter: &JobFilter) -> Result<(), AllocError>
    ensures text { OnOk result (out.new.items ≡ out.old.items ++ filters.sought_fields.body.spell (filters.sought_parts filter.now)) }
    ensures valid { OnOk result (filters.sought_fields.body.valid (filters.sought_parts filter.now)) }
{
    push_set(out, b" status=", &filter.status)?;
    push_set(out, b" wallclock=", &filter.wallclock)?;
    push_set(out, b" submitted=", &filter.submitted)?;
    push_set(out, b" dispatched=", &filter.dispatched)?;
    push_set(out, b" finished=", &filter.finished)
}

/// Prints the items of a filter that are set, in their order.
#[tactic(auto, unfolding(crate::specs::Filters::filter_fields, text_codec::specs::Fields::field))]
pub fn push_filter(out: &mut Vec<u8>, filter: &JobFilter) -> Result<(), AllocError>
    ensures text { OnOk result (out.new.items ≡ out.old.items ++ filters.filter_fields.body.spell (filters.filter_parts filter.now)) }
    ensures valid { OnOk result (filters.filter_fields.body.valid (filters.filter_parts filter.now)) }
{
    push_set(out, b" id=", &filter.job)?;
    push_set(out, b" name=", &filter.name)?;
    push_set(out, b" state=", &filter.state)?;
    push_set(out, b" slots=", &filter.slots)?;
    push_set(out, b" queue=", &filter.queue)?;
    push_sought(out, filter)
}
