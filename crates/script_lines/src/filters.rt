//! How the filters of lists are read, in groups of items, the last one first.
ghost use Rattle.std.specs.Prelude.{◌≡◌};
ghost use Rattle.text_codec.specs.Formats.{Answers};
ghost use Rattle.script_lines.specs.Shapes as shapes;

use crate::{Filter, Ref};
use drmaa_types::{JobState, Text};
use text_codec::{Cursor, Unread, read_set};
use text_dates::Said;

/// The last items of a filter.
type Sought = (
    Option<u8>,
    (
        Option<u64>,
        (Option<Said>, (Option<Said>, (Option<Said>, ()))),
    ),
);

/// The items of a filter from a job's state on.
type Standing = (Option<JobState>, (Option<u32>, (Option<Text>, Sought)));

/// All items of a filter.
pub(crate) type Filters = (Option<Ref>, (Option<Text>, Standing));

#[tactic(auto, unfolding(crate::specs::Shapes::sought_fields, text_codec::specs::Fields::field, text_codec::specs::Fields::no_more))]
fn sought_behind(cursor: &mut Cursor) -> Result<Sought, Unread>
    ensures { Answers shapes.sought_fields.body.read cursor.old result cursor.new }
{
    let status = read_set(cursor, b" status=")?;
    let wallclock = read_set(cursor, b" wallclock=")?;
    let submitted = read_set(cursor, b" submitted=")?;
    let dispatched = read_set(cursor, b" dispatched=")?;
    let finished = read_set(cursor, b" finished=")?;
    Ok((
        status,
        (wallclock, (submitted, (dispatched, (finished, ())))),
    ))
}

#[tactic(auto, unfolding(crate::specs::Shapes::standing_fields, text_codec::specs::Fields::field))]
fn standing_behind(cursor: &mut Cursor) -> Result<Standing, Unread>
    ensures { Answers shapes.standing_fields.body.read cursor.old result cursor.new }
{
    let state = read_set(cursor, b" state=")?;
    let slots = read_set(cursor, b" slots=")?;
    let queue = read_set(cursor, b" queue=")?;
    let sought = sought_behind(cursor)?;
    Ok((state, (slots, (queue, sought))))
}

#[tactic(auto, unfolding(crate::specs::Shapes::filter_fields, text_codec::specs::Fields::field))]
pub(crate) fn filter_behind(cursor: &mut Cursor) -> Result<Filters, Unread>
    ensures { Answers shapes.filter_fields.body.read cursor.old result cursor.new }
{
    let job = read_set(cursor, b" id=")?;
    let name = read_set(cursor, b" name=")?;
    let standing = standing_behind(cursor)?;
    Ok((job, (name, standing)))
}

/// The filter with these items.
pub(crate) fn made_filter(items: Filters) -> Filter
    ensures { result ≡ shapes.make_filter items }
{
    let (job, (name, (state, (slots, (queue, sought))))) = items;
    let (status, (wallclock, (submitted, (dispatched, (finished, ()))))) = sought;
    Filter {
        job,
        name,
        state,
        slots,
        queue,
        status,
        wallclock,
        submitted,
        dispatched,
        finished,
    }
}
