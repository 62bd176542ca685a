//! Templates of reservations in braces: read.
ghost use Rattle.std.specs.Prelude.{◌≡◌};
ghost use Rattle.text_codec.specs.Formats.{Answers};
ghost use Rattle.text_forms.specs.Templates as templates;

use crate::job_templates::are_others;
use drmaa_types::{AttributeList, Moment, Start, Text};
use job_template::ReservationTemplate;
use text_codec::{Cursor, Unread, read_all, read_set};

/// The last fields: how many slots, and attributes that are not supported.
type Counted = (Option<u32>, (Option<u32>, (AttributeList, ())));

/// All fields.
type Frames = (
    Option<Text>,
    (Option<Start>, (Option<Moment>, (Option<u64>, Counted))),
);

#[tactic(auto, unfolding(crate::specs::Templates::count_fields, text_codec::specs::Fields::repeated, text_codec::specs::Fields::field, text_codec::specs::Fields::no_more))]
fn read_counts(cursor: &mut Cursor) -> Result<Counted, Unread>
    ensures { Answers templates.count_fields.body.read cursor.old result cursor.new }
{
    let least = read_set(cursor, b" minslots ")?;
    let most = read_set(cursor, b" maxslots ")?;
    let others = read_all(cursor, b" other ")?;
    Ok((least, (most, (others, ()))))
}

#[tactic(auto, unfolding(crate::specs::Templates::frame_fields, text_codec::specs::Fields::field))]
fn read_fields(cursor: &mut Cursor) -> Result<Frames, Unread>
    ensures { Answers templates.frame_fields.body.read cursor.old result cursor.new }
{
    let name = read_set(cursor, b" name ")?;
    let start = read_set(cursor, b" start ")?;
    let end = read_set(cursor, b" end ")?;
    let duration = read_set(cursor, b" duration ")?;
    let counts = read_counts(cursor)?;
    Ok((name, (start, (end, (duration, counts)))))
}

/// The template with these fields.
fn made(fields: Frames) -> ReservationTemplate
    ensures { result ≡ templates.make_frame fields }
{
    let (reservation_name, (start_time, (end_time, (duration, counts)))) = fields;
    let (min_slots, (max_slots, (others, ()))) = counts;
    ReservationTemplate {
        reservation_name,
        start_time,
        end_time,
        duration,
        min_slots,
        max_slots,
        others,
    }
}

/// Reads a template with any attributes under `other`.
#[tactic(auto, unfolding(crate::specs::Templates::any_frame, text_codec::specs::Formats::mapped, text_codec::specs::Braces::braces))]
fn read_any(cursor: &mut Cursor) -> Result<ReservationTemplate, Unread>
    ensures { Answers templates.any_frame.read cursor.old result cursor.new }
{
    cursor.open()?;
    let fields = read_fields(cursor)?;
    cursor.expect(b"}")?;
    Ok(made(fields))
}

/// Reads a reservation's template in braces, with no attribute under `other` that scripts and journals don't have there.
#[tactic(auto, unfolding(crate::specs::Templates::frame, text_codec::specs::Formats::checked))]
pub fn read_frame(cursor: &mut Cursor) -> Result<ReservationTemplate, Unread>
    ensures { Answers templates.frame.read cursor.old result cursor.new }
{
    let template = read_any(cursor)?;
    if are_others(template.others.as_slice()) {
        Ok(template)
    } else {
        Err(Unread::Unspelled)
    }
}
