//! What stands behind the words of lines: the parts that lines share.
ghost use Rattle.std.specs.Prelude.{◌≡◌, codes};
ghost use Rattle.text_codec.specs.Formats.{Answers};
ghost use Rattle.text_codec.specs.Fields.{always, no_more, read_set};
ghost use Rattle.text_codec.specs.Sums.{arm};
ghost use Rattle.text_codec.specs.Words.{name};
ghost use Rattle.script_lines.specs.Refs.{reference};
ghost use Rattle.script_lines.specs.Shapes as shapes;

use crate::{Apart, Name, Ref};
use drmaa_types::{ListOf, Timeout};
use text_codec::{Cursor, Form, Unread, read_name, read_set};

/// The indices of an array, with their bound, and a reservation.
type Indexed = (u32, (u32, (u32, (Option<u32>, (Apart<Option<Ref>>, ())))));

/// A session, a template, and a reservation.
pub(crate) type Ran = (Ref, (Name, (Option<Apart<Ref>>, ())));

/// A session, a template, and the indices.
pub(crate) type Members = (Apart<Ref>, (Name, Indexed));

/// Reads a value behind a space.
pub(crate) fn item<A: Form>(cursor: &mut Cursor) -> Result<A, Unread>
    ensures { Answers (arm A.form (λ x. x)) cursor.old result cursor.new }
{
    cursor.expect(b" ")?;
    A::read(cursor)
}

/// Reads a value behind a space, and no more.
#[tactic(auto, unfolding(text_codec::specs::Fields::always, text_codec::specs::Fields::no_more))]
pub(crate) fn one_behind<A: Form>(cursor: &mut Cursor) -> Result<(A, ()), Unread>
    ensures { Answers (always (codes " ") A.form no_more).body.read cursor.old result cursor.new }
{
    let value = item(cursor)?;
    Ok((value, ()))
}

/// A list that has room for no more than its items.
pub(crate) fn fitted<T>(list: ListOf<T>) -> ListOf<T>
    ensures { result ≡ list }
{
    let mut items = list.into_vec();
    items.shrink_to_fit();
    ListOf::from_vec(items)
}

/// Reads a name behind a space.
pub(crate) fn name_item(cursor: &mut Cursor) -> Result<Name, Unread>
    ensures { Answers (arm name (λ x. x)) cursor.old result cursor.new }
{
    cursor.expect(b" ")?;
    Ok(Name::new(read_name(cursor)?))
}

/// Reads a value behind a space, which is to lie apart.
pub(crate) fn item_apart<A: Form>(cursor: &mut Cursor) -> Result<Apart<A>, Unread>
    ensures { Answers (arm A.form (λ x. x)) cursor.old result cursor.new }
{
    let value = item(cursor)?;
    Ok(Apart::new(cursor.alloc(), value)?)
}

#[tactic(auto, unfolding(crate::specs::Shapes::two_fields, text_codec::specs::Fields::always, text_codec::specs::Fields::no_more))]
pub(crate) fn two_behind(cursor: &mut Cursor) -> Result<(Ref, (Ref, ())), Unread>
    ensures { Answers shapes.two_fields.body.read cursor.old result cursor.new }
{
    let session = item(cursor)?;
    let other = item(cursor)?;
    Ok((session, (other, ())))
}

/// Reads how long a wait lasts: a number of seconds, or `infinite`.
#[tactic(auto, unfolding(crate::specs::Shapes::timeout_form, text_codec::specs::Formats::mapped, text_codec::specs::Formats::or_else))]
pub(crate) fn timeout_at(cursor: &mut Cursor) -> Result<Timeout, Unread>
    ensures { Answers shapes.timeout_form.read cursor.old result cursor.new }
{
    if cursor.skip(b"infinite") {
        return Ok(Timeout::Infinite);
    }
    let seconds = cursor.u64()?;
    Ok(Timeout::Seconds(seconds))
}

/// Reads a reservation, which may be left out, and is to lie apart.
fn reserved_behind(cursor: &mut Cursor) -> Result<Option<Apart<Ref>>, Unread>
    ensures { Answers (read_set (codes " reserved ") reference.read) cursor.old result cursor.new }
{
    match read_set(cursor, b" reserved ")? {
        Some(reserved) => Ok(Some(Apart::new(cursor.alloc(), reserved)?)),
        None => Ok(None),
    }
}

#[tactic(auto, unfolding(crate::specs::Shapes::ran_fields, text_codec::specs::Fields::always, text_codec::specs::Fields::field, text_codec::specs::Fields::no_more))]
pub(crate) fn ran_behind(cursor: &mut Cursor) -> Result<Ran, Unread>
    ensures { Answers shapes.ran_fields.body.read cursor.old result cursor.new }
{
    let session = item(cursor)?;
    let template = name_item(cursor)?;
    let reserved = reserved_behind(cursor)?;
    Ok((session, (template, (reserved, ()))))
}

/// Reads how many may hold slots at once: a number, or `-` for any.
#[tactic(auto, unfolding(crate::specs::Shapes::bound_form, text_codec::specs::Formats::or_else))]
fn bound_at(cursor: &mut Cursor) -> Result<Option<u32>, Unread>
    ensures { Answers shapes.bound_form.read cursor.old result cursor.new }
{
    if cursor.skip(b"-") {
        return Ok(None);
    }
    let bound = cursor.u32()?;
    Ok(Some(bound))
}

#[tactic(auto, unfolding(crate::specs::Shapes::index_fields, text_codec::specs::Fields::always, text_codec::specs::Fields::field, text_codec::specs::Fields::no_more))]
fn index_behind(cursor: &mut Cursor) -> Result<Indexed, Unread>
    ensures { Answers shapes.index_fields.body.read cursor.old result cursor.new }
{
    let begin = item(cursor)?;
    let end = item(cursor)?;
    let step = item(cursor)?;
    cursor.expect(b" ")?;
    let bound = bound_at(cursor)?;
    let reserved = Apart::new(cursor.alloc(), read_set(cursor, b" reserved ")?)?;
    Ok((begin, (end, (step, (bound, (reserved, ()))))))
}

#[tactic(auto, unfolding(crate::specs::Shapes::member_fields, text_codec::specs::Fields::always))]
pub(crate) fn members_behind(cursor: &mut Cursor) -> Result<Members, Unread>
    ensures { Answers shapes.member_fields.body.read cursor.old result cursor.new }
{
    let session = item_apart(cursor)?;
    let template = name_item(cursor)?;
    let indexed = index_behind(cursor)?;
    Ok((session, (template, indexed)))
}
