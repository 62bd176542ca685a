//! Values that have a form: how each is read.
ghost use Rattle.std.specs.Prelude.{◌≡◌, ◌<◌, ◌∷◌, [], ◌^◌, ◌≤◌, ◌++◌, List, ℕ, length, Some, true};
ghost use Rattle.text_codec.specs.Formats.{Format, IsFormat, Answers, Says, read_on, read_line};
ghost use Rattle.text_codec.specs.Formats as form;
ghost use Rattle.text_codec.specs.Fields as fields;
ghost use Rattle.text_codec.specs.Fields.{spaced};

use crate::cursor::push_last;
use crate::{Cursor, Unread};
use drmaa_types::ListOf;
use std::alloc::Global;

/// A value that is read in one form.
pub trait Form: Drop + Sized {
    /// The form.
    ghost form: { Format Self };

    /// Reads one from the front.
    fn read(cursor: &mut Cursor) -> Result<Self, Unread>
        ensures { Answers form.read cursor.old result cursor.new };

    /// What is read was spelled so.
    ghost laws: { IsFormat form };
}

/// Reads values, each behind a key, after those that were read.
fn read_each<T: Form>(cursor: &mut Cursor, key: &[u8], first: Vec<T>) -> Result<ListOf<T>, Unread>
    requires spaced { spaced key.now ≡ true }
    ensures { Answers (read_on key.now T.form.read first.items) cursor.old result cursor.new }
{
    let mut values = first;
    while cursor.skip(key) {
        push_last(&mut values, T::read(cursor)?)?;
    }
    Ok(ListOf::from_vec(values))
}

/// Reads values, each behind a key, as many as there are.
#[tactic(auto, using(crate::proofs::Readers::onto_none))]
pub fn read_all<T: Form>(cursor: &mut Cursor, key: &[u8]) -> Result<ListOf<T>, Unread>
    requires spaced { spaced key.now ≡ true }
    ensures { Answers (form.read_all key.now T.form.read) cursor.old result cursor.new }
{
    let none = Vec::new(cursor.alloc());
    read_each(cursor, key, none)
}

/// Reads a value behind a key, where the key stands there.
pub fn read_set<T: Form>(cursor: &mut Cursor, key: &[u8]) -> Result<Option<T>, Unread>
    ensures { Answers (fields.read_set key.now T.form.read) cursor.old result cursor.new }
{
    if cursor.skip(key) {
        let value = T::read(cursor)?;
        Ok(Some(value))
    } else {
        Ok(None)
    }
}

/// Reads a list in brackets.
#[tactic(auto, unfolding(crate::specs::Formats::list_of))]
pub fn read_list<T: Form>(cursor: &mut Cursor) -> Result<ListOf<T>, Unread>
    ensures { Answers (form.list_of T.form).read cursor.old result cursor.new }
{
    cursor.expect(b"[")?;
    let mut first = Vec::new(cursor.alloc());
    if cursor.skip(b"]") {
        return Ok(ListOf::from_vec(first));
    }
    push_last(&mut first, T::read(cursor)?)?;
    let values = read_each(cursor, b" ", first)?;
    cursor.expect(b"]")?;
    Ok(values)
}

/// Reads the value that a whole line spells.
pub fn read_whole<T: Form>(alloc: Global, line: &[u8]) -> Result<T, Unread>
    ensures { Says (read_line T.form line.now) result }
{
    let mut cursor = Cursor::new(alloc, line);
    let value = T::read(&mut cursor)?;
    cursor.end()?;
    Ok(value)
}
