//! What a line names a session, a job, an array or a reservation by, and how it is read.
ghost use Rattle.std.specs.Prelude.{◌≡◌, ◌^◌, IfOk, option_map};
ghost use Rattle.std.specs.List.{prefix_len};
ghost use Rattle.text_codec.specs.Formats as form;
ghost use Rattle.script_lines.specs.Refs as refs;
ghost use Rattle.script_lines.specs.RefLaws as laws;

use crate::Name;
use std::alloc::{AllocError, Global};
use text_codec::{Cursor, Form, Unread, behind_key, name_of, number_of};

/// What a line names a session, a job, an array or a reservation by.
#[derive(Drop)]
pub enum Ref {
    /// The name that an earlier line binds.
    Bound(Name),
    /// The job with this index of the array that an earlier line binds.
    Member { array: Name, index: u32 },
    /// The number itself, behind `#`.
    Number(u64),
}

/// How many bytes stand before the first dot.
fn dot_place(bytes: &[u8]) -> usize
    ensures { result ≡ prefix_len refs.no_dot bytes.now }
{
    bytes.iter().take_while(|b| **b != b'.').count()
}

/// What stands before the first dot, and behind it.
fn dot_split(bytes: &[u8]) -> Option<(&[u8], &[u8])>
    ensures { option_map (λ p. (p.0.now, p.1.now)) result ≡ refs.at_dot bytes.now }
{
    let (first, behind) = bytes.split_at(dot_place(bytes));
    match behind.split_first() {
        Some((_, rest)) => Some((first, rest)),
        None => None,
    }
}

/// The number below 2^32 that a word spells.
#[tactic(auto, unfolding(text_codec::specs::Formats::number_of))]
fn index_of(word: &[u8]) -> Option<u32>
    ensures { result ≡ form.number_of (2 ^ 32) word.now }
{
    match u32::try_from(number_of(word)?) {
        Ok(index) => Some(index),
        Err(_) => None,
    }
}

/// A reference by number.
fn numbered(digits: &[u8]) -> Option<Ref>
    ensures { result ≡ refs.numbered digits.now }
{
    Some(Ref::Number(number_of(digits)?))
}

/// A reference to the job of an index.
fn member(alloc: Global, array: &[u8], digits: &[u8]) -> Result<Option<Ref>, AllocError>
    ensures { IfOk result (λ r. r ≡ refs.member (array.now, digits.now)) }
{
    let Some(array) = name_of(alloc, array)? else {
        return Ok(None);
    };
    match index_of(digits) {
        Some(index) => {
            let array = Name::new(array);
            Ok(Some(Ref::Member { array, index }))
        }
        None => Ok(None),
    }
}

/// A reference by name.
fn bound_to(alloc: Global, word: &[u8]) -> Result<Option<Ref>, AllocError>
    ensures { IfOk result (λ r. r ≡ refs.bound_to word.now) }
{
    match name_of(alloc, word)? {
        Some(name) => Ok(Some(Ref::Bound(Name::new(name)))),
        None => Ok(None),
    }
}

/// The reference that a word spells.
#[tactic(auto, unfolding(crate::specs::Refs::ref_of))]
fn ref_of(alloc: Global, word: &[u8]) -> Result<Option<Ref>, AllocError>
    ensures { IfOk result (λ r. r ≡ refs.ref_of word.now) }
{
    if let Some(digits) = behind_key(word, b"#") {
        return Ok(numbered(digits));
    }
    match dot_split(word) {
        Some((array, digits)) => member(alloc, array, digits),
        None => bound_to(alloc, word),
    }
}

impl Form for Ref {
    ghost form = { refs.reference };

    ghost laws = { laws.ref_laws };

    #[tactic(auto, unfolding(crate::specs::Refs::reference))]
    fn read(cursor: &mut Cursor) -> Result<Ref, Unread> {
        let alloc = cursor.alloc();
        match ref_of(alloc, cursor.word())? {
            Some(reference) => Ok(reference),
            None => Err(Unread::Unspelled),
        }
    }
}
