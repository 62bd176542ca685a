//! Names and words of capitals: read, and told from other texts.
ghost use Rattle.std.specs.Prelude.{◌≡◌, ◌++◌, IfOk, OnOk};
ghost use Rattle.std.specs.List.{list_all};
ghost use Rattle.text_codec.specs.Words as words;
ghost use Rattle.text_codec.specs.Formats.{Answers};

use crate::{Cursor, Unread};
use drmaa_types::Text;
use std::alloc::{AllocError, Global};

/// Whether a byte is a lower-case letter.
fn is_lower(byte: u8) -> bool
    ensures { result ≡ words.is_lower byte }
{
    b'a' <= byte && byte <= b'z'
}

/// Whether a byte may stand in a name.
fn is_in_name(byte: u8) -> bool
    ensures { result ≡ words.is_in_name byte }
{
    is_lower(byte) || (b'0' <= byte && byte <= b'9') || byte == b'_'
}

/// Whether these bytes may all stand in a name.
fn are_in_name(bytes: &[u8]) -> bool
    ensures { result ≡ list_all words.is_in_name bytes.now }
{
    bytes.iter().all(|b| is_in_name(*b))
}

/// Whether these bytes are a name: a lower-case letter and at most 31 lower-case letters, digits or `_`.
pub fn is_name(word: &[u8]) -> bool
    ensures { result ≡ words.is_name word.now }
{
    match word.split_first() {
        Some((first, rest)) => is_lower(*first) && rest.len() <= 31 && are_in_name(rest),
        None => false,
    }
}

/// Whether a byte is a capital of ASCII, or `_`.
fn is_capital(byte: u8) -> bool
    ensures { result ≡ words.is_capital byte }
{
    (b'A' <= byte && byte <= b'Z') || byte == b'_'
}

/// Whether these bytes are all capitals of ASCII or `_`.
fn are_capitals(bytes: &[u8]) -> bool
    ensures { result ≡ list_all words.is_capital bytes.now }
{
    bytes.iter().all(|b| is_capital(*b))
}

/// Whether these bytes are a word of capitals: at least one, each a capital of ASCII or `_`.
pub fn is_capitals(word: &[u8]) -> bool
    ensures { result ≡ words.is_capitals word.now }
{
    !word.is_empty() && are_capitals(word)
}

/// The text with these bytes.
fn text_of(alloc: Global, word: &str) -> Result<Text, AllocError>
    ensures { IfOk result (λ text. text ≡ word.now) }
{
    Ok(Text::from_string(String::from_str(alloc, word)?))
}

/// The name that these bytes are. None exactly where they are none.
#[tactic(auto, using(crate::specs::WordLaws::name_utf8))]
pub fn name_of(alloc: Global, word: &[u8]) -> Result<Option<Text>, AllocError>
    ensures { IfOk result (λ r. r ≡ words.passing words.is_name word.now) }
{
    if !is_name(word) {
        return Ok(None);
    }
    match std::str::from_utf8(word) {
        Ok(word) => Ok(Some(text_of(alloc, word)?)),
        Err(_) => Ok(None),
    }
}

/// The word of capitals that these bytes are. None exactly where they are none.
#[tactic(auto, using(crate::specs::WordLaws::capitals_utf8))]
pub fn capitals_of(alloc: Global, word: &[u8]) -> Result<Option<Text>, AllocError>
    ensures { IfOk result (λ r. r ≡ words.passing words.is_capitals word.now) }
{
    if !is_capitals(word) {
        return Ok(None);
    }
    match std::str::from_utf8(word) {
        Ok(word) => Ok(Some(text_of(alloc, word)?)),
        Err(_) => Ok(None),
    }
}

/// Reads a name.
#[tactic(auto, unfolding(crate::specs::Words::name))]
pub fn read_name(cursor: &mut Cursor) -> Result<Text, Unread>
    ensures { Answers words.name.read cursor.old result cursor.new }
{
    let alloc = cursor.alloc();
    match name_of(alloc, cursor.word())? {
        Some(name) => Ok(name),
        None => Err(Unread::Unspelled),
    }
}

/// Reads a word of capitals.
#[tactic(auto, unfolding(crate::specs::Words::capitals))]
pub fn read_capitals(cursor: &mut Cursor) -> Result<Text, Unread>
    ensures { Answers words.capitals.read cursor.old result cursor.new }
{
    let alloc = cursor.alloc();
    match capitals_of(alloc, cursor.word())? {
        Some(word) => Ok(word),
        None => Err(Unread::Unspelled),
    }
}

/// Prints a text as it stands, without quotes: a name or a word of capitals.
#[tactic(auto, unfolding(crate::specs::Words::name, crate::specs::Words::capitals))]
pub fn push_word(out: &mut Vec<u8>, word: &Text) -> Result<(), AllocError>
    ensures name { OnOk result (out.new.items ≡ out.old.items ++ words.name.spell word.now) }
    ensures capitals { OnOk result (out.new.items ≡ out.old.items ++ words.capitals.spell word.now) }
{
    out.extend_from_slice(word.as_str().as_bytes())
}
