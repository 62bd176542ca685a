//! Texts, numbers and other values.
ghost use Rattle.std.specs.Prelude.{◌<◌, ◌≤◌, length, IfOk, IfSome};

use crate::items::Item;
use crate::showing::{Checked, Wrong, wrong_unless};
use std::alloc::Global;
use text_codec::{Cursor, Form, attribute_of, integer_of, is_capitals, kind_of, number_of};
use text_dates::Said;

/// Whether a byte is a digit of an escape.
fn is_digit(byte: u8) -> bool {
    matches!(byte, b'0'..=b'9' | b'a'..=b'f')
}

/// Whether two digits of an escape stand for a control character.
fn is_control(high: u8, low: u8) -> bool {
    is_digit(high) && is_digit(low) && (high < b'2' || (high == b'7' && low == b'f'))
}

/// How many bytes of a text an escape takes that begins there. None where it is none.
fn escape_len(bytes: &[u8]) -> Option<usize>
    ensures { IfSome result (λ len. (0 < len) × (len ≤ length bytes.now)) }
{
    match bytes {
        [b'\\', b'"' | b'\\', ..] => Some(2),
        [b'\\', b'x', high, low, ..] if is_control(*high, *low) => Some(4),
        _ => None,
    }
}

/// What a word is that has to be a text.
#[derive(Clone, Copy)]
enum Quoting {
    /// There is no opening quote.
    Bare,
    /// A text with its closing quote, at the end.
    Whole,
    /// More stands behind the closing quote.
    Behind,
    /// There is no closing quote.
    Open,
    /// A backslash begins no escape.
    BadEscape,
    /// A control character stands for itself.
    Control,
}

/// How many bytes the first character of a text takes, or the first byte of one that takes more; or what the text is, where it ends
/// or goes wrong there.
fn first_len(bytes: &[u8]) -> Result<usize, Quoting>
    ensures { IfOk result (λ len. (0 < len) × (len ≤ length bytes.now)) }
{
    match bytes {
        [] => Err(Quoting::Open),
        [b'"'] => Err(Quoting::Whole),
        [b'"', ..] => Err(Quoting::Behind),
        [b'\\', ..] => match escape_len(bytes) {
            Some(len) => Ok(len),
            None => Err(Quoting::BadEscape),
        },
        [first, ..] if first.is_ascii_control() => Err(Quoting::Control),
        [_, ..] => Ok(1),
    }
}

/// What a text is, by the bytes behind its opening quote.
fn inside(bytes: &[u8]) -> Quoting {
    let mut rest = bytes;
    loop {
        match first_len(rest) {
            Ok(len) => rest = &rest[len..],
            Err(quoting) => return quoting,
        }
    }
}

/// What a word is that has to be a text.
fn quoting_of(word: &str) -> Quoting {
    match word.as_bytes().split_first() {
        Some((b'"', behind)) => inside(behind),
        _ => Quoting::Bare,
    }
}

/// Checks a text.
pub(crate) fn check_text(alloc: Global, word: &str) -> Checked {
    match quoting_of(word) {
        Quoting::Whole => Ok(()),
        Quoting::Bare => Err(Wrong::of(
            alloc,
            word,
            " has no quotes: a text stands between \" and \"",
        )),
        Quoting::Behind => Err(Wrong::around(
            alloc,
            "more stands behind the closing quote in ",
            word,
            "",
        )),
        Quoting::Open => Err(Wrong::around(alloc, "the text ", word, " has no closing quote")),
        Quoting::BadEscape => Err(Wrong::around(
            alloc,
            "a backslash in ",
            word,
            " begins no escape: there are \\\", \\\\, and \\x with two digits of a control character, as \\x0a",
        )),
        Quoting::Control => Err(Wrong::around(
            alloc,
            "a control character stands in ",
            word,
            ": it is written as \\x and two digits, as \\x0a",
        )),
    }
}

/// Whether a word is a text of 1 to 255 bytes.
fn is_short_text(alloc: Global, word: &str) -> bool {
    let mut cursor = Cursor::new(alloc, word.as_bytes());
    match cursor.text() {
        Ok(text) => (1..=255).contains(&text.as_str().len()),
        Err(_) => false,
    }
}

/// Checks the name of a machine or of a queue.
fn check_short_text(alloc: Global, word: &str) -> Checked {
    check_text(alloc, word)?;
    if is_short_text(alloc, word) {
        Ok(())
    } else {
        Err(Wrong::said(alloc, "this name has to have 1 to 255 bytes"))
    }
}

/// Checks a number in a range.
fn check_number(alloc: Global, word: &str, least: u64, greatest: u64) -> Checked {
    match number_of(word.as_bytes()) {
        Some(number) if number < least || number > greatest => Err(Wrong::of_written(
            alloc,
            word,
            format!(in alloc; " is not from {least} to {greatest}"),
        )),
        Some(_) => Ok(()),
        None => Err(Wrong::of_written(
            alloc,
            word,
            format!(in alloc;
                " is no number: digits alone, and no zero before others, up to {greatest}"
            ),
        )),
    }
}

/// What is said of a word that is no moment.
const NO_MOMENT: &str =
    " is no moment: @ and a number of seconds, or a date as 2000-02-29T12:00:00Z";

/// Whether a word is a moment.
fn is_moment(alloc: Global, word: &str) -> bool {
    let mut cursor = Cursor::new(alloc, word.as_bytes());
    match Said::read(&mut cursor) {
        Ok(_) => cursor.is_empty(),
        Err(_) => false,
    }
}

/// Whether a word is what an item has to be that is neither a text nor a number nor a name, and what is said of it if not.
fn test_of(alloc: Global, item: Item, word: &str) -> (bool, &'static str) {
    let bytes = word.as_bytes();
    match item {
        Item::Timeout => (
            word == "infinite" || number_of(bytes).is_some(),
            " is no timeout: a number of seconds, or `infinite`",
        ),
        Item::Moment => (is_moment(alloc, word), NO_MOMENT),
        Item::Beginning => (word == "now" || is_moment(alloc, word), NO_MOMENT),
        Item::Integer => (integer_of(bytes).is_some(), " is no integer of 32 bits"),
        Item::Kind => (
            kind_of(bytes).is_some(),
            " is no signal: it is stop, cont or kill",
        ),
        Item::Limit => (
            is_capitals(bytes),
            " is no word of capitals, as WALLCLOCK_TIME",
        ),
        Item::Attribute => (
            attribute_of(bytes).is_some(),
            " is no attribute that a template has",
        ),
        Item::Suspend => (
            word == "suspend" || word == "nosuspend",
            " is no end of a machine line: it is suspend or nosuspend",
        ),
        _ => (true, ""),
    }
}

/// Checks a value that names nothing.
pub(crate) fn check_value(alloc: Global, item: Item, word: &str) -> Checked {
    match item {
        Item::Text | Item::MaybeText => check_text(alloc, word),
        Item::ShortText => check_short_text(alloc, word),
        Item::Slots => check_number(alloc, word, 1, 65_535),
        Item::Byte => check_number(alloc, word, 0, 255),
        Item::Bound if word == "-" => Ok(()),
        Item::Number | Item::Bound => check_number(alloc, word, 0, 4_294_967_295),
        Item::LongNumber => check_number(alloc, word, 0, u64::MAX),
        _ => {
            let (passes, otherwise) = test_of(alloc, item, word);
            wrong_unless(alloc, word, passes, otherwise)
        }
    }
}
