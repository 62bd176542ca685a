//! How it is said what is wrong, and how words of a script are shown.
ghost use Rattle.std.specs.Prelude.{◌≡◌, IfOk, true, string_bytes};
ghost use Rattle.std.specs.List.{list_all};
ghost use Rattle.text_codec.specs.Lexical.{no_feed};

use std::alloc::{AllocError, Global};

/// What is wrong with a line, or with some of its words.
#[derive(Drop)]
pub(crate) enum Wrong {
    /// This is said of it.
    Advice(String),
    /// Memory ran out before it was said.
    OutOfMemory,
}

/// Nothing, or what is wrong.
pub(crate) type Checked = Result<(), Wrong>;

impl From<AllocError> for Wrong {
    fn from(_: AllocError) -> Wrong {
        Wrong::OutOfMemory
    }
}

impl Wrong {
    /// With this text, if memory was left to write it.
    pub(crate) fn written(text: Result<String, AllocError>) -> Wrong {
        match text {
            Ok(text) => Wrong::Advice(text),
            Err(_) => Wrong::OutOfMemory,
        }
    }

    /// With these words.
    pub(crate) fn said(alloc: Global, words: &str) -> Wrong {
        Wrong::written(String::from_str(alloc, words))
    }

    /// With a word in a sentence: what stands before it, and behind it.
    pub(crate) fn around(alloc: Global, before: &str, word: &str, behind: &str) -> Wrong {
        Wrong::written(sentence(alloc, before, word, behind))
    }

    /// With a word at the front of a sentence.
    pub(crate) fn of(alloc: Global, word: &str, behind: &str) -> Wrong {
        Wrong::around(alloc, "", word, behind)
    }

    /// With a word at the front of a sentence, if memory was left to write what stands behind it.
    pub(crate) fn of_written(
        alloc: Global,
        word: &str,
        behind: Result<String, AllocError>,
    ) -> Wrong {
        match behind {
            Ok(behind) => Wrong::of(alloc, word, behind.as_str()),
            Err(_) => Wrong::OutOfMemory,
        }
    }
}

/// Nothing where a word passes a test; else what is said of it.
pub(crate) fn wrong_unless(alloc: Global, word: &str, passes: bool, behind: &str) -> Checked {
    if passes {
        Ok(())
    } else {
        Err(Wrong::of(alloc, word, behind))
    }
}

/// The greatest number of characters of a word that are shown.
const WIDTH: usize = 40;

/// The first characters of a word that has more than are shown.
fn front_of(word: &str) -> Option<&str> {
    let (end, _) = word.char_indices().nth(WIDTH)?;
    let (front, _) = word.split_at_checked(end)?;
    Some(front)
}

/// Writes a word as it is shown: its first characters in backquotes.
fn push_shown(out: &mut String, word: &str) -> Result<(), AllocError> {
    out.push_str("`")?;
    match front_of(word) {
        Some(front) => {
            out.push_str(front)?;
            out.push_str("..`")
        }
        None => {
            out.push_str(word)?;
            out.push_str("`")
        }
    }
}

/// A word as it is shown, with what stands before it and behind it.
fn sentence(alloc: Global, before: &str, word: &str, behind: &str) -> Result<String, AllocError> {
    let mut out = String::from_str(alloc, before)?;
    push_shown(&mut out, word)?;
    out.push_str(behind)?;
    Ok(out)
}

/// A word as it is shown.
pub(crate) fn shown(alloc: Global, word: &str) -> Result<String, AllocError> {
    sentence(alloc, "", word, "")
}

/// The byte, or a question mark in place of a control character.
fn visible(byte: u8) -> u8
    ensures { no_feed result ≡ true }
{
    if byte < 32 || byte == 127 { b'?' } else { byte }
}

/// A text with a question mark in place of each control character, so that it is one line.
pub(crate) fn one_line(alloc: Global, text: &str) -> Result<String, AllocError>
    ensures { IfOk result (λ line. list_all no_feed (string_bytes line) ≡ true) }
{
    let mut out = Vec::new(alloc);
    for byte in text.as_bytes() {
        out.push(visible(*byte))?;
    }
    match String::from_utf8(out) {
        Ok(line) => Ok(line),
        Err(_) => Ok(String::new(alloc)),
    }
}
