//! Lines and their words, and how they are laid out.
ghost use Rattle.std.specs.Prelude.{◌≤◌, length};

use crate::showing::{Checked, Wrong};
use std::alloc::{AllocError, Global};

/// How many bytes stand before the first blank that is in no text.
fn word_len(bytes: &[u8]) -> usize
    ensures { result ≤ length bytes.now }
{
    let mut in_text = false;
    let mut is_escaped = false;
    for (i, byte) in bytes.iter().enumerate() {
        match *byte {
            _ if is_escaped => is_escaped = false,
            b'\\' if in_text => is_escaped = true,
            b'"' => in_text = !in_text,
            b' ' if !in_text => return i,
            _ => {}
        }
    }
    bytes.len()
}

/// The words of a line: what stands between blanks that are in no text. Where two blanks stand together, or one at an end, a word
/// is empty.
pub(crate) fn words_of(alloc: Global, line: &str) -> Result<Vec<&str>, AllocError> {
    let mut words = Vec::new(alloc);
    let mut rest = line.as_bytes();
    loop {
        let (word, behind) = rest.split_at(word_len(rest));
        words.push(std::str::from_utf8(word).unwrap_or(""))?;
        match behind.split_first() {
            Some((_, more)) => rest = more,
            None => return Ok(words),
        }
    }
}

/// Whether a line with these words begins with blanks.
fn is_indented(words: &[&str]) -> bool {
    match words {
        [first, ..] => first.is_empty() || first.starts_with('\t'),
        [] => false,
    }
}

/// Whether a word has a tab, and no text.
fn has_tab(word: &str) -> bool {
    word.as_bytes().contains(&b'\t') && !word.as_bytes().contains(&b'"')
}

/// Checks that no word has a tab in place of a blank.
fn check_tabs(alloc: Global, words: &[&str]) -> Checked {
    for word in words {
        if has_tab(word) {
            return Err(Wrong::around(
                alloc,
                "a tab stands in ",
                word,
                ", where one blank has to stand",
            ));
        }
    }
    Ok(())
}

/// What is said of the blanks around the words of a line, where they are amiss.
fn misplaced(line: &str, words: &[&str]) -> Option<&'static str> {
    if line.ends_with('\r') {
        return Some("a carriage return stands at its end: a line ends with a line feed alone");
    }
    if is_indented(words) {
        return Some("it is indented: a line begins with its word");
    }
    match words {
        [.., ""] => Some("a blank stands at its end"),
        words if words.contains(&"") => Some("two blanks stand where one has to stand"),
        _ => None,
    }
}

/// Checks how a line is laid out that has these words.
pub(crate) fn check_layout(alloc: Global, line: &str, words: &[&str]) -> Checked {
    match misplaced(line, words) {
        Some(said) => Err(Wrong::said(alloc, said)),
        None => check_tabs(alloc, words),
    }
}
