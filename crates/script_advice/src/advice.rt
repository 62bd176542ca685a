//! What is said of the first bad line of a script.
ghost use Rattle.std.specs.Prelude.{◌≡◌, IfOk, true, string_bytes};
ghost use Rattle.std.specs.List.{list_all};
ghost use Rattle.text_codec.specs.Lexical.{no_feed};

use crate::layout::{check_layout, words_of};
use crate::showing::{Checked, Wrong, one_line};
use crate::states::{BadLine, check_behind, check_end, read_before};
use crate::words::is_head;
use drmaa_types::Text;
use script_text::{Mode, Reader};
use std::alloc::{AllocError, Global};

/// What is said where nothing else is.
const OTHERWISE: &str = "it is not in the grammar";

/// The longest front of the bytes that is UTF-8.
fn readable(bytes: &[u8]) -> &str {
    match bytes.utf8_chunks().next() {
        Some(chunk) => chunk.valid(),
        None => "",
    }
}

/// Whether a line begins a block.
fn begins_block(line: &str) -> bool {
    match line.split(' ').next() {
        Some(first) => first != "queue" && is_head(first),
        None => false,
    }
}

/// The number of the last of the first lines that begins a block; 0 where none does.
fn last_head(text: &str, count: usize) -> u64 {
    let mut head = 0;
    let mut number = 0u64;
    for line in text.split('\n').take(count) {
        number = number.saturating_add(1);
        if begins_block(line) {
            head = number;
        }
    }
    head
}

/// A line in a script: how many lines stand before it, and what a script for one thread can't have before it.
#[derive(Clone, Copy)]
struct Spot {
    mode: Mode,
    before: usize,
    not_serial: Option<u64>,
}

/// Checks a line that has its line feed, and these words.
fn check_words(
    alloc: Global,
    reader: &Reader,
    head: u64,
    spot: Spot,
    line: &str,
    words: &[&str],
) -> Checked {
    check_layout(alloc, line, words)?;
    match words {
        [first, rest @ ..] => {
            let bad = BadLine {
                line,
                first,
                rest,
                head,
                not_serial: spot.not_serial,
            };
            check_behind(alloc, reader, &bad)
        }
        [] => Ok(()),
    }
}

/// Checks a line that has its line feed.
fn check_whole_line(alloc: Global, reader: &Reader, head: u64, spot: Spot, line: &str) -> Checked {
    let words = words_of(alloc, line)?;
    check_words(alloc, reader, head, spot, line, words.as_slice())
}

/// Checks a line, where this was read before it; `is_last` where no line feed stands behind it.
fn check_line_or_end(
    alloc: Global,
    reader: &Reader,
    head: u64,
    spot: Spot,
    line: &str,
    is_last: bool,
) -> Checked {
    if !is_last {
        return check_whole_line(alloc, reader, head, spot, line);
    }
    if line.is_empty() {
        return check_end(alloc, reader, head);
    }
    Err(Wrong::said(alloc, "no line feed stands at its end"))
}

/// Checks what stands behind the last line feed; `whole` where it is the end of the script.
fn check_rest(alloc: Global, whole: bool, is_utf8: bool) -> Checked {
    if !is_utf8 {
        return Err(Wrong::said(alloc, "it is not UTF-8"));
    }
    if !whole {
        return Err(Wrong::said(alloc, "the script has more than 16777216 bytes"));
    }
    Ok(())
}

/// Checks a line of a text; `whole` where the text is all of the script.
fn check_at(alloc: Global, text: &str, whole: bool, is_utf8: bool, spot: Spot) -> Checked {
    let mut lines = text.split('\n').skip(spot.before);
    let Some(line) = lines.next() else {
        return Ok(());
    };
    let is_last = lines.next().is_none();
    if is_last {
        check_rest(alloc, whole, is_utf8)?;
    }
    let head = last_head(text, spot.before);
    match read_before(alloc, spot.mode, text, spot.before)? {
        Some(reader) => {
            let checked = check_line_or_end(alloc, &reader, head, spot, line, is_last);
            drop(reader);
            checked
        }
        None => Ok(()),
    }
}

/// What is said of a line, in one line.
fn advice_of(alloc: Global, checked: Checked) -> Result<String, AllocError>
    ensures { IfOk result (λ line. list_all no_feed (string_bytes line) ≡ true) }
{
    match checked {
        Ok(()) => one_line(alloc, OTHERWISE),
        Err(Wrong::Advice(advice)) => one_line(alloc, advice.as_str()),
        Err(Wrong::OutOfMemory) => Err(AllocError),
    }
}

/// What is said of a script whose first bytes these are, all of them where it is `whole`: of its first bad line, in one line.
/// Numbers of lines count from 1. `serial` is the first line that no script for one thread has there, and `threads` the first that
/// no script for threads has; the later of them is the bad line, and where they are the same, it is judged as of the first kind.
///
/// # Errors
/// `AllocError` where memory is wanted.
pub fn advice_for(
    alloc: Global,
    front: &[u8],
    whole: bool,
    serial: u64,
    threads: u64,
) -> Result<Text, AllocError>
    ensures { IfOk result (λ advice. list_all no_feed advice ≡ true) }
{
    let is_serial = threads <= serial;
    let text = readable(front);
    let spot = Spot {
        mode: if is_serial {
            Mode::Serial
        } else {
            Mode::Threads
        },
        before: serial.max(threads).saturating_sub(1) as usize,
        not_serial: if is_serial { None } else { Some(serial) },
    };
    let checked = check_at(alloc, text, whole, text.len() == front.len(), spot);
    let advice = advice_of(alloc, checked)?;
    Ok(Text::from_string(advice))
}
