//! Lines, by what the reader of scripts has read before them.
use crate::arguments::check_arguments;
use crate::heads::{check_head, check_start};
use crate::items::Item;
use crate::nearest::unknown;
use crate::references::Scope;
use crate::showing::{Checked, Wrong};
use crate::usages::{is_serial, is_wait, items_of, items_of_job_field, items_of_reservation_field};
use crate::words::{Among, is_field, is_head, job_field_of, reservation_field_of};
use job_template::ReservationTemplate;
use script_lines::{
    Draft, LineWord, is_reservation_set, is_set, line_word_of, read_job_field,
    read_reservation_field,
};
use script_text::{Mode, Reader};
use std::alloc::{AllocError, Global};
use text_codec::Unread;
use text_lines::{LineReader, Skipping};

/// What the reader of scripts has read of the first lines. None where they begin no script.
pub(crate) fn read_before(
    alloc: Global,
    mode: Mode,
    text: &str,
    count: usize,
) -> Result<Option<Reader>, AllocError> {
    let mut reader = Skipping {
        reader: Reader::Start { mode },
    };
    for line in text.split('\n').take(count) {
        match reader.next(alloc, line.as_bytes()) {
            Ok(next) => reader = next,
            Err(Unread::Unspelled) => return Ok(None),
            Err(Unread::OutOfMemory) => return Err(AllocError),
        }
    }
    let Skipping { reader } = reader;
    Ok(Some(reader))
}

/// A line of which something is wrong.
#[derive(Clone, Copy)]
pub(crate) struct BadLine<'a> {
    pub(crate) line: &'a str,
    /// Its first word.
    pub(crate) first: &'a str,
    /// The words behind it.
    pub(crate) rest: &'a [&'a str],
    /// The number of the last line before it that begins a block.
    pub(crate) head: u64,
    /// The line that a script for one thread can't have, where it stands before this one.
    pub(crate) not_serial: Option<u64>,
}

/// What is wrong where a block is not ended.
pub(crate) fn unended(alloc: Global, head: u64) -> Wrong {
    Wrong::written(format!(in alloc; "`end` is missing: the block of line {head} is not ended"))
}

/// What is wrong with a word that no line of a block has.
fn wrong_word(alloc: Global, bad: &BadLine, among: Among) -> Wrong {
    let first = bad.first;
    if first == "end" {
        return Wrong::said(alloc, "nothing stands behind `end`");
    }
    if is_head(first) {
        return unended(alloc, bad.head);
    }
    match among {
        Among::Lines if is_field(first) => Wrong::of(
            alloc,
            first,
            " is a line of a template, and this is no template",
        ),
        Among::JobFields | Among::ReservationFields if line_word_of(first.as_bytes()).is_some() => {
            Wrong::of(alloc, first, " is no line of a template")
        }
        _ => unknown(alloc, among, first),
    }
}

/// What is wrong with a line of a template that sets what was set.
fn set_twice(alloc: Global, first: &str) -> Wrong {
    Wrong::of(alloc, first, " stands in this template already")
}

/// Checks what stands behind the word of a template's line.
fn check_field(alloc: Global, bad: &BadLine, items: &[Item]) -> Checked {
    let nothing = Scope {
        script: None,
        block: None,
    };
    check_arguments(alloc, &nothing, bad.first, items, bad.rest)
}

/// Whether a line of a job's template sets what was set.
fn sets_again(alloc: Global, draft: &Draft, line: &str) -> bool {
    match read_job_field(alloc, line.as_bytes()) {
        Ok(field) => {
            let is_again = is_set(draft, &field);
            drop(field);
            is_again
        }
        Err(_) => false,
    }
}

/// Checks a line of a job's template.
fn check_job_field(alloc: Global, draft: &Draft, bad: &BadLine) -> Checked {
    let Some(word) = job_field_of(bad.first) else {
        return Err(wrong_word(alloc, bad, Among::JobFields));
    };
    if sets_again(alloc, draft, bad.line) {
        return Err(set_twice(alloc, bad.first));
    }
    check_field(alloc, bad, items_of_job_field(word))
}

/// Whether a line of a reservation's template sets what was set.
fn sets_reservation_again(alloc: Global, template: &ReservationTemplate, line: &str) -> bool {
    match read_reservation_field(alloc, line.as_bytes()) {
        Ok(field) => {
            let is_again = is_reservation_set(template, &field);
            drop(field);
            is_again
        }
        Err(_) => false,
    }
}

/// Checks a line of a reservation's template.
fn check_reservation_field(
    alloc: Global,
    template: &ReservationTemplate,
    bad: &BadLine,
) -> Checked {
    let Some(word) = reservation_field_of(bad.first) else {
        return Err(wrong_word(alloc, bad, Among::ReservationFields));
    };
    if sets_reservation_again(alloc, template, bad.line) {
        return Err(set_twice(alloc, bad.first));
    }
    check_field(alloc, bad, items_of_reservation_field(word))
}

/// What is wrong with a line that stands in a script for one thread alone.
fn not_for_threads(alloc: Global, bad: &BadLine) -> Wrong {
    match bad.not_serial {
        Some(line) => Wrong::of_written(
            alloc,
            bad.first,
            format!(in alloc;
                " stands in a script for one thread alone, and line {line} in one for threads"
            ),
        ),
        None => Wrong::of(alloc, bad.first, " stands in a script for one thread alone"),
    }
}

/// Checks that a line belongs in this kind of script, and in this block.
fn check_place(
    alloc: Global,
    mode: Mode,
    in_setup: bool,
    word: LineWord,
    bad: &BadLine,
) -> Checked {
    if is_wait(word) && in_setup {
        return Err(Wrong::of(
            alloc,
            bad.first,
            " stands in the block of a client alone: the setup block waits for nobody",
        ));
    }
    match mode {
        Mode::Serial => match bad.rest {
            [_, "infinite", ..] if is_wait(word) => Err(Wrong::said(
                alloc,
                "a wait without end stands in a script for threads alone",
            )),
            _ => Ok(()),
        },
        Mode::Threads if is_serial(word) => Err(not_for_threads(alloc, bad)),
        Mode::Threads if !in_setup && matches!(word, LineWord::Register) => Err(Wrong::of(
            alloc,
            bad.first,
            " stands in the setup block of a script for threads",
        )),
        Mode::Threads => Ok(()),
    }
}

/// Checks a line of the setup block or of a client.
fn check_line(alloc: Global, mode: Mode, in_setup: bool, scope: &Scope, bad: &BadLine) -> Checked {
    let Some(word) = line_word_of(bad.first.as_bytes()) else {
        return Err(wrong_word(alloc, bad, Among::Lines));
    };
    check_place(alloc, mode, in_setup, word, bad)?;
    check_arguments(alloc, scope, bad.first, items_of(word), bad.rest)
}

/// Checks a line, where this was read before it.
pub(crate) fn check_behind(alloc: Global, reader: &Reader, bad: &BadLine) -> Checked {
    match reader {
        Reader::Start { .. } => check_start(alloc, bad.first, bad.rest),
        Reader::Queueing { script, .. } => {
            check_head(alloc, script.get(), true, bad.first, bad.rest)
        }
        Reader::Top { script, .. } => check_head(alloc, script.get(), false, bad.first, bad.rest),
        Reader::Filling { draft, .. } => check_job_field(alloc, draft.get(), bad),
        Reader::Reserving { template, .. } => check_reservation_field(alloc, template.get(), bad),
        Reader::Asking {
            mode,
            script,
            block,
            in_setup,
        } => {
            let scope = Scope {
                script: Some(script.get()),
                block: Some(block),
            };
            check_line(alloc, *mode, *in_setup, &scope, bad)
        }
    }
}

/// Checks that a script may end, where this was read.
pub(crate) fn check_end(alloc: Global, reader: &Reader, head: u64) -> Checked {
    match reader {
        Reader::Start { .. } => Err(Wrong::said(
            alloc,
            "the first line is missing: `machine SLOTS TEXT suspend` or `machine SLOTS TEXT nosuspend`",
        )),
        Reader::Queueing { .. } | Reader::Top { .. } => Ok(()),
        Reader::Filling { .. } | Reader::Reserving { .. } | Reader::Asking { .. } => {
            Err(unended(alloc, head))
        }
    }
}
