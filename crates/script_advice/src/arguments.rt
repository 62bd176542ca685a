//! What stands behind the word of a line.
use crate::items::{Item, usage};
use crate::references::{Scope, check_name};
use crate::showing::{Checked, Wrong, wrong_unless};
use crate::values::{check_text, check_value};
use std::alloc::Global;
use text_codec::state_of;

/// Checks one item.
fn check_item(alloc: Global, scope: &Scope, item: Item, word: &str) -> Checked {
    check_value(alloc, item, word)?;
    check_name(alloc, scope, item, word)
}

/// The keys of the items of a filter, in their order.
const KEYS: &[&str] = &[
    "id",
    "name",
    "state",
    "slots",
    "queue",
    "status",
    "wallclock",
    "submitted",
    "dispatched",
    "finished",
];

/// The place of a key in the order of a filter's items.
fn place_of(key: &str) -> Option<usize> {
    KEYS.iter().position(|known| *known == key)
}

/// What an item of a filter has to be, but for a state.
fn item_of(key: &str) -> Item {
    match key {
        "id" => Item::Job,
        "name" | "queue" => Item::Text,
        "status" => Item::Byte,
        "slots" => Item::Number,
        "wallclock" => Item::LongNumber,
        _ => Item::Moment,
    }
}

/// Checks the value of an item of a filter.
fn check_filter_value(alloc: Global, scope: &Scope, word: &str, key: &str, value: &str) -> Checked {
    if key == "state" {
        let is_state = state_of(value.as_bytes()).is_some();
        return wrong_unless(alloc, word, is_state, " names no state, as RUNNING");
    }
    check_item(alloc, scope, item_of(key), value)
}

/// Checks an item of a filter, which may have this place in their order or one behind it. Gives the place behind its own.
fn check_filter(alloc: Global, scope: &Scope, next: usize, word: &str) -> Result<usize, Wrong> {
    let Some((key, value)) = word.split_once('=') else {
        return Err(Wrong::of(alloc, word, " is no item of a filter, as state=RUNNING"));
    };
    let Some(place) = place_of(key) else {
        return Err(Wrong::of(
            alloc,
            word,
            " is no item of a filter: there are id, name, state, slots, queue, status, wallclock, submitted, dispatched and finished",
        ));
    };
    if place < next {
        return Err(Wrong::of(
            alloc,
            word,
            " stands too late: a filter has id, name, state, slots, queue, status, wallclock, submitted, dispatched and finished once each, in this order",
        ));
    }
    check_filter_value(alloc, scope, word, key, value)?;
    Ok(place.saturating_add(1))
}

/// Checks the items of a filter.
fn check_filters(alloc: Global, scope: &Scope, words: &[&str]) -> Checked {
    let mut next = 0;
    for word in words {
        next = check_filter(alloc, scope, next, word)?;
    }
    Ok(())
}

/// Checks the jobs of a wait.
fn check_jobs(alloc: Global, scope: &Scope, words: &[&str]) -> Checked {
    for word in words {
        check_name(alloc, scope, Item::Job, word)?;
    }
    Ok(())
}

/// What is wrong with a word that nothing asks for.
pub(crate) fn too_many(alloc: Global, word: &str, items: &[Item], extra: &str) -> Wrong {
    let form = usage(alloc, " is too much: the line is ", word, items);
    Wrong::of_written(alloc, extra, form)
}

/// What is wrong where words are missing.
fn too_few(alloc: Global, word: &str, items: &[Item]) -> Wrong {
    Wrong::written(usage(alloc, "words are missing: the line is ", word, items))
}

/// Checks what stands behind the word `reserved`.
fn check_reserved(
    alloc: Global,
    scope: &Scope,
    word: &str,
    items: &[Item],
    words: &[&str],
) -> Checked {
    match words {
        [] => Err(too_few(alloc, word, items)),
        [reservation] => check_name(alloc, scope, Item::Reservation, reservation),
        [_, ..] => Err(too_many(alloc, word, items, "reserved")),
    }
}

/// Checks an item that may be left out, where these words stand in its place.
fn check_maybe(
    alloc: Global,
    scope: &Scope,
    word: &str,
    items: &[Item],
    last: Option<Item>,
    words: &[&str],
) -> Checked {
    match (last, words) {
        (_, []) => Ok(()),
        (Some(Item::MaybeText), [text]) => check_text(alloc, text),
        (Some(Item::Reserved), ["reserved", others @ ..]) => {
            check_reserved(alloc, scope, word, items, others)
        }
        (_, [extra, ..]) => Err(too_many(alloc, word, items, extra)),
    }
}

/// Checks the words behind the items that a line has to have.
fn check_last(
    alloc: Global,
    scope: &Scope,
    word: &str,
    items: &[Item],
    last: Option<Item>,
    words: &[&str],
) -> Checked {
    match last {
        Some(Item::Jobs) => check_jobs(alloc, scope, words),
        Some(Item::Filters) => check_filters(alloc, scope, words),
        _ => check_maybe(alloc, scope, word, items, last, words),
    }
}

/// Checks the first words, as these items.
fn check_items(alloc: Global, scope: &Scope, items: &[Item], words: &[&str]) -> Checked {
    for (i, item) in items.iter().enumerate() {
        if let Some(word) = words.get(i) {
            check_item(alloc, scope, *item, word)?;
        }
    }
    Ok(())
}

/// The items that a line has to have, and the last one that may be left out.
fn split_items(items: &[Item]) -> (&[Item], Option<Item>) {
    match items.split_last() {
        Some((last, front)) if last.is_last() => (front, Some(*last)),
        _ => (items, None),
    }
}

/// Checks the words behind the word of a line.
pub(crate) fn check_arguments(
    alloc: Global,
    scope: &Scope,
    word: &str,
    items: &[Item],
    words: &[&str],
) -> Checked {
    let (needed, last) = split_items(items);
    check_items(alloc, scope, needed, words)?;
    if words.len() < needed.len() {
        return Err(too_few(alloc, word, items));
    }
    let rest = &words[needed.len()..];
    check_last(alloc, scope, word, items, last, rest)
}
