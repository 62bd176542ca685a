//! Lines outside of blocks.
use crate::arguments::{check_arguments, too_many};
use crate::nearest::unknown;
use crate::references::Scope;
use crate::showing::{Checked, Wrong};
use crate::usages::{MACHINE, QUEUE, TEMPLATE};
use crate::words::{Among, is_field};
use script_lines::line_word_of;
use script_text::Script;
use std::alloc::Global;

/// The greatest number of clients.
const MOST_CLIENTS: usize = 32;

/// Checks the first line.
pub(crate) fn check_start(alloc: Global, first: &str, rest: &[&str]) -> Checked {
    if first != "machine" {
        return Err(Wrong::of(
            alloc,
            first,
            " stands where the first line has to: `machine SLOTS TEXT suspend` or `machine SLOTS TEXT nosuspend`",
        ));
    }
    let nothing = Scope {
        script: None,
        block: None,
    };
    check_arguments(alloc, &nothing, first, MACHINE, rest)
}

/// Whether no block but templates was read.
fn is_early(script: &Script) -> bool {
    script.setup.is_none() && script.clients.as_slice().is_empty()
}

/// What is wrong with a queue's line that has what a queue's line has.
fn wrong_queue(alloc: Global, script: &Script) -> Wrong {
    let slots = script.config.slots;
    Wrong::written(format!(in alloc;
        "the machine can't have this queue: there are at most 16, each with a name of its own and a limit from 1 to the {slots} slots"
    ))
}

/// Checks a queue's line.
fn check_queue(alloc: Global, script: &Script, in_front: bool, rest: &[&str]) -> Checked {
    if !in_front {
        return Err(Wrong::said(alloc, "a queue stands before the first block"));
    }
    let scope = Scope {
        script: Some(script),
        block: None,
    };
    check_arguments(alloc, &scope, "queue", QUEUE, rest)?;
    Err(wrong_queue(alloc, script))
}

/// Checks the first line of a template.
fn check_template(alloc: Global, script: &Script, first: &str, rest: &[&str]) -> Checked {
    if !is_early(script) {
        return Err(Wrong::said(
            alloc,
            "a template stands before the setup block and the clients",
        ));
    }
    let scope = Scope {
        script: Some(script),
        block: None,
    };
    check_arguments(alloc, &scope, first, TEMPLATE, rest)
}

/// Checks that the setup block or a client may begin.
fn check_open(alloc: Global, script: &Script, first: &str) -> Checked {
    let (is_open, words) = if first == "setup" {
        (
            is_early(script),
            "the setup block stands once, and before the clients",
        )
    } else {
        (
            script.clients.as_slice().len() < MOST_CLIENTS,
            "a script has at most 32 clients",
        )
    };
    if is_open {
        Ok(())
    } else {
        Err(Wrong::said(alloc, words))
    }
}

/// Checks the first line of the setup block or of a client.
fn check_block(alloc: Global, script: &Script, first: &str, rest: &[&str]) -> Checked {
    match rest {
        [] => check_open(alloc, script, first),
        [extra, ..] => Err(too_many(alloc, first, &[], extra)),
    }
}

/// What is wrong with a word that begins no line outside of blocks.
fn wrong_word(alloc: Global, first: &str) -> Wrong {
    if first == "machine" {
        Wrong::said(alloc, "the machine line stands once, as the first line")
    } else if first == "end" {
        Wrong::said(alloc, "no block is open that `end` could end")
    } else if line_word_of(first.as_bytes()).is_some() {
        Wrong::of(
            alloc,
            first,
            " stands in the block of `setup` or `client`, and none is open here",
        )
    } else if is_field(first) {
        Wrong::of(
            alloc,
            first,
            " stands in the block of a template, and none is open here",
        )
    } else {
        unknown(alloc, Among::Heads, first)
    }
}

/// Checks a line outside of blocks; `in_front` where none was begun.
pub(crate) fn check_head(
    alloc: Global,
    script: &Script,
    in_front: bool,
    first: &str,
    rest: &[&str],
) -> Checked {
    match first {
        "queue" => check_queue(alloc, script, in_front, rest),
        "template" | "rtemplate" => check_template(alloc, script, first, rest),
        "setup" | "client" => check_block(alloc, script, first, rest),
        _ => Err(wrong_word(alloc, first)),
    }
}
