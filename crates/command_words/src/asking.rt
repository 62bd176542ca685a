//! Asks `clap` which command the words name.
ghost use Rattle.std.specs.Prelude.{◌≡◌, [], map, true, IfOk, MatchOption, Ok, None};
ghost use Rattle.std.specs.List.{list_any};
ghost use Rattle.clap.specs.Words.{subcommand_rows_of};
ghost use Rattle.command_words.specs.Commands as commands;
ghost use Rattle.command_words.specs.Commands.{AsksFor, Finds, IsPlain, NamesNone};
ghost use Rattle.command_words.specs.Grammar.{words_in};

use crate::commands::Command;
use crate::grammar::{VALUES, program};
use crate::reading::read_command;
use clap::ArgMatches;
use clap::error::ErrorKind;
use drmaa_types::{Text, TextList};
use std::alloc::{AllocError, Global};

/// Whether a word begins with `-`.
fn begins_dash(word: &str) -> bool
    ensures { result ≡ commands.begins_dash word.now }
{
    match word.as_bytes() {
        [first, ..] => *first == b'-',
        [] => false,
    }
}

/// Whether one of the words begins with `-`.
fn has_dash(words: &[Text]) -> bool
    ensures { result ≡ list_any commands.begins_dash words.now }
{
    words.iter().any(|word| begins_dash(word.as_str()))
}

/// The words, lent.
fn lent<'a>(alloc: Global, words: &'a [Text]) -> Result<Vec<&'a str>, AllocError>
    ensures { IfOk result (λ lent. map (λ w. w.now) lent.items ≡ words.entry.now) }
{
    let mut lent = Vec::with_capacity(alloc, words.len())?;
    for word in words {
        lent.push(word.as_str())?;
    }
    Ok(lent)
}

/// The command in matches of words of which none begins with `-`.
fn command_in(alloc: Global, matches: &ArgMatches<'_>) -> Result<Option<Command>, AllocError>
    requires { IsPlain (words_in (subcommand_rows_of matches.now)) }
    ensures { IfOk result (Finds (AsksFor (words_in (subcommand_rows_of matches.now)))) }
{
    match matches.subcommand() {
        Some((name, found)) => match found.get_strs(VALUES) {
            Some(values) => read_command(alloc, name, values),
            None => read_command(alloc, name, &[]),
        },
        None => Ok(None),
    }
}

/// The command that `clap` finds in words of which none begins with `-`.
fn asked<'a>(alloc: Global, words: &'a [&'a str]) -> Result<Option<Command>, AllocError>
    requires { IsPlain (map (λ w. w.now) words.now) }
    ensures { IfOk result (Finds (AsksFor (map (λ w. w.now) words.entry.now))) }
{
    let program = program(alloc)?;
    match program.try_get_matches_from(words) {
        Ok(matches) => command_in(alloc, &matches),
        Err(error) => match error.kind() {
            ErrorKind::OutOfMemory => Err(AllocError),
            _ => Ok(None),
        },
    }
}

/// The command that the words ask for, or None where they ask for none. Words of which one begins with `-`, and no words at all, are
/// no command whatever memory there is; else it may want memory.
#[tactic(auto, using(crate::proofs::Dashes::asked_plain))]
pub fn command_of(alloc: Global, words: &TextList) -> Result<Option<Command>, AllocError>
    ensures named { IfOk result (λ o. MatchOption o (NamesNone words.now) (AsksFor words.now)) }
    ensures dashed { list_any commands.begins_dash words.now ≡ true → result ≡ Ok None }
    ensures wordless { words.now ≡ [] → result ≡ Ok None }
{
    let words = words.as_slice();
    if words.is_empty() || has_dash(words) {
        return Ok(None);
    }
    let lent = lent(alloc, words)?;
    asked(alloc, lent.as_slice())
}
