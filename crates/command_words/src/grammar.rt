//! The command that `clap` is given: the program, with a subcommand for each of its commands.
ghost use Rattle.std.specs.Prelude.{◌≡◌, IfOk, codes, length};
ghost use Rattle.clap.specs.Simple.{new_shape};
ghost use Rattle.clap.specs.Words.{app_of, new_app, with_subcommand};
ghost use Rattle.command_words.specs.Grammar as grammar;

use clap::{Arg, Command};
use std::alloc::{AllocError, Global};

/// By which name the values behind a command's name are read back.
pub(crate) const VALUES: &str = "values";

/// The values behind `recur`.
static RECUR: [&str; 7] = ["NAME", "UNIT", "N", "COUNT", "MOMENT", "DURATION", "SLOTS"];

/// The values behind `soak`.
static SOAK: [&str; 2] = ["N", "SEED"];

/// The program, with no command yet.
fn start<'a>(alloc: Global) -> Command<'a>
    ensures { app_of result ≡ grammar.settings (new_app (codes "drmaa")) }
{
    Command::new(alloc, "drmaa")
        .no_binary_name(true)
        .disable_help_flag(true)
        .disable_help_subcommand(true)
        .subcommand_required(true)
}

/// With a command of one word.
fn with_word<'a>(
    alloc: Global,
    program: Command<'a>,
    name: &'a str,
) -> Result<Command<'a>, AllocError>
    ensures { IfOk result (λ p. app_of p ≡ with_subcommand (app_of program.entry) (new_shape name.entry.now)) }
{
    program.subcommand(Command::new(alloc, name))
}

/// With a command of its name and a value for each of these, of which there are several.
fn with_values<'a>(
    alloc: Global,
    program: Command<'a>,
    name: &'a str,
    values: &'a [&'a str],
) -> Result<Command<'a>, AllocError>
    ensures { IfOk result (λ p. app_of p
        ≡ with_subcommand (app_of program.entry) (grammar.with_values name.entry.now (length values.entry.now))) }
{
    let values = Arg::new(alloc, VALUES).required(true).value_names(values);
    program.subcommand(Command::new(alloc, name).arg(values)?)
}

/// The program with the commands that play a script.
fn plays<'a>(alloc: Global) -> Result<Command<'a>, AllocError>
    ensures { IfOk result (λ p. app_of p ≡ grammar.plays) }
{
    let serial = with_word(alloc, start(alloc), "serial")?;
    let threads = with_word(alloc, serial, "threads")?;
    with_word(alloc, threads, "table")
}

/// The program with the commands of one word.
fn words<'a>(alloc: Global) -> Result<Command<'a>, AllocError>
    ensures { IfOk result (λ p. app_of p ≡ grammar.words) }
{
    let check = with_word(alloc, plays(alloc)?, "check")?;
    let migrate = with_word(alloc, check, "migrate")?;
    let json = with_word(alloc, migrate, "json")?;
    let forecast = with_word(alloc, json, "forecast")?;
    with_word(alloc, forecast, "continue")
}

/// The program with all of its commands.
pub(crate) fn program<'a>(alloc: Global) -> Result<Command<'a>, AllocError>
    ensures { IfOk result (λ p. app_of p ≡ grammar.program) }
{
    let recur = with_values(alloc, words(alloc)?, "recur", &RECUR)?;
    with_values(alloc, recur, "soak", &SOAK)
}
