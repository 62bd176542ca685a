//! The program `drmaa_view`: reads a journal of `drmaa`, and shows its jobs, their runs, a chart of these, or why jobs wait; or commands
//! for a shell, one a line, and writes the script for `drmaa threads` that runs them; or a script, and writes what may be amiss with it.
#![tactic(auto)]

use batch_command::{machine_of, run_batch};
use byte_streams::{StdSink, StdSource};
use drmaa_types::{Text, TextList};
use lint_command::{asks_for_lint, run_lint};
use std::fmt::Display;
use std::process::ExitCode;
use std::{env, io};
use view_commands::{Outcome, Status, Verdict, run};

/// The words behind the program's name.
fn words(rt: &HostRuntime) -> Result<TextList, io::Error> {
    let mut words = Vec::new(rt.alloc());
    for word in env::args(rt)?.skip(1) {
        words.push(Text::from_string(word))?;
    }
    Ok(TextList::from_vec(words))
}

/// The status where the words could not be taken: one that is not UTF-8 is part of no command.
fn word_status(error: &io::Error) -> Status {
    if error.kind() == io::ErrorKind::OutOfMemory {
        Status::Memory
    } else {
        Status::Words
    }
}

/// The end with this status, which says nothing of jobs.
fn plain(status: Status) -> Outcome {
    Outcome {
        status,
        verdict: Verdict::AllEnded,
    }
}

/// A script of commands, or else a view of a journal.
fn run_words(rt: &HostRuntime, words: &TextList) -> Outcome {
    let mut source = StdSource::new(rt.stdin());
    let mut sink = StdSink::new(rt.stdout());
    match machine_of(rt.alloc(), words) {
        Ok(Some(machine)) => plain(run_batch(rt.alloc(), machine, &mut source, &mut sink)),
        Ok(None) => run(rt.alloc(), words, &mut source, &mut sink),
        Err(_) => plain(Status::Memory),
    }
}

/// Ends with this number, and says so on standard error where it is not 0. Where that takes nothing, the number alone has to tell.
fn end_with(rt: &HostRuntime, number: u8, said: impl Display + Drop) -> ExitCode {
    if number != 0 {
        let _ = eprintln!(rt; "drmaa_view: {said}");
    }
    ExitCode::from(number)
}

/// What may be amiss with a script.
fn lint(rt: &HostRuntime) -> ExitCode {
    let mut source = StdSource::new(rt.stdin());
    let mut sink = StdSink::new(rt.stdout());
    let outcome = run_lint(rt.alloc(), &mut source, &mut sink);
    end_with(rt, outcome.number(), outcome)
}

fn main(rt: HostRuntime) -> ExitCode {
    let outcome = match words(&rt) {
        Ok(words) if asks_for_lint(&words) => return lint(&rt),
        Ok(words) => run_words(&rt, &words),
        Err(error) => plain(word_status(&error)),
    };
    end_with(&rt, outcome.number(), outcome)
}
